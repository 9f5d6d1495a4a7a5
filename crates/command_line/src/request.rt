//! What words ask for.

use crate::names::Names;
use fsc_base::Name;

/// What the words of a command line ask for, one variant for each command.
#[derive(Debug, Drop)]
pub enum Request {
    /// `build -o IMAGE FILE..`: an image of the files.
    Build {
        image: Name,
        files: Names,
    },
    /// `compile -o UNIT FILE`: a unit of the file.
    Compile {
        unit: Name,
        file: Name,
    },
    /// `link -o IMAGE UNIT..`: an image of the units.
    Link {
        image: Name,
        units: Names,
    },
    /// `run [--steps N] [--stats] IMAGE`: a run of the image, of at most so many instructions.
    Run {
        steps: u64,
        stats: bool,
        image: Name,
    },
    /// `go [--steps N] [--stats] FILE..`: a run of the files' image, of at most so many instructions.
    Go {
        steps: u64,
        stats: bool,
        files: Names,
    },
    /// `mean [--cost K] FILE..`: the meaning of the files' program, up to a cost of at most so much.
    Mean {
        cost: u64,
        files: Names,
    },
    /// `report [--steps N] FILE..`: a run of the files' image, of at most so many instructions, and the objects that are alive at
    /// its end.
    Report {
        steps: u64,
        files: Names,
    },
    /// `demo N`: the demonstration of that number.
    Demo {
        count: u32,
    },
}
