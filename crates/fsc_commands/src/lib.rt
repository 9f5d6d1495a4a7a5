//! The commands over files and streams that are handed in, each from its words' values to its ending.
//!
//! `go` runs the image of the program of C files: one file whose text is that of the first path has its own image, of which more is
//! proved. `build` and `link` write the image of a program, `compile` the file of a unit: the one file that each is to write, once all
//! that stands before has passed. `mean` follows what the program of C files means by the rows of the meaning itself, with no image.
//! `report` runs the image of a program too, and then tells which objects are alive in the memory that the run left.
//! `demo` runs the program of the demonstration on no input, and writes a line that tells how it exited.
#![tactic(auto)]

mod building;
mod c_file;
mod closing;
mod compiling;
mod demonstrating;
mod given;
mod joining;
mod linking;
mod meaning;
mod meant;
mod no_input;
mod own_image;
mod refusal;
mod reporting;
mod units;
mod writing;

pub use building::build_file;
pub use c_file::go;
pub use compiling::compile_file;
pub use demonstrating::demo;
pub use linking::link_files;
pub use meaning::mean;
pub use reporting::report_files;
pub use units::go_units;
