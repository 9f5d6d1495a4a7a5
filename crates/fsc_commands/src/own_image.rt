//! The image of the program of the demonstration.

ghost use Rattle.std.specs.Prelude.{ℕ, List, IfOk, IfErr};
ghost use Rattle.fsc_base.specs.Image.{IsSound};
ghost use Rattle.fsc_outside.specs.Calls.{FileCounts};
ghost use Rattle.fsc_front.specs.Refusing.{IsCause};
ghost use Rattle.fsc_core.specs.Refusing.{RefusesFiles, RefusesUnits};

use fsc_base::{Broken, Image, Name, NoMemory, Rule};
use fsc_core::{CoreNo, build, demo_text};
use fsc_outside::MemFiles;
use std::alloc::Global;

/// The one file of the demonstration of that number.
fn own_files(alloc: Global, name: &Name, count: u32) -> Result<MemFiles, NoMemory> {
    let mut pairs = Vec::new(alloc);
    pairs.push((
        Name::from_slice(alloc, name.as_slice())?,
        demo_text(alloc, count)?,
    ))?;
    MemFiles::new(alloc, &pairs, &[])
}

/// A rule that the text of the demonstration breaks. No file is missed there, which K40 would say.
fn own_broken(broken: Broken, file: Name) -> CoreNo
    ensures { (own : FileCounts) → IsCause broken own → RefusesUnits result }
{
    if broken.rule == Rule::K40 {
        return CoreNo::Misfit;
    }
    CoreNo::Broken(broken, file)
}

/// The refusal of the text of the demonstration. Its own file is there and never fails, so that no file is the cause.
fn own_refusal(no: CoreNo) -> CoreNo
    ensures { (names : List (List ℕ)) (own : FileCounts) → RefusesFiles no names own → RefusesUnits result }
{
    match no {
        CoreNo::Broken(broken, file) => own_broken(broken, file),
        CoreNo::Missing(_) => CoreNo::Misfit,
        CoreNo::FileFault(_) => CoreNo::Misfit,
        CoreNo::Link(fault) => CoreNo::Link(fault),
        CoreNo::Misfit => CoreNo::Misfit,
        CoreNo::NoMemory => CoreNo::NoMemory,
    }
}

/// The image of the program of the demonstration of that number, which is sound. Its text is the one file `demo.c`. Refused as `Broken`
/// where the text, or one of the library, breaks a rule, as `Link` where a rule of linking is broken, as `Misfit` and as `NoMemory`.
pub(crate) fn own_image(alloc: Global, count: u32) -> Result<Image, CoreNo>
    ensures sound { IfOk result IsSound }
    ensures refused { IfErr result RefusesUnits }
{
    let name = Name::from_slice(alloc, b"demo.c")?;
    let mut files = own_files(alloc, &name, count)?;
    match build(alloc, &mut files, &[name]) {
        Ok(image) => Ok(image),
        Err(no) => Err(own_refusal(no)),
    }
}
