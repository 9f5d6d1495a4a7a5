//! The list of the objects that are alive.

ghost use Rattle.std.specs.Prelude.{◌<◌, IfOk, OnOk};
ghost use Rattle.block_report.specs.Listing.{Adds, IsReport, ShapeOf};

use crate::live::{Live, LiveShape, Lives};
use crate::memory::{header_at, shape_at, word_at};
use block_header::Header;
use fsc_base::NoMemory;
use rv_run::Machine;
use std::alloc::Global;

/// The shape of an object that has a descriptor of its own. The descriptor's number is its address, and one more where the object
/// is sealed.
fn decided_shape(alloc: Global, machine: &Machine, desc: u32) -> Result<Option<LiveShape>, NoMemory>
    requires { 2 < desc }
    ensures { IfOk result (ShapeOf machine.now desc) }
{
    match shape_at(alloc, machine, u64::from(desc - desc % 2))? {
        Some(kinds) => Ok(Some(LiveShape::Words(kinds))),
        None => Ok(None),
    }
}

/// The shape of the object whose header has this descriptor; None where there is no object: the block is dead or a function, or
/// the number is that of no descriptor. Refused only for want of memory.
fn shape_of(alloc: Global, machine: &Machine, desc: u32) -> Result<Option<LiveShape>, NoMemory>
    ensures { IfOk result (ShapeOf machine.now desc) }
{
    if desc < 2 {
        return Ok(None);
    }
    if desc == 2 {
        return Ok(Some(LiveShape::Undecided));
    }
    decided_shape(alloc, machine, desc)
}

/// Adds a block with this header, if it is an object that is alive.
fn add(
    alloc: Global,
    machine: &Machine,
    lives: &mut Vec<Live>,
    block: u32,
    header: Header,
) -> Result<(), NoMemory>
    ensures { OnOk result (Adds machine.now block header lives.old.items lives.new.items) }
{
    let Some(shape) = shape_of(alloc, machine, header.desc)? else {
        return Ok(());
    };
    lives.push(Live {
        block,
        size: header.size,
        shape,
    })?;
    Ok(())
}

/// The objects that are alive in the memory of a machine, in order of their numbers, where `at` is the address of the word that
/// tells how many blocks were made. The headers are read up to the first that isn't there. Refused only for want of memory.
///
/// Any memory is read, also what no image of the compiler leaves. A header tells of an object that is alive where its first word is 2
/// or the address of a shape's descriptor, or one more.
pub fn report(alloc: Global, machine: &Machine, at: u32) -> Result<Lives, NoMemory>
    ensures { IfOk result (IsReport machine.now at) }
{
    let made = word_at(machine, u64::from(at)).unwrap_or(0);
    let mut lives = Vec::new(alloc);
    for before in 0..made {
        let block = before + 1;
        let Some(header) = header_at(machine, block) else {
            return Ok(Lives::from_vec(lives));
        };
        add(alloc, machine, &mut lives, block, header)?;
    }
    Ok(Lives::from_vec(lives))
}
