//! The run of a program's image.

use crate::comparing::Differences;
use crate::image_memory::image_objects;
use crate::outcome::{How, Streams};
use crate::program::Asked;
use fat_code::FatUnit;
use fsc_base::{End, Image, StopCall};
use fsc_core::{CoreNo, image_of};
use rv_run::{Machine, Stop};
use std::alloc::Global;

/// Runs the image of a program.
pub fn by_image(
    alloc: Global,
    units: &[FatUnit],
    asked: &Asked,
    differences: &mut Differences,
) -> Result<(), CoreNo> {
    let image = image_of(alloc, units)?;
    let count = count_in(&image);
    let mut machine = Machine::new(alloc, &image)?;
    drop(image);
    let mut streams = Streams::new(alloc, &asked.given.input)?;
    let bound = asked.given.cost.saturating_add(1).saturating_mul(4096);
    let how = run(&mut machine, bound, &mut streams);
    differences.compare_run("image", &asked.wanted, how, &mut streams)?;
    if !how.is_bound() {
        differences.compare_count("marks", machine.marks(), asked.wanted.away)?;
        let live = image_objects(alloc, &machine, count)?;
        differences.compare_live("image", &live, &asked.wanted)?;
    }
    Ok(())
}

/// Where the number of blocks stands: at the beginning of the second segment.
fn count_in(image: &Image) -> u32 {
    match image.segments.as_slice().get(1) {
        Some(segment) => segment.address,
        None => 0,
    }
}

/// Runs a machine, at most so many instructions.
fn run(machine: &mut Machine, bound: u64, streams: &mut Streams) -> How {
    let room = u64::MAX - machine.count();
    match machine.run(bound.min(room), &mut streams.input, &mut streams.output) {
        Stop::Exit(status) => How::Ended(End::Exit(status)),
        Stop::StopCall {
            kind,
            block,
            offset,
            width,
        } => stopped(StopCall {
            kind,
            block,
            offset,
            width,
        }),
        Stop::Steps => How::Bound,
        Stop::Trap { .. } => How::Fault("trap"),
        Stop::ReadFault => How::Fault("read fault"),
        Stop::WriteFault => How::Fault("write fault"),
        Stop::NoMemory => How::Fault("no memory"),
    }
}

/// The end by which an image stops itself so.
fn stopped(call: StopCall) -> How {
    let end = end_of(call);
    match end.stop_call() {
        Some(other) if other == call => How::Ended(end),
        _ => How::Fault("no such stop"),
    }
}

/// The end of a kind, with its numbers.
fn end_of(call: StopCall) -> End {
    let StopCall {
        kind,
        block,
        offset,
        width,
    } = call;
    match kind {
        1 => End::Access {
            block,
            offset,
            width,
        },
        2 => End::Call { block, offset },
        3 => End::Divide,
        4 => End::Abort,
        5 => End::Blocks,
        6 => End::Depth,
        _ => End::ReadOnly {
            block,
            offset,
            width,
        },
    }
}
