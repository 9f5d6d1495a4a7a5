//! The code of a function.

use crate::height::height_after;
use crate::names::Names;
use crate::op::{Body, emit_op};
use fat_code::{FatEntry, FatFunction, Op};
use rv_asm::{AsmNo, Assembler, Label};
use rv_runtime::Entries;
use rv_templates::{Frame, Site, enter, make_entry};
use std::alloc::Global;

/// A label for an operation, where it is one.
fn label_of(asm: &mut Assembler, op: Op) -> Result<Option<Label>, AsmNo> {
    match op {
        Op::Label(_) => Ok(Some(asm.label()?)),
        _ => Ok(None),
    }
}

/// Adds the label of an operation, or none, to a list.
fn push_label(asm: &mut Assembler, labels: &mut Vec<Option<Label>>, op: Op) -> Result<(), AsmNo> {
    let label = label_of(asm, op)?;
    labels.push(label)?;
    Ok(())
}

/// For each operation a label, where it is one.
fn labels_of(alloc: Global, asm: &mut Assembler, ops: &[Op]) -> Result<Vec<Option<Label>>, AsmNo> {
    let mut labels = Vec::with_capacity(alloc, ops.len())?;
    for op in ops {
        push_label(asm, &mut labels, *op)?;
    }
    Ok(labels)
}

/// What the function's operations depend on. None where it has more than 255 slots or entry blocks.
fn site_of(entries: &Entries, function: &FatFunction) -> Option<Site> {
    Some(Site {
        entries: *entries,
        frame: Frame {
            slots: u8::try_from(function.slots).ok()?,
        },
        is_variadic: function.is_variadic,
        blocks: u8::try_from(function.entries.len()).ok()?,
    })
}

/// Emits the making of an entry block.
fn emit_entry(
    asm: &mut Assembler,
    site: &Site,
    names: &Names,
    entry: FatEntry,
) -> Result<(), AsmNo> {
    match names.shape(entry.shape) {
        None => Err(AsmNo::Misfit),
        Some(place) => make_entry(asm, site, entry.size, place.descriptor),
    }
}

/// Emits the making of the entry blocks, in order.
fn emit_entries(
    asm: &mut Assembler,
    site: &Site,
    names: &Names,
    entries: &[FatEntry],
) -> Result<(), AsmNo> {
    for entry in entries {
        emit_entry(asm, site, names, *entry)?;
    }
    Ok(())
}

/// Emits an operation, and gives how many words are pending after it.
fn emit_next(asm: &mut Assembler, body: &Body, at: usize, height: u8, op: Op) -> Result<u8, AsmNo> {
    let Some(after) = height_after(op, height) else {
        return Err(AsmNo::Misfit);
    };
    let Ok(at) = u32::try_from(at) else {
        return Err(AsmNo::Misfit);
    };
    emit_op(asm, body, at, height, op)?;
    Ok(after)
}

/// Emits the operations of a function. No words are pending before the first.
fn emit_ops(asm: &mut Assembler, body: &Body, ops: &[Op]) -> Result<(), AsmNo> {
    let mut height = 0;
    for (at, op) in ops.iter().enumerate() {
        height = emit_next(asm, body, at, height, *op)?;
    }
    Ok(())
}

/// The number of parameters, where there are slots for them.
fn parameters_of(function: &FatFunction) -> Option<u8> {
    if function.slots < function.parameters {
        return None;
    }
    u8::try_from(function.parameters).ok()
}

/// Emits a function, and gives the address of its code. Refused with `Misfit` where a number in it names nothing, or is above its
/// limit.
pub(crate) fn emit_function(
    alloc: Global,
    asm: &mut Assembler,
    entries: &Entries,
    names: Names,
    function: &FatFunction,
) -> Result<u32, AsmNo> {
    let Some(site) = site_of(entries, function) else {
        return Err(AsmNo::Misfit);
    };
    let Some(parameters) = parameters_of(function) else {
        return Err(AsmNo::Misfit);
    };
    let labels = labels_of(alloc, asm, function.ops.as_slice())?;
    let address = asm.here();
    enter(asm, &site, parameters)?;
    emit_entries(asm, &site, &names, function.entries.as_slice())?;
    let body = Body {
        site,
        names,
        labels: labels.as_slice(),
    };
    emit_ops(asm, &body, function.ops.as_slice())?;
    Ok(address)
}
