//! The operations of a function (C90 6.7.1).

use crate::placing::place_statement;
use crate::statements::statement;
use c_tree::{Entry, EntryOf, TypedFunction, TypedSymbol};
use c_types::{TypeId, TypeNode, TypeTable};
use elab_code::{Around, Emitter, Setting};
use elab_setting::{
    ElaborateNo, LocalPlace, Locals, Places, TypeShapes, bare, count_of, is_record, narrow_type,
    width_of,
};
use fat_code::{FatEntry, FatFunction, Op};
use sqlite_items::Items;
use std::alloc::Global;

/// What the type of a function says: how many parameters stand before those of the text, one where it returns a struct or union;
/// and whether it is variadic.
#[derive(Clone, Copy)]
struct Signature {
    before: u32,
    is_variadic: bool,
}

/// The signature of a function, by the type of its symbol.
fn signature_of(
    types: &TypeTable,
    symbols: &[TypedSymbol],
    symbol: u32,
) -> Result<Signature, ElaborateNo> {
    let Some(symbol) = symbols.get(symbol as usize) else {
        return Err(ElaborateNo::Misfit);
    };
    match bare(types, symbol.kind) {
        TypeNode::Function {
            returns,
            is_variadic,
            ..
        } => Ok(Signature {
            before: if is_record(bare(types, *returns)) {
                1
            } else {
                0
            },
            is_variadic: *is_variadic,
        }),
        _ => Err(ElaborateNo::Misfit),
    }
}

/// Converts the words of the parameters of 1 or 2 bytes in their slots.
fn narrows_parameters(out: &mut Emitter, types: &TypeTable, parameters: &[TypeId]) {
    let mut local = 0u32;
    for kind in parameters {
        narrows_parameter(out, types, local, *kind);
        local = local.saturating_add(1);
    }
}

/// Converts the word of a parameter.
fn narrows_parameter(out: &mut Emitter, types: &TypeTable, local: u32, kind: TypeId) {
    match (out.locals().place(local), narrow_type(bare(types, kind))) {
        (Some(LocalPlace::Slot(slot)), Some((width, is_signed))) => {
            out.narrows_slot(slot, width, is_signed)
        }
        (_, _) => {}
    }
}

/// Fills the entry blocks of the parameters from their slots.
fn fills_entries(
    out: &mut Emitter,
    types: &TypeTable,
    before: u32,
    parameters: u32,
    entries: &[Entry],
) {
    let mut number = 0u32;
    for entry in entries {
        fills_entry(out, types, before, parameters, number, entry);
        number = number.saturating_add(1);
    }
}

/// Fills an entry block, where it is that of a parameter.
fn fills_entry(
    out: &mut Emitter,
    types: &TypeTable,
    before: u32,
    parameters: u32,
    number: u32,
    entry: &Entry,
) {
    match entry.of {
        EntryOf::Local(local) => {
            if local < parameters {
                fills_parameter(out, types, before.saturating_add(local), number, entry);
            }
        }
        EntryOf::Call(_) => {}
    }
}

/// Fills the entry block of a parameter from that slot.
fn fills_parameter(out: &mut Emitter, types: &TypeTable, slot: u32, number: u32, entry: &Entry) {
    if is_record(bare(types, entry.kind)) {
        out.fills_record(slot, number, entry.size);
    } else {
        out.fills(slot, number, entry.kind, width_of(entry.size));
    }
}

/// The operations before the body.
fn entry_ops(
    alloc: Global,
    setting: Setting,
    types: &TypeTable,
    before: u32,
    f: &TypedFunction,
) -> Result<Vec<Op>, ElaborateNo> {
    let Some(parameters) = f.locals.as_slice().get(..f.parameters as usize) else {
        return Err(ElaborateNo::Misfit);
    };
    let mut out = Emitter::new(setting, Vec::new(alloc));
    narrows_parameters(&mut out, types, parameters);
    fills_entries(&mut out, types, before, f.parameters, f.entries.as_slice());
    out.finish()
}

/// Where the labels and cases of the body stand, where it begins there.
fn places_of(
    alloc: Global,
    locals: &Locals,
    at: u32,
    f: &TypedFunction,
) -> Result<Places, ElaborateNo> {
    let mut places = Places::new(alloc, f.labels)?;
    place_statement(&mut places, locals, None, at, &f.body);
    places.finish()
}

/// The operations of the body behind those before it, and of the end: falling off it gives 0.
fn body_ops(setting: Setting, ops: Vec<Op>, f: &TypedFunction) -> Result<Vec<Op>, ElaborateNo> {
    let mut out = Emitter::new(setting, ops);
    let around = Around {
        behind: None,
        turn: None,
    };
    statement(&mut out, f.locals.as_slice(), around, &f.body);
    out.falls_off();
    out.finish()
}

/// All operations.
fn ops_of(
    alloc: Global,
    types: &TypeTable,
    shapes: &TypeShapes,
    before: u32,
    f: &TypedFunction,
) -> Result<Vec<Op>, ElaborateNo> {
    let locals = Locals::of(alloc, before, f)?;
    let nowhere = Places::new(alloc, 0)?;
    let setting = Setting {
        locals: &locals,
        shapes: shapes.of_types.as_slice(),
        places: &nowhere,
    };
    let ops = entry_ops(alloc, setting, types, before, f)?;
    let places = places_of(alloc, &locals, count_of(ops.len()), f)?;
    body_ops(
        Setting {
            places: &places,
            ..setting
        },
        ops,
        f,
    )
}

/// The entry blocks, each with the shape of its type.
fn entries_of(
    alloc: Global,
    shapes: &TypeShapes,
    entries: &[Entry],
) -> Result<Items<FatEntry>, ElaborateNo> {
    let mut made = Items::new(alloc);
    for entry in entries {
        made.push(entry_of(shapes, entry)?)?;
    }
    Ok(made)
}

/// An entry block.
fn entry_of(shapes: &TypeShapes, entry: &Entry) -> Result<FatEntry, ElaborateNo> {
    match shapes.of_types.get(entry.kind as usize) {
        Some(shape) => Ok(FatEntry {
            size: entry.size,
            shape: *shape,
        }),
        None => Err(ElaborateNo::Misfit),
    }
}

/// A function of a unit with these types and symbols. It takes a number of steps that grows as its nodes do, times the depth of
/// its tree at most. Refused with `Misfit` where a number of the function names nothing.
pub fn function(
    alloc: Global,
    types: &TypeTable,
    symbols: &[TypedSymbol],
    shapes: &TypeShapes,
    f: &TypedFunction,
) -> Result<FatFunction, ElaborateNo> {
    let signature = signature_of(types, symbols, f.symbol)?;
    let entries = entries_of(alloc, shapes, f.entries.as_slice())?;
    let ops = ops_of(alloc, types, shapes, signature.before, f)?;
    let slots = signature
        .before
        .saturating_add(count_of(f.locals.len()))
        .saturating_add(2);
    Ok(FatFunction {
        parameters: signature.before.saturating_add(f.parameters),
        slots,
        is_variadic: signature.is_variadic,
        entries,
        ops: Items::from_vec(ops),
    })
}
