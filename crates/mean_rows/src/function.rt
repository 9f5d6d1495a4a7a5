//! Rows of functions (C90 6.7.1): entry makes the blocks of the function, in order, and fills those of parameters; then comes the body.

use crate::callee::Callee;
use crate::initialiser::width_of;
use crate::locals::Locals;
use crate::refusal::RowsNo;
use crate::row::{Act, NO_ROW};
use crate::statement::Around;
use crate::translator::Translator;
use c_ops::Primitive;
use c_tree::{Conversion, Entry, EntryOf, TypedFunction, TypedUnit};
use c_types::{Basic, TypeId, TypeNode, TypeTable};
use fsc_base::Width;
use std::alloc::Global;

/// The node of a type without its qualifiers.
fn bare(types: &TypeTable, id: TypeId) -> &TypeNode {
    let mut id = id;
    'qualifiers: for _ in 0..types.len() {
        match types.node(id) {
            TypeNode::Qualified { of, .. } => id = *of,
            _ => return types.node(id),
        }
    }
    types.node(id)
}

fn is_record(node: &TypeNode) -> bool {
    match node {
        TypeNode::Struct(_) | TypeNode::Union(_) => true,
        _ => false,
    }
}

/// How many parameters a function of a type has before those of the text, and whether it takes more words than its parameters.
fn function_form(types: &TypeTable, id: TypeId) -> (u32, bool) {
    match bare(types, id) {
        TypeNode::Function {
            returns,
            is_variadic,
            ..
        } => (u32::from(is_record(bare(types, *returns))), *is_variadic),
        _ => (0, false),
    }
}

/// A parameter takes its word converted to its type (C90 6.3.2.2); a type of 4 bytes keeps it.
fn basic_conversion(basic: Basic) -> Conversion {
    let (width, is_signed) = match basic {
        Basic::Char | Basic::UnsignedChar => (Width::One, false),
        Basic::SignedChar => (Width::One, true),
        Basic::Short => (Width::Two, true),
        Basic::UnsignedShort => (Width::Two, false),
        Basic::Int | Basic::Unsigned | Basic::Long | Basic::UnsignedLong => {
            return Conversion::Keep;
        }
    };
    Conversion::Narrow { width, is_signed }
}

fn conversion_to(types: &TypeTable, id: TypeId) -> Conversion {
    match bare(types, id) {
        TypeNode::Basic(basic) => basic_conversion(*basic),
        _ => Conversion::Keep,
    }
}

/// The conversions of a function's parameters, with that of the address for a struct that it gives.
fn conversions(
    alloc: Global,
    types: &TypeTable,
    before: u32,
    parameters: &[TypeId],
) -> Result<Vec<Conversion>, RowsNo> {
    let mut conversions = Vec::new(alloc);
    if before == 1 {
        conversions.push(Conversion::Keep)?;
    }
    'parameters: for kind in parameters {
        conversions.push(conversion_to(types, *kind))?;
    }
    Ok(conversions)
}

/// How the entry block of a parameter is filled from its slot.
fn fill(types: &TypeTable, slot: u32, number: u32, entry: Entry) -> Act {
    if is_record(bare(types, entry.kind)) {
        Act::FillsRecord {
            slot,
            entry: number,
            size: entry.size,
        }
    } else {
        Act::Fills {
            slot,
            entry: number,
            width: width_of(entry.size),
        }
    }
}

/// Where the entry block with an index is filled from: the slot of a parameter.
fn filled_slot(before: u32, parameters: u32, entry: Entry) -> Option<u32> {
    match entry.of {
        EntryOf::Local(i) => if i < parameters {
            before.checked_add(i)
        } else {
            None
        },
        EntryOf::Call(_) => None,
    }
}

impl Translator<'_> {
    /// The rows of a function of the unit that was entered. Gives how it is called.
    pub fn function(&mut self, u: &TypedUnit, f: &TypedFunction) -> Result<Callee, RowsNo> {
        let Some(symbol) = u.symbols.get(f.symbol as usize) else {
            return Err(RowsNo::Misfit);
        };
        let (before, is_variadic) = function_form(&u.types, symbol.kind);
        self.begin(before, f)?;
        let body = self.body(f)?;
        let filled = self.fills(&u.types, before, f, body)?;
        let made = self.makes(f.entries.as_slice(), filled)?;
        let start = if is_variadic {
            self.push(Act::MakesExtra, made)?
        } else {
            made
        };
        self.callee(
            &u.types,
            f,
            Head {
                start,
                before,
                is_variadic,
            },
        )
    }

    /// The rows of a run's beginning: the word that is there is called without arguments, and the program exits with what that gives
    /// (C90 5.1.2.2.3). Gives their place.
    pub fn start(&mut self) -> Result<u32, RowsNo> {
        let exit = self.push(Act::Performs(Primitive::Exit), NO_ROW)?;
        self.push(Act::Calls(0), exit)
    }

    /// How a function is called.
    fn callee(&self, types: &TypeTable, f: &TypedFunction, head: Head) -> Result<Callee, RowsNo> {
        let locals = f.locals.as_slice();
        let count = f.parameters as usize;
        if locals.len() < count {
            return Err(RowsNo::Misfit);
        }
        let conversions = conversions(self.alloc, types, head.before, &locals[..count])?;
        Ok(Callee {
            start: head.start,
            parameters: added(head.before, count)?,
            slots: added(head.before, locals.len())?,
            is_variadic: head.is_variadic,
            conversions,
        })
    }

    /// Before the rows of a function: its local objects, and a row for each of its labels.
    fn begin(&mut self, before: u32, f: &TypedFunction) -> Result<(), RowsNo> {
        self.locals = Locals::new(self.alloc, before, f.locals.len(), f.entries.as_slice())?;
        self.cases = Vec::new(self.alloc);
        self.first_label = self.len()?;
        self.labels = f.labels;
        'labels: for _ in 0..f.labels {
            self.push(Act::Here, NO_ROW)?;
        }
        Ok(())
    }

    /// The body; falling off its end gives 0 (C90 6.6.6.4).
    fn body(&mut self, f: &TypedFunction) -> Result<u32, RowsNo> {
        let end = self.returns_zero()?;
        self.statement(&f.body, Around::function(), end)
    }

    /// The entry blocks of parameters are filled.
    fn fills(
        &mut self,
        types: &TypeTable,
        before: u32,
        f: &TypedFunction,
        next: u32,
    ) -> Result<u32, RowsNo> {
        let entries = f.entries.as_slice();
        let mut first = next;
        'entries: for i in (0..entries.len()).rev() {
            let entry = entries[i];
            if let Some(slot) = filled_slot(before, f.parameters, entry) {
                first = self.push(fill(types, slot, added(0, i)?, entry), first)?;
            }
        }
        Ok(first)
    }

    /// All entry blocks are made.
    fn makes(&mut self, entries: &[Entry], next: u32) -> Result<u32, RowsNo> {
        let mut first = next;
        'entries: for i in (0..entries.len()).rev() {
            first = self.push(Act::Makes(entries[i].size), first)?;
        }
        Ok(first)
    }
}

/// What a call has to know of a function.
#[derive(Clone, Copy)]
struct Head {
    start: u32,
    before: u32,
    is_variadic: bool,
}

/// A number and so many more.
fn added(first: u32, count: usize) -> Result<u32, RowsNo> {
    match u32::try_from(count) {
        Ok(count) => first.checked_add(count).ok_or(RowsNo::Misfit),
        Err(_) => Err(RowsNo::Misfit),
    }
}
