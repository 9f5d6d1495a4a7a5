//! What makes rows. A part is made behind what follows it, so that each row knows its next one.

use crate::locals::Locals;
use crate::refusal::RowsNo;
use crate::row::{Act, Row, Spot};
use crate::switch::Case;
use c_tree::{Form, Symbol, TExpr};
use std::alloc::Global;

/// The numbers of the blocks that the symbols of a unit mean, 0 for one without a block, and of those of its objects.
#[derive(Clone, Copy)]
pub struct UnitBlocks<'a> {
    pub symbols: &'a [u32],
    pub objects: &'a [u32],
}

/// The rows of a program so far, and the function that is being added.
#[derive(Drop)]
pub struct Translator<'a> {
    pub(crate) alloc: Global,
    rows: Vec<Row>,
    pub(crate) unit: UnitBlocks<'a>,
    pub(crate) locals: Locals,
    /// The place of the first label of the function, and how many it has.
    pub(crate) first_label: u32,
    pub(crate) labels: u32,
    /// The cases of the switches around, those of the innermost last.
    pub(crate) cases: Vec<Case>,
}

impl<'a> Translator<'a> {
    /// No rows. It takes no memory; later calls take theirs from `alloc`.
    pub fn new(alloc: Global) -> Translator<'a> {
        Translator {
            alloc,
            rows: Vec::new(alloc),
            unit: UnitBlocks {
                symbols: &[],
                objects: &[],
            },
            locals: Locals::none(alloc),
            first_label: 0,
            labels: 0,
            cases: Vec::new(alloc),
        }
    }

    /// The functions that follow are those of a unit with these blocks.
    pub fn enter(&mut self, unit: UnitBlocks<'a>) {
        self.unit = unit;
    }

    /// The rows of all functions.
    pub fn into_rows(self) -> Vec<Row> {
        let Translator { rows, .. } = self;
        rows
    }
}

impl Translator<'_> {
    /// How many rows there are.
    pub(crate) fn len(&self) -> Result<u32, RowsNo> {
        u32::try_from(self.rows.len()).map_err(|_| RowsNo::Misfit)
    }

    /// One more row. Gives its place.
    pub(crate) fn push(&mut self, act: Act, next: u32) -> Result<u32, RowsNo> {
        let at = self.len()?;
        self.rows.push(Row { act, next })?;
        Ok(at)
    }

    /// Where the row at a place goes on.
    pub(crate) fn set_next(&mut self, at: u32, next: u32) -> Result<(), RowsNo> {
        let at = at as usize;
        if at < self.rows.len() {
            self.rows[at].next = next;
            Ok(())
        } else {
            Err(RowsNo::Misfit)
        }
    }

    /// The block that a symbol of the unit means.
    pub(crate) fn block(&self, symbol: Symbol) -> Result<u32, RowsNo> {
        let found = match symbol {
            Symbol::Named(i) => self.unit.symbols.get(i as usize),
            Symbol::Object(i) => self.unit.objects.get(i as usize),
        };
        match found {
            Some(block) => Ok(*block),
            None => Err(RowsNo::Misfit),
        }
    }

    /// Where the scalar that an lvalue designates lies. Only the name of a local object is a slot.
    pub(crate) fn spot(&self, lvalue: &TExpr) -> Result<Spot, RowsNo> {
        match &lvalue.form {
            Form::Local(i) => self.locals.spot(*i),
            _ => Ok(Spot::InMemory),
        }
    }
}
