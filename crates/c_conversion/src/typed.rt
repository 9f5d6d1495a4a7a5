//! Typed expressions with what only the checker asks of them.

use c_tree::{Form, TExpr};
use c_types::TypeId;
use fsc_base::{NoMemory, Place};
use sqlite_items::Boxed;
use std::alloc::Global;

/// A bit-field: its first bit in its unit of 4 bytes, and how many bits it has.
#[derive(Clone, Copy, Debug, PartialEq, Eq)]
pub struct BitField {
    pub first: u32,
    pub count: u32,
}

/// A checked expression.
#[derive(Drop)]
pub struct Typed {
    pub tree: TExpr,
    /// How many words wait at most while it is evaluated, its own value among them.
    pub pending: u32,
    /// It names an object that was declared `register`, or a part of one.
    pub is_register: bool,
    /// The bit-field that it names, or whose value it is: what it names is read and promoted as that (C90 6.2.1.1).
    pub bits: Option<BitField>,
}

impl Typed {
    /// An expression that is no bit-field, and no object declared `register`.
    pub fn plain(form: Form<TExpr>, kind: TypeId, place: Place, pending: u32) -> Typed {
        Typed {
            tree: TExpr { form, kind, place },
            pending,
            is_register: false,
            bits: None,
        }
    }

    /// Whether it is a member that is a bit-field, and not such a member's value.
    pub fn is_bit_field(&self) -> bool {
        self.bits.is_some() && matches!(&self.tree.form, Form::Dot(_, _) | Form::Arrow(_, _))
    }
}

/// The tree as a part of another. Refused only for want of memory.
pub(crate) fn boxed(alloc: Global, tree: TExpr) -> Result<Boxed<TExpr>, NoMemory> {
    Ok(Boxed::new(alloc, tree)?)
}
