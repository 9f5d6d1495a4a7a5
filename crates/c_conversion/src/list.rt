//! Nodes with a list of parts: comma expressions and calls.

use crate::pending::of_call;
use crate::typed::{BitField, Typed, boxed};
use c_ops::Primitive;
use c_tree::{Form, TExpr};
use c_types::{TypeId, VOID};
use fsc_base::{NoMemory, Place};
use sqlite_items::Items;
use std::alloc::Global;

/// Checked expressions in order of text.
#[derive(Drop)]
pub struct Parts {
    trees: Items<TExpr>,
    /// The greatest of their pending sizes.
    pending: u32,
    /// The greatest of their pending sizes, each with as many words as it has parts before it and one more.
    waiting: u32,
    /// How many they are.
    count: u32,
    /// The last one's type.
    kind: TypeId,
    /// The bit-field whose value the last one is.
    bits: Option<BitField>,
}

impl Parts {
    /// No expressions. It takes no memory.
    pub fn new(alloc: Global) -> Parts {
        Parts {
            trees: Items::new(alloc),
            pending: 1,
            waiting: 0,
            count: 0,
            kind: VOID,
            bits: None,
        }
    }

    /// One more expression. Refused only for want of memory.
    pub fn push(&mut self, e: Typed) -> Result<(), NoMemory> {
        let Typed {
            tree,
            pending,
            bits,
            ..
        } = e;
        let kind = tree.kind;
        self.trees.push(tree)?;
        self.count = self.count.saturating_add(1);
        self.pending = self.pending.max(pending);
        self.waiting = self.waiting.max(self.count.saturating_add(pending));
        self.kind = kind;
        self.bits = bits;
        Ok(())
    }

    /// How many they are.
    pub fn len(&self) -> u32 {
        self.count
    }

    /// The last one's type; void where there is none.
    pub fn last_kind(&self) -> TypeId {
        self.kind
    }

    /// The expressions, lent.
    pub fn trees(&self) -> &[TExpr] {
        self.trees.as_slice()
    }
}

/// `a, b, ..`, whose last part has this type.
pub fn comma(parts: Parts, kind: TypeId, place: Place) -> Typed {
    let Parts {
        trees,
        pending,
        bits,
        ..
    } = parts;
    Typed {
        tree: TExpr {
            form: Form::Comma(trees),
            kind,
            place,
        },
        pending,
        is_register: false,
        bits,
    }
}

/// A call that gives a value of this type, which is no struct or union, or none.
pub fn call(
    alloc: Global,
    function: Typed,
    arguments: Parts,
    kind: TypeId,
    place: Place,
) -> Result<Typed, NoMemory> {
    let pending = of_call(function.pending, arguments.waiting, arguments.count);
    let form = Form::Call {
        function: boxed(alloc, function.tree)?,
        arguments: arguments.trees,
    };
    Ok(Typed::plain(form, kind, place, pending))
}

/// A call that gives a struct or union, with its number among those of the function.
pub fn call_record(
    alloc: Global,
    function: Typed,
    arguments: Parts,
    number: u32,
    kind: TypeId,
    place: Place,
) -> Result<Typed, NoMemory> {
    let pending = of_call(function.pending, arguments.waiting, arguments.count);
    let form = Form::CallRecord {
        function: boxed(alloc, function.tree)?,
        arguments: arguments.trees,
        number,
    };
    Ok(Typed::plain(form, kind, place, pending))
}

/// A call of a primitive.
pub fn primitive_call(primitive: Primitive, arguments: Parts, kind: TypeId, place: Place) -> Typed {
    let pending = of_call(1, arguments.waiting, arguments.count);
    Typed::plain(
        Form::Primitive(primitive, arguments.trees),
        kind,
        place,
        pending,
    )
}
