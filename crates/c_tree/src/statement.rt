//! Typed statements and initialisers.

use crate::expression::TExpr;
use fsc_base::{Bytes, Place};
use sqlite_items::{Boxed, Items};

/// A store of an initialiser (C90 6.5.7): a scalar or a whole struct or union, at an offset in bytes of the object.
#[derive(Drop)]
pub struct Piece {
    pub offset: u32,
    pub size: u32,
    /// The first bit, where it is a bit-field; the offset is that of its unit.
    pub first: u32,
    /// How many bits it has; 0 where it is no bit-field.
    pub count: u32,
    /// It is a struct or union, and the value is its address.
    pub is_record: bool,
    /// It is converted to the member's type.
    pub value: TExpr,
}

/// An initialiser whose items are typed, before its items are laid out.
#[derive(Drop)]
pub enum Initial {
    One(TExpr, Place),
    /// A string that is a whole item: its bytes, and the index that its object has if it stands for a pointer.
    Text(Bytes, u32, Place),
    Many(Items<Initial>, Place),
}

/// A statement. Sizes are in bytes.
#[derive(Drop)]
pub enum TStatement {
    /// `;`.
    Empty,
    Expression(TExpr),
    /// The statements of a block. Its declarations come first, as an `Initialise` each.
    Compound(Items<TStatement>),
    /// An automatic name's initialiser. An array, struct or union is an aggregate and is cleared first.
    Initialise {
        local: u32,
        size: u32,
        is_aggregate: bool,
        pieces: Items<Piece>,
    },
    If(TExpr, Boxed<TStatement>),
    IfElse(TExpr, Boxed<TStatement>, Boxed<TStatement>),
    While(TExpr, Boxed<TStatement>),
    DoWhile(Boxed<TStatement>, TExpr),
    For {
        start: Option<TExpr>,
        test: Option<TExpr>,
        step: Option<TExpr>,
        body: Boxed<TStatement>,
    },
    Switch(TExpr, Boxed<TStatement>),
    /// The constant as converted to the promoted type of the controlling expression.
    Case(u32, Boxed<TStatement>),
    Default(Boxed<TStatement>),
    /// A label, by its number in the function in order of first mention.
    Labelled(u32, Boxed<TStatement>),
    Goto(u32),
    Break,
    Continue,
    Return,
    ReturnValue(TExpr),
    /// `return` of a struct or union, with its size.
    ReturnRecord(TExpr, u32),
}
