//! Typed units.

use crate::statement::{Piece, TStatement};
use c_ops::{Definition, Linkage};
use c_types::{TypeId, TypeIds, TypeTable};
use fsc_base::Name;
use sqlite_items::Items;

/// What a unit says of a name with linkage (C90 6.1.2.2).
#[derive(Drop)]
pub struct TypedSymbol {
    pub name: Name,
    pub linkage: Linkage,
    pub kind: TypeId,
    /// It stands in an expression outside `sizeof`.
    pub used: bool,
    pub definition: Definition,
}

/// What an entry block is for.
#[derive(Clone, Copy, Debug, PartialEq, Eq)]
pub enum EntryOf {
    /// A parameter or automatic name.
    Local(u32),
    /// The value of a struct call.
    Call(u32),
}

/// A block that a function's entry makes.
#[derive(Clone, Copy, Debug, PartialEq, Eq)]
pub struct Entry {
    pub of: EntryOf,
    pub kind: TypeId,
    pub size: u32,
}

/// The definition of a function.
#[derive(Drop)]
pub struct TypedFunction {
    pub symbol: u32,
    /// How many of the locals are parameters.
    pub parameters: u32,
    /// The types of the parameters, and then of the automatic names in order of text.
    pub locals: TypeIds,
    /// The blocks that entry makes, in order: addressed parameters, addressed automatic names, struct calls.
    pub entries: Items<Entry>,
    /// How many labels it has.
    pub labels: u32,
    pub body: TStatement,
}

/// A static object, or a string literal that makes a block. A string literal has no name.
#[derive(Drop)]
pub struct TypedObject {
    pub name: Name,
    pub kind: TypeId,
    pub size: u32,
    pub pieces: Items<Piece>,
}

/// A unit: its types, its names with linkage in order of first declaration, its functions in order of definition, and its
/// objects in order of first token.
#[derive(Drop)]
pub struct TypedUnit {
    pub types: TypeTable,
    pub symbols: Items<TypedSymbol>,
    pub functions: Items<TypedFunction>,
    pub objects: Items<TypedObject>,
}
