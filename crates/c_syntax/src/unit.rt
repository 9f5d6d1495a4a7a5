//! Units.

use crate::declaration::Declaration;
use crate::expression::{Declarator, Specifier};
use crate::statement::{Compound, Statement};
use fsc_base::Place;
use sqlite_items::Items;

/// A translation unit (C90 6.7).
#[derive(Drop)]
pub struct Tree {
    pub externals: Items<External>,
}

/// An external declaration.
#[derive(Drop)]
pub enum External {
    Function(Function),
    Declaration(Declaration),
}

/// The definition of a function (C90 6.7.1). Its declarations are those of an old-style definition's parameters.
#[derive(Drop)]
pub struct Function {
    pub place: Place,
    pub specifiers: Items<Specifier>,
    pub declarator: Declarator,
    pub declarations: Items<Declaration>,
    pub body: Compound<Statement>,
}
