//! Declarations.

use crate::expression::{Declarator, Expr, Specifier};
use fsc_base::Place;
use sqlite_items::Items;

/// A declaration (C90 6.5): its specifiers, and what it declares.
#[derive(Drop)]
pub struct Declaration {
    pub place: Place,
    pub specifiers: Items<Specifier>,
    pub inits: Items<InitDeclarator>,
}

/// A declarator with its initialiser, where one stands.
#[derive(Drop)]
pub struct InitDeclarator {
    pub place: Place,
    pub declarator: Declarator,
    pub initial: Option<Initializer>,
}

/// An initialiser (C90 6.5.7).
#[derive(Drop)]
pub struct Initializer {
    pub place: Place,
    pub form: InitializerForm<Initializer>,
}

/// The forms of an initialiser, over the initialisers in it.
#[derive(Drop)]
pub enum InitializerForm<I> {
    One(Expr),
    /// `{ .. }`, with or without a comma at the end.
    Many(Items<I>),
}
