//! Statements.

use crate::declaration::Declaration;
use crate::expression::Expr;
use fsc_base::{Name, Place};
use sqlite_items::{Boxed, Items};

/// A statement (C90 6.6).
#[derive(Drop)]
pub struct Statement {
    pub place: Place,
    pub form: StatementForm<Statement>,
}

/// The forms of a statement, over the statements in it.
#[derive(Drop)]
pub enum StatementForm<S> {
    /// `name: statement`.
    Label(Name, Boxed<S>),
    Case(Expr, Boxed<S>),
    Default(Boxed<S>),
    Compound(Compound<S>),
    /// An expression statement; without an expression the null statement.
    Expression(Option<Expr>),
    /// With the statement behind `else`, where one stands.
    If(Expr, Boxed<S>, Option<Boxed<S>>),
    Switch(Expr, Boxed<S>),
    While(Expr, Boxed<S>),
    DoWhile(Boxed<S>, Expr),
    /// What is done first, what is tested, what is done behind each turn, and the body.
    For(Option<Expr>, Option<Expr>, Option<Expr>, Boxed<S>),
    Goto(Name),
    Continue,
    Break,
    Return(Option<Expr>),
}

/// A compound statement, over the statements in it (C90 6.6.2).
#[derive(Drop)]
pub struct Compound<S> {
    pub place: Place,
    pub declarations: Items<Declaration>,
    pub statements: Items<S>,
}
