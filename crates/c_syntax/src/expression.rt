//! Expressions, and the type names, specifiers and declarators that stand in them.

use crate::operator::{Binary, Qualifier, RecordKind, Step, Storage, TypeKeyword, Unary};
use c_lexer::BasicType;
use fsc_base::{Bytes, Name, Place};
use sqlite_items::{Boxed, Items};

/// An expression (C90 6.3).
#[cycle(expression)]
#[derive(Drop)]
pub struct Expr {
    pub place: Place,
    pub form: ExprForm,
}

/// The forms of an expression.
#[cycle(expression)]
#[derive(Drop)]
pub enum ExprForm {
    Name(Name),
    Integer(u32, BasicType),
    /// A character constant's value.
    Character(u32),
    /// The bytes of a string literal, or of adjacent ones, without the closing zero.
    Text(Bytes),
    /// `(e)`.
    Parenthesis(Boxed<Expr>),
    /// `a[b]`.
    Subscript(Boxed<Expr>, Boxed<Expr>),
    /// The called expression and the arguments.
    Call(Boxed<Expr>, Items<Expr>),
    /// `e.m`.
    Member(Boxed<Expr>, Name),
    /// `e->m`.
    PointerMember(Boxed<Expr>, Name),
    /// `e++`, `e--`.
    Postfix(Step, Boxed<Expr>),
    /// `++e`, `--e`.
    Prefix(Step, Boxed<Expr>),
    Unary(Unary, Boxed<Expr>),
    /// `sizeof e`.
    SizeOfExpr(Boxed<Expr>),
    /// `sizeof(T)`.
    SizeOfType(Boxed<TypeName>),
    /// `(T)e`.
    Cast(Boxed<TypeName>, Boxed<Expr>),
    Binary(Binary, Boxed<Expr>, Boxed<Expr>),
    /// `a ? b : c`.
    Conditional(Boxed<Expr>, Boxed<Expr>, Boxed<Expr>),
    /// `a = b`, and with an operator the compound assignment by it.
    Assign(Option<Binary>, Boxed<Expr>, Boxed<Expr>),
    /// `a, b, ..`: two operands or more, flat.
    Comma(Items<Expr>),
}

/// A type name (C90 6.5.5): specifiers, and an abstract declarator where one stands.
#[cycle(expression)]
#[derive(Drop)]
pub struct TypeName {
    pub place: Place,
    pub specifiers: Items<Specifier>,
    pub declarator: Option<Declarator>,
}

/// A storage class, a type specifier or a qualifier (C90 6.5).
#[cycle(expression)]
#[derive(Drop)]
pub struct Specifier {
    pub place: Place,
    pub form: SpecifierForm,
}

/// The forms of a specifier.
#[cycle(expression)]
#[derive(Drop)]
pub enum SpecifierForm {
    Storage(Storage),
    Keyword(TypeKeyword),
    Qualifier(Qualifier),
    /// A name that a typedef made a type.
    Alias(Name),
    /// `struct s`, `union u`.
    RecordTag(RecordKind, Name),
    /// `struct [s] { .. }`, `union [u] { .. }`.
    RecordBody(RecordKind, Option<Name>, Items<Field>),
    /// `enum e`.
    EnumTag(Name),
    /// `enum [e] { .. }`.
    EnumBody(Option<Name>, Items<Enumerator>),
}

/// A declaration of members (C90 6.5.2.1).
#[cycle(expression)]
#[derive(Drop)]
pub struct Field {
    pub place: Place,
    pub specifiers: Items<Specifier>,
    pub declarators: Items<FieldDeclarator>,
}

/// A member: its declarator, and its width where it is a bit-field; a bit-field may have no declarator.
#[cycle(expression)]
#[derive(Drop)]
pub struct FieldDeclarator {
    pub place: Place,
    pub declarator: Option<Declarator>,
    pub width: Option<Boxed<Expr>>,
}

/// An enumerator (C90 6.5.2.2), with its value where one is given.
#[cycle(expression)]
#[derive(Drop)]
pub struct Enumerator {
    pub place: Place,
    pub name: Name,
    pub value: Option<Boxed<Expr>>,
}

/// A declarator or an abstract declarator (C90 6.5.4, 6.5.5): its parts from the innermost, which is its name where it has
/// one, to the outermost. In `*a[3]` these are `a`, the array and the pointers.
#[cycle(expression)]
#[derive(Drop)]
pub struct Declarator {
    pub place: Place,
    pub parts: Items<Part>,
}

/// A part of a declarator.
#[cycle(expression)]
#[derive(Drop)]
pub struct Part {
    pub place: Place,
    pub form: PartForm,
}

/// The forms of a part.
#[cycle(expression)]
#[derive(Drop)]
pub enum PartForm {
    /// The declared name.
    Plain(Name),
    /// Parentheses around the parts before.
    Group,
    /// The stars of one declarator, from left to right.
    Pointers(Items<Pointer>),
    /// `[n]`, `[]`.
    Array(Option<Boxed<Expr>>),
    /// A list of parameters, and whether `, ...` ends it.
    Parameters(Items<Parameter>, bool),
    /// `()` and `(a, b)`, the names of an old-style definition; `()` of an abstract declarator too.
    Names(Items<ListedName>),
}

/// A parameter of a prototype: its declarator, abstract or not, where one stands.
#[cycle(expression)]
#[derive(Drop)]
pub struct Parameter {
    pub place: Place,
    pub specifiers: Items<Specifier>,
    pub declarator: Option<Declarator>,
}

/// One `*` with the qualifiers behind it.
#[derive(Drop)]
pub struct Pointer {
    pub qualifiers: Items<(Qualifier, Place)>,
}

/// A name in the list of an old-style definition.
#[derive(Drop)]
pub struct ListedName {
    pub place: Place,
    pub name: Name,
}
