//! Nodes of declarations and statements over what was read.

use c_cursor::{Read, outside};
use c_syntax::{
    Compound, Declaration, Declarator, Expr, InitDeclarator, Initializer, InitializerForm,
    Specifier, Statement, StatementForm,
};
use fsc_base::{Name, Place};
use sqlite_items::{Boxed, Items};

/// An initialiser that is one expression. It is no node.
pub(crate) fn one(place: Place, value: Read<Expr>) -> Read<Initializer> {
    Read {
        node: Initializer {
            place,
            form: InitializerForm::One(value.node),
        },
        height: value.height,
    }
}

/// Initialisers in braces.
pub(crate) fn many(place: Place, items: Read<Items<Initializer>>) -> Read<Initializer> {
    Read {
        node: Initializer {
            place,
            form: InitializerForm::Many(items.node),
        },
        height: outside(items.height, 0),
    }
}

/// A declarator without an initialiser. It is no node.
pub(crate) fn uninitialised(place: Place, declarator: Read<Declarator>) -> Read<InitDeclarator> {
    Read {
        node: InitDeclarator {
            place,
            declarator: declarator.node,
            initial: None,
        },
        height: declarator.height,
    }
}

/// A declarator with its initialiser.
pub(crate) fn initialised(
    place: Place,
    declarator: Read<Declarator>,
    initial: Read<Initializer>,
) -> Read<InitDeclarator> {
    Read {
        node: InitDeclarator {
            place,
            declarator: declarator.node,
            initial: Some(initial.node),
        },
        height: outside(declarator.height, initial.height),
    }
}

/// A declaration of specifiers of that height, and of what it declares.
pub(crate) fn declaration(
    place: Place,
    specifiers: Read<Items<Specifier>>,
    inits: Read<Items<InitDeclarator>>,
) -> Read<Declaration> {
    Read {
        node: Declaration {
            place,
            specifiers: specifiers.node,
            inits: inits.node,
        },
        height: outside(specifiers.height, inits.height),
    }
}

/// A statement over things of that height.
pub(crate) fn statement(
    place: Place,
    form: StatementForm<Statement>,
    height: u32,
) -> Read<Statement> {
    Read {
        node: Statement { place, form },
        height: outside(height, 0),
    }
}

/// A block as a statement.
pub(crate) fn block(block: Read<Compound<Statement>>) -> Read<Statement> {
    statement(
        block.node.place,
        StatementForm::Compound(block.node),
        block.height,
    )
}

/// `name: statement`.
pub(crate) fn label(place: Place, name: Name, body: Read<Boxed<Statement>>) -> Read<Statement> {
    let form = StatementForm::Label(name, body.node);
    statement(place, form, body.height)
}

/// `case value: statement`.
pub(crate) fn case(
    place: Place,
    value: Read<Expr>,
    body: Read<Boxed<Statement>>,
) -> Read<Statement> {
    let form = StatementForm::Case(value.node, body.node);
    statement(place, form, value.height.max(body.height))
}

/// `default: statement`.
pub(crate) fn default_label(place: Place, body: Read<Boxed<Statement>>) -> Read<Statement> {
    let form = StatementForm::Default(body.node);
    statement(place, form, body.height)
}

/// An expression statement.
pub(crate) fn expression(place: Place, value: Read<Expr>) -> Read<Statement> {
    statement(
        place,
        StatementForm::Expression(Some(value.node)),
        value.height,
    )
}

/// The statements of an `if`, and the height of the higher.
#[derive(Drop)]
pub(crate) struct Branches {
    body: Boxed<Statement>,
    other: Option<Boxed<Statement>>,
    height: u32,
}

/// The statements of an `if`: the first, and that behind `else` where one stands.
pub(crate) fn make_branches(
    body: Read<Boxed<Statement>>,
    other: Option<Read<Boxed<Statement>>>,
) -> Branches {
    match other {
        None => Branches {
            body: body.node,
            other: None,
            height: body.height,
        },
        Some(other) => Branches {
            body: body.node,
            other: Some(other.node),
            height: body.height.max(other.height),
        },
    }
}

/// `if (test) statement`, with or without `else` and a statement.
pub(crate) fn if_statement(place: Place, test: Read<Expr>, branches: Branches) -> Read<Statement> {
    let form = StatementForm::If(test.node, branches.body, branches.other);
    statement(place, form, test.height.max(branches.height))
}

/// `switch (value) statement`.
pub(crate) fn switch(
    place: Place,
    value: Read<Expr>,
    body: Read<Boxed<Statement>>,
) -> Read<Statement> {
    let form = StatementForm::Switch(value.node, body.node);
    statement(place, form, value.height.max(body.height))
}

/// `while (test) statement`.
pub(crate) fn while_loop(
    place: Place,
    test: Read<Expr>,
    body: Read<Boxed<Statement>>,
) -> Read<Statement> {
    let form = StatementForm::While(test.node, body.node);
    statement(place, form, test.height.max(body.height))
}

/// `do statement while (test);`.
pub(crate) fn do_while(
    place: Place,
    body: Read<Boxed<Statement>>,
    test: Read<Expr>,
) -> Read<Statement> {
    let form = StatementForm::DoWhile(body.node, test.node);
    statement(place, form, body.height.max(test.height))
}

/// The three expressions in the parentheses of a `for`, each of which may be absent, and the height of the highest.
#[derive(Drop)]
pub(crate) struct Header {
    pub(crate) start: Option<Expr>,
    pub(crate) test: Option<Expr>,
    pub(crate) step: Option<Expr>,
    pub(crate) height: u32,
}

/// `for (start; test; step) statement`.
pub(crate) fn for_loop(
    place: Place,
    header: Header,
    body: Read<Boxed<Statement>>,
) -> Read<Statement> {
    let height = header.height.max(body.height);
    let form = StatementForm::For(header.start, header.test, header.step, body.node);
    statement(place, form, height)
}

/// `return value;`.
pub(crate) fn return_value(place: Place, value: Read<Expr>) -> Read<Statement> {
    statement(place, StatementForm::Return(Some(value.node)), value.height)
}
