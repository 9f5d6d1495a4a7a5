//! The circle of expressions, type names, lists of specifiers and lists of parameters, closed by the depth of trees.

use c_check_expr::Expressions;
use c_check_type::{Defined, Parameters, Specified, Types};
use c_conversion::{Typed, used, value};
use c_scope::Scope;
use c_syntax::{Declarator, Expr, Parameter, Specifier, TypeName};
use c_types::TypeId;
use check_refusal::{CheckRefused, CheckRule, broken};
use fsc_base::Place;
use std::alloc::Global;

/// How many nodes of a tree may lie one above the other; a tree of the grammar's reader has no more.
pub const ROOM: u32 = 256;

/// An expression, as it stands. L03 where too many nodes lie above it.
#[cycle(knot)]
fn expr(alloc: Global, scope: &mut Scope, room: u32, e: &Expr) -> Result<Typed, CheckRefused> {
    if room == 0 {
        return Err(broken(CheckRule::L03, e.place));
    }
    Expressions {
        alloc,
        room: room - 1,
        expr,
        type_name,
    }
    .raw(scope, e)
}

/// The type of a type name. L03 where too many nodes lie above it.
#[cycle(knot)]
fn type_name(
    alloc: Global,
    scope: &mut Scope,
    room: u32,
    name: &TypeName,
) -> Result<TypeId, CheckRefused> {
    if room == 0 {
        return Err(broken(CheckRule::L03, name.place));
    }
    Types {
        alloc,
        room: room - 1,
        expr,
        specifiers,
        parameters,
    }
    .type_name(scope, name)
}

/// The place of the first of some specifiers. A list of the grammar's reader has one.
pub(crate) fn start(list: &[Specifier]) -> Place {
    match list {
        [first, ..] => first.place,
        [] => NOWHERE,
    }
}

/// Where nothing stands.
const NOWHERE: Place = Place {
    unit: 0,
    file: 0,
    line: 0,
};

/// What a list of specifiers says that is no declaration's. L03 where too many nodes lie above it.
#[cycle(knot)]
fn specifiers(
    alloc: Global,
    scope: &mut Scope,
    room: u32,
    list: &[Specifier],
) -> Result<Specified, CheckRefused> {
    if room == 0 {
        return Err(broken(CheckRule::L03, start(list)));
    }
    Types {
        alloc,
        room: room - 1,
        expr,
        specifiers,
        parameters,
    }
    .list(scope, list, false, start(list))
}

/// The place of the first of some parameters.
pub(crate) fn first_place(list: &[Parameter]) -> Place {
    match list {
        [first, ..] => first.place,
        [] => NOWHERE,
    }
}

/// What a list of parameters says. L03 where too many nodes lie above it.
#[cycle(knot)]
fn parameters(
    alloc: Global,
    scope: &mut Scope,
    room: u32,
    list: &[Parameter],
    is_variadic: bool,
) -> Result<Parameters, CheckRefused> {
    if room == 0 {
        return Err(broken(CheckRule::L03, first_place(list)));
    }
    Types {
        alloc,
        room: room - 1,
        expr,
        specifiers,
        parameters,
    }
    .parameter_list(scope, list, is_variadic)
}

/// The value of an expression; of an array that is no lvalue, or of what has no value, the expression as it is (C90 6.2.2.1).
pub fn valued(alloc: Global, scope: &mut Scope, e: &Expr) -> Result<Typed, CheckRefused> {
    let e = expr(alloc, scope, ROOM, e)?;
    Ok(value(alloc, &mut scope.types, e)?)
}

/// The value of an expression that is used for it. K53 at it where it has none.
pub fn needed(alloc: Global, scope: &mut Scope, e: &Expr) -> Result<Typed, CheckRefused> {
    let e = expr(alloc, scope, ROOM, e)?;
    used(alloc, &mut scope.types, e)
}

/// What the specifiers of a declaration or a definition say; `is_alone` where no declarator stands behind them, and `place` is where
/// they stand if there are none.
pub fn specified(
    alloc: Global,
    scope: &mut Scope,
    list: &[Specifier],
    is_alone: bool,
    place: Place,
) -> Result<Specified, CheckRefused> {
    Types {
        alloc,
        room: ROOM,
        expr,
        specifiers,
        parameters,
    }
    .list(scope, list, is_alone, place)
}

/// The type that a declarator makes of that of its specifiers.
pub fn declared(
    alloc: Global,
    scope: &mut Scope,
    declarator: &Declarator,
    base: TypeId,
) -> Result<TypeId, CheckRefused> {
    Types {
        alloc,
        room: ROOM,
        expr,
        specifiers,
        parameters,
    }
    .declarator(scope, declarator, base)
}

/// The same of the definition of a function, with the list behind its name.
pub fn defined(
    alloc: Global,
    scope: &mut Scope,
    declarator: &Declarator,
    base: TypeId,
) -> Result<Defined, CheckRefused> {
    Types {
        alloc,
        room: ROOM,
        expr,
        specifiers,
        parameters,
    }
    .definition(scope, declarator, base)
}
