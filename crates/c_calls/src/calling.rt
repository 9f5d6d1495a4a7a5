//! Calls (C90 6.3.2.2).

use c_conversion::{
    Parts, Sort, Typed, call, call_record, is_complete, promoted, sort_of, unqualified,
};
use c_rules::fitted;
use c_tree::TExpr;
use c_types::{TypeId, TypeNode, TypeTable, VOID};
use check_refusal::{CheckRefused, CheckRule, broken};
use fsc_base::Place;
use std::alloc::Global;

/// The most arguments that a call may have.
pub const MOST_ARGUMENTS: u32 = 63;

/// A function that may be called.
#[derive(Clone, Copy)]
pub struct Callee {
    /// Its type.
    pub function: TypeId,
    /// What it returns, without qualifiers.
    pub returns: TypeId,
    /// It returns a struct or union.
    pub is_record: bool,
}

/// How many arguments a function takes.
#[derive(Clone, Copy)]
pub enum Taking {
    /// Any: its parameters are not known.
    Any,
    /// As many as it has parameters.
    Exactly(usize),
    /// At least as many.
    AtLeast(usize),
}

/// What an argument is for.
#[derive(Clone, Copy)]
pub enum Passing {
    /// A parameter of this type.
    To(TypeId),
    /// The arguments behind the parameters.
    Variadic,
    /// Parameters that are not known.
    Unknown,
}

/// What a value of this type calls: a pointer to a function that returns void or a complete object type; None of every other. It takes
/// no memory.
pub fn callee_of(types: &TypeTable, kind: TypeId) -> Option<Callee> {
    let Sort::Pointer(function) = sort_of(types, kind) else {
        return None;
    };
    let Sort::Function(returns) = sort_of(types, function) else {
        return None;
    };
    if returns != VOID && !is_complete(types, returns) {
        return None;
    }
    let returns = unqualified(types, returns);
    Some(Callee {
        function,
        returns,
        is_record: sort_of(types, returns) == Sort::Record,
    })
}

/// How many arguments a function type takes. It takes no memory.
pub fn taking_of(types: &TypeTable, function: TypeId) -> Taking {
    match types.node(function) {
        TypeNode::Function {
            is_known,
            parameters,
            is_variadic,
            ..
        } => {
            if !*is_known {
                Taking::Any
            } else if *is_variadic {
                Taking::AtLeast(parameters.len())
            } else {
                Taking::Exactly(parameters.len())
            }
        }
        _ => Taking::Any,
    }
}

/// Whether so many arguments are right.
pub fn is_taken(taking: Taking, count: usize) -> bool {
    match taking {
        Taking::Any => true,
        Taking::Exactly(wanted) => count == wanted,
        Taking::AtLeast(least) => least <= count,
    }
}

/// What the argument of this index is for, from 0. It takes no memory.
pub fn passing_of(types: &TypeTable, function: TypeId, at: u32) -> Passing {
    match types.node(function) {
        TypeNode::Function {
            is_known: true,
            parameters,
            ..
        } => match parameters.get(at as usize) {
            Some(parameter) => Passing::To(*parameter),
            None => Passing::Variadic,
        },
        _ => Passing::Unknown,
    }
}

/// Whether a value may be an argument: it is of a complete object type, and no array. It takes no memory.
pub fn is_passed(types: &TypeTable, e: &TExpr) -> bool {
    match sort_of(types, e.kind) {
        Sort::Integer { .. } | Sort::Pointer(_) => true,
        Sort::Record => is_complete(types, e.kind),
        Sort::Void | Sort::Array(_) | Sort::Function(_) => false,
    }
}

/// A value behind the parameters, promoted. L11 at its place where it is a struct or union.
fn variadic(alloc: Global, types: &TypeTable, e: Typed) -> Result<Typed, CheckRefused> {
    if sort_of(types, e.tree.kind) == Sort::Record {
        return Err(broken(CheckRule::L11, e.tree.place));
    }
    Ok(promoted(alloc, types, e)?)
}

/// A value for a parameter that is not known: promoted, where it is no struct or union.
fn unknown(alloc: Global, types: &TypeTable, e: Typed) -> Result<Typed, CheckRefused> {
    if sort_of(types, e.tree.kind) == Sort::Record {
        Ok(e)
    } else {
        Ok(promoted(alloc, types, e)?)
    }
}

/// A value as it is passed.
fn passed(
    alloc: Global,
    types: &TypeTable,
    passing: Passing,
    e: Typed,
) -> Result<Typed, CheckRefused> {
    let place = e.tree.place;
    match passing {
        Passing::To(kind) => fitted(alloc, types, kind, e, CheckRule::K46, place),
        Passing::Variadic => variadic(alloc, types, e),
        Passing::Unknown => unknown(alloc, types, e),
    }
}

/// An argument of a call, for a value (C90 6.3.2.2): the next behind these. K21 at the call where it is of incomplete type or an array,
/// K46 at the argument where it does not fit its parameter, L11 there where it is a struct or union behind the parameters.
pub fn pass(
    alloc: Global,
    types: &TypeTable,
    function: TypeId,
    before: &mut Parts,
    e: Typed,
    place: Place,
) -> Result<(), CheckRefused> {
    if !is_passed(types, &e.tree) {
        return Err(broken(CheckRule::K21, place));
    }
    let passing = passing_of(types, function, before.len());
    before.push(passed(alloc, types, passing, e)?)?;
    Ok(())
}

/// Arguments as they are passed to a function of this type. Refused as `pass` refuses each.
fn all_passed(
    alloc: Global,
    types: &TypeTable,
    function: TypeId,
    given: Vec<Typed>,
    place: Place,
) -> Result<Parts, CheckRefused> {
    let mut arguments = Parts::new(alloc);
    for e in given {
        pass(alloc, types, function, &mut arguments, e, place)?;
    }
    Ok(arguments)
}

/// The callee. L08 where there are more than 63 arguments; K21 where it is none, or takes another number of arguments.
fn called(
    types: &TypeTable,
    callee: Option<Callee>,
    count: usize,
    place: Place,
) -> Result<Callee, CheckRefused> {
    if count > MOST_ARGUMENTS as usize {
        return Err(broken(CheckRule::L08, place));
    }
    match callee {
        Some(callee) => {
            if is_taken(taking_of(types, callee.function), count) {
                Ok(callee)
            } else {
                Err(broken(CheckRule::K21, place))
            }
        }
        None => Err(broken(CheckRule::K21, place)),
    }
}

/// A call of a value with values (C90 6.3.2.2), whose callee is that of `callee_of`, and whose number is among the calls that give a
/// struct or union. L08 where there are more than 63 arguments; K21 where nothing is called, the number of arguments is wrong, or one is
/// of incomplete type or an array; K46 at an argument that does not fit its parameter; L11 at a struct or union behind the parameters.
pub fn call_of(
    alloc: Global,
    types: &TypeTable,
    function: Typed,
    callee: Option<Callee>,
    number: u32,
    given: Vec<Typed>,
    place: Place,
) -> Result<Typed, CheckRefused> {
    let callee = called(types, callee, given.len(), place)?;
    let arguments = all_passed(alloc, types, callee.function, given, place)?;
    let kind = callee.returns;
    Ok(if callee.is_record {
        call_record(alloc, function, arguments, number, kind, place)?
    } else {
        call(alloc, function, arguments, kind, place)?
    })
}
