//! Definitions with a list of parameters (C90 6.7.1).

use crate::definition::Opened;
use c_check_type::{ParameterOf, Parameters};
use c_scope::{LinkedName, Scope};
use c_syntax::{Declaration, Function};
use check_refusal::{CheckRefused, CheckRule, broken};

/// K17 at the first declaration between a list of parameters and a body.
fn has_none(declarations: &[Declaration]) -> Result<(), CheckRefused> {
    match declarations.first() {
        Some(first) => Err(broken(CheckRule::K17, first.place)),
        None => Ok(()),
    }
}

/// A parameter of the function. K17 at it where it has no name, K18 where its type is not complete.
fn add_parameter(scope: &mut Scope, parameter: &ParameterOf) -> Result<(), CheckRefused> {
    if !parameter.is_named {
        return Err(broken(CheckRule::K17, parameter.place));
    }
    if scope.types.size(parameter.kind).is_none() {
        return Err(broken(CheckRule::K18, parameter.place));
    }
    let _ = scope.add_local(parameter.kind)?;
    Ok(())
}

/// The parameters of the function.
fn add_parameters(scope: &mut Scope, list: &[ParameterOf]) -> Result<(), CheckRefused> {
    for parameter in list {
        add_parameter(scope, parameter)?;
    }
    Ok(())
}

/// How many there are; 63 at most.
pub(crate) fn count(len: usize) -> Result<u32, CheckRefused> {
    match u32::try_from(len) {
        Ok(count) => Ok(count),
        Err(_) => Err(CheckRefused::NoMemory),
    }
}

/// Declares and defines a function with a list of parameters, and opens the list's scope again.
pub(crate) fn open_parameters(
    scope: &mut Scope,
    linked: &LinkedName,
    function: &Function,
    parameters: Parameters,
) -> Result<Opened, CheckRefused> {
    let symbol = scope.declare_linked(linked)?;
    let symbol = scope.symbol_to_define(symbol, linked)?;
    scope.define_function(symbol, linked.place)?;
    let (list, level) = parameters.into_parts();
    scope.enter_with(level)?;
    has_none(function.declarations.as_slice())?;
    add_parameters(scope, list.as_slice())?;
    Ok(Opened {
        symbol,
        parameters: count(list.len())?,
    })
}
