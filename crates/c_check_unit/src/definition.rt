//! Definitions of functions (C90 6.7.1).

use crate::old_style::open_names;
use crate::prototype::open_parameters;
use c_check_declaration::{defined, name_of, specified};
use c_check_statement::body;
use c_check_type::{Defined, Own, Specified};
use c_scope::{LinkedName, Scope};
use c_syntax::{Function, Storage};
use c_types::{TypeId, TypeNode, TypeTable, VOID};
use check_refusal::{CheckRefused, CheckRule, broken};
use fsc_base::Place;
use std::alloc::Global;
use type_relations::unqualified;

/// A function whose scope is open: its symbol, and how many parameters it has.
#[derive(Clone, Copy, Debug, PartialEq, Eq)]
pub(crate) struct Opened {
    pub symbol: u32,
    pub parameters: u32,
}

/// K17 at a storage class that is neither extern nor static.
fn can_store(specified: &Specified) -> Result<(), CheckRefused> {
    match specified.storage {
        None | Some(Storage::Extern) | Some(Storage::Static) => Ok(()),
        Some(Storage::Typedef) | Some(Storage::Auto) | Some(Storage::Register) => {
            Err(broken(CheckRule::K17, specified.storage_place))
        }
    }
}

/// What a function of a type returns, without qualifiers: void, or a complete object type. None of another type.
fn returned(types: &TypeTable, kind: TypeId) -> Option<TypeId> {
    let TypeNode::Function { returns, .. } = types.node(kind) else {
        return None;
    };
    if *returns == VOID {
        return Some(VOID);
    }
    let returns = unqualified(types, *returns);
    let _ = types.size(returns)?;
    Some(returns)
}

/// Declares and defines the function, opens its scope and declares its parameters there.
fn open(
    alloc: Global,
    scope: &mut Scope,
    linked: &LinkedName,
    function: &Function,
    own: Own,
) -> Result<Opened, CheckRefused> {
    match own {
        Own::Parameters(parameters) => open_parameters(scope, linked, function, parameters),
        Own::Names => open_names(alloc, scope, linked, function),
        Own::Nothing => Err(broken(CheckRule::K17, function.place)),
    }
}

/// Begins a function of that type. K17 at its first token where the type is no function's, or returns what none may.
fn begin(scope: &mut Scope, kind: TypeId, place: Place) -> Result<(), CheckRefused> {
    match returned(&scope.types, kind) {
        Some(returns) => {
            scope.begin_function(returns);
            Ok(())
        }
        None => Err(broken(CheckRule::K17, place)),
    }
}

/// Reads what stands before a function's body, and opens its scope.
fn head(alloc: Global, scope: &mut Scope, function: &Function) -> Result<Opened, CheckRefused> {
    let list = function.specifiers.as_slice();
    let specified = specified(alloc, scope, list, false, function.place)?;
    can_store(&specified)?;
    let Defined { kind, own } = defined(alloc, scope, &function.declarator, specified.kind)?;
    begin(scope, kind, function.place)?;
    let linked = LinkedName {
        name: name_of(&function.declarator)?,
        kind,
        storage: specified.storage,
        is_function: true,
        place: function.declarator.place,
    };
    open(alloc, scope, &linked, function, own)
}

/// The definition of a function. K17 at its first token where its declarator has no list behind its name or it returns what no
/// function may, and at storage classes, parameters and declarations that it can't have; K16, K18, K50, L08 and those of its parts.
pub(crate) fn define(
    alloc: Global,
    scope: &mut Scope,
    function: &Function,
) -> Result<(), CheckRefused> {
    let opened = head(alloc, scope, function)?;
    let body = body(alloc, scope, &function.body)?;
    scope.leave();
    scope.end_function(opened.symbol, opened.parameters, body, function.place)
}
