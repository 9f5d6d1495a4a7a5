//! Conversions of constants (C90 6.2, 6.3.4).

ghost use Rattle.std.specs.Prelude.{◌≡◌};
ghost use Rattle.std.specs.Option.{option_map, option_and_then};
ghost use Rattle.c_ops.specs.Words.{plain as plain_word};
ghost use Rattle.c_tree.specs.Constants.{as_integer as integer_of, converted as converted_to, converted_word, whole};
ghost use Rattle.c_types.specs.declared.node.TypeNode.{TypeNode};
ghost use Rattle.c_tree.specs.Programs.{bare_node as node_of};
ghost use Rattle.c_const.specs.Told.{told, told_of, target_in as target_at};

use crate::value::{Value, plain};
use c_ops::narrowed;
use c_tree::Conversion;
use c_types::{TypeId, TypeNode, TypeTable};

/// What a conversion asks of the type.
#[derive(Clone, Copy, Debug, PartialEq, Eq)]
pub(crate) enum Target {
    Pointer,
    Integer,
    Neither,
}

/// What a type that is not qualified is.
fn target_in(node: &TypeNode) -> Target
    ensures { result ≡ target_at node.now }
{
    match node {
        TypeNode::Pointer(_) => Target::Pointer,
        TypeNode::Basic(_) => Target::Integer,
        TypeNode::Enum(_) => Target::Integer,
        TypeNode::Void => Target::Neither,
        TypeNode::Array { .. } => Target::Neither,
        TypeNode::Function { .. } => Target::Neither,
        TypeNode::Struct(_) => Target::Neither,
        TypeNode::Union(_) => Target::Neither,
        TypeNode::Qualified { .. } => Target::Neither,
    }
}

/// A type's node, and that of the type that it qualifies where it is qualified.
#[tactic(auto, using(crate::proofs::Bare::bare_once))]
pub(crate) fn bare_node(types: &TypeTable, id: TypeId) -> &TypeNode
    ensures { result.now ≡ node_of types.now id }
{
    match types.node(id) {
        TypeNode::Qualified { of, .. } => types.node(*of),
        node => node,
    }
}

/// A number converted.
fn narrow(conversion: Conversion, number: u32) -> u32
    ensures { plain_word result ≡ converted_word conversion (plain_word number) }
{
    match conversion {
        Conversion::Keep => number,
        Conversion::Narrow { width, is_signed } => narrowed(width, is_signed, plain(number)).value,
        Conversion::Decide(_) => number,
    }
}

/// A value as one of a type. A pointer has no constant integer but where it is the place of a member or element under a number;
/// other types have none.
pub(crate) fn converted(
    types: &TypeTable,
    kind: TypeId,
    conversion: Conversion,
    value: Option<Value>,
) -> Option<Value>
    ensures { told_of result ≡ option_and_then (converted_to (node_of types.now kind) conversion) (told_of value) }
{
    match value {
        Some(value) => converted_value(target_in(bare_node(types, kind)), conversion, value),
        None => None,
    }
}

/// The same of a value.
fn converted_value(target: Target, conversion: Conversion, value: Value) -> Option<Value>
    ensures { (node : TypeNode) → target ≡ target_at node → told_of result ≡ converted_to node conversion (told value) }
{
    match target {
        Target::Pointer => Some(value.as_pointer()),
        Target::Integer => integer(conversion, value),
        Target::Neither => None,
    }
}

/// A value as an integer.
fn integer(conversion: Conversion, value: Value) -> Option<Value>
    ensures { told_of result ≡ option_map (λ n. whole (converted_word conversion (plain_word n))) (integer_of (told value)) }
{
    match value.as_integer() {
        Some(number) => Some(Value::Whole(narrow(conversion, number))),
        None => None,
    }
}
