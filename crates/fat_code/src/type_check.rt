//! The faults of types.

ghost use Rattle.std.specs.Prelude.{◌≡◌, ◌+◌, ◌*◌, ◌∷◌, [], length, count_by, sum_by};
ghost use Rattle.c_types.specs.Nodes.{node_at};
ghost use Rattle.fat_code.specs.Bare.{AreBare};
ghost use Rattle.fat_code.specs.Lengths.{list_bytes, node_bytes};
ghost use Rattle.fat_code.specs.Rows.{rows_from, rows_of_list};
ghost use Rattle.fat_code.specs.TypeRows.{is_record, part_row, four_bytes, parameter_rows, node_rows, type_rows};
ghost use Rattle.fat_code.specs.Walking.{Checks};

use crate::bare::bare_types;
use crate::fault::{CheckNo, UnitFault, Version};
use crate::member_check::record;
use crate::walk::{further, name, number};
use c_types::TypeNode;
use std::alloc::Global;

/// Whether it is a struct or union.
fn is_record(node: &TypeNode) -> bool
    ensures { result ≡ is_record node.now }
{
    match node {
        TypeNode::Struct(_) | TypeNode::Union(_) => true,
        TypeNode::Void
        | TypeNode::Basic(_)
        | TypeNode::Pointer(_)
        | TypeNode::Array { .. }
        | TypeNode::Function { .. }
        | TypeNode::Enum(_)
        | TypeNode::Qualified { .. } => false,
    }
}

/// Whether a number names a struct or union.
fn names_record(nodes: &[TypeNode], id: u32) -> bool
    ensures { result ≡ is_record (node_at nodes.now id) }
{
    match nodes.get(id as usize) {
        Some(node) => is_record(node),
        None => false,
    }
}

/// The number of struct and union types.
pub(crate) fn records(nodes: &[TypeNode]) -> usize
    ensures { result ≡ count_by is_record nodes.now }
{
    nodes.iter().filter(|node| is_record(node)).count()
}

/// A number that names a part of the type with a number of its own.
fn part(nodes: &[TypeNode], own: usize, named: u32, at: u64) -> Result<u64, CheckNo>
    ensures { Checks (part_row nodes.now own named at ∷ []) (at + 4) result }
{
    let is_reachable = (named as usize) < own || names_record(nodes, named);
    number(UnitFault::Index, !is_reachable, at)
}

/// The parameters of a function type, behind their count.
fn parameters(
    nodes: &[TypeNode],
    own: usize,
    parameters: &[u32],
    start: u64,
) -> Result<u64, CheckNo>
    ensures { Checks (rows_from (parameter_rows nodes.now own) four_bytes 0 start parameters.now) (start + sum_by four_bytes parameters.now) result }
{
    let mut at = start;
    for parameter in parameters {
        at = part(nodes, own, *parameter, at)?;
    }
    Ok(at)
}

/// A function type.
fn function(
    nodes: &[TypeNode],
    own: usize,
    returns: u32,
    taken: &[u32],
    at: u64,
) -> Result<u64, CheckNo>
    ensures { Checks (part_row nodes.now own returns (at + 4) ∷ rows_of_list (parameter_rows nodes.now own) four_bytes (at + 12) taken.now) (at + (20 + 4 * length taken.now)) result }
{
    let returns_at = further(at, 4)?;
    let known_at = part(nodes, own, returns, returns_at)?;
    let parameters_at = further(known_at, 8)?;
    let variadic_at = parameters(nodes, own, taken, parameters_at)?;
    further(variadic_at, 4)
}

/// A type that is made of another.
fn derived(nodes: &[TypeNode], own: usize, of: u32, at: u64) -> Result<u64, CheckNo>
    ensures { Checks (part_row nodes.now own of (at + 4) ∷ []) (at + 8) result }
{
    let of_at = further(at, 4)?;
    part(nodes, own, of, of_at)
}

/// The same with a number behind it.
fn derived_with(nodes: &[TypeNode], own: usize, of: u32, at: u64) -> Result<u64, CheckNo>
    ensures { Checks (part_row nodes.now own of (at + 4) ∷ []) (at + 12) result }
{
    let behind = derived(nodes, own, of, at)?;
    further(behind, 4)
}

/// A type.
fn node(
    version: Version,
    nodes: &[TypeNode],
    bare: &[u32],
    own: usize,
    this: &TypeNode,
    at: u64,
) -> Result<u64, CheckNo>
    requires { AreBare nodes.now bare.now }
    ensures { Checks (node_rows version nodes.now own at this.now) (at + node_bytes version this.now) result }
{
    match this {
        TypeNode::Void => further(at, 4),
        TypeNode::Basic(_) => further(at, 8),
        TypeNode::Pointer(of) => derived(nodes, own, *of, at),
        TypeNode::Array { of, .. } => derived_with(nodes, own, *of, at),
        TypeNode::Function {
            returns,
            parameters,
            ..
        } => function(nodes, own, *returns, parameters.as_slice(), at),
        TypeNode::Struct(parts) => record(version, nodes, bare, false, parts, at),
        TypeNode::Union(parts) => record(version, nodes, bare, true, parts, at),
        TypeNode::Enum(tag) => {
            let tag_at = further(at, 4)?;
            name(tag.as_slice(), tag_at)
        }
        TypeNode::Qualified { of, .. } => derived_with(nodes, own, *of, at),
    }
}

/// The types of a table, behind their count.
fn nodes_from(
    version: Version,
    nodes: &[TypeNode],
    bare: &[u32],
    start: u64,
) -> Result<u64, CheckNo>
    requires { AreBare nodes.now bare.now }
    ensures { Checks (rows_from (node_rows version nodes.now) (node_bytes version) 0 start nodes.now) (start + sum_by (node_bytes version) nodes.now) result }
{
    let mut at = start;
    for index in 0..nodes.len() {
        at = node(version, nodes, bare, index, &nodes[index], at)?;
    }
    Ok(at)
}

/// A table of types.
#[tactic(auto, unfolding(crate::specs::TypeRows::type_rows))]
pub(crate) fn types(
    alloc: Global,
    version: Version,
    nodes: &[TypeNode],
    at: u64,
) -> Result<u64, CheckNo>
    ensures { Checks (type_rows version at nodes.now) (at + list_bytes (node_bytes version) nodes.now) result }
{
    let bare = bare_types(alloc, nodes)?;
    let first_at = further(at, 4)?;
    nodes_from(version, nodes, bare.as_slice(), first_at)
}
