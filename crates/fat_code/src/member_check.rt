//! The faults of members of structs and unions.

ghost use Rattle.std.specs.Prelude.{◌≡◌, ◌+◌, ◌∷◌, [], length, slice_get, sum_by};
ghost use Rattle.std.specs.Option.{option_copied};
ghost use Rattle.c_types.specs.Nodes.{node_at};
ghost use Rattle.fat_code.specs.Bare.{AreBare};
ghost use Rattle.fat_code.specs.Lengths.{member_bytes, record_bytes};
ghost use Rattle.fat_code.specs.Rows.{rows_from};
ghost use Rattle.fat_code.specs.TypeRows.{is_int, is_int_node, is_bit_type, before_in, follows, is_misplaced, first_row, count_row, bit_rows, member_rows, record_rows};
ghost use Rattle.fat_code.specs.Walking.{Checks, bit_bytes, rows_of_member};

use crate::fault::{CheckNo, UnitFault, Version};
use crate::walk::{further, index, name, number};
use c_types::{Basic, Field, Record, TypeNode};

/// Whether it is int or unsigned.
fn is_int(basic: Basic) -> bool
    ensures { result ≡ is_int basic }
{
    match basic {
        Basic::Int | Basic::Unsigned => true,
        Basic::Char
        | Basic::SignedChar
        | Basic::UnsignedChar
        | Basic::Short
        | Basic::UnsignedShort
        | Basic::Long
        | Basic::UnsignedLong => false,
    }
}

/// The same of a node.
fn is_int_node(node: &TypeNode) -> bool
    ensures { result ≡ is_int_node node.now }
{
    match node {
        TypeNode::Basic(basic) => is_int(*basic),
        TypeNode::Void
        | TypeNode::Pointer(_)
        | TypeNode::Array { .. }
        | TypeNode::Function { .. }
        | TypeNode::Struct(_)
        | TypeNode::Union(_)
        | TypeNode::Enum(_)
        | TypeNode::Qualified { .. } => false,
    }
}

/// Whether a number names int or unsigned.
fn names_int(nodes: &[TypeNode], id: u32) -> bool
    ensures { result ≡ is_int_node (node_at nodes.now id) }
{
    match nodes.get(id as usize) {
        Some(node) => is_int_node(node),
        None => false,
    }
}

/// Whether a type is int or unsigned, perhaps qualified.
fn is_bit_type(nodes: &[TypeNode], bare: &[u32], kind: u32) -> bool
    requires { AreBare nodes.now bare.now }
    ensures { result ≡ is_bit_type nodes.now kind }
{
    match bare.get(kind as usize) {
        Some(id) => names_int(nodes, *id),
        None => false,
    }
}

/// Whether a bit-field begins where the one just before it ends.
fn follows(before: Option<&Field>, first: u32) -> bool
    ensures { result ≡ follows (option_copied before.entry) first }
{
    match before {
        Some(before) => {
            before.count > 0
                && u64::from(before.first) + u64::from(before.count) == u64::from(first)
        }
        None => false,
    }
}

/// Whether a first bit is one that no bit-field has there.
fn is_misplaced(is_union: bool, before: Option<&Field>, field: &Field) -> bool
    ensures { result ≡ is_misplaced is_union (option_copied before.entry) field.now }
{
    field.first > 0 && (!follows(before, field.first) || (is_union || field.count == 0))
}

/// The first bit of a member.
fn first_bit(is_union: bool, before: Option<&Field>, field: &Field, at: u64) -> Result<u64, CheckNo>
    ensures { Checks (first_row is_union (option_copied before.entry) field.now at ∷ []) (at + 4) result }
{
    let is_long = u64::from(field.first) + u64::from(field.count) > 32;
    let holds = is_long || is_misplaced(is_union, before, field);
    number(UnitFault::Limit, holds, at)
}

/// How many bits a member has.
fn bit_count(nodes: &[TypeNode], bare: &[u32], field: &Field, at: u64) -> Result<u64, CheckNo>
    requires { AreBare nodes.now bare.now }
    ensures { Checks (count_row nodes.now field.now at ∷ []) (at + 4) result }
{
    let holds = field.count > 32 || (field.count > 0 && !is_bit_type(nodes, bare, field.kind));
    number(UnitFault::Limit, holds, at)
}

/// The place of a bit-field, which stands in files of version 2.
fn bits(
    version: Version,
    nodes: &[TypeNode],
    bare: &[u32],
    is_union: bool,
    before: Option<&Field>,
    field: &Field,
    at: u64,
) -> Result<u64, CheckNo>
    requires { AreBare nodes.now bare.now }
    ensures { Checks (bit_rows version nodes.now is_union (option_copied before.entry) field.now at) (at + bit_bytes version) result }
{
    match version {
        Version::One => Ok(at),
        Version::Two => {
            let count_at = first_bit(is_union, before, field, at)?;
            bit_count(nodes, bare, field, count_at)
        }
    }
}

/// A member, and the one before it.
fn member(
    version: Version,
    nodes: &[TypeNode],
    bare: &[u32],
    is_union: bool,
    before: Option<&Field>,
    field: &Field,
    at: u64,
) -> Result<u64, CheckNo>
    requires { AreBare nodes.now bare.now }
    ensures { Checks (rows_of_member version nodes.now is_union (option_copied before.entry) at field.now) (at + member_bytes version field.now) result }
{
    let kind_at = name(field.name.as_slice(), at)?;
    let bits_at = index(field.kind, nodes.len(), kind_at)?;
    bits(version, nodes, bare, is_union, before, field, bits_at)
}

/// The member before the one with an index.
fn before_in(fields: &[Field], index: usize) -> Option<&Field>
    ensures { option_copied result ≡ before_in fields.now index }
{
    match index.checked_sub(1) {
        Some(before) => fields.get(before),
        None => None,
    }
}

/// The members of a struct or union, behind their count.
fn members(
    version: Version,
    nodes: &[TypeNode],
    bare: &[u32],
    is_union: bool,
    fields: &[Field],
    start: u64,
) -> Result<u64, CheckNo>
    requires { AreBare nodes.now bare.now }
    ensures { Checks (rows_from (member_rows version nodes.now is_union fields.now) (member_bytes version) 0 start fields.now) (start + sum_by (member_bytes version) fields.now) result }
{
    let mut at = start;
    for index in 0..fields.len() {
        let before = before_in(fields, index);
        at = member(version, nodes, bare, is_union, before, &fields[index], at)?;
    }
    Ok(at)
}

/// A struct or union.
pub(crate) fn record(
    version: Version,
    nodes: &[TypeNode],
    bare: &[u32],
    is_union: bool,
    parts: &Record,
    at: u64,
) -> Result<u64, CheckNo>
    requires { AreBare nodes.now bare.now }
    ensures { Checks (record_rows version nodes.now is_union (at + 4) parts.now) (at + (4 + record_bytes version parts.now)) result }
{
    let tag_at = further(at, 4)?;
    let complete_at = name(parts.tag.as_slice(), tag_at)?;
    let first_at = further(complete_at, 8)?;
    members(
        version,
        nodes,
        bare,
        is_union,
        parts.fields.as_slice(),
        first_at,
    )
}
