//! How large what is made of a unit may be.

ghost use Rattle.std.specs.Prelude.{◌≡◌, ◌+◌, length, map, sum};
ghost use Rattle.c_tree.specs.Counting.{most};
ghost use Rattle.c_tree.specs.Bulk.{
  listed_in,
  type_bytes,
  type_records,
  record_bytes,
  field_bytes,
  weighed,
  type_bulk,
  symbol_bulk,
  object_bulk,
  bulk_of,
};

use crate::counting::nodes;
use crate::unit::{TypedObject, TypedSymbol, TypedUnit};
use c_types::{Field, Record, TypeNode, TypeTable};

/// `before` and 512 for each thing, 64 for each byte, and 4,200 for each struct or union.
fn with_weight(before: u64, things: u64, bytes: u64, records: u64) -> u64
    ensures { result ≡ most (before + weighed things bytes records) }
{
    before
        .saturating_add(things.saturating_mul(512))
        .saturating_add(bytes.saturating_mul(64))
        .saturating_add(records.saturating_mul(4200))
}

/// `before` and the bytes of the names of members.
fn with_names(before: u64, fields: &[Field]) -> u64
    ensures { result ≡ most (before + sum (map field_bytes fields.now)) }
{
    let mut bytes = before;
    'fields: for field in fields {
        bytes = bytes.saturating_add(field.name.as_slice().len() as u64);
    }
    bytes
}

/// `before` and the bulk of a struct or union.
fn with_record(before: u64, body: &Record) -> u64
    ensures { result ≡ most (before + weighed (1 + length body.now.fields) (record_bytes body.now) 1) }
{
    let listed = body.fields.len() as u64;
    let bytes = with_names(body.tag.as_slice().len() as u64, body.fields.as_slice());
    with_weight(before, listed.saturating_add(1), bytes, 1)
}

/// `before` and the bulk of a type.
fn with_type(before: u64, node: &TypeNode) -> u64
    ensures { result ≡ most (before + type_bulk node.now) }
{
    match node {
        TypeNode::Function { parameters, .. } => {
            with_weight(before, (parameters.len() as u64).saturating_add(1), 0, 0)
        }
        TypeNode::Struct(record) => with_record(before, record),
        TypeNode::Union(record) => with_record(before, record),
        TypeNode::Enum(tag) => with_weight(before, 1, tag.as_slice().len() as u64, 0),
        TypeNode::Void => with_weight(before, 1, 0, 0),
        TypeNode::Basic(_) => with_weight(before, 1, 0, 0),
        TypeNode::Pointer(_) => with_weight(before, 1, 0, 0),
        TypeNode::Array { .. } => with_weight(before, 1, 0, 0),
        TypeNode::Qualified { .. } => with_weight(before, 1, 0, 0),
    }
}

/// `before` and the bulk of a unit's types.
fn with_types(before: u64, types: &TypeTable) -> u64
    ensures { result ≡ most (before + sum (map type_bulk types.now)) }
{
    let mut bulk = before;
    'types: for index in 0..types.len() {
        bulk = match types.get(index) {
            Some(node) => with_type(bulk, node),
            None => bulk,
        };
    }
    bulk
}

/// `before` and the bulk of a name with linkage.
fn with_symbol(before: u64, symbol: &TypedSymbol) -> u64
    ensures { result ≡ most (before + symbol_bulk symbol.now) }
{
    with_weight(before, 1, symbol.name.as_slice().len() as u64, 0)
}

/// `before` and the bulk of a static object. One without a name is a string literal, whose bytes count.
fn with_object(before: u64, object: &TypedObject) -> u64
    ensures { result ≡ most (before + object_bulk object.now) }
{
    let length = object.name.as_slice().len() as u64;
    let bytes = if length == 0 {
        u64::from(object.size)
    } else {
        length
    };
    with_weight(before, 1, bytes, 0)
}

/// The bulk of a unit: 512 for each of its nodes, type nodes, listed members and parameters, symbols and static objects, 64
/// for each byte of a name or string literal, and 4,200 for each struct or union. A bulk of 2^64 - 1 stands for that much or
/// more.
#[tactic(auto, unfolding(crate::specs::Bulk::bulk_of))]
pub fn bulk(u: &TypedUnit) -> u64
    ensures { result ≡ most (bulk_of u.now) }
{
    let mut sum = with_weight(0, nodes(u), 0, 0);
    sum = with_types(sum, &u.types);
    'symbols: for symbol in u.symbols.as_slice() {
        sum = with_symbol(sum, symbol);
    }
    'objects: for object in u.objects.as_slice() {
        sum = with_object(sum, object);
    }
    sum
}
