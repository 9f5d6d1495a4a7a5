//! The members of unions in an order that does not depend on that of the text.

use crate::nodes::Nodes;
use c_types::{Basic, Field, TypeNode};
use fsc_base::NoMemory;
use std::alloc::Global;
use std::cmp::Ordering;

/// A member and where it stands among others. Members without a name differ in their bits, or in the sign of their type, at most.
#[derive(Clone, Copy)]
pub(crate) struct Placed<'a> {
    pub field: &'a Field,
    /// The form and the qualifiers of its type.
    rank: (u32, u32),
}

impl<'a> Placed<'a> {
    /// A member of a unit's type.
    fn of(nodes: Nodes<'a>, field: &'a Field) -> Placed<'a> {
        let bare = nodes.bare(field.kind);
        let rank = match nodes.node(bare.of) {
            Some(TypeNode::Basic(basic)) => basic_rank(*basic),
            _ => 6,
        };
        Placed {
            field,
            rank: (rank, bare.bits),
        }
    }
}

/// int stands with enums, with which it is compatible.
fn basic_rank(basic: Basic) -> u32 {
    match basic {
        Basic::Char => 0,
        Basic::SignedChar => 1,
        Basic::UnsignedChar => 2,
        Basic::Short => 3,
        Basic::UnsignedShort => 4,
        Basic::Unsigned => 5,
        Basic::Int => 6,
        Basic::Long => 7,
        Basic::UnsignedLong => 8,
    }
}

/// By name, then by bits, then by type.
fn order(one: &Placed<'_>, other: &Placed<'_>) -> Ordering {
    let names = one.field.name.as_slice().cmp(other.field.name.as_slice());
    names
        .then(one.field.first.cmp(&other.field.first))
        .then(one.field.count.cmp(&other.field.count))
        .then(one.rank.cmp(&other.rank))
}

/// A union's members by name, then by bits, then by type. Refused only for want of memory.
pub(crate) fn ordered<'a>(
    alloc: Global,
    nodes: Nodes<'a>,
    fields: &'a [Field],
) -> Result<Vec<Placed<'a>>, NoMemory> {
    let mut placed = Vec::new(alloc);
    for field in fields {
        placed.push(Placed::of(nodes, field))?;
    }
    placed.sort_by(order)?;
    Ok(placed)
}
