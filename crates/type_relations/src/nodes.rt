//! The types of a unit, by table or by list.

use c_types::{Basic, TypeId, TypeNode, TypeTable};

/// The types of a unit.
#[derive(Clone, Copy)]
pub(crate) enum Nodes<'a> {
    /// As a table of the checker.
    Table(&'a TypeTable),
    /// As a list.
    Listed(&'a [TypeNode]),
}

impl<'a> Nodes<'a> {
    /// The node of a type. None of a number that names none, which is read as void.
    pub fn node(self, id: TypeId) -> Option<&'a TypeNode> {
        match self {
            Nodes::Table(table) => table.get(id as usize),
            Nodes::Listed(nodes) => nodes.get(id as usize),
        }
    }

    /// How many there are.
    pub fn len(self) -> usize {
        match self {
            Nodes::Table(table) => table.len(),
            Nodes::Listed(nodes) => nodes.len(),
        }
    }

    /// A type without its qualifiers, and these: 1 for const, 2 for volatile, 3 for both.
    pub fn bare(self, id: TypeId) -> Bare {
        let mut bare = Bare { of: id, bits: 0 };
        for _ in 0..self.len() {
            match self.node(bare.of) {
                Some(TypeNode::Qualified { of, bits }) => bare = bare.within(*of, *bits),
                _ => break,
            }
        }
        bare
    }

    /// Whether the default argument promotions leave a type as it is (C90 6.3.2.2).
    pub fn is_kept(self, id: TypeId) -> bool {
        match self.node(self.bare(id).of) {
            Some(TypeNode::Basic(basic)) => is_kept_basic(*basic),
            _ => true,
        }
    }

    /// Whether the promotions leave all these types as they are.
    pub fn are_kept(self, ids: &[TypeId]) -> bool {
        for id in ids {
            if !self.is_kept(*id) {
                return false;
            }
        }
        true
    }
}

/// A type that is not qualified, and qualifiers.
#[derive(Clone, Copy, Debug, PartialEq, Eq)]
pub(crate) struct Bare {
    pub of: TypeId,
    pub bits: u32,
}

impl Bare {
    /// What is qualified, with these qualifiers joined.
    fn within(self, of: TypeId, bits: u32) -> Bare {
        Bare {
            of,
            bits: self.bits | bits,
        }
    }
}

/// Whether the integral promotions leave an arithmetic type as it is (C90 6.2.1.1).
fn is_kept_basic(basic: Basic) -> bool {
    match basic {
        Basic::Char | Basic::SignedChar | Basic::UnsignedChar => false,
        Basic::Short | Basic::UnsignedShort => false,
        Basic::Int | Basic::Unsigned | Basic::Long | Basic::UnsignedLong => true,
    }
}

/// Whether the default argument promotions leave a type as it is (C90 6.3.2.2): every type but `char` and `short`, with or without
/// a sign.
pub fn is_kept(table: &TypeTable, id: TypeId) -> bool {
    Nodes::Table(table).is_kept(id)
}
