//! Types, as nodes that name one another by number.

use fsc_base::Name;
use sqlite_items::Items;

/// A type: the index of its node in its table.
pub type TypeId = u32;

/// A list of types.
pub type TypeIds = Items<u32>;

/// The arithmetic types (C90 6.1.2.5), in the order of their numbers.
#[derive(Clone, Copy, Debug, PartialEq, Eq)]
pub enum Basic {
    Char,
    SignedChar,
    UnsignedChar,
    Short,
    UnsignedShort,
    Int,
    Unsigned,
    Long,
    UnsignedLong,
}

/// A member of a struct or union as it is declared.
#[derive(Debug, Drop)]
pub struct Field {
    /// Empty for a bit-field without a name.
    pub name: Name,
    pub kind: TypeId,
    /// The lowest bit of a bit-field in its unit of 4 bytes; 0 opens a new unit. 0 for a member that is none.
    pub first: u32,
    /// How many bits a bit-field has; 0 for a member that is none.
    pub count: u32,
}

/// A list of members as they are declared.
pub type Fields = Items<Field>;

/// A struct or union.
#[derive(Debug, Drop)]
pub struct Record {
    /// Empty where it has none.
    pub tag: Name,
    /// Whether its members are known.
    pub is_complete: bool,
    /// None until it is complete.
    pub fields: Fields,
}

/// A type whose parts are other nodes of its table.
#[derive(Debug, Drop)]
pub enum TypeNode {
    Void,
    Basic(Basic),
    /// To a type.
    Pointer(TypeId),
    Array {
        of: TypeId,
        /// How many elements; 0 where that is unknown.
        count: u32,
    },
    Function {
        returns: TypeId,
        /// Whether its parameters are known.
        is_known: bool,
        /// The types of its parameters, without their own qualifiers.
        parameters: TypeIds,
        /// Whether arguments may follow behind these.
        is_variadic: bool,
    },
    Struct(Record),
    Union(Record),
    /// An enum, with its tag.
    Enum(Name),
    Qualified {
        of: TypeId,
        /// 1 for const, 2 for volatile, 3 for both.
        bits: u32,
    },
}

impl TypeNode {
    ghost use Rattle.std.specs.Prelude.{◌≡◌, IfSome, IsNone, true, false};
    ghost use Rattle.c_types.specs.Building.{is_incomplete, is_union, completed};

    /// Whether an incomplete struct or union is a union; None of every other type.
    pub(crate) fn incomplete_is_union(&self) -> Option<bool>
        ensures union { IfSome result (λ it. it ≡ is_union self.now) }
        ensures incomplete { IfSome result (λ it. is_incomplete self.now ≡ true) }
        ensures none { IsNone result → is_incomplete self.now ≡ false }
    {
        match self {
            TypeNode::Struct(record) => {
                if record.is_complete {
                    None
                } else {
                    Some(false)
                }
            }
            TypeNode::Union(record) => { if record.is_complete { None } else { Some(true) } }
            TypeNode::Void
            | TypeNode::Basic(_)
            | TypeNode::Pointer(_)
            | TypeNode::Array { .. }
            | TypeNode::Function { .. }
            | TypeNode::Enum(_)
            | TypeNode::Qualified { .. } => None,
        }
    }

    /// The members of a struct or union become known; every other type stays as it is.
    pub(crate) fn complete(&mut self, fields: Fields)
        ensures { self.new ≡ completed fields self.old }
    {
        match self {
            TypeNode::Struct(record) => {
                record.is_complete = true;
                record.fields = fields;
            }
            TypeNode::Union(record) => {
                record.is_complete = true;
                record.fields = fields;
            }
            TypeNode::Void
            | TypeNode::Basic(_)
            | TypeNode::Pointer(_)
            | TypeNode::Array { .. }
            | TypeNode::Function { .. }
            | TypeNode::Enum(_)
            | TypeNode::Qualified { .. } => {}
        }
    }
}

/// A member of a complete struct or union, and where it lies.
#[derive(Debug, Drop)]
pub struct Member {
    /// Empty for a bit-field without a name.
    pub name: Name,
    pub kind: TypeId,
    /// Its offset in bytes; a bit-field's is that of its unit.
    pub offset: u32,
    /// The lowest bit of a bit-field in its unit.
    pub first: u32,
    /// How many bits a bit-field has; 0 for a member that is none.
    pub count: u32,
}

/// A list of members.
pub type Members = Items<Member>;
