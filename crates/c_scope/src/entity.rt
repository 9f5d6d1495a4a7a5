//! What a name stands for.

use c_tree::Symbol;
use c_types::TypeId;
use fsc_base::Name;

/// What a name in a scope stands for.
#[derive(Clone, Copy, Debug, PartialEq, Eq)]
pub enum Entity {
    /// A type.
    Typedef(TypeId),
    /// A function or a static object.
    Object(Symbol, TypeId),
    /// A parameter or automatic name, by its index among those of the function, and whether it is register. A parameter of a
    /// declaration that is no definition has any index.
    Local(u32, TypeId, bool),
    /// An enumerator, an int.
    Constant(u32),
    /// A struct, union or enum, in the name space of tags.
    Tag(TypeId),
}

impl Entity {
    /// The symbol with linkage that it is.
    pub(crate) fn linked(self) -> Option<u32> {
        match self {
            Entity::Object(Symbol::Named(symbol), _) => Some(symbol),
            Entity::Object(Symbol::Object(_), _)
            | Entity::Typedef(_)
            | Entity::Local(..)
            | Entity::Constant(_)
            | Entity::Tag(_) => None,
        }
    }
}

/// Whether a name is kept for the primitives: it begins with `__fsc_`.
pub fn is_reserved(name: &Name) -> bool {
    name.as_slice().starts_with(b"__fsc_")
}
