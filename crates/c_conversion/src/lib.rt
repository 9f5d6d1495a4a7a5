//! Values and conversions (C90 6.2): which typed trees are lvalues, what an expression gives where its value is wanted, the
//! promotions and the usual arithmetic conversions, and the nodes of a typed tree, each built from its typed parts.
#![tactic(auto)]

mod assignment;
mod category;
mod conversion;
mod list;
mod operation;
mod path;
mod pending;
mod promotion;
mod sort;
mod typed;
mod values;

pub use assignment::{assign, assign_record, compound, step};
pub use category::{Category, category_of, is_modifiable};
pub use conversion::{cast, conversion_to, convert, converted};
pub use list::{Parts, call, call_record, comma, primitive_call};
pub use operation::{
    binary, both, choose, either, pointer_add, pointer_difference, pointer_minus, unary,
};
pub use path::{
    Element, address_of, arrow, decay, dereference, dot, index, local, number, static_object,
};
pub use pending::{MOST_PENDING, limited};
pub use promotion::{promoted, promoted_kind, usual};
pub use sort::{
    Sort, is_complete, is_integer, is_scalar, is_unsigned, own_qualifiers, sort_of, unqualified,
};
pub use typed::{BitField, Typed};
pub use values::{access_of, used, value};
