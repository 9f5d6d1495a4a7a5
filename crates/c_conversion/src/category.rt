//! Lvalues and function designators (C90 6.2.2.1).

use crate::sort::{Sort, is_complete, own_qualifiers, sort_of};
use c_tree::{Form, TExpr};
use c_types::TypeTable;

/// What an expression stands for.
#[derive(Clone, Copy, Debug, PartialEq, Eq)]
pub enum Category {
    /// A function.
    Designator,
    /// An object.
    Lvalue,
    /// A value alone.
    Plain,
}

/// Whether the form names an object, whatever its type: a name, `*e`, `a[b]`, `e->m`, and `e.m` where `e` does. It takes no memory.
fn names_object(e: &TExpr) -> bool {
    match &e.form {
        Form::Static(_)
        | Form::Local(_)
        | Form::Deref(_)
        | Form::Index { .. }
        | Form::Arrow(_, _) => true,
        Form::Dot(record, _) => names_object(record.get()),
        _ => false,
    }
}

/// What an expression stands for, before it is used for its value. An expression of type void stands for no object. It takes no memory.
pub fn category_of(types: &TypeTable, e: &TExpr) -> Category {
    match sort_of(types, e.kind) {
        Sort::Function(_) => Category::Designator,
        Sort::Void => Category::Plain,
        Sort::Integer { .. } | Sort::Pointer(_) | Sort::Array(_) | Sort::Record => {
            if names_object(e) {
                Category::Lvalue
            } else {
                Category::Plain
            }
        }
    }
}

/// Whether it is a modifiable lvalue (C90 6.2.2.1): an lvalue of a complete type that is no array and not const; `has_const` says
/// that the type is a struct or union with a const member at any depth. It takes no memory.
pub fn is_modifiable(types: &TypeTable, has_const: bool, e: &TExpr) -> bool {
    category_of(types, e) == Category::Lvalue
        && !has_const
        && own_qualifiers(types, e.kind) & 1 == 0
        && !matches!(sort_of(types, e.kind), Sort::Array(_))
        && is_complete(types, e.kind)
}
