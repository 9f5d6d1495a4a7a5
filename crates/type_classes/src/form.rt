//! What a type is, without the types in it.

use c_types::{Field, Record, TypeNode};
use fsc_base::NoMemory;
use std::alloc::Global;

/// A member of a struct or union, without its type.
#[derive(PartialEq, Eq, Hash, Drop)]
pub(crate) struct MemberForm {
    name: Vec<u8>,
    first: u32,
    count: u32,
}

/// A type without the types in it. Tags don't count.
#[derive(PartialEq, Eq, Hash, Drop)]
pub(crate) enum TypeForm {
    Void,
    /// By the number of the arithmetic type.
    Basic(u32),
    Pointer,
    Array(u32),
    Function {
        is_known: bool,
        is_variadic: bool,
        parameters: usize,
    },
    Struct(bool, Vec<MemberForm>),
    Union(bool, Vec<MemberForm>),
    Enum,
    Qualified(u32),
}

fn member_form(alloc: Global, field: &Field) -> Result<MemberForm, NoMemory> {
    Ok(MemberForm {
        name: Vec::from_slice(alloc, field.name.as_slice())?,
        first: field.first,
        count: field.count,
    })
}

fn member_forms(alloc: Global, record: &Record) -> Result<Vec<MemberForm>, NoMemory> {
    let mut forms = Vec::new(alloc);
    'fields: for field in record.fields.as_slice() {
        forms.push(member_form(alloc, field)?)?;
    }
    Ok(forms)
}

impl TypeForm {
    /// The form of a node. Refused only for want of memory.
    pub fn of(alloc: Global, node: &TypeNode) -> Result<TypeForm, NoMemory> {
        Ok(match node {
            TypeNode::Void => TypeForm::Void,
            TypeNode::Basic(basic) => TypeForm::Basic(*basic as u32),
            TypeNode::Pointer(_) => TypeForm::Pointer,
            TypeNode::Array { count, .. } => TypeForm::Array(*count),
            TypeNode::Function {
                is_known,
                parameters,
                is_variadic,
                ..
            } => TypeForm::Function {
                is_known: *is_known,
                is_variadic: *is_variadic,
                parameters: parameters.len(),
            },
            TypeNode::Struct(record) => {
                TypeForm::Struct(record.is_complete, member_forms(alloc, record)?)
            }
            TypeNode::Union(record) => {
                TypeForm::Union(record.is_complete, member_forms(alloc, record)?)
            }
            TypeNode::Enum(_) => TypeForm::Enum,
            TypeNode::Qualified { bits, .. } => TypeForm::Qualified(*bits),
        })
    }
}
