//! Types by what they are made of, so that each stands in a table once.

use fsc_base::NoMemory;
use std::alloc::Global;

/// What a type is that is the same wherever it is made of the same.
#[derive(Debug, PartialEq, Eq, Hash, Drop)]
pub(crate) enum Form {
    Pointer(u32),
    Array(u32, u32),
    Function(FunctionForm),
    Qualified(u32, u32),
}

/// A function type.
#[derive(Debug, PartialEq, Eq, Hash, Drop)]
pub(crate) struct FunctionForm {
    pub returns: u32,
    pub is_known: bool,
    pub parameters: Vec<u32>,
    pub is_variadic: bool,
}

impl FunctionForm {
    ghost use Rattle.std.specs.Prelude.{◌≡◌, IfOk};
    ghost use Rattle.c_types.specs.declared.node.TypeNode.TheVariants.{Function as function_node};
    ghost use Rattle.c_types.specs.Numbered.{node_of};

    /// The form of that function type.
    pub fn of(
        alloc: Global,
        returns: u32,
        is_known: bool,
        parameters: &[u32],
        is_variadic: bool,
    ) -> Result<Form, NoMemory>
        ensures { IfOk result (λ form. node_of form ≡ function_node returns is_known parameters.now is_variadic) }
    {
        Ok(Form::Function(FunctionForm {
            returns,
            is_known,
            parameters: Vec::from_slice(alloc, parameters)?,
            is_variadic,
        }))
    }
}
