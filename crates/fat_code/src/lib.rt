//! Fat code: units of operations on words with bases, the faults that a unit can have, programs of linked units, and what each
//! operation does in a run. The definitions stand in `specs/`.
#![tactic(auto)]

mod bare;
mod check;
mod fault;
mod function_check;
mod height;
mod laws;
mod member_check;
mod object_check;
mod op;
mod op_check;
mod period;
mod program;
mod shape_check;
mod symbol_check;
mod type_check;
mod unit;
mod walk;

pub use check::fault_of;
pub use fault::{CheckNo, UnitFault, Version};
pub use laws::{code_has_heights, faults_are_told, programs_are_run, units_are_bounded};
pub use op::Op;
pub use program::{BlockList, BlockLists, FatProgram, ProgramParts};
pub use unit::{
    FatEntry, FatFunction, FatObject, FatParts, FatPiece, FatSymbol, FatUnit, FatValue,
};
