//! The compiler over memory: the files that a call names become typed units, these fat units, with the units of the library
//! that they use a program, and this an image.
#![tactic(auto)]

mod building;
mod compiling;
mod demo;
mod in_memory;
mod library;
mod refusal;

pub use building::{build, image_of, linked, program_of};
pub use compiling::{checked_unit, compile, compile_all, fat_of, typed_units};
pub use demo::demo_text;
pub use in_memory::typed_in_memory;
pub use library::{compiled_library, library_unit, wanted};
pub use refusal::CoreNo;
