//! What reaches outside the program: files by name, a stream to read from and a stream to write to.
//!
//! Each object may tell what it holds or has left, and then every call is exact; where it doesn't, as a real file or
//! terminal, its calls are known by their counts alone.
#![tactic(auto)]

mod disk_files;
mod fault_plan;
mod file_table;
mod files;
mod input_source;
mod memory_files;
mod memory_sink;
mod memory_source;
mod output_sink;
mod sink;
mod source;

pub use disk_files::DiskFiles;
pub use files::{Files, Got, Put};
pub use input_source::InputSource;
pub use memory_files::MemFiles;
pub use memory_sink::MemSink;
pub use memory_source::MemSource;
pub use output_sink::OutputSink;
pub use sink::{Gave, Sink, Wrote, write_whole};
pub use source::{Source, Took};
