//! Nodes of C's tree over what was read, one function for each form, and the productions that hold no expression (C90 6.3 to 6.5.5).
//!
//! Each function answers what it built with its height. None refuses anything but for want of memory, but for those that read.
#![tactic(auto)]

pub mod enumeration;
mod listed;
mod named;
pub mod node;
pub mod part;
pub mod record;
mod single;
mod specifier;

pub use listed::{names, no_names};
pub use named::{declare, parameter, type_name};
pub use single::token;
pub use specifier::{alias, has_type, is_typedef, word};
