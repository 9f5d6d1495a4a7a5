//! Classes of types of several units: two types of one class are spelled alike at every depth, and so are compatible, alike with
//! every third type (C90 6.1.2.6). Types that are compatible without being spelled alike are of different classes.
#![tactic(auto)]

mod classes;
mod form;
mod graph;
mod refining;

pub use classes::TypeClasses;
pub use graph::TypeGraph;
