//! Expressions (C90 6.3): what typed tree an expression of the text has, its names found in the open scopes and all conversions
//! written out, or which rule it breaks first. Parts are read from left to right, and then the form's own rules hold or not.
#![tactic(auto)]

mod call;
mod expression;
mod operator;
mod part;
mod primary;

pub use part::Expressions;
