//! Expressions, type names, specifiers and declarators, read from tokens (C90 6.3 to 6.5.5).
//!
//! An expression may hold a type name, a type name specifiers and a declarator, and these expressions again. Each production is a
//! method over three function values, one for each of the three, which read what lies one node deeper; so each is proved by itself.
//! Three functions tie the knot. They go deeper at most as often as nodes may lie one above the other, and lists are read by loops.
#![tactic(auto)]

mod assigned;
mod declarators;
mod enumeration;
mod expression;
mod grammar;
mod operand;
mod parameter;
mod postfix;
mod primary;
mod production;
mod record;
mod specifier;
mod suffix;
mod type_name;

pub use grammar::{declarator, expr, specifiers};
pub use production::{Production, parse_expr};
