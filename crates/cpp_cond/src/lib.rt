//! Whether a group of a conditional inclusion is read: the lines `#if`, `#elif`, `#ifdef` and `#ifndef` (C90 6.8.1).
#![tactic(auto)]

mod evaluation;
mod line;
mod operator;
mod term;
mod value;

pub use line::condition;
