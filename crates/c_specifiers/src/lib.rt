//! What specifiers say, one by one: storage classes, qualifiers, keywords, and the tags of structs, unions and enums
//! (C90 6.5.1 to 6.5.3). What lies deeper in them is read elsewhere.
#![tactic(auto)]

mod keywords;
mod specified;
mod tags;

pub use keywords::Keywords;
pub use specified::{Reading, Specified, qualifier_bit};
pub use tags::{enum_body, enum_tag, record_body, record_tag};
