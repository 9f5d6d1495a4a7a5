//! What the operations of a function depend on beside its rows: where its locals lie, where its labels and cases stand, which
//! shapes the unit's types have, and how many operations each row has.
#![tactic(auto)]

mod lengths;
mod locals;
mod operators;
mod places;
mod refusal;
mod shapes;

pub use lengths::{
    combined_length, converted_length, copied_length, head_length, increment_length,
    indexed_length, initial_length, lowered_length, moved_length, operated_length, peek_length,
    read_length, received_length, store_length, turned_length,
};
pub use locals::{LocalPlace, Locals, Spot, count_of};
pub use operators::binary_of;
pub use places::{Places, Switch, SwitchCase};
pub use refusal::ElaborateNo;
pub use shapes::{TypeShapes, bare, is_record, narrow_type, width_of};
