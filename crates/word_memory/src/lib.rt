//! The memory of the guest machine as words by their addresses: what loads give of them, and what stores of a byte, a half or a
//! word change of them.
#![tactic(auto)]

mod access;
mod spelling;

pub use access::{load_next, load_word, store_byte, store_half, store_word};
pub use spelling::spell_words;
