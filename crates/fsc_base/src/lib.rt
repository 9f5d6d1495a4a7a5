//! Names, places, rules, words, ends and images: the plain data that every layer speaks of.
#![tactic(auto)]

mod bytes;
mod end;
mod image;
mod memory;
mod place;
mod rule;
mod word;

pub use bytes::{Bytes, Name};
pub use end::{End, StopCall};
pub use image::{Image, Segment, Segments};
pub use memory::NoMemory;
pub use place::{Broken, Place, Refused};
pub use rule::Rule;
pub use word::{Width, Word, WordKind};
