//! Sizes of blocks: their words, their class, and how much of the virtual addresses they take.

ghost use Rattle.std.specs.Prelude.{◌≡◌, ◌+◌, ◌*◌, ◌^◌, ◌<◌, ◌≤◌, nat_le, position};
ghost use Rattle.c_memory.specs.Blocks.{words_of};
ghost use Rattle.c_memory.specs.Storage.{class_of, span};
ghost use Rattle.cell_store.specs.Pools.{cell_size};

use c_memory::CLASSES;

/// How many words of 4 bytes so many bytes touch.
pub(crate) fn words_of(size: u32) -> u32
    ensures { result ≡ words_of size }
{
    ((u64::from(size) + 3) / 4) as u32
}

/// The place of the first class whose cells have at least so many bytes.
fn first_with(classes: &[u64], bytes: u64) -> Option<usize>
    ensures { result ≡ position (λ class. nat_le bytes class) classes.now }
{
    classes.iter().position(|class| bytes <= *class)
}

/// The class of a block of so many bytes, by its place among the classes: the first whose cells have two words for each
/// word of the block.
pub(crate) fn class_of(size: u32) -> usize
    ensures class { result ≡ class_of size }
    ensures known { result < 30 }
    ensures large { 8 * words_of size ≤ cell_size result }
{
    first_with(&CLASSES, 8 * u64::from(words_of(size))).unwrap_or(0)
}

/// How many bytes a cell of a class has.
#[tactic(auto, using(crate::proofs::Classes::classes_at))]
pub(crate) fn cell_bytes(class: usize) -> u64
    requires { class < 30 }
    ensures { result ≡ cell_size class }
{
    CLASSES[class]
}

/// How far the virtual base of the next block lies behind that of a block of so many bytes.
pub(crate) fn span(size: u32) -> u64
    ensures { result ≡ span size }
{
    (u64::from(size) + 15) / 16 * 16 + 16
}
