//! How sizes are counted: in bytes of an access, words of a block, classes of cells, and virtual addresses.

ghost use Rattle.std.specs.Prelude.{◌≡◌, ◌*◌, ◌^◌, ◌<◌, length, nat_le, position, IfSome};
ghost use Rattle.c_memory.specs.Access.{bytes_of};
ghost use Rattle.c_memory.specs.Blocks.{words_of};
ghost use Rattle.c_memory.specs.Storage.{cell_bytes, class_of, span};

use c_memory::CLASSES;
use fsc_base::Width;

/// How many classes of cells there are.
pub(crate) const CLASS_COUNT: usize = 30;

/// How many bytes an access of this width touches.
pub(crate) fn bytes_of(width: Width) -> u32
    ensures { result ≡ bytes_of width }
{
    match width {
        Width::One => 1,
        Width::Two => 2,
        Width::Four => 4,
    }
}

/// How many words of 4 bytes so many bytes touch.
pub(crate) fn words_of(bytes: u32) -> u32
    ensures { result ≡ words_of bytes }
{
    bytes / 4 + u32::from(bytes % 4 != 0)
}

/// How many bytes of a cell a block of so many bytes needs.
fn cell_bytes(size: u32) -> u64
    ensures { result ≡ cell_bytes size }
{
    8 * u64::from(words_of(size))
}

/// The place of the first class that is at least so large.
fn first_of_size(classes: &[u64], cell: u64) -> Option<usize>
    ensures first { result ≡ position (λ class. nat_le cell class) classes.now }
    ensures place { IfSome result (λ place. place < length classes.now) }
{
    classes.iter().position(|class| cell <= *class)
}

/// The class of a block of so many bytes, by its place among the classes: the first whose cells are large enough.
#[tactic(auto, unfolding(c_memory::specs::Storage::class_of))]
pub(crate) fn class_of(size: u32) -> usize
    ensures class { result ≡ class_of size }
    ensures place { result < 30 }
{
    first_of_size(&CLASSES, cell_bytes(size)).unwrap_or(0)
}

/// The size in bytes of the cells of a class, by its place among the classes.
pub(crate) fn class_bytes(class: usize) -> u64
    requires { class < 30 }
    ensures { result ≡ 16 * 2 ^ class }
{
    CLASSES[class]
}

/// How far the base of the next block lies behind that of one of so many bytes.
pub(crate) fn span(size: u32) -> u64
    ensures { result ≡ span size }
{
    (u64::from(size) + 15) / 16 * 16 + 16
}
