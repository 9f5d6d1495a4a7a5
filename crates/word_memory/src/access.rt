//! Loads and stores, by what they give and change of words.

ghost use Rattle.std.specs.Prelude.{◌≡◌, ◌+◌, ◌*◌, ◌%◌, ◌^◌, ◌<◌};
ghost use Rattle.guest_mem.specs.Guest.{stored, Stores};
ghost use Rattle.guest_mem.specs.Layout.{AllApart, HoldBytes};
ghost use Rattle.guest_mem.specs.Regions.{regions_of};
ghost use Rattle.word_memory.specs.Words.{replaced, word_at, word_place, IsNext, StoresWord};

use guest_mem::{Guest, StoreNo};

/// The word at an address, or None exactly where a load of it is refused.
#[tactic(auto, unfolding(crate::specs::Words::word_at))]
pub fn load_word(memory: &Guest, at: u32) -> Option<u32>
    ensures { result ≡ word_at (regions_of memory.now) at }
{
    memory.load32(at).ok()
}

/// The word behind so many others from an address on, or None exactly where a load of it is refused. Where words are spelled
/// there, in memory whose regions do not overlap, it is the one with this index.
pub fn load_next(memory: &Guest, at: u32, index: u32) -> Option<u32>
    requires { at + 4 * index < 2 ^ 32 }
    ensures found { result ≡ word_at (regions_of memory.now) (at + 4 * index) }
    ensures spelled { at % 4 ≡ 0 → AllApart (regions_of memory.now) → IsNext (regions_of memory.now) at index result }
{
    load_word(memory, at + 4 * index)
}

/// Makes `value` the word at an address. In memory whose regions do not overlap no other word changes. Refused as a store of
/// four bytes, with nothing changed.
pub fn store_word(memory: &mut Guest, at: u32, value: u32) -> Result<(), StoreNo>
    ensures stores { Stores (stored 4 (regions_of memory.old) at value) (regions_of memory.old) (regions_of memory.new) result }
    ensures changes { AllApart (regions_of memory.old) → StoresWord at (λ _. value) (regions_of memory.old) (regions_of memory.new) result }
{
    memory.store32(at, value)
}

/// Makes `value` the byte at an address. In memory whose regions do not overlap and hold bytes, it is then a byte of one word, and
/// no other word changes. Refused as a store of one byte, with nothing changed.
pub fn store_byte(memory: &mut Guest, at: u32, value: u8) -> Result<(), StoreNo>
    ensures stores { Stores (stored 1 (regions_of memory.old) at value) (regions_of memory.old) (regions_of memory.new) result }
    ensures changes { AllApart (regions_of memory.old) → HoldBytes (regions_of memory.old)
        → StoresWord (word_place at) (λ word. replaced (at % 4) 1 word value) (regions_of memory.old) (regions_of memory.new) result }
{
    memory.store8(at, value)
}

/// Makes the bytes of `value` the two bytes at an address. In memory whose regions do not overlap and hold bytes, they are then a
/// half of one word, and no other word changes. Refused as a store of two bytes, with nothing changed.
pub fn store_half(memory: &mut Guest, at: u32, value: u16) -> Result<(), StoreNo>
    ensures stores { Stores (stored 2 (regions_of memory.old) at value) (regions_of memory.old) (regions_of memory.new) result }
    ensures changes { AllApart (regions_of memory.old) → HoldBytes (regions_of memory.old)
        → StoresWord (word_place at) (λ word. replaced (at % 4) 2 word value) (regions_of memory.old) (regions_of memory.new) result }
{
    memory.store16(at, value)
}
