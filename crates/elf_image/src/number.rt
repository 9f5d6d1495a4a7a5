//! Numbers in a file: two or four bytes, the lowest first.

ghost use Rattle.std.specs.Prelude.{◌≡◌, ◌+◌, ◌≤◌, ◌++◌, length, OnOk};
ghost use Rattle.elf_image.specs.Fields.{half_at, word_at};
ghost use Rattle.elf_image.specs.Writing.{half, word, halves, words};

use byteorder::{ByteOrder, LittleEndian};
use fsc_base::NoMemory;

/// The number in the two bytes from `place` on.
#[tactic(auto, unfolding(crate::specs::Fields::half_at))]
pub fn half_at(file: &[u8], place: usize) -> u16
    requires { place + 2 ≤ length file.now }
    ensures { result ≡ half_at file.now place }
{
    LittleEndian::read_u16(&file[place..])
}

/// The number in the four bytes from `place` on.
#[tactic(auto, unfolding(crate::specs::Fields::word_at))]
pub fn word_at(file: &[u8], place: usize) -> u32
    requires { place + 4 ≤ length file.now }
    ensures { result ≡ word_at file.now place }
{
    LittleEndian::read_u32(&file[place..])
}

/// Writes a number as two bytes at the end.
fn push_half(file: &mut Vec<u8>, number: u16) -> Result<(), NoMemory>
    ensures { OnOk result (file.new.items ≡ file.old.items ++ half number) }
{
    let mut bytes = [0; 2];
    LittleEndian::write_u16(&mut bytes, number);
    file.extend_from_slice(&bytes)?;
    Ok(())
}

/// Writes a number as four bytes at the end.
fn push_word(file: &mut Vec<u8>, number: u32) -> Result<(), NoMemory>
    ensures { OnOk result (file.new.items ≡ file.old.items ++ word number) }
{
    let mut bytes = [0; 4];
    LittleEndian::write_u32(&mut bytes, number);
    file.extend_from_slice(&bytes)?;
    Ok(())
}

/// Writes numbers of two bytes each at the end.
pub fn push_halves(file: &mut Vec<u8>, numbers: &[u16]) -> Result<(), NoMemory>
    ensures { OnOk result (file.new.items ≡ file.old.items ++ halves numbers.now) }
{
    for number in numbers {
        push_half(file, *number)?;
    }
    Ok(())
}

/// Writes numbers of four bytes each at the end.
pub fn push_words(file: &mut Vec<u8>, numbers: &[u32]) -> Result<(), NoMemory>
    ensures { OnOk result (file.new.items ≡ file.old.items ++ words numbers.now) }
{
    for number in numbers {
        push_word(file, *number)?;
    }
    Ok(())
}
