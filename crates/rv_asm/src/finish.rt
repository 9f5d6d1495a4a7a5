//! From items to words.

ghost use Rattle.std.specs.Prelude.{◌<◌, ◌^◌, ◌∷◌, [], IfOk, OnOk};
ghost use Rattle.rv_isa.specs.Encoding.{encoding};
ghost use Rattle.rv_asm.specs.Items.{size_in};
ghost use Rattle.rv_asm.specs.Places.{place_in};
ghost use Rattle.rv_asm.specs.Code.{leap_words, Adds, AddsItems, IsCode};

use crate::assembler::Assembler;
use crate::item::Item;
use crate::label::Label;
use crate::no::AsmNo;
use crate::parts::{high_part, low_part};
use crate::place::Places;
use fsc_base::Bytes;
use rv_isa::{Inst, Reg, encode, registers};

/// Adds a word, its lowest byte first.
fn add_word(bytes: &mut Vec<u8>, word: u32) -> Result<(), AsmNo>
    ensures { OnOk result (Adds bytes.old.items bytes.new.items (word ∷ [])) }
{
    bytes.extend_from_slice(&word.to_le_bytes())?;
    Ok(())
}

/// Adds the word of an instruction. Refused with `Misfit` where it has none.
fn add_inst(bytes: &mut Vec<u8>, inst: Inst) -> Result<(), AsmNo>
    ensures { OnOk result (Adds bytes.old.items bytes.new.items (encoding inst ∷ [])) }
{
    if !inst.is_valid() {
        return Err(AsmNo::Misfit);
    }
    add_word(bytes, encode(inst))
}

/// Adds a jump over a distance.
fn add_leap(bytes: &mut Vec<u8>, distance: u32, link: Reg) -> Result<(), AsmNo>
    ensures { OnOk result (Adds bytes.old.items bytes.new.items (leap_words distance link)) }
{
    add_inst(
        bytes,
        Inst::Auipc {
            rd: registers::T6,
            imm: high_part(distance),
        },
    )?;
    add_inst(
        bytes,
        Inst::Jalr {
            rd: link,
            rs1: registers::T6,
            imm: low_part(distance),
        },
    )
}

/// Adds what an item comes to at a place. Refused with `Misfit` where a label is not bound.
fn add_item(bytes: &mut Vec<u8>, places: &Places, at: u32, item: Item) -> Result<(), AsmNo>
    ensures { OnOk result (AddsItems bytes.old.items bytes.new.items (place_in places.now) at (item ∷ [])) }
{
    match item {
        Item::Line(word) => add_word(bytes, word),
        Item::Bind(_) => Ok(()),
        Item::Leap { label, link } => match places.get(label) {
            None => Err(AsmNo::Misfit),
            Some(to) => add_leap(bytes, to.wrapping_sub(at), link),
        },
    }
}

/// Adds what items come to, the first of them at place 0.
fn add_items(bytes: &mut Vec<u8>, places: &Places, items: &[Item]) -> Result<(), AsmNo>
    requires { size_in items.now < 2 ^ 32 }
    ensures { OnOk result (AddsItems bytes.old.items bytes.new.items (place_in places.now) 0 items.now) }
{
    let mut at = 0;
    'items: for item in items {
        add_item(bytes, places, at, *item)?;
        at += item.size();
    }
    Ok(())
}

impl Assembler {
    /// The code: the words of the items, one behind the other, the lowest byte of each first, where each jump goes to its label.
    /// Refused with `Misfit` where a label that a jump names is not bound, and for want of memory.
    pub fn finish(self) -> Result<Bytes, AsmNo>
        ensures { IfOk result (λ bytes. IsCode bytes self.items) }
    {
        let Assembler {
            alloc,
            size,
            items,
            places,
            ..
        } = self;
        let mut bytes = Vec::with_capacity(alloc, size as usize)?;
        add_items(&mut bytes, &places, items.as_slice())?;
        Ok(Bytes::from_vec(bytes))
    }
}
