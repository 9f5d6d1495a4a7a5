//! The assembler.

ghost use Rattle.std.specs.Prelude.{◌≡◌, ◌+◌, ◌++◌, ◌∷◌, ◌%◌, [], map, IfOk, OnOk, OnErr};
ghost use Rattle.rv_asm.specs.Items.{size_in, line, TakesRoom};
ghost use Rattle.rv_isa.specs.Encoding.{IsValid};
ghost use Rattle.rv_asm.specs.declared.item.Item.TheVariants.{Bind, Leap};

use crate::item::Item;
use crate::label::Label;
use crate::no::AsmNo;
use crate::place::Places;
use rv_isa::{Inst, Reg, encode};
use sqlite_items::Items;
use std::alloc::Global;
use std::marker::Model;

/// Code that grows at its end, from an address on. Contracts see that address, what the code is made of, and how many labels
/// there are. After a call that is refused nothing has changed, but for `emit_all`, of which a front may have been added.
#[derive(Debug, Drop)]
pub struct Assembler {
    pub(crate) alloc: Global,
    address: u32,
    /// How many bytes the items take.
    pub(crate) size: u32,
    pub(crate) items: Items<Item>,
    pub(crate) places: Places,
}

impl Model for Assembler {
    ghost use Rattle.std.specs.Prelude.{◌≡◌, ◌+◌, ◌%◌, ◌<◌, ◌^◌, ℕ, length};
    ghost use Rattle.rv_asm.specs.Items.{Assembly, size_in, place_of};
    ghost use Rattle.rv_asm.specs.Places.{place_in};

    ghost Value = { Assembly };

    ghost view = { λ a. record { address = a.address; items = a.items; labels = length a.places } };

    ghost invariant = { λ a. (a.size ≡ size_in a.items) × (a.address + a.size < 2 ^ 32) × (a.address % 4 ≡ 0) × ((label : ℕ) → place_in a.places label ≡ place_of a.items label) };
}

impl Assembler {
    /// No code yet, from an address on, which is a multiple of 4. It takes no memory; later calls take theirs from `alloc`.
    pub fn new(alloc: Global, address: u32) -> Assembler
        requires { address % 4 ≡ 0 }
        ensures { result ≡ record { address = address; items = []; labels = 0 } }
    {
        Assembler {
            alloc,
            address,
            size: 0,
            items: Items::new(alloc),
            places: Places::new(alloc),
        }
    }

    /// The address behind the code so far.
    pub fn here(&self) -> u32
        ensures { result ≡ self.now.address + size_in self.now.items }
    {
        self.address + self.size
    }

    /// Adds an item that takes room. Refused with `Misfit` where its end has no address.
    fn push(&mut self, item: Item) -> Result<(), AsmNo>
        requires { TakesRoom item }
        ensures added { OnOk result (self.new ≡ record self.old { items = self.old.items ++ item ∷ [] }) }
        ensures refused { OnErr result (self.new ≡ self.old) }
    {
        let size = item.size();
        if u32::MAX - self.address - self.size < size {
            return Err(AsmNo::Misfit);
        }
        self.items.push(item)?;
        self.size += size;
        Ok(())
    }

    /// Adds the word of an instruction. Refused with `Misfit` where it has none, because its immediate is outside the range of its
    /// format, or where its end has no address in 32 bits; and for want of memory.
    pub fn emit(&mut self, inst: Inst) -> Result<(), AsmNo>
        ensures valid { OnOk result (IsValid inst) }
        ensures added { OnOk result (self.new ≡ record self.old { items = self.old.items ++ line inst ∷ [] }) }
        ensures refused { OnErr result (self.new ≡ self.old) }
    {
        if !inst.is_valid() {
            return Err(AsmNo::Misfit);
        }
        self.push(Item::Line(encode(inst)))
    }

    /// Adds instructions, one behind the other. Refused as `emit` is.
    pub fn emit_all(&mut self, insts: &[Inst]) -> Result<(), AsmNo>
        ensures { OnOk result (self.new ≡ record self.old { items = self.old.items ++ map line insts.now }) }
    {
        'insts: for inst in insts {
            self.emit(*inst)?;
        }
        Ok(())
    }

    /// A new label, which is not bound. Refused with `Misfit` where there are 2^32 - 1 labels, and for want of memory.
    #[tactic(auto, using(crate::proofs::Placing::place_in_add))]
    pub fn label(&mut self) -> Result<Label, AsmNo>
        ensures made { OnOk result (self.new ≡ record self.old { labels = self.old.labels + 1 }) }
        ensures number { IfOk result (λ label. label ≡ self.old.labels) }
        ensures refused { OnErr result (self.new ≡ self.old) }
    {
        let number = u32::try_from(self.places.len()).map_err(|_| AsmNo::Misfit)?;
        self.places.add()?;
        Ok(Label::new(number))
    }

    /// The label means the address behind the code so far. Refused with `Misfit` exactly where it is bound, or none of this
    /// assembler's labels, and for want of memory.
    pub fn bind(&mut self, label: Label) -> Result<(), AsmNo>
        ensures bound { OnOk result (self.new ≡ record self.old { items = self.old.items ++ Bind label ∷ [] }) }
        ensures refused { OnErr result (self.new ≡ self.old) }
    {
        if !self.places.is_unbound(label) {
            return Err(AsmNo::Misfit);
        }
        self.items.push(Item::Bind(label))?;
        self.places.set(label, self.size);
        Ok(())
    }

    /// Adds a jump to a label, wherever it is bound: AUIPC and JALR through x31. The link register becomes the address behind
    /// them. Refused as `emit` is.
    pub fn jump(&mut self, label: Label, link: Reg) -> Result<(), AsmNo>
        ensures added { OnOk result (self.new ≡ record self.old { items = self.old.items ++ Leap label link ∷ [] }) }
        ensures refused { OnErr result (self.new ≡ self.old) }
    {
        self.push(Item::Leap { label, link })
    }
}
