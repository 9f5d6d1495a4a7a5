//! What code is made of.

ghost use Rattle.std.specs.Prelude.{◌≡◌, ◌≤◌};
ghost use Rattle.rv_asm.specs.Items.{size_of};

use crate::label::Label;
use rv_isa::Reg;

/// A part of code.
#[derive(Clone, Copy, Debug, PartialEq, Eq)]
pub enum Item {
    /// The word of an instruction.
    Line(u32),
    /// The place of a label. It takes no room.
    Bind(Label),
    /// A jump to a label: AUIPC to x31, and JALR from there. The link becomes the address behind it.
    Leap { label: Label, link: Reg },
}

impl Item {
    /// How many bytes it takes.
    pub fn size(&self) -> u32
        ensures size { result ≡ size_of self.now }
        ensures few { result ≤ 8 }
    {
        match self {
            Item::Line(_) => 4,
            Item::Bind(_) => 0,
            Item::Leap { .. } => 8,
        }
    }
}
