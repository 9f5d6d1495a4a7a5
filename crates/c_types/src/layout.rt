//! Layouts.

ghost use Rattle.std.specs.Prelude.{◌≡◌};
ghost use Rattle.c_types.specs.declared.layout.LayoutNo.TheVariants as refusals;

use crate::node::Basic;
use fsc_base::{NoMemory, WordKind};
use std::alloc::{AllocError, AllocFailed, Global};
use type_desc::Kinds;

/// A complete object type as memory sees it.
#[derive(Debug, Drop)]
pub struct Layout {
    /// In bytes.
    pub size: u32,
    /// In bytes: 1, 2 or 4.
    pub align: u32,
    /// The kinds of its words, in their least period: word w of an object has the kind of w modulo their number.
    pub kinds: Kinds,
}

/// The size in bytes above which a type is refused: 2^27.
pub const LARGEST: u64 = 0x0800_0000;

/// Why an array, struct or union is refused.
#[derive(Clone, Copy, Debug, PartialEq, Eq)]
pub enum LayoutNo {
    /// Its element, or one of its members, is of no complete object type.
    Part,
    /// It would be larger than 2^27 bytes.
    Large,
    /// It was to be completed, and is no incomplete struct or union.
    NotIncomplete,
    /// No memory was left for what had to be kept.
    NoMemory,
}

impl From<NoMemory> for LayoutNo {
    ghost from_gives = { λ _ refusal. refusal ≡ refusals.NoMemory };

    fn from(_refusal: NoMemory) -> LayoutNo {
        LayoutNo::NoMemory
    }
}

impl From<AllocError> for LayoutNo {
    ghost from_gives = { λ _ refusal. refusal ≡ refusals.NoMemory };

    fn from(_error: AllocError) -> LayoutNo {
        LayoutNo::NoMemory
    }
}

impl<T: Drop> From<AllocFailed<T>> for LayoutNo {
    ghost from_gives = { λ _ refusal. refusal ≡ refusals.NoMemory };

    fn from(_error: AllocFailed<T>) -> LayoutNo {
        LayoutNo::NoMemory
    }
}

impl Layout {
    ghost use Rattle.std.specs.Prelude.{◌≡◌, IfOk};
    ghost use Rattle.std.specs.Prelude.{◌*◌, ◌≤◌, Some};
    ghost use Rattle.c_types.specs.Layouts.{scalar, layout_in};
    ghost use Rattle.c_types.specs.declared.node.TypeNode.TheVariants.{Array as array_node};

    /// That of an array of so many elements of this one; None of 0, where their number is unknown.
    #[tactic(auto, using(crate::proofs::Depths::array_none, crate::proofs::Depths::array_some))]
    pub(crate) fn times(&self, alloc: Global, count: u32) -> Result<Option<Layout>, NoMemory>
        requires { self.now.size * count ≤ 134217728 }
        ensures { IfOk result (λ layout. layout ≡ layout_in (λ _. Some self.now) (array_node 0 count)) }
    {
        if count == 0 {
            return Ok(None);
        }
        Ok(Some(Layout {
            size: self.size * count,
            align: self.align,
            kinds: Kinds::from_slice(alloc, self.kinds.as_slice())?,
        }))
    }

    /// That of a scalar of so many bytes.
    pub(crate) fn scalar(alloc: Global, size: u32) -> Result<Layout, NoMemory>
        ensures { IfOk result (λ layout. layout ≡ scalar size) }
    {
        let kind = if size == 4 {
            WordKind::Fat
        } else {
            WordKind::Narrow
        };
        Ok(Layout {
            size,
            align: size,
            kinds: Kinds::from_slice(alloc, &[kind])?,
        })
    }
}

impl Basic {
    ghost use Rattle.std.specs.Prelude.{◌≡◌};
    ghost use Rattle.c_types.specs.Layouts.{size_of_basic};

    /// Its size in bytes.
    pub fn size(self) -> u32
        ensures { result ≡ size_of_basic self }
    {
        match self {
            Basic::Char | Basic::SignedChar | Basic::UnsignedChar => 1,
            Basic::Short | Basic::UnsignedShort => 2,
            Basic::Int | Basic::Unsigned | Basic::Long | Basic::UnsignedLong => 4,
        }
    }
}
