//! Values of constant expressions while they are computed.

ghost use Rattle.std.specs.Prelude.{◌≡◌};
ghost use Rattle.c_ops.specs.Words.{plain as plain_word};
ghost use Rattle.c_tree.specs.Constants.{under as under_of, place_under as placed, pointer_behind as behind, number_in, as_pointer as pointer_of, as_integer as integer_of, known_in};
ghost use Rattle.c_const.specs.Told.{told, told_of, told_reach};

use c_tree::{Known, Symbol};
use fsc_base::Word;

/// What became of a pointer that was made of an integer.
#[derive(Clone, Copy, Debug, PartialEq, Eq)]
pub(crate) enum Reach {
    /// Nothing yet.
    Bare,
    /// The place of a member or element under it was taken, as `offsetof` does.
    Under,
    /// It was computed with otherwise.
    Other,
}

/// The value of a constant expression, or the address that it designates.
#[derive(Clone, Copy, Debug, PartialEq, Eq)]
pub(crate) enum Value {
    /// An integer.
    Whole(u32),
    /// A pointer that was made of an integer.
    Made(u32, Reach),
    /// An address, and so many bytes behind it.
    At(Symbol, u32),
}

/// A word without a base.
pub(crate) fn plain(value: u32) -> Word
    ensures { result ≡ plain_word value }
{
    Word { value, block: 0 }
}

/// What a pointer becomes where the place of a member or element under it is taken.
fn under(reach: Reach) -> Reach
    ensures { told_reach result ≡ under_of (told_reach reach) }
{
    match reach {
        Reach::Bare => Reach::Under,
        Reach::Under => Reach::Under,
        Reach::Other => Reach::Other,
    }
}

impl Value {
    /// The place of a member or element so many bytes behind (C90 6.3.2.3, 6.3.2.1). An integer has none.
    pub fn place_under(self, bytes: u32) -> Option<Value>
        ensures { told_of result ≡ placed bytes (told self) }
    {
        match self {
            Value::Whole(_) => None,
            Value::Made(number, reach) => {
                Some(Value::Made(number.wrapping_add(bytes), under(reach)))
            }
            Value::At(symbol, offset) => Some(Value::At(symbol, offset.wrapping_add(bytes))),
        }
    }

    /// A pointer so many bytes behind (C90 6.3.6). An integer has none.
    pub fn pointer_behind(self, bytes: u32) -> Option<Value>
        ensures { told_of result ≡ behind bytes (told self) }
    {
        match self {
            Value::Whole(_) => None,
            Value::Made(number, _) => Some(Value::Made(number.wrapping_add(bytes), Reach::Other)),
            Value::At(symbol, offset) => Some(Value::At(symbol, offset.wrapping_add(bytes))),
        }
    }

    /// An integer; None of a pointer.
    pub fn number(self) -> Option<u32>
        ensures { result ≡ number_in (told self) }
    {
        match self {
            Value::Whole(number) => Some(number),
            Value::Made(_, _) => None,
            Value::At(_, _) => None,
        }
    }

    /// As a pointer.
    pub fn as_pointer(self) -> Value
        ensures { told result ≡ pointer_of (told self) }
    {
        match self {
            Value::Whole(number) => Value::Made(number, Reach::Bare),
            Value::Made(number, reach) => Value::Made(number, reach),
            Value::At(symbol, offset) => Value::At(symbol, offset),
        }
    }

    /// As an integer. Of the pointers only one under a number has a constant one.
    pub fn as_integer(self) -> Option<u32>
        ensures { result ≡ integer_of (told self) }
    {
        match self {
            Value::Whole(number) => Some(number),
            Value::Made(number, Reach::Under) => Some(number),
            Value::Made(_, Reach::Bare) => None,
            Value::Made(_, Reach::Other) => None,
            Value::At(_, _) => None,
        }
    }

    /// As it is told.
    pub fn known(self) -> Known
        ensures { result ≡ known_in (told self) }
    {
        match self {
            Value::Whole(number) => Known::Number(number),
            Value::Made(number, _) => Known::Number(number),
            Value::At(symbol, offset) => Known::Address { symbol, offset },
        }
    }
}
