//! Values of a controlling expression.

ghost use Rattle.std.specs.Prelude.{◌≡◌};

use c_lexer::{BasicType, TokenKind};

/// A value of a controlling expression. All of its integers are 32 bits wide there (C90 6.8.1): signed types act as
/// long, unsigned ones as unsigned long.
#[derive(Clone, Copy, Debug, PartialEq, Eq)]
pub struct Value {
    /// Its bits; a negative long is stored in two's complement.
    pub bits: u32,
    /// Whether it is an unsigned long.
    pub is_unsigned: bool,
}

impl Value {
    ghost use Rattle.std.specs.Prelude.{Some};
    ghost use Rattle.cpp_cond.specs.Constants.{constant_value, IsConstantToken};
    ghost use Rattle.cpp_cond.specs.Values.{truth, is_true, joint, alike};

    /// The value of a constant: unsigned int acts as unsigned long, the other types as themselves or as long.
    pub fn of_constant(kind: &TokenKind) -> Value
        requires { IsConstantToken kind.now }
        ensures { constant_value kind.now ≡ Some result }
    {
        match kind {
            TokenKind::Int(bits, basic) => Value {
                bits: *bits,
                is_unsigned: matches!(*basic, BasicType::Unsigned | BasicType::UnsignedLong),
            },
            TokenKind::Char(bits) => Value {
                bits: *bits,
                is_unsigned: false,
            },
            TokenKind::Name(_) => unreachable!(),
            TokenKind::Keyword(_) => unreachable!(),
            TokenKind::Str(_) => unreachable!(),
            TokenKind::Punct(_) => unreachable!(),
            TokenKind::End => unreachable!(),
        }
    }

    /// What a comparison answers: the long 1 or 0.
    pub fn truth(holds: bool) -> Value
        ensures { result ≡ truth holds }
    {
        Value {
            bits: u32::from(holds),
            is_unsigned: false,
        }
    }

    /// Whether it is not 0.
    pub fn is_true(self) -> bool
        ensures { result ≡ is_true self }
    {
        self.bits != 0
    }

    /// These bits in the common type of two values: unsigned long where either is (C90 6.2.1.5).
    pub fn joint(self, other: Value, bits: u32) -> Value
        ensures { result ≡ joint self other bits }
    {
        Value {
            bits,
            is_unsigned: self.is_unsigned || other.is_unsigned,
        }
    }

    /// These bits in its type.
    pub fn alike(self, bits: u32) -> Value
        ensures { result ≡ alike self bits }
    {
        Value {
            bits,
            is_unsigned: self.is_unsigned,
        }
    }
}
