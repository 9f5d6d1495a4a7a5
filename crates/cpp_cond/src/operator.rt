//! What the operators compute (C90 6.3).

ghost use Rattle.std.specs.Prelude.{◌≡◌, ◌==◌, if◌then◌else◌, not, nat_lt, Some, None};
ghost use Rattle.cpp_cond.specs.Expressions.{unary_of, binary_of, level_of};
ghost use Rattle.cpp_cond.specs.Reading.{rank};
ghost use Rattle.cpp_cond.specs.Values.{unary_value, binary_value, joint, is_less, quotient, remainder, shifted_right};

use crate::value::Value;
use c_lexer::Punctuator;

/// An operator with one operand.
#[derive(Clone, Copy, Debug, PartialEq, Eq)]
pub enum Unary {
    Plus,
    Minus,
    Complement,
    Not,
}

/// An operator with two operands that are always evaluated both.
#[derive(Clone, Copy, Debug, PartialEq, Eq)]
pub enum Binary {
    Multiply,
    Divide,
    Remainder,
    Add,
    Subtract,
    ShiftLeft,
    ShiftRight,
    Less,
    Greater,
    NotGreater,
    NotLess,
    Equal,
    Unequal,
    And,
    ExclusiveOr,
    Or,
}

/// How tightly a construct holds its last operand, loosest first (C90 6.3).
#[derive(Clone, Copy, Debug, PartialEq, Eq, PartialOrd, Ord)]
pub enum Level {
    /// An open parenthesis, or `?` before its colon: it ends by a token of its own.
    Enclosing,
    Conditional,
    LogicalOr,
    LogicalAnd,
    Or,
    ExclusiveOr,
    And,
    Equality,
    Relational,
    Shift,
    Additive,
    Multiplicative,
    Unary,
}

impl Level {
    /// Whether a construct of this level holds an operand at least as tightly as that level.
    pub fn reaches(self, level: Level) -> bool
        ensures { result ≡ not (nat_lt (rank self) (rank level)) }
    {
        self >= level
    }
}

impl Unary {
    /// The operator that is spelled so.
    pub fn of(punctuator: Punctuator) -> Option<Unary>
        ensures { result ≡ unary_of punctuator }
    {
        match punctuator {
            Punctuator::Plus => Some(Unary::Plus),
            Punctuator::Minus => Some(Unary::Minus),
            Punctuator::Tilde => Some(Unary::Complement),
            Punctuator::Exclamation => Some(Unary::Not),
            _ => None,
        }
    }

    /// What it makes of an operand (C90 6.3.3.3). It wraps.
    pub fn value(self, operand: Value) -> Value
        ensures { result ≡ unary_value self operand }
    {
        match self {
            Unary::Plus => operand,
            Unary::Minus => operand.alike(operand.bits.wrapping_neg()),
            Unary::Complement => operand.alike(!operand.bits),
            Unary::Not => Value::truth(!operand.is_true()),
        }
    }
}

impl Binary {
    /// The operator that is spelled so.
    pub fn of(punctuator: Punctuator) -> Option<Binary>
        ensures { result ≡ binary_of punctuator }
    {
        match punctuator {
            Punctuator::Star => Some(Binary::Multiply),
            Punctuator::Slash => Some(Binary::Divide),
            Punctuator::Percent => Some(Binary::Remainder),
            Punctuator::Plus => Some(Binary::Add),
            Punctuator::Minus => Some(Binary::Subtract),
            Punctuator::ShiftLeft => Some(Binary::ShiftLeft),
            Punctuator::ShiftRight => Some(Binary::ShiftRight),
            Punctuator::Less => Some(Binary::Less),
            Punctuator::Greater => Some(Binary::Greater),
            Punctuator::LessEqual => Some(Binary::NotGreater),
            Punctuator::GreaterEqual => Some(Binary::NotLess),
            Punctuator::EqualEqual => Some(Binary::Equal),
            Punctuator::NotEqual => Some(Binary::Unequal),
            Punctuator::Ampersand => Some(Binary::And),
            Punctuator::Caret => Some(Binary::ExclusiveOr),
            Punctuator::Bar => Some(Binary::Or),
            _ => None,
        }
    }

    /// How tightly it holds its operands.
    pub fn level(self) -> Level
        ensures { result ≡ level_of self }
    {
        match self {
            Binary::Multiply | Binary::Divide | Binary::Remainder => Level::Multiplicative,
            Binary::Add | Binary::Subtract => Level::Additive,
            Binary::ShiftLeft | Binary::ShiftRight => Level::Shift,
            Binary::Less | Binary::Greater | Binary::NotGreater | Binary::NotLess => {
                Level::Relational
            }
            Binary::Equal | Binary::Unequal => Level::Equality,
            Binary::And => Level::And,
            Binary::ExclusiveOr => Level::ExclusiveOr,
            Binary::Or => Level::Or,
        }
    }

    /// What it makes of two operands, after the usual conversions (C90 6.2.1.5) but for a shift, which has its left
    /// operand's type. Arithmetic wraps, a shift counts modulo 32 and a signed right shift keeps the sign. None where
    /// it divides by zero.
    pub fn value(self, left: Value, right: Value) -> Option<Value>
        ensures { result ≡ binary_value self left right }
    {
        Some(match self {
            Binary::Multiply => left.joint(right, left.bits.wrapping_mul(right.bits)),
            Binary::Divide => quotient(left, right)?,
            Binary::Remainder => remainder(left, right)?,
            Binary::Add => left.joint(right, left.bits.wrapping_add(right.bits)),
            Binary::Subtract => left.joint(right, left.bits.wrapping_sub(right.bits)),
            Binary::ShiftLeft => left.alike(left.bits << (right.bits % 32)),
            Binary::ShiftRight => left.alike(shifted_right(left, right.bits)),
            Binary::Less => Value::truth(is_less(left, right)),
            Binary::Greater => Value::truth(is_less(right, left)),
            Binary::NotGreater => Value::truth(!is_less(right, left)),
            Binary::NotLess => Value::truth(!is_less(left, right)),
            Binary::Equal => Value::truth(left.bits == right.bits),
            Binary::Unequal => Value::truth(left.bits != right.bits),
            Binary::And => left.joint(right, left.bits & right.bits),
            Binary::ExclusiveOr => left.joint(right, left.bits ^ right.bits),
            Binary::Or => left.joint(right, left.bits | right.bits),
        })
    }
}

/// The quotient, toward zero; of the least long by -1 it is that long. None by zero.
fn quotient(left: Value, right: Value) -> Option<Value>
    ensures { result ≡ (if right.bits == 0 then None else Some (joint left right (quotient left right))) }
{
    if right.bits == 0 {
        return None;
    }
    let bits = if left.is_unsigned || right.is_unsigned {
        left.bits / right.bits
    } else {
        left.bits
            .cast_signed()
            .wrapping_div(right.bits.cast_signed())
            .cast_unsigned()
    };
    Some(left.joint(right, bits))
}

/// The remainder, with the first one's sign; of the least long by -1 it is 0. None by zero.
fn remainder(left: Value, right: Value) -> Option<Value>
    ensures { result ≡ (if right.bits == 0 then None else Some (joint left right (remainder left right))) }
{
    if right.bits == 0 {
        return None;
    }
    let bits = if left.is_unsigned || right.is_unsigned {
        left.bits % right.bits
    } else {
        left.bits
            .cast_signed()
            .wrapping_rem(right.bits.cast_signed())
            .cast_unsigned()
    };
    Some(left.joint(right, bits))
}

/// The bits shifted right by that count modulo 32, with the sign of a long.
fn shifted_right(value: Value, count: u32) -> u32
    ensures { result ≡ shifted_right value count }
{
    if value.is_unsigned {
        value.bits >> (count % 32)
    } else {
        (value.bits.cast_signed() >> (count % 32)).cast_unsigned()
    }
}

/// Whether the first is less.
fn is_less(left: Value, right: Value) -> bool
    ensures { result ≡ is_less left right }
{
    if left.is_unsigned || right.is_unsigned {
        left.bits < right.bits
    } else {
        left.bits.cast_signed() < right.bits.cast_signed()
    }
}
