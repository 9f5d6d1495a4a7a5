//! Operators, and what they give (C90 6.3).

ghost use Rattle.std.specs.Prelude.{◌≡◌};
ghost use Rattle.c_ops.specs.Operators.{operated, turned, binary_of, unary_of};

use crate::words;
use fsc_base::Word;

/// An operator of C with two operands of one type, both evaluated, after the conversions of C90 6.2.1.5; a shift has the type of its
/// left operand. Where signs make a difference, the name alone is signed; unsigned integers and pointers have the other.
#[derive(Clone, Copy, Debug, PartialEq, Eq)]
pub enum Operator {
    Add,
    Subtract,
    Multiply,
    Divide,
    DivideUnsigned,
    Remainder,
    RemainderUnsigned,
    And,
    Or,
    Xor,
    ShiftLeft,
    ShiftRight,
    ShiftRightUnsigned,
    Equal,
    Unequal,
    Less,
    LessUnsigned,
    Greater,
    GreaterUnsigned,
    NotGreater,
    NotGreaterUnsigned,
    NotLess,
    NotLessUnsigned,
}

/// An operator of C with one operand (C90 6.3.3.3).
#[derive(Clone, Copy, Debug, PartialEq, Eq)]
pub enum UnaryOperator {
    Plus,
    Minus,
    Complement,
    Not,
}

/// An operation of fat code on two words, in the order of its numbers. What is greater is less with its words exchanged.
#[derive(Clone, Copy, Debug, PartialEq, Eq)]
pub enum Binary {
    Add,
    Subtract,
    Multiply,
    Divide,
    DivideUnsigned,
    Remainder,
    RemainderUnsigned,
    And,
    Or,
    Xor,
    ShiftLeft,
    ShiftRight,
    ShiftRightUnsigned,
    Equal,
    Unequal,
    Less,
    LessUnsigned,
    NotGreater,
    NotGreaterUnsigned,
}

/// An operation of fat code on one word, in the order of its numbers.
#[derive(Clone, Copy, Debug, PartialEq, Eq)]
pub enum Unary {
    Minus,
    Complement,
    Not,
}

impl Operator {
    /// What it gives; None exactly where it divides by zero.
    #[tactic(auto, unfolding(crate::specs::Operators::operated))]
    pub fn apply(self, left: Word, right: Word) -> Option<Word>
        ensures { result ≡ operated self left right }
    {
        Some(match self {
            Operator::Add => words::sum(left, right),
            Operator::Subtract => words::difference(left, right),
            Operator::Multiply => words::product(left, right),
            Operator::Divide => return words::quotient(left, right),
            Operator::DivideUnsigned => return words::quotient_unsigned(left, right),
            Operator::Remainder => return words::remainder(left, right),
            Operator::RemainderUnsigned => return words::remainder_unsigned(left, right),
            Operator::And => words::and(left, right),
            Operator::Or => words::or(left, right),
            Operator::Xor => words::xor(left, right),
            Operator::ShiftLeft => words::shifted_left(left, right),
            Operator::ShiftRight => words::shifted_right(left, right),
            Operator::ShiftRightUnsigned => words::shifted_right_unsigned(left, right),
            Operator::Equal => words::equal(left, right),
            Operator::Unequal => words::unequal(left, right),
            Operator::Less => words::less(left, right),
            Operator::LessUnsigned => words::less_unsigned(left, right),
            Operator::Greater => words::less(right, left),
            Operator::GreaterUnsigned => words::less_unsigned(right, left),
            Operator::NotGreater => words::not_greater(left, right),
            Operator::NotGreaterUnsigned => words::not_greater_unsigned(left, right),
            Operator::NotLess => words::not_greater(right, left),
            Operator::NotLessUnsigned => words::not_greater_unsigned(right, left),
        })
    }
}

impl UnaryOperator {
    /// What it gives.
    #[tactic(auto, unfolding(crate::specs::Operators::turned))]
    pub fn apply(self, operand: Word) -> Word
        ensures { result ≡ turned self operand }
    {
        match self {
            UnaryOperator::Plus => operand,
            UnaryOperator::Minus => words::negated(operand),
            UnaryOperator::Complement => words::complemented(operand),
            UnaryOperator::Not => words::truth_denied(operand),
        }
    }
}

impl Binary {
    /// What it gives; None exactly where it divides by zero.
    #[tactic(auto, unfolding(crate::specs::Operators::binary_of))]
    pub fn apply(self, left: Word, right: Word) -> Option<Word>
        ensures { result ≡ binary_of self left right }
    {
        Some(match self {
            Binary::Add => words::sum(left, right),
            Binary::Subtract => words::difference(left, right),
            Binary::Multiply => words::product(left, right),
            Binary::Divide => return words::quotient(left, right),
            Binary::DivideUnsigned => return words::quotient_unsigned(left, right),
            Binary::Remainder => return words::remainder(left, right),
            Binary::RemainderUnsigned => return words::remainder_unsigned(left, right),
            Binary::And => words::and(left, right),
            Binary::Or => words::or(left, right),
            Binary::Xor => words::xor(left, right),
            Binary::ShiftLeft => words::shifted_left(left, right),
            Binary::ShiftRight => words::shifted_right(left, right),
            Binary::ShiftRightUnsigned => words::shifted_right_unsigned(left, right),
            Binary::Equal => words::equal(left, right),
            Binary::Unequal => words::unequal(left, right),
            Binary::Less => words::less(left, right),
            Binary::LessUnsigned => words::less_unsigned(left, right),
            Binary::NotGreater => words::not_greater(left, right),
            Binary::NotGreaterUnsigned => words::not_greater_unsigned(left, right),
        })
    }
}

impl Unary {
    /// What it gives.
    #[tactic(auto, unfolding(crate::specs::Operators::unary_of))]
    pub fn apply(self, operand: Word) -> Word
        ensures { result ≡ unary_of self operand }
    {
        match self {
            Unary::Minus => words::negated(operand),
            Unary::Complement => words::complemented(operand),
            Unary::Not => words::truth_denied(operand),
        }
    }
}
