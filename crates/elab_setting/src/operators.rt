//! Which operations operators are.

use c_ops::{Binary, Operator};

/// The operation of an operator, and whether its operands are exchanged before.
pub fn binary_of(op: Operator) -> (bool, Binary) {
    match op {
        Operator::Add => (false, Binary::Add),
        Operator::Subtract => (false, Binary::Subtract),
        Operator::Multiply => (false, Binary::Multiply),
        Operator::Divide => (false, Binary::Divide),
        Operator::DivideUnsigned => (false, Binary::DivideUnsigned),
        Operator::Remainder => (false, Binary::Remainder),
        Operator::RemainderUnsigned => (false, Binary::RemainderUnsigned),
        Operator::And => (false, Binary::And),
        Operator::Or => (false, Binary::Or),
        Operator::Xor => (false, Binary::Xor),
        Operator::ShiftLeft => (false, Binary::ShiftLeft),
        Operator::ShiftRight => (false, Binary::ShiftRight),
        Operator::ShiftRightUnsigned => (false, Binary::ShiftRightUnsigned),
        Operator::Equal => (false, Binary::Equal),
        Operator::Unequal => (false, Binary::Unequal),
        Operator::Less => (false, Binary::Less),
        Operator::LessUnsigned => (false, Binary::LessUnsigned),
        Operator::NotGreater => (false, Binary::NotGreater),
        Operator::NotGreaterUnsigned => (false, Binary::NotGreaterUnsigned),
        Operator::Greater => (true, Binary::Less),
        Operator::GreaterUnsigned => (true, Binary::LessUnsigned),
        Operator::NotLess => (true, Binary::NotGreater),
        Operator::NotLessUnsigned => (true, Binary::NotGreaterUnsigned),
    }
}
