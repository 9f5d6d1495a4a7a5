//! Which operator a punctuator spells.

use c_lexer::Punctuator;
use c_syntax::{Binary, Step, Unary};

/// The operator with two operands that a punctuator spells between them (C90 6.3.5 to 6.3.14).
pub fn binary_operator(punctuator: Punctuator) -> Option<Binary> {
    match punctuator {
        Punctuator::OrOr => Some(Binary::LogicalOr),
        Punctuator::AndAnd => Some(Binary::LogicalAnd),
        Punctuator::Bar => Some(Binary::Or),
        Punctuator::Caret => Some(Binary::ExclusiveOr),
        Punctuator::Ampersand => Some(Binary::And),
        Punctuator::EqualEqual => Some(Binary::Equal),
        Punctuator::NotEqual => Some(Binary::Unequal),
        Punctuator::Less => Some(Binary::Less),
        Punctuator::Greater => Some(Binary::Greater),
        Punctuator::LessEqual => Some(Binary::NotGreater),
        Punctuator::GreaterEqual => Some(Binary::NotLess),
        Punctuator::ShiftLeft => Some(Binary::ShiftLeft),
        Punctuator::ShiftRight => Some(Binary::ShiftRight),
        Punctuator::Plus => Some(Binary::Add),
        Punctuator::Minus => Some(Binary::Subtract),
        Punctuator::Star => Some(Binary::Multiply),
        Punctuator::Slash => Some(Binary::Divide),
        Punctuator::Percent => Some(Binary::Remainder),
        _ => None,
    }
}

/// How tightly an operator with two operands binds: from 0, the loosest, to 9 (C90 6.3.5 to 6.3.14).
pub fn level_of(operator: Binary) -> u8 {
    match operator {
        Binary::LogicalOr => 0,
        Binary::LogicalAnd => 1,
        Binary::Or => 2,
        Binary::ExclusiveOr => 3,
        Binary::And => 4,
        Binary::Equal | Binary::Unequal => 5,
        Binary::Less | Binary::Greater | Binary::NotGreater | Binary::NotLess => 6,
        Binary::ShiftLeft | Binary::ShiftRight => 7,
        Binary::Add | Binary::Subtract => 8,
        Binary::Multiply | Binary::Divide | Binary::Remainder => 9,
    }
}

/// The assignment that a punctuator spells: `Some(None)` is `=`, and with an operator it is a compound one (C90 6.3.16).
pub fn assignment_operator(punctuator: Punctuator) -> Option<Option<Binary>> {
    match punctuator {
        Punctuator::Assign => Some(None),
        Punctuator::StarAssign => Some(Some(Binary::Multiply)),
        Punctuator::SlashAssign => Some(Some(Binary::Divide)),
        Punctuator::PercentAssign => Some(Some(Binary::Remainder)),
        Punctuator::PlusAssign => Some(Some(Binary::Add)),
        Punctuator::MinusAssign => Some(Some(Binary::Subtract)),
        Punctuator::ShiftLeftAssign => Some(Some(Binary::ShiftLeft)),
        Punctuator::ShiftRightAssign => Some(Some(Binary::ShiftRight)),
        Punctuator::AndAssign => Some(Some(Binary::And)),
        Punctuator::CaretAssign => Some(Some(Binary::ExclusiveOr)),
        Punctuator::OrAssign => Some(Some(Binary::Or)),
        _ => None,
    }
}

/// The operator that a punctuator spells before its one operand, but for `++` and `--` (C90 6.3.3).
pub fn prefix_operator(punctuator: Punctuator) -> Option<Unary> {
    match punctuator {
        Punctuator::Ampersand => Some(Unary::Address),
        Punctuator::Star => Some(Unary::Indirection),
        Punctuator::Plus => Some(Unary::Plus),
        Punctuator::Minus => Some(Unary::Minus),
        Punctuator::Tilde => Some(Unary::Complement),
        Punctuator::Exclamation => Some(Unary::Not),
        _ => None,
    }
}

/// `++` and `--`, which stand before or behind their operand (C90 6.3.2.4, 6.3.3.1).
pub fn step_operator(punctuator: Punctuator) -> Option<Step> {
    match punctuator {
        Punctuator::Increment => Some(Step::Increment),
        Punctuator::Decrement => Some(Step::Decrement),
        _ => None,
    }
}
