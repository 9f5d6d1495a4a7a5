//! Operators with two operands, by what their rules ask (C90 6.3.5 to 6.3.14).

use c_ops::Operator;
use c_syntax::Binary;

/// An operator on signed integers, and the same on unsigned ones and pointers.
#[derive(Clone, Copy)]
pub struct Signs {
    pub signed: Operator,
    pub unsigned: Operator,
}

/// Operators with the same rules.
#[derive(Clone, Copy)]
pub enum Group {
    /// `&&`.
    Both,
    /// `||`.
    Either,
    /// `* / % & ^ |`: two integers.
    Arithmetic(Signs),
    /// `<< >>`.
    Shift(Signs),
    /// `+`.
    Sum,
    /// `-`.
    Difference,
    /// `== !=`.
    Equality(Operator),
    /// `< > <= >=`.
    Relation(Signs),
}

impl Signs {
    /// The one for operands of this sign.
    pub fn of(self, is_unsigned: bool) -> Operator {
        if is_unsigned {
            self.unsigned
        } else {
            self.signed
        }
    }
}

/// An operator for which signs make no difference.
pub fn same(op: Operator) -> Signs {
    Signs {
        signed: op,
        unsigned: op,
    }
}

/// An operator for which they do.
fn by_sign(signed: Operator, unsigned: Operator) -> Signs {
    Signs { signed, unsigned }
}

/// The rules that an operator follows.
pub fn group_of(op: Binary) -> Group {
    match op {
        Binary::LogicalAnd => Group::Both,
        Binary::LogicalOr => Group::Either,
        Binary::Or => Group::Arithmetic(same(Operator::Or)),
        Binary::ExclusiveOr => Group::Arithmetic(same(Operator::Xor)),
        Binary::And => Group::Arithmetic(same(Operator::And)),
        Binary::Multiply => Group::Arithmetic(same(Operator::Multiply)),
        Binary::Divide => Group::Arithmetic(by_sign(Operator::Divide, Operator::DivideUnsigned)),
        Binary::Remainder => {
            Group::Arithmetic(by_sign(Operator::Remainder, Operator::RemainderUnsigned))
        }
        Binary::ShiftLeft => Group::Shift(same(Operator::ShiftLeft)),
        Binary::ShiftRight => {
            Group::Shift(by_sign(Operator::ShiftRight, Operator::ShiftRightUnsigned))
        }
        Binary::Add => Group::Sum,
        Binary::Subtract => Group::Difference,
        Binary::Equal => Group::Equality(Operator::Equal),
        Binary::Unequal => Group::Equality(Operator::Unequal),
        Binary::Less => Group::Relation(by_sign(Operator::Less, Operator::LessUnsigned)),
        Binary::Greater => Group::Relation(by_sign(Operator::Greater, Operator::GreaterUnsigned)),
        Binary::NotGreater => {
            Group::Relation(by_sign(Operator::NotGreater, Operator::NotGreaterUnsigned))
        }
        Binary::NotLess => Group::Relation(by_sign(Operator::NotLess, Operator::NotLessUnsigned)),
    }
}
