//! The operators and keywords that a production chooses among.

/// `++` and `--` (C90 6.3.2.4, 6.3.3.1).
#[derive(Clone, Copy, Debug, PartialEq, Eq)]
pub enum Step {
    Increment,
    Decrement,
}

/// `& * + - ~ !` before an operand (C90 6.3.3.2, 6.3.3.3).
#[derive(Clone, Copy, Debug, PartialEq, Eq)]
pub enum Unary {
    Address,
    Indirection,
    Plus,
    Minus,
    Complement,
    Not,
}

/// The operators with two operands, loosest first (C90 6.3.5 to 6.3.14).
#[derive(Clone, Copy, Debug, PartialEq, Eq)]
pub enum Binary {
    LogicalOr,
    LogicalAnd,
    Or,
    ExclusiveOr,
    And,
    Equal,
    Unequal,
    Less,
    Greater,
    NotGreater,
    NotLess,
    ShiftLeft,
    ShiftRight,
    Add,
    Subtract,
    Multiply,
    Divide,
    Remainder,
}

/// The storage-class specifiers (C90 6.5.1).
#[derive(Clone, Copy, Debug, PartialEq, Eq)]
pub enum Storage {
    Typedef,
    Extern,
    Static,
    Auto,
    Register,
}

/// The keywords that name types (C90 6.5.2).
#[derive(Clone, Copy, Debug, PartialEq, Eq)]
pub enum TypeKeyword {
    Void,
    Char,
    Short,
    Int,
    Long,
    Float,
    Double,
    Signed,
    Unsigned,
}

/// The type qualifiers (C90 6.5.3).
#[derive(Clone, Copy, Debug, PartialEq, Eq)]
pub enum Qualifier {
    Const,
    Volatile,
}

/// Which of the two records (C90 6.5.2.1).
#[derive(Clone, Copy, Debug, PartialEq, Eq)]
pub enum RecordKind {
    Struct,
    Union,
}
