//! Typed expressions.

use c_ops::{Operator, Primitive, UnaryOperator};
use c_types::TypeId;
use fsc_base::{Place, Width};
use sqlite_items::{Boxed, Items};

/// Something that is there from the start and has an address: what a name with linkage stands for, or an object of the
/// unit without one, as a string literal and a static object of a block.
#[derive(Clone, Copy, Debug, PartialEq, Eq)]
pub enum Symbol {
    /// The symbol of the unit with this index.
    Named(u32),
    /// The static object of the unit with this index.
    Object(u32),
}

/// How the value of a scalar object is read and stored.
#[derive(Clone, Copy, Debug, PartialEq, Eq)]
pub enum Access {
    Scalar {
        width: Width,
        is_signed: bool,
    },
    /// A bit-field: its first bit in its unit of 4 bytes, and how many bits it has.
    Bits {
        first: u32,
        count: u32,
        is_signed: bool,
    },
}

/// What a conversion does to a word (C90 6.2).
#[derive(Clone, Copy, Debug, PartialEq, Eq)]
pub enum Conversion {
    /// The word stays.
    Keep,
    /// It becomes a value of a type of 1 or 2 bytes, without a base.
    Narrow { width: Width, is_signed: bool },
    /// It stays, and becomes a pointer to this type of complete objects.
    Decide(TypeId),
}

/// The operator of a compound assignment, and of `++` and `--`.
#[derive(Clone, Copy, Debug, PartialEq, Eq)]
pub enum CompoundOp {
    Plain(Operator),
    /// A pointer plus an integer, with the size of the type that it points to.
    PointerPlus(u32),
    PointerMinus(u32),
}

/// Which operand is the pointer.
#[derive(Clone, Copy, Debug, PartialEq, Eq)]
pub enum Side {
    Left,
    Right,
}

/// A step by `.` or `->`: the member's offset, that of its unit where it is a bit-field, and the type of the record.
#[derive(Clone, Copy, Debug, PartialEq, Eq)]
pub struct Member {
    pub offset: u32,
    pub record: TypeId,
}

/// An expression with its type, and the place of its first token. There is one for each expression of the text but
/// parentheses, and one for each conversion.
#[derive(Drop)]
pub struct TExpr {
    pub form: Form<TExpr>,
    pub kind: TypeId,
    pub place: Place,
}

/// The forms of an expression, over the expressions in it. Sizes are in bytes.
#[derive(Drop)]
pub enum Form<E> {
    /// A name with linkage, a string literal, or a static object of a block.
    Static(Symbol),
    /// A parameter or automatic name of the function, by its index among them.
    Local(u32),
    /// `*e`.
    Deref(Boxed<E>),
    /// `base[index]`, its operands as in the text; the size is that of an element.
    Index {
        base: Boxed<E>,
        index: Boxed<E>,
        pointer: Side,
        size: u32,
    },
    /// `e.m`.
    Dot(Boxed<E>, Member),
    /// `e->m`.
    Arrow(Boxed<E>, Member),
    /// The value of the scalar lvalue.
    Value(Boxed<E>, Access),
    /// An array as a pointer to its first element, a function as a pointer to it.
    Decay(Boxed<E>),
    /// A cast, or a conversion that the text leaves out.
    Convert(Boxed<E>, Conversion),
    /// A constant, an enumerator or a `sizeof`.
    Number(u32),
    /// `&e`.
    AddressOf(Boxed<E>),
    Unary(UnaryOperator, Boxed<E>),
    /// An operator on two integers, or a comparison of two pointers.
    Binary(Operator, Boxed<E>, Boxed<E>),
    /// A pointer plus an integer, in either order; the size is that of an element.
    PointerAdd {
        left: Boxed<E>,
        right: Boxed<E>,
        pointer: Side,
        size: u32,
    },
    /// A pointer minus an integer.
    PointerMinus {
        pointer: Boxed<E>,
        index: Boxed<E>,
        size: u32,
    },
    /// A pointer minus a pointer.
    PointerDifference {
        left: Boxed<E>,
        right: Boxed<E>,
        size: u32,
    },
    /// `a && b`.
    Both(Boxed<E>, Boxed<E>),
    /// `a || b`.
    Either(Boxed<E>, Boxed<E>),
    /// `a ? b : c`.
    Choose(Boxed<E>, Boxed<E>, Boxed<E>),
    /// `a, b, ..`: two parts or more.
    Comma(Items<E>),
    Assign {
        target: Boxed<E>,
        value: Boxed<E>,
        access: Access,
    },
    /// An assignment of a struct or union.
    AssignRecord {
        target: Boxed<E>,
        value: Boxed<E>,
        size: u32,
    },
    /// `target op= value`.
    Compound {
        target: Boxed<E>,
        op: CompoundOp,
        value: Boxed<E>,
        access: Access,
    },
    /// `++` or `--`.
    Step {
        target: Boxed<E>,
        op: CompoundOp,
        is_prefix: bool,
        access: Access,
    },
    Call {
        function: Boxed<E>,
        arguments: Items<E>,
    },
    /// A call whose value is a struct or union: its number among those of the function, in order of their opening
    /// parentheses.
    CallRecord {
        function: Boxed<E>,
        arguments: Items<E>,
        number: u32,
    },
    /// A call of a primitive.
    Primitive(Primitive, Items<E>),
}
