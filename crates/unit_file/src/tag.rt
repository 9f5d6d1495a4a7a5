//! Tags: enums and flags as numbers.

ghost use Rattle.std.specs.Prelude.{◌≡◌, ◌<◌, ◌≢◌, IfSome, IsNone};
ghost use Rattle.unit_file.specs.Tags.{flag_tag, kind_tag, linkage_tag, width_tag, basic_tag, unary_tag, binary_tag, primitive_tag};

use c_ops::{Binary, Linkage, Primitive, Unary};
use c_types::Basic;
use fsc_base::{Width, WordKind};

/// The number of an arithmetic type.
pub(crate) fn number_of_basic(basic: Basic) -> u32
    ensures { result ≡ basic_tag basic }
{
    match basic {
        Basic::Char => 0,
        Basic::SignedChar => 1,
        Basic::UnsignedChar => 2,
        Basic::Short => 3,
        Basic::UnsignedShort => 4,
        Basic::Int => 5,
        Basic::Unsigned => 6,
        Basic::Long => 7,
        Basic::UnsignedLong => 8,
    }
}

/// The arithmetic type with a number.
pub(crate) fn basic_of(number: u32) -> Option<Basic>
    ensures found { IfSome result (λ basic. basic_tag basic ≡ number) }
    ensures none { IsNone result → number ≢ 1 }
{
    match number {
        0 => Some(Basic::Char),
        1 => Some(Basic::SignedChar),
        2 => Some(Basic::UnsignedChar),
        3 => Some(Basic::Short),
        4 => Some(Basic::UnsignedShort),
        5 => Some(Basic::Int),
        6 => Some(Basic::Unsigned),
        7 => Some(Basic::Long),
        8 => Some(Basic::UnsignedLong),
        _ => None,
    }
}

/// A width in bytes.
pub(crate) fn number_of_width(width: Width) -> u32
    ensures { result ≡ width_tag width }
{
    match width {
        Width::One => 1,
        Width::Two => 2,
        Width::Four => 4,
    }
}

/// The width of so many bytes.
pub(crate) fn width_of(number: u32) -> Option<Width>
    ensures found { IfSome result (λ width. width_tag width ≡ number) }
    ensures none { IsNone result → number ≢ 1 }
{
    match number {
        1 => Some(Width::One),
        2 => Some(Width::Two),
        4 => Some(Width::Four),
        _ => None,
    }
}

/// The number of a kind of words.
pub(crate) fn number_of_kind(kind: WordKind) -> u32
    ensures { result ≡ kind_tag kind }
{
    match kind {
        WordKind::Narrow => 0,
        WordKind::Fat => 1,
    }
}

/// The kind of words with a number.
pub(crate) fn kind_of(number: u32) -> Option<WordKind>
    ensures found { IfSome result (λ kind. kind_tag kind ≡ number) }
    ensures none { IsNone result → number ≢ 1 }
{
    match number {
        0 => Some(WordKind::Narrow),
        1 => Some(WordKind::Fat),
        _ => None,
    }
}

/// The number of a linkage.
pub(crate) fn number_of_linkage(linkage: Linkage) -> u32
    ensures { result ≡ linkage_tag linkage }
{
    match linkage {
        Linkage::External => 0,
        Linkage::Internal => 1,
    }
}

/// The linkage with a number.
pub(crate) fn linkage_of(number: u32) -> Option<Linkage>
    ensures found { IfSome result (λ linkage. linkage_tag linkage ≡ number) }
    ensures none { IsNone result → number ≢ 1 }
{
    match number {
        0 => Some(Linkage::External),
        1 => Some(Linkage::Internal),
        _ => None,
    }
}

/// The bits of qualifiers: const and volatile, at least one.
pub(crate) fn bits_of(number: u32) -> Option<u32>
    ensures found { IfSome result (λ bits. bits ≡ number) }
    ensures none { IsNone result → number ≢ 1 }
{
    match number {
        1..=3 => Some(number),
        _ => None,
    }
}

/// The number of an operation on two words.
pub(crate) fn number_of_binary(binary: Binary) -> u32
    ensures { result ≡ binary_tag binary }
{
    match binary {
        Binary::Add => 0,
        Binary::Subtract => 1,
        Binary::Multiply => 2,
        Binary::Divide => 3,
        Binary::DivideUnsigned => 4,
        Binary::Remainder => 5,
        Binary::RemainderUnsigned => 6,
        Binary::And => 7,
        Binary::Or => 8,
        Binary::Xor => 9,
        Binary::ShiftLeft => 10,
        Binary::ShiftRight => 11,
        Binary::ShiftRightUnsigned => 12,
        Binary::Equal => 13,
        Binary::Unequal => 14,
        Binary::Less => 15,
        Binary::LessUnsigned => 16,
        Binary::NotGreater => 17,
        Binary::NotGreaterUnsigned => 18,
    }
}

/// The operation on two words with a number.
pub(crate) fn binary_of(number: u32) -> Option<Binary>
    ensures found { IfSome result (λ binary. binary_tag binary ≡ number) }
    ensures none { IsNone result → number ≢ 1 }
{
    match number {
        0 => Some(Binary::Add),
        1 => Some(Binary::Subtract),
        2 => Some(Binary::Multiply),
        3 => Some(Binary::Divide),
        4 => Some(Binary::DivideUnsigned),
        5 => Some(Binary::Remainder),
        6 => Some(Binary::RemainderUnsigned),
        7 => Some(Binary::And),
        8 => Some(Binary::Or),
        9 => Some(Binary::Xor),
        10 => Some(Binary::ShiftLeft),
        11 => Some(Binary::ShiftRight),
        12 => Some(Binary::ShiftRightUnsigned),
        13 => Some(Binary::Equal),
        14 => Some(Binary::Unequal),
        15 => Some(Binary::Less),
        16 => Some(Binary::LessUnsigned),
        17 => Some(Binary::NotGreater),
        18 => Some(Binary::NotGreaterUnsigned),
        _ => None,
    }
}

/// The number of an operation on one word.
pub(crate) fn number_of_unary(unary: Unary) -> u32
    ensures { result ≡ unary_tag unary }
{
    match unary {
        Unary::Minus => 0,
        Unary::Complement => 1,
        Unary::Not => 2,
    }
}

/// The operation on one word with a number.
pub(crate) fn unary_of(number: u32) -> Option<Unary>
    ensures found { IfSome result (λ unary. unary_tag unary ≡ number) }
    ensures none { IsNone result → number ≢ 1 }
{
    match number {
        0 => Some(Unary::Minus),
        1 => Some(Unary::Complement),
        2 => Some(Unary::Not),
        _ => None,
    }
}

/// The number of a primitive.
pub(crate) fn number_of_primitive(primitive: Primitive) -> u32
    ensures { result ≡ primitive_tag primitive }
{
    match primitive {
        Primitive::Put => 0,
        Primitive::Get => 1,
        Primitive::Alloc => 2,
        Primitive::Release => 3,
        Primitive::Size => 4,
        Primitive::Copy => 5,
        Primitive::Exit => 6,
        Primitive::Abort => 7,
        Primitive::Extra => 8,
    }
}

/// The primitive with a number.
pub(crate) fn primitive_of(number: u32) -> Option<Primitive>
    ensures found { IfSome result (λ primitive. primitive_tag primitive ≡ number) }
    ensures none { IsNone result → number ≢ 1 }
{
    match number {
        0 => Some(Primitive::Put),
        1 => Some(Primitive::Get),
        2 => Some(Primitive::Alloc),
        3 => Some(Primitive::Release),
        4 => Some(Primitive::Size),
        5 => Some(Primitive::Copy),
        6 => Some(Primitive::Exit),
        7 => Some(Primitive::Abort),
        8 => Some(Primitive::Extra),
        _ => None,
    }
}

/// The number of a flag.
pub(crate) fn number_of_flag(flag: bool) -> u32
    ensures { result ≡ flag_tag flag }
{
    u32::from(flag)
}

/// A flag.
pub(crate) fn flag_of(number: u32) -> Option<bool>
    ensures found { IfSome result (λ flag. flag_tag flag ≡ number) }
    ensures none { IsNone result → number ≢ 1 }
{
    match number {
        0 => Some(false),
        1 => Some(true),
        _ => None,
    }
}
