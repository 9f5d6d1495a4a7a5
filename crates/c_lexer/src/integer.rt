//! Integer constants (C90 6.1.3.2).

ghost use Rattle.std.specs.Prelude.{◌≡◌, ◌+◌, ◌*◌, ◌^◌, ◌<◌, ◌≤◌, length, take, drop, option_map, IfSome};
ghost use Rattle.std.specs.Char.{digit_value};
ghost use Rattle.std.specs.Option.{SomeIff};
ghost use Rattle.std.specs.Str.Parse.{AllDigits, digits_value};
ghost use Rattle.c_lexer.specs.Numbers.{base, candidates, count_of, first_fitting, greatest, integer_of, is_l, is_u, parts_of, radix_of, suffix_of, unmarked};

use crate::token::BasicType;

/// How the digits of an integer constant are read.
#[derive(Clone, Copy, Debug, PartialEq, Eq)]
pub enum Radix {
    Octal,
    Decimal,
    Hexadecimal,
}

impl Radix {
    /// How many digits there are of this kind.
    pub fn base(self) -> u32
        ensures { result ≡ base self }
    {
        match self {
            Radix::Octal => 8,
            Radix::Decimal => 10,
            Radix::Hexadecimal => 16,
        }
    }
}

/// The letters behind the digits of an integer constant.
#[derive(Clone, Copy, Debug, PartialEq, Eq)]
pub enum Suffix {
    Absent,
    /// u or U.
    OnlyUnsigned,
    /// l or L.
    OnlyLong,
    /// One of each, in either order.
    Both,
}

impl BasicType {
    /// The greatest value of the type.
    fn greatest(self) -> u32
        ensures { result ≡ greatest self }
    {
        match self {
            BasicType::Int | BasicType::Long => 0x7fff_ffff,
            BasicType::Unsigned | BasicType::UnsignedLong => 0xffff_ffff,
        }
    }
}

/// Whether it is u or U.
fn is_u(c: u8) -> bool
    ensures { result ≡ is_u c }
{
    matches!(c, b'u' | b'U')
}

/// Whether it is l or L.
fn is_l(c: u8) -> bool
    ensures { result ≡ is_l c }
{
    matches!(c, b'l' | b'L')
}

/// The suffix that is all of `text`.
fn read_suffix(text: &[u8]) -> Option<Suffix>
    ensures { result ≡ suffix_of text.now }
{
    match text {
        [] => Some(Suffix::Absent),
        [a] if is_u(*a) => Some(Suffix::OnlyUnsigned),
        [a] if is_l(*a) => Some(Suffix::OnlyLong),
        [a, b] if is_u(*a) && is_l(*b) || is_l(*a) && is_u(*b) => Some(Suffix::Both),
        _ => None,
    }
}

/// The radix of a constant, and its text behind the mark of the radix.
fn read_radix(text: &[u8]) -> (Radix, &[u8])
    ensures { (result.0 ≡ radix_of text.now) × (result.1.now ≡ unmarked text.now) }
{
    match text {
        [b'0', b'x' | b'X', digits @ ..] => (Radix::Hexadecimal, digits),
        [b'0', ..] => (Radix::Octal, text),
        _ => (Radix::Decimal, text),
    }
}

/// How many digits to a base stand at the front of `text`.
fn count_digits(base: u32, text: &[u8]) -> usize
    requires { (2 ≤ base) × (base ≤ 16) }
    ensures count { result ≡ count_of base text.now }
    ensures within { result ≤ length text.now }
{
    text.iter()
        .take_while(|c| char::from(**c).is_digit(base))
        .count()
}

/// The digits to a base at the front of `text`, as many as there are, and the text behind them.
pub fn split_digits(base: u32, text: &[u8]) -> (&[u8], &[u8])
    requires { (2 ≤ base) × (base ≤ 16) }
    ensures split { (result.0.now ≡ take (count_of base text.now) text.now) × (result.1.now ≡ drop (count_of base text.now) text.now) }
    ensures digits { AllDigits base result.0.now }
{
    text.split_at(count_digits(base, text))
}

/// The number whose digits are those of `number` and one more, None where it is 2^32 or more.
fn with_digit(number: u32, base: u32, digit: u8) -> Option<u32>
    requires base { (2 ≤ base) × (base ≤ 16) }
    requires digit { digit_value digit < base }
    ensures { SomeIff result (number * base + digit_value digit < 2 ^ 32) (number * base + digit_value digit) }
{
    number
        .checked_mul(base)?
        .checked_add(char::from(digit).to_digit(base)?)
}

/// The number that digits to a base write, None where it is 2^32 or more.
pub fn digits_number(base: u32, digits: &[u8]) -> Option<u32>
    requires base { (2 ≤ base) × (base ≤ 16) }
    requires digits { AllDigits base digits.now }
    ensures { SomeIff result (digits_value base digits.now < 2 ^ 32) (digits_value base digits.now) }
{
    let mut number: u32 = 0;
    for digit in digits {
        number = with_digit(number, base, *digit)?;
    }
    Some(number)
}

/// An integer constant in its parts.
#[derive(Clone, Copy, Debug)]
pub struct IntegerParts<'a> {
    pub radix: Radix,
    pub digits: &'a [u8],
    pub suffix: Suffix,
}

/// The integer constant that is all of `text`, None where `text` is none.
#[tactic(auto, unfolding(crate::specs::Numbers::integer_of))]
pub fn read_integer(text: &[u8]) -> Option<IntegerParts>
    ensures is { option_map parts_of result ≡ integer_of text.now }
    ensures digits { IfSome result (λ constant. AllDigits (base constant.radix) constant.digits.now) }
{
    let (radix, text) = read_radix(text);
    let (digits, rest) = split_digits(radix.base(), text);
    if digits.is_empty() {
        return None;
    }
    Some(IntegerParts {
        radix,
        digits,
        suffix: read_suffix(rest)?,
    })
}

/// The types that a constant of this form may have, of which it has the first that its value fits.
pub fn candidates(radix: Radix, suffix: Suffix) -> &'static [BasicType]
    ensures { result.now ≡ candidates radix suffix }
{
    match (suffix, radix) {
        (Suffix::Absent, Radix::Decimal) => &[
            BasicType::Int,
            BasicType::Long,
            BasicType::UnsignedLong,
        ],
        (Suffix::Absent, Radix::Octal | Radix::Hexadecimal) => {
            &[
                BasicType::Int,
                BasicType::Unsigned,
                BasicType::Long,
                BasicType::UnsignedLong,
            ]
        }
        (Suffix::OnlyUnsigned, _) => &[BasicType::Unsigned, BasicType::UnsignedLong],
        (Suffix::OnlyLong, _) => &[BasicType::Long, BasicType::UnsignedLong],
        (Suffix::Both, _) => &[BasicType::UnsignedLong],
    }
}

/// The first of these types that the value fits.
pub fn first_fitting(value: u32, types: &[BasicType]) -> Option<BasicType>
    ensures { result ≡ first_fitting value types.now }
{
    types
        .iter()
        .copied()
        .find(|basic| value <= basic.greatest())
}
