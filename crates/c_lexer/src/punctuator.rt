//! Operators and punctuators (C90 6.1.5 and 6.1.6), but for `sizeof`, `#` and `##`.

ghost use Rattle.std.specs.Prelude.{◌≡◌, option_map, find};
ghost use Rattle.std.specs.Str.{bytes_eq};
ghost use Rattle.c_lexer.specs.Punctuators.{punctuators, punctuator_of};

/// An operator or punctuator.
#[derive(Clone, Copy, Debug, PartialEq, Eq)]
pub enum Punctuator {
    LeftBracket,
    RightBracket,
    LeftParenthesis,
    RightParenthesis,
    LeftBrace,
    RightBrace,
    Dot,
    Arrow,
    Increment,
    Decrement,
    Ampersand,
    Star,
    Plus,
    Minus,
    Tilde,
    Exclamation,
    Slash,
    Percent,
    ShiftLeft,
    ShiftRight,
    Less,
    Greater,
    LessEqual,
    GreaterEqual,
    EqualEqual,
    NotEqual,
    Caret,
    Bar,
    AndAnd,
    OrOr,
    Question,
    Colon,
    Semicolon,
    Ellipsis,
    Assign,
    StarAssign,
    SlashAssign,
    PercentAssign,
    PlusAssign,
    MinusAssign,
    ShiftLeftAssign,
    ShiftRightAssign,
    AndAssign,
    CaretAssign,
    OrAssign,
    Comma,
}

/// A spelling and what it spells.
struct Spelled {
    spelling: &'static [u8],
    punctuator: Punctuator,
}

static PUNCTUATORS: [Spelled; 46] = [
    Spelled {
        spelling: b"[",
        punctuator: Punctuator::LeftBracket,
    },
    Spelled {
        spelling: b"]",
        punctuator: Punctuator::RightBracket,
    },
    Spelled {
        spelling: b"(",
        punctuator: Punctuator::LeftParenthesis,
    },
    Spelled {
        spelling: b")",
        punctuator: Punctuator::RightParenthesis,
    },
    Spelled {
        spelling: b"{",
        punctuator: Punctuator::LeftBrace,
    },
    Spelled {
        spelling: b"}",
        punctuator: Punctuator::RightBrace,
    },
    Spelled {
        spelling: b".",
        punctuator: Punctuator::Dot,
    },
    Spelled {
        spelling: b"->",
        punctuator: Punctuator::Arrow,
    },
    Spelled {
        spelling: b"++",
        punctuator: Punctuator::Increment,
    },
    Spelled {
        spelling: b"--",
        punctuator: Punctuator::Decrement,
    },
    Spelled {
        spelling: b"&",
        punctuator: Punctuator::Ampersand,
    },
    Spelled {
        spelling: b"*",
        punctuator: Punctuator::Star,
    },
    Spelled {
        spelling: b"+",
        punctuator: Punctuator::Plus,
    },
    Spelled {
        spelling: b"-",
        punctuator: Punctuator::Minus,
    },
    Spelled {
        spelling: b"~",
        punctuator: Punctuator::Tilde,
    },
    Spelled {
        spelling: b"!",
        punctuator: Punctuator::Exclamation,
    },
    Spelled {
        spelling: b"/",
        punctuator: Punctuator::Slash,
    },
    Spelled {
        spelling: b"%",
        punctuator: Punctuator::Percent,
    },
    Spelled {
        spelling: b"<<",
        punctuator: Punctuator::ShiftLeft,
    },
    Spelled {
        spelling: b">>",
        punctuator: Punctuator::ShiftRight,
    },
    Spelled {
        spelling: b"<",
        punctuator: Punctuator::Less,
    },
    Spelled {
        spelling: b">",
        punctuator: Punctuator::Greater,
    },
    Spelled {
        spelling: b"<=",
        punctuator: Punctuator::LessEqual,
    },
    Spelled {
        spelling: b">=",
        punctuator: Punctuator::GreaterEqual,
    },
    Spelled {
        spelling: b"==",
        punctuator: Punctuator::EqualEqual,
    },
    Spelled {
        spelling: b"!=",
        punctuator: Punctuator::NotEqual,
    },
    Spelled {
        spelling: b"^",
        punctuator: Punctuator::Caret,
    },
    Spelled {
        spelling: b"|",
        punctuator: Punctuator::Bar,
    },
    Spelled {
        spelling: b"&&",
        punctuator: Punctuator::AndAnd,
    },
    Spelled {
        spelling: b"||",
        punctuator: Punctuator::OrOr,
    },
    Spelled {
        spelling: b"?",
        punctuator: Punctuator::Question,
    },
    Spelled {
        spelling: b":",
        punctuator: Punctuator::Colon,
    },
    Spelled {
        spelling: b";",
        punctuator: Punctuator::Semicolon,
    },
    Spelled {
        spelling: b"...",
        punctuator: Punctuator::Ellipsis,
    },
    Spelled {
        spelling: b"=",
        punctuator: Punctuator::Assign,
    },
    Spelled {
        spelling: b"*=",
        punctuator: Punctuator::StarAssign,
    },
    Spelled {
        spelling: b"/=",
        punctuator: Punctuator::SlashAssign,
    },
    Spelled {
        spelling: b"%=",
        punctuator: Punctuator::PercentAssign,
    },
    Spelled {
        spelling: b"+=",
        punctuator: Punctuator::PlusAssign,
    },
    Spelled {
        spelling: b"-=",
        punctuator: Punctuator::MinusAssign,
    },
    Spelled {
        spelling: b"<<=",
        punctuator: Punctuator::ShiftLeftAssign,
    },
    Spelled {
        spelling: b">>=",
        punctuator: Punctuator::ShiftRightAssign,
    },
    Spelled {
        spelling: b"&=",
        punctuator: Punctuator::AndAssign,
    },
    Spelled {
        spelling: b"^=",
        punctuator: Punctuator::CaretAssign,
    },
    Spelled {
        spelling: b"|=",
        punctuator: Punctuator::OrAssign,
    },
    Spelled {
        spelling: b",",
        punctuator: Punctuator::Comma,
    },
];

/// The first of these that has the spelling.
fn first<'a>(table: &'a [Spelled], spelling: &[u8]) -> Option<&'a Spelled>
    ensures { option_map (λ entry. entry.now) result ≡ find (λ entry. bytes_eq entry.spelling.now spelling.now) table.now }
{
    table.iter().find(|entry| entry.spelling == spelling)
}

/// The operator or punctuator of that spelling, None where there is none. It takes no memory.
#[tactic(auto, unfolding(crate::specs::Punctuators::punctuators))]
pub fn read_punctuator(text: &[u8]) -> Option<Punctuator>
    ensures { result ≡ punctuator_of text.now }
{
    let found = first(&PUNCTUATORS, text)?;
    Some(found.punctuator)
}
