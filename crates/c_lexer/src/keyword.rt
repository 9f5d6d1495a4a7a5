//! Keywords (C90 6.1.1).

ghost use Rattle.std.specs.Prelude.{◌≡◌, option_map, find};
ghost use Rattle.std.specs.Str.{bytes_eq};
ghost use Rattle.c_lexer.specs.Keywords.{keywords, keyword_of};

/// A keyword.
#[derive(Clone, Copy, Debug, PartialEq, Eq)]
pub enum Keyword {
    Auto,
    Break,
    Case,
    Char,
    Const,
    Continue,
    Default,
    Do,
    Double,
    Else,
    Enum,
    Extern,
    Float,
    For,
    Goto,
    If,
    Int,
    Long,
    Register,
    Return,
    Short,
    Signed,
    Sizeof,
    Static,
    Struct,
    Switch,
    Typedef,
    Union,
    Unsigned,
    Void,
    Volatile,
    While,
}

/// A spelling and what it spells.
struct Spelled {
    spelling: &'static [u8],
    keyword: Keyword,
}

static KEYWORDS: [Spelled; 32] = [
    Spelled {
        spelling: b"auto",
        keyword: Keyword::Auto,
    },
    Spelled {
        spelling: b"break",
        keyword: Keyword::Break,
    },
    Spelled {
        spelling: b"case",
        keyword: Keyword::Case,
    },
    Spelled {
        spelling: b"char",
        keyword: Keyword::Char,
    },
    Spelled {
        spelling: b"const",
        keyword: Keyword::Const,
    },
    Spelled {
        spelling: b"continue",
        keyword: Keyword::Continue,
    },
    Spelled {
        spelling: b"default",
        keyword: Keyword::Default,
    },
    Spelled {
        spelling: b"do",
        keyword: Keyword::Do,
    },
    Spelled {
        spelling: b"double",
        keyword: Keyword::Double,
    },
    Spelled {
        spelling: b"else",
        keyword: Keyword::Else,
    },
    Spelled {
        spelling: b"enum",
        keyword: Keyword::Enum,
    },
    Spelled {
        spelling: b"extern",
        keyword: Keyword::Extern,
    },
    Spelled {
        spelling: b"float",
        keyword: Keyword::Float,
    },
    Spelled {
        spelling: b"for",
        keyword: Keyword::For,
    },
    Spelled {
        spelling: b"goto",
        keyword: Keyword::Goto,
    },
    Spelled {
        spelling: b"if",
        keyword: Keyword::If,
    },
    Spelled {
        spelling: b"int",
        keyword: Keyword::Int,
    },
    Spelled {
        spelling: b"long",
        keyword: Keyword::Long,
    },
    Spelled {
        spelling: b"register",
        keyword: Keyword::Register,
    },
    Spelled {
        spelling: b"return",
        keyword: Keyword::Return,
    },
    Spelled {
        spelling: b"short",
        keyword: Keyword::Short,
    },
    Spelled {
        spelling: b"signed",
        keyword: Keyword::Signed,
    },
    Spelled {
        spelling: b"sizeof",
        keyword: Keyword::Sizeof,
    },
    Spelled {
        spelling: b"static",
        keyword: Keyword::Static,
    },
    Spelled {
        spelling: b"struct",
        keyword: Keyword::Struct,
    },
    Spelled {
        spelling: b"switch",
        keyword: Keyword::Switch,
    },
    Spelled {
        spelling: b"typedef",
        keyword: Keyword::Typedef,
    },
    Spelled {
        spelling: b"union",
        keyword: Keyword::Union,
    },
    Spelled {
        spelling: b"unsigned",
        keyword: Keyword::Unsigned,
    },
    Spelled {
        spelling: b"void",
        keyword: Keyword::Void,
    },
    Spelled {
        spelling: b"volatile",
        keyword: Keyword::Volatile,
    },
    Spelled {
        spelling: b"while",
        keyword: Keyword::While,
    },
];

/// The first of these that has the spelling.
fn first<'a>(table: &'a [Spelled], spelling: &[u8]) -> Option<&'a Spelled>
    ensures { option_map (λ entry. entry.now) result ≡ find (λ entry. bytes_eq entry.spelling.now spelling.now) table.now }
{
    table.iter().find(|entry| entry.spelling == spelling)
}

/// The keyword of that spelling, None where there is none. It takes no memory.
#[tactic(auto, unfolding(crate::specs::Keywords::keywords))]
pub fn read_keyword(text: &[u8]) -> Option<Keyword>
    ensures { result ≡ keyword_of text.now }
{
    let found = first(&KEYWORDS, text)?;
    Some(found.keyword)
}
