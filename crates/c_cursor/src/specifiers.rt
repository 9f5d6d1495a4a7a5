//! The tokens that begin a specifier.

use c_lexer::Keyword;
use c_syntax::{Qualifier, RecordKind, Storage, TypeKeyword};

/// What specifier a token is, or begins (C90 6.5).
#[derive(Clone, Copy, Debug, PartialEq, Eq)]
pub enum SpecifierToken {
    Storage(Storage),
    Keyword(TypeKeyword),
    Qualifier(Qualifier),
    /// `struct` or `union`.
    Record(RecordKind),
    Enum,
    /// A name that stands for a type.
    Alias,
}

impl SpecifierToken {
    /// Whether a list has a type specifier once it has this one.
    pub fn is_type(self) -> bool {
        match self {
            SpecifierToken::Storage(_) | SpecifierToken::Qualifier(_) => false,
            SpecifierToken::Keyword(_)
            | SpecifierToken::Record(_)
            | SpecifierToken::Enum
            | SpecifierToken::Alias => true,
        }
    }

    /// Whether it is a storage class.
    pub fn is_storage(self) -> bool {
        match self {
            SpecifierToken::Storage(_) => true,
            _ => false,
        }
    }
}

/// The specifier that a keyword is, or begins.
pub fn specifier_keyword(keyword: Keyword) -> Option<SpecifierToken> {
    match keyword {
        Keyword::Typedef => Some(SpecifierToken::Storage(Storage::Typedef)),
        Keyword::Extern => Some(SpecifierToken::Storage(Storage::Extern)),
        Keyword::Static => Some(SpecifierToken::Storage(Storage::Static)),
        Keyword::Auto => Some(SpecifierToken::Storage(Storage::Auto)),
        Keyword::Register => Some(SpecifierToken::Storage(Storage::Register)),
        Keyword::Void => Some(SpecifierToken::Keyword(TypeKeyword::Void)),
        Keyword::Char => Some(SpecifierToken::Keyword(TypeKeyword::Char)),
        Keyword::Short => Some(SpecifierToken::Keyword(TypeKeyword::Short)),
        Keyword::Int => Some(SpecifierToken::Keyword(TypeKeyword::Int)),
        Keyword::Long => Some(SpecifierToken::Keyword(TypeKeyword::Long)),
        Keyword::Float => Some(SpecifierToken::Keyword(TypeKeyword::Float)),
        Keyword::Double => Some(SpecifierToken::Keyword(TypeKeyword::Double)),
        Keyword::Signed => Some(SpecifierToken::Keyword(TypeKeyword::Signed)),
        Keyword::Unsigned => Some(SpecifierToken::Keyword(TypeKeyword::Unsigned)),
        Keyword::Const => Some(SpecifierToken::Qualifier(Qualifier::Const)),
        Keyword::Volatile => Some(SpecifierToken::Qualifier(Qualifier::Volatile)),
        Keyword::Struct => Some(SpecifierToken::Record(RecordKind::Struct)),
        Keyword::Union => Some(SpecifierToken::Record(RecordKind::Union)),
        Keyword::Enum => Some(SpecifierToken::Enum),
        _ => None,
    }
}
