//! What the next tokens are.

use crate::names::TypeNames;
use crate::operators::{binary_operator, level_of, prefix_operator, step_operator};
use crate::parser::Parser;
use crate::read::{List, Mode};
use crate::refused::ParseRefused;
use crate::specifiers::{SpecifierToken, specifier_keyword};
use c_lexer::{Keyword, Punctuator, Token, TokenKind};
use c_syntax::Binary;

/// The punctuator that some tokens begin with, where they begin with one.
fn punctuator_of(tokens: &[Token]) -> Option<Punctuator> {
    match tokens {
        [
            Token {
                kind: TokenKind::Punct(punctuator),
                ..
            },
            ..
        ] => Some(*punctuator),
        _ => None,
    }
}

/// Some tokens but for the first.
fn behind(tokens: &[Token]) -> &[Token] {
    match tokens {
        [_, rest @ ..] => rest,
        [] => tokens,
    }
}

/// The specifier that the first of some tokens is, or begins.
fn specifier_of(names: &TypeNames, tokens: &[Token]) -> Option<SpecifierToken> {
    match tokens {
        [token, ..] => match &token.kind {
            TokenKind::Keyword(keyword) => specifier_keyword(*keyword),
            TokenKind::Name(name) => {
                if names.is_type(name) {
                    Some(SpecifierToken::Alias)
                } else {
                    None
                }
            }
            _ => None,
        },
        [] => None,
    }
}

/// A specifier, where a list of that kind may have it behind those before, of which one may be a type specifier.
fn allowed(token: SpecifierToken, list: List, has_type: bool) -> Option<SpecifierToken> {
    match token {
        SpecifierToken::Storage(_) => match list {
            List::WithStorage => Some(token),
            List::WithoutStorage => None,
        },
        SpecifierToken::Alias => { if has_type { None } else { Some(token) } }
        _ => Some(token),
    }
}

impl Parser<'_> {
    /// The punctuator that comes next, where one does.
    pub fn punctuator(&self) -> Option<Punctuator> {
        punctuator_of(self.rest)
    }

    /// The punctuator behind the next token, where one stands there.
    pub fn second_punctuator(&self) -> Option<Punctuator> {
        punctuator_of(behind(self.rest))
    }

    /// The keyword that comes next, where one does.
    pub fn keyword(&self) -> Option<Keyword> {
        match self.rest {
            [
                Token {
                    kind: TokenKind::Keyword(keyword),
                    ..
                },
                ..
            ] => Some(*keyword),
            _ => None,
        }
    }

    /// Whether that punctuator comes next.
    pub fn is_at(&self, punctuator: Punctuator) -> bool {
        self.punctuator() == Some(punctuator)
    }

    /// Whether that keyword comes next.
    pub fn is_at_keyword(&self, keyword: Keyword) -> bool {
        self.keyword() == Some(keyword)
    }

    /// Whether no token comes but End.
    pub fn is_at_end(&self) -> bool {
        match self.rest {
            [token, ..] => match &token.kind {
                TokenKind::End => true,
                _ => false,
            },
            [] => true,
        }
    }

    /// Whether a name comes next, whatever it stands for.
    pub fn is_at_name(&self) -> bool {
        match self.rest {
            [token, ..] => match &token.kind {
                TokenKind::Name(_) => true,
                _ => false,
            },
            [] => false,
        }
    }

    /// Whether a name that stands for a type comes next.
    pub fn is_at_type_name(&self) -> bool {
        specifier_of(&self.names, self.rest) == Some(SpecifierToken::Alias)
    }

    /// Whether a name and a colon come next.
    pub fn is_at_label(&self) -> bool {
        self.is_at_name() && self.second_punctuator() == Some(Punctuator::Colon)
    }

    /// The operator with two operands that comes next, where it binds at least so tightly.
    pub fn operator(&self, least: u8) -> Option<Binary> {
        let operator = binary_operator(self.punctuator()?)?;
        if level_of(operator) < least {
            return None;
        }
        Some(operator)
    }

    /// The specifier that comes next, where a list of that kind may have it behind those before, of which one may be a type
    /// specifier: a name that stands for a type is none behind one.
    pub fn specifier(&self, list: List, has_type: bool) -> Option<SpecifierToken> {
        allowed(specifier_of(&self.names, self.rest)?, list, has_type)
    }

    /// Whether a list of specifiers of that kind begins here.
    pub fn begins_specifiers(&self, list: List) -> bool {
        self.specifier(list, false).is_some()
    }

    /// Whether `(` comes next, and a type name behind it.
    pub fn begins_type_in_parentheses(&self) -> bool {
        if !self.is_at(Punctuator::LeftParenthesis) {
            return false;
        }
        match specifier_of(&self.names, behind(self.rest)) {
            Some(token) => !token.is_storage(),
            None => false,
        }
    }

    /// Whether `(` comes next, and behind it `)` or parameters: what these stand in has no name (C90 6.5.5).
    pub fn begins_parameters_of_nothing(&self) -> bool {
        self.is_at(Punctuator::LeftParenthesis)
            && (self.second_punctuator() == Some(Punctuator::RightParenthesis)
                || specifier_of(&self.names, behind(self.rest)).is_some())
    }

    /// Whether a declaration begins here among statements: with a specifier, but for a name that a colon follows.
    pub fn begins_declaration(&self) -> bool {
        self.begins_specifiers(List::WithStorage) && !self.is_at_label()
    }

    /// Whether an expression begins here.
    pub fn begins_expression(&self) -> bool {
        match self.rest {
            [token, ..] => match &token.kind {
                TokenKind::Name(name) => !self.names.is_type(name),
                TokenKind::Keyword(keyword) => *keyword == Keyword::Sizeof,
                TokenKind::Int(_, _) | TokenKind::Char(_) | TokenKind::Str(_) => true,
                TokenKind::Punct(punctuator) => begins_operand(*punctuator),
                TokenKind::End => false,
            },
            [] => false,
        }
    }

    /// Whether a declarator of that kind begins here, its stars put aside.
    pub fn begins_direct(&self, mode: Mode) -> bool {
        if self.is_at_name() {
            return mode.may_name() && (mode.may_rename() || !self.is_at_type_name());
        }
        self.is_at(Punctuator::LeftParenthesis)
            || (self.is_at(Punctuator::LeftBracket) && !mode.must_name())
    }

    /// Whether a declarator of that kind begins here.
    pub fn begins_declarator(&self, mode: Mode) -> bool {
        self.is_at(Punctuator::Star) || self.begins_direct(mode)
    }

    /// The refusal of the next token where an expression has to begin and there is no room for one.
    pub fn no_room_for_expression(&self) -> ParseRefused {
        if self.begins_expression() {
            self.too_deep()
        } else {
            self.unexpected()
        }
    }

    /// The refusal of the next token where specifiers have to begin and there is no room for one.
    pub fn no_room_for_specifiers(&self, list: List) -> ParseRefused {
        if self.begins_specifiers(list) {
            self.too_deep()
        } else {
            self.unexpected()
        }
    }

    /// The refusal of the next token where a declarator has to begin and there is no room for one.
    pub fn no_room_for_declarator(&self, mode: Mode) -> ParseRefused {
        if self.begins_declarator(mode) {
            self.too_deep()
        } else {
            self.unexpected()
        }
    }
}

/// Whether an operand begins with that punctuator.
fn begins_operand(punctuator: Punctuator) -> bool {
    punctuator == Punctuator::LeftParenthesis
        || prefix_operator(punctuator).is_some()
        || step_operator(punctuator).is_some()
}
