//! The sets of keywords that name a type (C90 6.5.2).

use c_syntax::TypeKeyword;
use c_types::{
    CHAR, INT, LONG, SHORT, SIGNED_CHAR, TypeId, UNSIGNED, UNSIGNED_CHAR, UNSIGNED_LONG,
    UNSIGNED_SHORT, VOID,
};

/// `void` and `char`.
#[derive(Clone, Copy, Debug, PartialEq, Eq)]
enum Base {
    Void,
    Char,
}

/// `short` and `long`.
#[derive(Clone, Copy, Debug, PartialEq, Eq)]
enum Length {
    Short,
    Long,
}

/// `signed` and `unsigned`.
#[derive(Clone, Copy, Debug, PartialEq, Eq)]
enum Sign {
    Signed,
    Unsigned,
}

/// The keywords of a list so far.
#[derive(Clone, Copy, Debug)]
pub struct Keywords {
    base: Option<Base>,
    length: Option<Length>,
    sign: Option<Sign>,
    has_int: bool,
    /// Whether there is any.
    pub has_any: bool,
    /// Whether two of them exclude one another.
    has_clash: bool,
}

impl Keywords {
    /// No keyword.
    pub const NONE: Keywords = Keywords {
        base: None,
        length: None,
        sign: None,
        has_int: false,
        has_any: false,
        has_clash: false,
    };

    fn with_base(self, base: Base) -> Keywords {
        Keywords {
            base: Some(base),
            has_clash: self.has_clash || self.base.is_some(),
            ..self
        }
    }

    fn with_length(self, length: Length) -> Keywords {
        Keywords {
            length: Some(length),
            has_clash: self.has_clash || self.length.is_some(),
            ..self
        }
    }

    fn with_sign(self, sign: Sign) -> Keywords {
        Keywords {
            sign: Some(sign),
            has_clash: self.has_clash || self.sign.is_some(),
            ..self
        }
    }

    fn with_int(self) -> Keywords {
        Keywords {
            has_int: true,
            has_clash: self.has_clash || self.has_int,
            ..self
        }
    }

    /// With one more keyword; None of `float` and `double`.
    pub fn with(self, keyword: TypeKeyword) -> Option<Keywords> {
        let keywords = Keywords {
            has_any: true,
            ..self
        };
        match keyword {
            TypeKeyword::Void => Some(keywords.with_base(Base::Void)),
            TypeKeyword::Char => Some(keywords.with_base(Base::Char)),
            TypeKeyword::Short => Some(keywords.with_length(Length::Short)),
            TypeKeyword::Long => Some(keywords.with_length(Length::Long)),
            TypeKeyword::Int => Some(keywords.with_int()),
            TypeKeyword::Signed => Some(keywords.with_sign(Sign::Signed)),
            TypeKeyword::Unsigned => Some(keywords.with_sign(Sign::Unsigned)),
            TypeKeyword::Float | TypeKeyword::Double => None,
        }
    }

    fn char_kind(self) -> Option<TypeId> {
        if self.has_int || self.length.is_some() {
            return None;
        }
        match self.sign {
            None => Some(CHAR),
            Some(Sign::Signed) => Some(SIGNED_CHAR),
            Some(Sign::Unsigned) => Some(UNSIGNED_CHAR),
        }
    }

    fn void_kind(self) -> Option<TypeId> {
        if self.has_int || self.length.is_some() || self.sign.is_some() {
            return None;
        }
        Some(VOID)
    }

    fn int_kind(self) -> TypeId {
        let is_unsigned = self.sign == Some(Sign::Unsigned);
        match self.length {
            None => if is_unsigned { UNSIGNED } else { INT },
            Some(Length::Short) => if is_unsigned { UNSIGNED_SHORT } else { SHORT },
            Some(Length::Long) => if is_unsigned { UNSIGNED_LONG } else { LONG },
        }
    }

    /// The type that they name; no keyword names int. None where they are none of C90's sets.
    pub fn kind(self) -> Option<TypeId> {
        if self.has_clash {
            return None;
        }
        match self.base {
            Some(Base::Void) => self.void_kind(),
            Some(Base::Char) => self.char_kind(),
            None => Some(self.int_kind()),
        }
    }
}
