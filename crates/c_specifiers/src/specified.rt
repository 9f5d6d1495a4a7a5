//! What a list of specifiers says.

use crate::keywords::Keywords;
use c_syntax::{Qualifier, Storage, TypeKeyword};
use c_types::TypeId;
use check_refusal::{CheckRefused, CheckRule, broken};
use fsc_base::Place;

/// What a list of specifiers says (C90 6.5).
#[derive(Clone, Copy, Debug, PartialEq, Eq)]
pub struct Specified {
    pub storage: Option<Storage>,
    /// Where the storage class stands, or the list begins where it has none.
    pub storage_place: Place,
    /// The type, with the list's qualifiers.
    pub kind: TypeId,
    /// Whether it declares a tag or enumerators.
    pub declares: bool,
}

/// A list of specifiers so far.
#[derive(Clone, Copy, Debug)]
pub struct Reading {
    /// Where the list begins.
    pub place: Place,
    pub storage: Option<Storage>,
    pub storage_place: Place,
    /// 1 for const, 2 for volatile, 3 for both.
    pub qualifiers: u32,
    /// Those of the type that a typedef name stands for.
    pub alias_qualifiers: u32,
    pub keywords: Keywords,
    /// A type that is named by no keywords.
    pub kind: Option<TypeId>,
    pub declares: bool,
}

/// The bit of a qualifier.
pub fn qualifier_bit(qualifier: Qualifier) -> u32 {
    match qualifier {
        Qualifier::Const => 1,
        Qualifier::Volatile => 2,
    }
}

impl Reading {
    /// An empty list.
    pub fn new(place: Place) -> Reading {
        Reading {
            place,
            storage: None,
            storage_place: place,
            qualifiers: 0,
            alias_qualifiers: 0,
            keywords: Keywords::NONE,
            kind: None,
            declares: false,
        }
    }

    /// With a storage class. K05 at it where the list has one.
    pub fn with_storage(self, storage: Storage, place: Place) -> Result<Reading, CheckRefused> {
        if self.storage.is_some() {
            return Err(broken(CheckRule::K05, place));
        }
        Ok(Reading {
            storage: Some(storage),
            storage_place: place,
            ..self
        })
    }

    /// With a qualifier. K13 at it where the list, or the type of its typedef name, has it.
    pub fn with_qualifier(
        self,
        qualifier: Qualifier,
        place: Place,
    ) -> Result<Reading, CheckRefused> {
        let bit = qualifier_bit(qualifier);
        if (self.qualifiers | self.alias_qualifiers) & bit != 0 {
            return Err(broken(CheckRule::K13, place));
        }
        Ok(Reading {
            qualifiers: self.qualifiers | bit,
            ..self
        })
    }

    /// With a keyword. L01 at it where it is `float` or `double`.
    pub fn with_keyword(self, keyword: TypeKeyword, place: Place) -> Result<Reading, CheckRefused> {
        match self.keywords.with(keyword) {
            Some(keywords) => Ok(Reading { keywords, ..self }),
            None => Err(broken(CheckRule::L01, place)),
        }
    }

    /// With a typedef name's type, whose qualifiers are these. K13 at the name where the list has one of them.
    pub fn with_alias(
        self,
        kind: TypeId,
        qualifiers: u32,
        place: Place,
    ) -> Result<Reading, CheckRefused> {
        if self.qualifiers & qualifiers != 0 {
            return Err(broken(CheckRule::K13, place));
        }
        Ok(Reading {
            kind: Some(kind),
            alias_qualifiers: qualifiers,
            ..self
        })
    }

    /// With the type of a struct, union or enum.
    pub fn with_tag(self, kind: TypeId, declares: bool) -> Reading {
        Reading {
            kind: Some(kind),
            declares: self.declares || declares,
            ..self
        }
    }

    /// K06 at the list's first token where it names a type already that is named by no keywords.
    pub fn wants_type(&self) -> Result<(), CheckRefused> {
        if self.kind.is_some() {
            return Err(broken(CheckRule::K06, self.place));
        }
        Ok(())
    }

    /// The type without the list's qualifiers. K06 at its first token where its specifiers are none of C90's sets.
    pub fn unqualified(&self) -> Result<TypeId, CheckRefused> {
        let kind = match self.kind {
            Some(kind) => if self.keywords.has_any {
                None
            } else {
                Some(kind)
            },
            None => self.keywords.kind(),
        };
        match kind {
            Some(kind) => Ok(kind),
            None => Err(broken(CheckRule::K06, self.place)),
        }
    }
}
