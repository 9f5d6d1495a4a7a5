//! The name that a declarator declares.

ghost use Rattle.std.specs.Prelude.{◌≡◌};
ghost use Rattle.std.specs.Option.{option_copied};
ghost use Rattle.c_syntax.specs.Declarators.{name_of};

use crate::expression::{Declarator, PartForm};
use fsc_base::Name;

impl Declarator {
    /// The name that it declares: that of its innermost part. An abstract declarator has none (C90 6.5.5).
    pub fn name(&self) -> Option<&Name>
        ensures { option_copied result ≡ name_of self.now }
    {
        match self.parts.as_slice().first() {
            Some(part) => match &part.form {
                PartForm::Plain(name) => Some(name),
                _ => None,
            },
            None => None,
        }
    }
}
