//! Quotes that are not closed on their line.

ghost use Rattle.std.specs.Prelude.{IfErr};
ghost use Rattle.cpp_expand.specs.Causes.{Refuses};
ghost use Rattle.cpp_text.specs.Causes.{OfText};

use fsc_base::{Broken, Refused, Rule};
use pp_token::{PpKind, PpToken};

/// Whether it is a quote that is not closed on its line.
fn is_open_quote(token: &PpToken) -> bool {
    token.kind == PpKind::Other && matches!(token.text.as_slice(), b"'" | b"\"")
}

/// Refuses by K31, at its place, the first quote that is not closed.
pub fn check_quotes(tokens: &[PpToken]) -> Result<(), Refused>
    ensures { IfErr result (Refuses OfText) }
{
    match tokens.iter().find(|token| is_open_quote(token)) {
        Some(quote) => Err(Refused::Broken(Broken {
            rule: Rule::K31,
            place: quote.place,
        })),
        None => Ok(()),
    }
}
