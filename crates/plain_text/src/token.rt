//! Tokens and the blanks behind them.

ghost use Rattle.std.specs.Prelude.{◌≡◌, ◌≤◌, length};
ghost use Rattle.std.specs.List.{prefix_len};
ghost use Rattle.plain_text.specs.Program.{Token};
ghost use Rattle.plain_text.specs.Reading.{Finds, is_blank, skipped, token_at};

/// Whether it is a space, a tab or a line feed.
fn is_blank(c: u8) -> bool
    ensures { result ≡ is_blank c }
{
    matches!(c, b' ' | b'\t' | b'\n')
}

/// How many blanks stand at the front of `text`.
fn blank_count(text: &[u8]) -> usize
    ensures count { result ≡ prefix_len is_blank text.now }
    ensures within { result ≤ length text.now }
{
    text.iter().take_while(|c| is_blank(**c)).count()
}

/// The text behind the blanks at its front.
#[tactic(auto, unfolding(crate::specs::Reading::skipped))]
pub fn skip_blanks(text: &[u8]) -> &[u8]
    ensures skipped { result.now ≡ skipped text.now }
    ensures within { length result.now ≤ length text.now }
{
    &text[blank_count(text)..]
}

/// The text behind a token and its blanks, where it begins with that token and at least `gap` blanks.
#[tactic(auto, unfolding(crate::specs::Reading::token_at))]
pub fn after_token<'a>(text: &'a [u8], spelling: &[u8], gap: usize) -> Option<&'a [u8]>
    ensures { Finds (λ rest. rest.now) result (token_at (record { spelling = spelling.now; gap = gap }) text.now) }
{
    let behind = text.strip_prefix(spelling)?;
    let rest = skip_blanks(behind);
    if behind.len() - rest.len() < gap {
        return None;
    }
    Some(rest)
}
