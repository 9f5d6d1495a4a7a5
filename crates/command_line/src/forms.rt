//! The plain forms of words, as laws.

ghost use Rattle.std.specs.Prelude.{ℕ, ◌<◌, ◌≤◌, [], ◌∷◌, codes, false};
ghost use Rattle.std.specs.Str.{IsUtf8};
ghost use Rattle.clap.specs.Words.{Text};
ghost use Rattle.command_line.specs.Commands.{default_steps, most_steps};
ghost use Rattle.command_line.specs.Forms.{IsFileWord, plain_words, words_with_steps};
ghost use Rattle.command_line.specs.Requests.{Listed};
ghost use Rattle.command_line.specs.declared.request.Request.TheVariants.{Go, Run};

/// The words `go FILE` ask for a run of that one file of at most 10^10 instructions, and `go --steps N FILE`, with N a
/// decimal from 1 to 10^12, for one of at most N. The file is UTF-8 and doesn't begin with a dash.
pub fn go_forms()
    ensures plain { (file : Text) → IsUtf8 file → IsFileWord file →
        Listed (plain_words (codes "go") file) (Go default_steps false (file ∷ [])) }
    ensures with_steps { (file : Text) (steps : ℕ) → IsUtf8 file → IsFileWord file → 0 < steps → steps ≤ most_steps →
        Listed (words_with_steps (codes "go") steps file) (Go steps false (file ∷ [])) }
{}

/// The same of `run IMAGE` and `run --steps N IMAGE`.
pub fn run_forms()
    ensures plain { (image : Text) → IsUtf8 image → IsFileWord image →
        Listed (plain_words (codes "run") image) (Run default_steps false image) }
    ensures with_steps { (image : Text) (steps : ℕ) → IsUtf8 image → IsFileWord image → 0 < steps → steps ≤ most_steps →
        Listed (words_with_steps (codes "run") steps image) (Run steps false image) }
{}
