//! From words to requests.

ghost use Rattle.std.specs.Prelude.{◌≡◌, ℕ, List, IfOk, IfErr, IsErr, MatchResult, All, Some, codes, map, slice_get};
ghost use Rattle.clap.specs.Walk.{texts};
ghost use Rattle.std.specs.Str.{IsUtf8};
ghost use Rattle.command_line.specs.Commands.{build_command, compile_command, demo_command, go_command, link_command, mean_command, report_command, run_command};
ghost use Rattle.command_line.specs.Requests.{Holds, IsBounded, IsReadable, IsTaken, IsUsable, Listed, Takes};
ghost use Rattle.command_line.specs.declared.request.Request.{Request};

use crate::arguments::{
    build_command, compile_command, demo_command, go_command, link_command, mean_command,
    report_command, run_command,
};
use crate::matching::{cost_of, count_of, matches_of, name_of, names_of, stats_of, steps_of};
use crate::refusal::WordsNo;
use crate::request::Request;
use fsc_base::Name;
use std::alloc::Global;

/// The most words that are read.
const MOST_WORDS: usize = 1000;

/// What the words after the program's name ask for, as clap reads them: the first word names one of eight commands, and
/// clap takes the words behind it. Usage comes exactly where there are more than 1,000 words, a word is not UTF-8, the
/// first word is no command, there is none, or clap finds a fault in the words. NoMemory comes where memory is
/// refused.
///
/// The lines are `build -o IMAGE FILE..`, `compile -o UNIT FILE`, `link -o IMAGE UNIT..`,
/// `run [--steps N] [--stats] IMAGE`, `go [--steps N] [--stats] FILE..`, `mean [--cost K] FILE..`,
/// `report [--steps N] FILE..` and `demo N`. Options stand in any order, also behind the names, and each at most once.
/// A name that begins with a dash stands behind `--`. The N of `--steps` is from 1 to 10^12, and 10^10 without the
/// option; the K of `--cost` is from 1 to 10^12, and 10^9 without it. The N of `demo` is from 1 to 2,000. All three may
/// have a plus sign and zeros in front.
#[tactic(auto, unfolding(crate::specs::Requests::IsUsable, crate::specs::Requests::Listed))]
pub fn request_of(alloc: Global, words: &[Name]) -> Result<Request, WordsNo>
    ensures found { IfOk result (Listed words.now) }
    ensures bounded { IfOk result IsBounded }
    ensures usage { IfErr result (λ why. why ≡ WordsNo.Usage → IsUsable words.now → ⊥) }
    ensures refused { (IsUsable words.now → ⊥) → IsErr result }
    ensures only { (request : Request) → Listed words.now request →
        MatchResult result (λ found. found ≡ request) (λ why. why ≡ WordsNo.NoMemory) }
{
    if words.len() > MOST_WORDS {
        return Err(WordsNo::Usage);
    }
    let texts = texts_of(alloc, words)?;
    request_in(alloc, texts.as_slice())
}

/// The words as texts.
fn texts_of(alloc: Global, words: &[Name]) -> Result<Vec<&str>, WordsNo>
    ensures found { IfOk result (λ texts. map (λ text. text.now) texts.items ≡ words.now) }
    ensures utf8 { IfOk result (λ _. All IsUtf8 words.now) }
    ensures usage { IfErr result (λ why. why ≡ WordsNo.Usage → All IsUtf8 words.now → ⊥) }
{
    let mut texts = Vec::new(alloc);
    for word in words {
        texts.push(text_of(word)?)?;
    }
    Ok(texts)
}

/// The word as text.
fn text_of(word: &Name) -> Result<&str, WordsNo>
    ensures found { IfOk result (λ text. text.now ≡ word.now) }
    ensures utf8 { IfOk result (λ _. IsUtf8 word.now) }
    ensures usage { IfErr result (λ why. why ≡ WordsNo.Usage → IsUtf8 word.now → ⊥) }
{
    str::from_utf8(word.as_slice()).map_err(|_| WordsNo::Usage)
}

/// What the texts ask for, by the command that the first one names.
fn request_in(alloc: Global, words: &[&str]) -> Result<Request, WordsNo>
    ensures found { IfOk result (Holds (texts words.now)) }
    ensures bounded { IfOk result IsBounded }
    ensures usage { IfErr result (λ why. why ≡ WordsNo.Usage → IsTaken (texts words.now) → ⊥) }
{
    match words.first().copied() {
        Some("build") => build(alloc, words),
        Some("compile") => compile(alloc, words),
        Some("link") => link(alloc, words),
        Some("run") => run(alloc, words),
        Some("go") => go(alloc, words),
        Some("mean") => mean(alloc, words),
        Some("report") => report(alloc, words),
        Some("demo") => demo(alloc, words),
        _ => Err(WordsNo::Usage),
    }
}

/// What the words of `build` ask for.
fn build(alloc: Global, words: &[&str]) -> Result<Request, WordsNo>
    requires { slice_get (texts words.now) 0 ≡ Some (codes "build") }
    ensures found { IfOk result (Holds (texts words.now)) }
    ensures bounded { IfOk result IsBounded }
    ensures usage { IfErr result (λ why. why ≡ WordsNo.Usage → Takes build_command (texts words.now) → ⊥) }
{
    let matches = matches_of(build_command(alloc)?, words)?;
    Ok(Request::Build {
        image: name_of(alloc, &matches, "image")?,
        files: names_of(alloc, &matches, "files")?,
    })
}

/// What the words of `compile` ask for.
fn compile(alloc: Global, words: &[&str]) -> Result<Request, WordsNo>
    requires { slice_get (texts words.now) 0 ≡ Some (codes "compile") }
    ensures found { IfOk result (Holds (texts words.now)) }
    ensures bounded { IfOk result IsBounded }
    ensures usage { IfErr result (λ why. why ≡ WordsNo.Usage → Takes compile_command (texts words.now) → ⊥) }
{
    let matches = matches_of(compile_command(alloc)?, words)?;
    Ok(Request::Compile {
        unit: name_of(alloc, &matches, "unit")?,
        file: name_of(alloc, &matches, "file")?,
    })
}

/// What the words of `link` ask for.
fn link(alloc: Global, words: &[&str]) -> Result<Request, WordsNo>
    requires { slice_get (texts words.now) 0 ≡ Some (codes "link") }
    ensures found { IfOk result (Holds (texts words.now)) }
    ensures bounded { IfOk result IsBounded }
    ensures usage { IfErr result (λ why. why ≡ WordsNo.Usage → Takes link_command (texts words.now) → ⊥) }
{
    let matches = matches_of(link_command(alloc)?, words)?;
    Ok(Request::Link {
        image: name_of(alloc, &matches, "image")?,
        units: names_of(alloc, &matches, "units")?,
    })
}

/// What the words of `run` ask for.
fn run(alloc: Global, words: &[&str]) -> Result<Request, WordsNo>
    requires { slice_get (texts words.now) 0 ≡ Some (codes "run") }
    ensures found { IfOk result (Holds (texts words.now)) }
    ensures bounded { IfOk result IsBounded }
    ensures usage { IfErr result (λ why. why ≡ WordsNo.Usage → Takes run_command (texts words.now) → ⊥) }
{
    let matches = matches_of(run_command(alloc)?, words)?;
    Ok(Request::Run {
        steps: steps_of(&matches),
        stats: stats_of(&matches),
        image: name_of(alloc, &matches, "image")?,
    })
}

/// What the words of `go` ask for.
fn go(alloc: Global, words: &[&str]) -> Result<Request, WordsNo>
    requires { slice_get (texts words.now) 0 ≡ Some (codes "go") }
    ensures found { IfOk result (Holds (texts words.now)) }
    ensures bounded { IfOk result IsBounded }
    ensures usage { IfErr result (λ why. why ≡ WordsNo.Usage → Takes go_command (texts words.now) → ⊥) }
{
    let matches = matches_of(go_command(alloc)?, words)?;
    Ok(Request::Go {
        steps: steps_of(&matches),
        stats: stats_of(&matches),
        files: names_of(alloc, &matches, "files")?,
    })
}

/// What the words of `mean` ask for.
fn mean(alloc: Global, words: &[&str]) -> Result<Request, WordsNo>
    requires { slice_get (texts words.now) 0 ≡ Some (codes "mean") }
    ensures found { IfOk result (Holds (texts words.now)) }
    ensures bounded { IfOk result IsBounded }
    ensures usage { IfErr result (λ why. why ≡ WordsNo.Usage → Takes mean_command (texts words.now) → ⊥) }
{
    let matches = matches_of(mean_command(alloc)?, words)?;
    Ok(Request::Mean {
        cost: cost_of(&matches),
        files: names_of(alloc, &matches, "files")?,
    })
}

/// What the words of `report` ask for.
fn report(alloc: Global, words: &[&str]) -> Result<Request, WordsNo>
    requires { slice_get (texts words.now) 0 ≡ Some (codes "report") }
    ensures found { IfOk result (Holds (texts words.now)) }
    ensures bounded { IfOk result IsBounded }
    ensures usage { IfErr result (λ why. why ≡ WordsNo.Usage → Takes report_command (texts words.now) → ⊥) }
{
    let matches = matches_of(report_command(alloc)?, words)?;
    Ok(Request::Report {
        steps: steps_of(&matches),
        files: names_of(alloc, &matches, "files")?,
    })
}

/// What the words of `demo` ask for.
fn demo(alloc: Global, words: &[&str]) -> Result<Request, WordsNo>
    requires { slice_get (texts words.now) 0 ≡ Some (codes "demo") }
    ensures found { IfOk result (Holds (texts words.now)) }
    ensures bounded { IfOk result IsBounded }
    ensures usage { IfErr result (λ why. why ≡ WordsNo.Usage → Takes demo_command (texts words.now) → ⊥) }
{
    let matches = matches_of(demo_command(alloc)?, words)?;
    Ok(Request::Demo {
        count: count_of(&matches),
    })
}

/// Words are listed as one request at most.
pub fn one_request()
    ensures { (words : List (List ℕ)) (r s : Request) → Listed words r → Listed words s → r ≡ s }
{}
