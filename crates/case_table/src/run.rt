//! Running the cases of one table.

use crate::bytes::bytes_of_text;
use crate::line::{Line, line_of};
use crate::number::same_number;
use crate::refusal::{NoStep, Stop};
use crate::words::words_of;
use std::alloc::Global;

/// What the steps of a case are done on. Each case has one of its own.
pub trait Bench: Drop {
    /// One on which nothing was done.
    fn new(alloc: Global) -> Result<Self, NoStep>;

    /// Does the step that these words spell. Its answer.
    fn step(&mut self, alloc: Global, words: &[&str]) -> Result<String, NoStep>;
}

/// A case that runs.
#[derive(Drop)]
struct Case<'a, B: Bench> {
    name: &'a str,
    bench: B,
    agrees: bool,
}

/// A table that runs, and where it reports.
#[derive(Drop)]
struct Run<'a, B: Bench, P> {
    out: &'a P,
    alloc: Global,
    file: &'a str,
    case: Option<Case<'a, B>>,
    agrees: bool,
}

/// Whether a word is the one that is wanted: the same text, the same number or the same bytes.
fn is_word(alloc: Global, wanted: &str, word: &str) -> Result<bool, NoStep> {
    if wanted == word || same_number(wanted, word) {
        return Ok(true);
    }
    if !wanted.contains('\\') {
        return Ok(false);
    }
    Ok(bytes_of_text(alloc, wanted)? == bytes_of_text(alloc, word)?)
}

/// Whether an answer is the one that is wanted, word by word.
fn is_answer(alloc: Global, wanted: &str, answer: &str) -> Result<bool, NoStep> {
    let wanted = words_of(alloc, wanted)?;
    let words = words_of(alloc, answer)?;
    if wanted.len() != words.len() {
        return Ok(false);
    }
    for (wanted, word) in wanted.iter().zip(words.iter()) {
        if !is_word(alloc, wanted, word)? {
            return Ok(false);
        }
    }
    Ok(true)
}

impl<'a, B: Bench, P: Print> Run<'a, B, P> {
    /// Ends the case that runs, and reports it where all its answers were right.
    fn end_case(&mut self) -> Result<(), Stop> {
        if let Some(case) = self.case.take() {
            if case.agrees {
                println!(self.out; "ok {}: {}", self.file, case.name)?;
            } else {
                self.agrees = false;
            }
        }
        Ok(())
    }

    /// Begins a case.
    fn begin_case(&mut self, name: &'a str) -> Result<(), Stop> {
        self.end_case()?;
        let bench = B::new(self.alloc).map_err(|refusal| Stop::at(0, refusal))?;
        self.case = Some(Case {
            name,
            bench,
            agrees: true,
        });
        Ok(())
    }

    /// Does a step, and reports its answer where it is not the wanted one.
    fn step(&mut self, line: u32, step: &str, wanted: &str) -> Result<(), Stop> {
        let refused = |refusal| Stop::at(line, refusal);
        let Some(case) = &mut self.case else {
            let why = "a step before the first case";
            return Err(Stop::Malformed { line, why });
        };
        let words = words_of(self.alloc, step).map_err(refused)?;
        let answer = case.bench.step(self.alloc, &words).map_err(refused)?;
        if !is_answer(self.alloc, wanted, &answer).map_err(refused)? {
            case.agrees = false;
            println!(self.out; "{}:{line}: {step} = {answer}, not {wanted}", self.file)?;
        }
        Ok(())
    }

    /// Does what a line says.
    fn line(&mut self, number: u32, text: &'a str) -> Result<(), Stop> {
        match line_of(text) {
            Line::Nothing => Ok(()),
            Line::Case(name) => self.begin_case(name),
            Line::Step { step, answer } => self.step(number, step, answer),
        }
    }
}

/// Runs the cases of a table, and prints a line for each case whose answers are right, and one for each answer that is not.
/// Whether all are. Refused at the first line that is malformed.
pub fn run_table<'a, B: Bench, P: Print>(
    out: &'a P,
    alloc: Global,
    file: &'a str,
    text: &'a str,
) -> Result<bool, Stop> {
    let mut run: Run<'a, B, P> = Run {
        out,
        alloc,
        file,
        case: None,
        agrees: true,
    };
    let mut number = 0u32;
    for line in text.lines() {
        number = number.saturating_add(1);
        run.line(number, line)?;
    }
    run.end_case()?;
    Ok(run.agrees)
}
