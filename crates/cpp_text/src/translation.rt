//! What the lines of a unit make.

ghost use Rattle.std.specs.Prelude.{◌-◌, ◌^◌, ◌≤◌, ◌≤ℤ◌, pos, negsuc, vec_len, IfErr};
ghost use Rattle.cpp_expand.specs.Causes.{Refuses};
ghost use Rattle.cpp_text.specs.Causes.{OfText};

use crate::directive::{ControlDirective, Directive, SectionDirective, directive_of, operands};
use crate::header_name::{HeaderName, included};
use crate::line_number::numbered;
use crate::quote::check_quotes;
use crate::refusal::broken;
use crate::section::Section;
use crate::source::Position;
use cpp_cond::condition;
use cpp_expand::Macros;
use fsc_base::{Name, NoMemory, Place, Refused, Rule};
use indexmap::IndexSet;
use pp_token::{Names, PpKind, PpToken, PpTokens, PpUnit};
use std::alloc::Global;
use std::mem;

/// The most tokens of a unit after expansion, line ends and End not counted.
const MOST_TOKENS: usize = 1 << 20;

/// A file that is to be included.
#[derive(Debug, Drop)]
pub struct Inclusion {
    pub header: HeaderName,
    /// The place of the line's `#`.
    pub hash: Place,
}

/// What the lines that were read have made.
#[derive(Drop)]
pub struct Translation {
    alloc: Global,
    macros: Macros,
    /// The names of the unit's files in order of first opening.
    opened: IndexSet<Vec<u8>>,
    /// The lines since the last directive, which are expanded together.
    text: Vec<PpToken>,
    /// What the lines before became.
    tokens: Vec<PpToken>,
    /// How many of these are no line ends.
    count: u32,
    ghost few: { count ≤ 2 ^ 20 },
}

impl Translation {
    /// Before the first line of a unit whose own file has that name.
    pub fn new(alloc: Global, name: &Name) -> Result<Translation, NoMemory> {
        let mut macros = Macros::new(alloc)?;
        macros.locate(name, 0)?;
        let mut opened = IndexSet::new(alloc);
        opened.insert(Vec::from_slice(alloc, name.as_slice())?)?;
        Ok(Translation {
            alloc,
            macros,
            opened,
            text: Vec::new(alloc),
            tokens: Vec::new(alloc),
            count: 0,
        })
    }

    /// The unit, once all lines were read, with its End.
    pub fn finish(self, end: PpToken) -> Result<PpUnit, NoMemory> {
        let Translation {
            alloc,
            opened,
            mut tokens,
            ..
        } = self;
        tokens.push(end)?;
        let mut names = Vec::new(alloc);
        for name in opened {
            names.push(Name::from_vec(name))?;
        }
        Ok(PpUnit {
            tokens: PpTokens::from_vec(tokens),
            opened: Names::from_vec(names),
        })
    }

    /// The name of the file with that number, or None where no file has it.
    pub fn file_name(&self, file: u32) -> Option<&[u8]> {
        Some(self.opened.get_index(file as usize)?.as_slice())
    }

    /// The number of the file of that name in order of first opening.
    pub fn number_of(&mut self, name: &Name) -> Result<u32, NoMemory> {
        let name = Vec::from_slice(self.alloc, name.as_slice())?;
        let (number, _) = self.opened.insert_full(name)?;
        u32::try_from(number).map_err(|_| NoMemory)
    }

    /// Sets what `__FILE__` and `__LINE__` give at that position.
    pub fn locate(&mut self, position: &Position) -> Result<(), NoMemory> {
        self.macros.locate(&position.presumed, position.add)
    }

    /// Reads a line at that position of its file. Answers the file that it includes, if any.
    pub fn take_line(
        &mut self,
        position: &mut Position,
        line: Vec<PpToken>,
    ) -> Result<Option<Inclusion>, Refused>
        ensures { IfErr result (Refuses OfText) }
    {
        match directive_of(&line) {
            None => {
                self.take_text(position, line)?;
                Ok(None)
            }
            Some((Directive::Section(directive), hash)) => {
                self.expand_text()?;
                self.divide(position, directive, line, hash)?;
                Ok(None)
            }
            Some((Directive::Control(directive), hash)) => {
                self.expand_text()?;
                if position.is_read() {
                    self.control(position, directive, line, hash)
                } else {
                    Ok(None)
                }
            }
        }
    }

    /// Keeps a line of text for expansion, where its group is read. Refused by K31 at a quote that is not closed.
    fn take_text(&mut self, position: &Position, mut line: Vec<PpToken>) -> Result<(), Refused>
        ensures { IfErr result (Refuses OfText) }
    {
        if position.is_read() {
            check_quotes(&line)?;
            self.text.append(&mut line)?;
        }
        Ok(())
    }

    /// Expands the lines since the last directive.
    #[tactic(auto, using(crate::proofs::Texts::of_expand))]
    pub fn expand_text(&mut self) -> Result<(), Refused>
        ensures { IfErr result (Refuses OfText) }
    {
        let text = mem::replace(&mut self.text, Vec::new(self.alloc));
        if text.is_empty() {
            return Ok(());
        }
        let expanded = self.macros.expand(&PpTokens::from_vec(text), self.count)?;
        let mut tokens = expanded.into_vec();
        self.count = added(self.count, &tokens);
        self.tokens.append(&mut tokens)?;
        Ok(())
    }

    /// Reads a line that begins, divides or ends a conditional inclusion. Refused by K34 where it is out of order, or
    /// as its condition is, which counts only where a group may be read.
    fn divide(
        &mut self,
        position: &mut Position,
        directive: SectionDirective,
        line: Vec<PpToken>,
        hash: Place,
    ) -> Result<(), Refused>
        requires { 2 ≤ vec_len line }
        ensures { IfErr result (Refuses OfText) }
    {
        let section = match directive {
            SectionDirective::If if position.is_read() => {
                check_quotes(operands(&line))?;
                Section::new(self.holds(line)?)
            }
            SectionDirective::Ifdef | SectionDirective::Ifndef if position.is_read() => {
                Section::new(self.holds(line)?)
            }
            SectionDirective::If | SectionDirective::Ifdef | SectionDirective::Ifndef => {
                Section::skipped()
            }
            SectionDirective::Elif => {
                let section = undivided(position, hash)?;
                section.after_elif(section.is_open() && self.holds_elif(line)?)
            }
            SectionDirective::Else => undivided(position, hash)?.after_else(),
            SectionDirective::Endif => return end_section(position, hash),
        };
        position.sections.push(section)?;
        Ok(())
    }

    /// Whether the condition of a line holds.
    #[tactic(auto, using(crate::proofs::Texts::of_condition))]
    fn holds(&self, line: Vec<PpToken>) -> Result<bool, Refused>
        requires { 2 ≤ vec_len line }
        ensures { IfErr result (Refuses OfText) }
    {
        Ok(condition(self.alloc, &PpTokens::from_vec(line), &self.macros)?)
    }

    /// Whether the condition of an `#elif` line holds.
    fn holds_elif(&self, line: Vec<PpToken>) -> Result<bool, Refused>
        requires { 2 ≤ vec_len line }
        ensures { IfErr result (Refuses OfText) }
    {
        check_quotes(operands(&line))?;
        self.holds(line)
    }

    /// Follows a directive in a group that is read. Answers the file that it includes, if any.
    #[tactic(auto, using(crate::proofs::Texts::of_define, crate::proofs::Texts::of_undefine))]
    fn control(
        &mut self,
        position: &mut Position,
        directive: ControlDirective,
        line: Vec<PpToken>,
        hash: Place,
    ) -> Result<Option<Inclusion>, Refused>
        ensures { IfErr result (Refuses OfText) }
    {
        match directive {
            ControlDirective::Define => {
                check_quotes(operands(&line))?;
                self.macros.define(&PpTokens::from_vec(line))?;
            }
            ControlDirective::Undef => {
                check_quotes(operands(&line))?;
                self.macros.undefine(&PpTokens::from_vec(line))?;
            }
            ControlDirective::Include => return Ok(Some(self.inclusion(&line, hash)?)),
            ControlDirective::Line => self.renumber(position, &line, hash)?,
            ControlDirective::Error => return Err(broken(Rule::K43, hash)),
            ControlDirective::Unknown => return Err(broken(Rule::K33, hash)),
            ControlDirective::Pragma | ControlDirective::Empty => {}
        }
        Ok(None)
    }

    /// The file that an `#include` line names.
    fn inclusion(&self, line: &[PpToken], hash: Place) -> Result<Inclusion, Refused>
        ensures { IfErr result (Refuses OfText) }
    {
        check_quotes(operands(line))?;
        let header = included(self.alloc, line, &self.macros, hash)?;
        Ok(Inclusion { header, hash })
    }

    /// Follows a `#line` line: the next line has the number that it says.
    fn renumber(
        &mut self,
        position: &mut Position,
        line: &[PpToken],
        hash: Place,
    ) -> Result<(), Refused>
        ensures { IfErr result (Refuses OfText) }
    {
        check_quotes(operands(line))?;
        let numbered = numbered(self.alloc, line, &self.macros, hash)?;
        position.add = addition(numbered.number, last_line(line, hash));
        if let Some(name) = numbered.name {
            position.presumed = name;
        }
        self.locate(position)?;
        Ok(())
    }
}

/// The physical line in which a directive ends.
fn last_line(line: &[PpToken], hash: Place) -> u32 {
    match line.last() {
        Some(token) => token.place.line,
        None => hash.line,
    }
}

/// What `__LINE__` adds to a token's line where the line behind `last` has that number.
fn addition(number: u32, last: u32) -> i64
    ensures low { negsuc (2 ^ 32 - 1) ≤ℤ result }
    ensures high { result ≤ℤ pos (2 ^ 32) }
{
    i64::from(number) - (i64::from(last) + 1)
}

/// How many tokens there are with these, line ends not counted.
fn added(count: u32, tokens: &[PpToken]) -> u32
    ensures { result ≤ 2 ^ 20 }
{
    let more = tokens
        .iter()
        .filter(|token| token.kind != PpKind::LineEnd)
        .count();
    (count as usize).saturating_add(more).min(MOST_TOKENS) as u32
}

/// Takes the innermost conditional inclusion, which has no `#else` so far. Refused by K34 where there is none.
fn undivided(position: &mut Position, hash: Place) -> Result<Section, Refused>
    ensures { IfErr result (Refuses OfText) }
{
    match position.sections.pop() {
        Some(section) if !section.has_else() => Ok(section),
        _ => Err(broken(Rule::K34, hash)),
    }
}

/// Ends the innermost conditional inclusion. Refused by K34 where there is none.
fn end_section(position: &mut Position, hash: Place) -> Result<(), Refused>
    ensures { IfErr result (Refuses OfText) }
{
    match position.sections.pop() {
        Some(_) => Ok(()),
        None => Err(broken(Rule::K34, hash)),
    }
}
