//! The files of a unit while they are read.

ghost use Rattle.std.specs.Prelude.{◌≡◌, ◌+◌, ◌^◌, ◌<◌, ◌≤◌, [], ◌∷◌, ◌++◌, length, vec_len, IfOk, IfErr, OnOk, IsTrue};
ghost use Rattle.cpp_expand.specs.Causes.{Refuses};
ghost use Rattle.cpp_text.specs.Causes.{OfText};
ghost use Rattle.fsc_outside.specs.Calls.{counts_of};
ghost use Rattle.cpp_text.specs.Outside.{StopsLine};
ghost use Rattle.cpp_text.specs.Progress.{left_of};

use crate::opening::file_tokens;
use crate::refusal::{Stop, broken};
use crate::search::{Found, search};
use crate::source::{Source, next_line};
use crate::translation::{Inclusion, Translation};
use fsc_base::{Name, NoMemory, Refused, Rule};
use fsc_outside::Files;
use pp_token::{PpTokens, PpUnit};
use std::alloc::Global;
use std::mem;

/// How many files may include one another.
const MOST_NESTED: u32 = 64;

/// A unit of which some lines were read.
#[derive(Drop)]
pub struct Reading {
    alloc: Global,
    unit: u32,
    /// The file that is read.
    current: Source,
    /// The files that include it, the innermost last.
    including: Vec<Source>,
    translation: Translation,
}

impl Reading {
    /// The unit of that number, whose own file has that name and these tokens, before its first line.
    pub fn new(alloc: Global, unit: u32, name: &Name, tokens: PpTokens) -> Result<Reading, NoMemory>
        requires { 0 < length tokens }
    {
        Ok(Reading {
            alloc,
            unit,
            current: Source::new(alloc, 0, Name::from_slice(alloc, name.as_slice())?, tokens)?,
            including: Vec::new(alloc),
            translation: Translation::new(alloc, name)?,
        })
    }

    /// Reads all lines.
    #[tactic(auto, using(crate::proofs::Earlier::line_earlier))]
    pub fn run<F: Files>(&mut self, files: &mut F) -> Result<(), Stop>
        ensures stopped { IfErr result (λ stop. StopsLine stop (counts_of F.Files files.old files.new)) }
        ensures kept { F.contents files.new ≡ F.contents files.old }
        ensures faults_counted { F.fault_count files.old ≤ F.fault_count files.new }
        ensures absences_counted { F.absence_count files.old ≤ F.absence_count files.new }
    {
        'lines: loop {
            match self.step(files) {
                Ok(true) => {}
                Ok(false) => return Ok(()),
                Err(stop) => return Err(stop),
            }
        }
    }

    /// The unit, once all lines were read.
    pub fn finish(self) -> Result<PpUnit, NoMemory> {
        let Reading {
            current,
            translation,
            ..
        } = self;
        translation.finish(current.end)
    }

    /// The name of the file with that number in order of first opening.
    pub fn file_name(&self, file: u32) -> Result<Name, NoMemory> {
        let name = match self.translation.file_name(file) {
            Some(name) => name,
            None => self.current.position.name.as_slice(),
        };
        Name::from_slice(self.alloc, name)
    }

    /// Reads a line, or ends a file. Answers whether the unit goes on.
    #[tactic(auto, using(crate::proofs::Earlier::line_of_refused))]
    fn step<F: Files>(&mut self, files: &mut F) -> Result<bool, Stop>
        ensures shorter { IfOk result (λ goes_on. IsTrue goes_on → left_of self.new.including.items self.new.current < left_of self.old.including.items self.old.current) }
        ensures stopped { IfErr result (λ stop. StopsLine stop (counts_of F.Files files.old files.new)) }
        ensures kept { F.contents files.new ≡ F.contents files.old }
        ensures faults_counted { F.fault_count files.old ≤ F.fault_count files.new }
        ensures absences_counted { F.absence_count files.old ≤ F.absence_count files.new }
    {
        let line = next_line(self.alloc, &mut self.current.rest)?;
        if line.is_empty() {
            return Ok(self.end_file()?);
        }
        let inclusion = self
            .translation
            .take_line(&mut self.current.position, line)?;
        if let Some(inclusion) = inclusion {
            self.include(files, &inclusion)?;
        }
        Ok(true)
    }

    /// Ends the file that is read and goes on with the one that includes it. Answers whether there is one. Refused by
    /// K34, at the file's end, where an `#endif` is missing.
    fn end_file(&mut self) -> Result<bool, Refused>
        ensures progress { IfOk result (λ goes_on. IsTrue goes_on → self.old.including.items ≡ self.new.including.items ++ self.new.current ∷ []) }
        ensures cause { IfErr result (Refuses OfText) }
    {
        self.translation.expand_text()?;
        if !self.current.position.sections.is_empty() {
            return Err(broken(Rule::K34, self.current.end.place));
        }
        let Some(source) = self.including.pop() else {
            return Ok(false);
        };
        self.translation.locate(&source.position)?;
        self.current = source;
        Ok(true)
    }

    /// Goes on with an included file. Refused by L02 where 64 files are nested already, and by K40 where it is absent.
    #[tactic(auto, using(crate::proofs::Earlier::line_of_search, crate::proofs::Earlier::line_of_refused))]
    fn include<F: Files>(&mut self, files: &mut F, inclusion: &Inclusion) -> Result<(), Stop>
        ensures limit { OnOk result (self.old.current.depth < 64) }
        ensures outer { OnOk result (self.new.including.items ≡ self.old.including.items ++ self.old.current ∷ []) }
        ensures depth { OnOk result (self.new.current.depth ≡ self.old.current.depth + 1) }
        ensures bounded { OnOk result (vec_len self.new.current.rest < 2 ^ 64) }
        ensures stopped { IfErr result (λ stop. StopsLine stop (counts_of F.Files files.old files.new)) }
        ensures kept { F.contents files.new ≡ F.contents files.old }
        ensures faults_counted { F.fault_count files.old ≤ F.fault_count files.new }
        ensures absences_counted { F.absence_count files.old ≤ F.absence_count files.new }
    {
        if self.current.depth >= MOST_NESTED {
            return Err(Stop::from(broken(Rule::L02, inclusion.hash)));
        }
        let including = &self.current.position.name;
        match search(self.alloc, files, including, &inclusion.header)? {
            Some(Found::File(name, bytes)) => Ok(self.open(name, bytes.as_slice())?),
            Some(Found::BuiltIn(name, text)) => Ok(self.open(name, text)?),
            None => Err(Stop::from(broken(Rule::K40, inclusion.hash))),
        }
    }

    /// Goes on with an included file of that name and these bytes.
    fn open(&mut self, name: Name, bytes: &[u8]) -> Result<(), Refused>
        requires { self.old.current.depth < 64 }
        ensures outer { OnOk result (self.new.including.items ≡ self.old.including.items ++ self.old.current ∷ []) }
        ensures depth { OnOk result (self.new.current.depth ≡ self.old.current.depth + 1) }
        ensures bounded { OnOk result (vec_len self.new.current.rest < 2 ^ 64) }
        ensures cause { IfErr result (Refuses OfText) }
    {
        let file = self.translation.number_of(&name)?;
        let tokens = file_tokens(self.alloc, self.unit, file, bytes)?;
        let source = Source::new(self.alloc, self.current.depth + 1, name, tokens)?;
        self.translation.locate(&source.position)?;
        let including = mem::replace(&mut self.current, source);
        self.including.push(including)?;
        Ok(())
    }
}
