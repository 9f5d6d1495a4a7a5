//! The phases of one unit, in order: preprocessing, tokens, syntax, constraints.

ghost use Rattle.std.specs.Prelude.{◌≡◌, ℕ, ◌≤◌, List, IfErr};
ghost use Rattle.fsc_outside.specs.Calls.{FileCounts, counts_of};
ghost use Rattle.fsc_front.specs.Refusing.{RefusesFront, StopsTokens};

use crate::refusal::FrontNo;
use c_check_unit::check;
use c_lexer::tokens;
use c_parse_unit::parse;
use c_syntax::Tree;
use c_tree::{TypedUnit, bulk};
use cpp_text::{PpNo, preprocess};
use fsc_base::{Broken, Name, NoMemory, Place, Refused, Rule};
use fsc_outside::Files;
use pp_token::{Names, PpUnit};
use std::alloc::Global;

/// The tree of a unit after phase 4. Its tokens are given back before anything reads the tree.
fn parsed(alloc: Global, unit: &PpUnit) -> Result<Tree, Refused>
    ensures refused { IfErr result StopsTokens }
{
    let tokens = tokens(alloc, unit)?;
    parse(alloc, &tokens)
}

/// The greatest bulk of a unit.
const MOST_BULK: u64 = 1 << 28;

/// The typed unit, where its bulk is within the bound. L16 stands on line 1 of the unit's own file.
fn bounded(typed: TypedUnit, unit: u32) -> Result<TypedUnit, Refused>
    ensures refused { IfErr result StopsTokens }
{
    if bulk(&typed) > MOST_BULK {
        let place = Place {
            unit,
            file: 0,
            line: 1,
        };
        return Err(Refused::Broken(Broken {
            rule: Rule::L16,
            place,
        }));
    }
    Ok(typed)
}

/// The typed unit of a unit after phase 4.
fn typed(alloc: Global, pp: &PpUnit, unit: u32) -> Result<TypedUnit, Refused>
    ensures refused { IfErr result StopsTokens }
{
    let tree = parsed(alloc, pp)?;
    bounded(check(alloc, &tree)?, unit)
}

/// The name of the file where a place is, among a unit's files, of which the first is the unit's own.
fn file_name(alloc: Global, opened: &Names, place: Place, own: &Name) -> Result<Name, NoMemory> {
    let file = opened.as_slice().get(place.file as usize).unwrap_or(own);
    Name::from_slice(alloc, file.as_slice())
}

/// The refusal of a unit for a rule that is broken in one of its files.
fn located(alloc: Global, refused: Refused, opened: &Names, own: &Name) -> FrontNo
    ensures { (name : List ℕ) (counts : FileCounts) → StopsTokens refused → RefusesFront result name counts }
{
    match refused {
        Refused::Broken(broken) => match file_name(alloc, opened, broken.place, own) {
            Ok(file) => FrontNo::Broken(broken, file),
            Err(NoMemory) => FrontNo::NoMemory,
        },
        Refused::NoMemory => FrontNo::NoMemory,
    }
}

/// The typed unit in a file: preprocessing, tokens, syntax, constraints (C90 5.1.1.2, phases 1 to 7), and the bound on what a
/// unit holds. It takes the number of the unit, which stands in its places, and the name of its own file.
///
/// Refused as `Broken` by a rule of these phases, the earlier phase first, with the name of the file in which it is broken;
/// as `Missing` where the unit's own file is absent; as `FileFault` where a file could not be read; and as `NoMemory`.
pub fn typed_unit<F: Files>(
    alloc: Global,
    files: &mut F,
    unit: u32,
    name: &Name,
) -> Result<TypedUnit, FrontNo>
    ensures refused { IfErr result (λ no. RefusesFront no name.now (counts_of F.Files files.old files.new)) }
    ensures kept { F.contents files.new ≡ F.contents files.old }
    ensures faults_counted { F.fault_count files.old ≤ F.fault_count files.new }
    ensures absences_counted { F.absence_count files.old ≤ F.absence_count files.new }
{
    let pp = match preprocess(alloc, files, unit, name) {
        Ok(pp) => pp,
        Err(PpNo::Broken(broken, file)) => return Err(FrontNo::Broken(broken, file)),
        Err(PpNo::Missing) => return Err(FrontNo::Missing),
        Err(PpNo::FileFault(name)) => return Err(FrontNo::FileFault(name)),
        Err(PpNo::NoMemory) => return Err(FrontNo::NoMemory),
    };
    match typed(alloc, &pp, unit) {
        Ok(typed) => Ok(typed),
        Err(refused) => Err(located(alloc, refused, &pp.opened, name)),
    }
}
