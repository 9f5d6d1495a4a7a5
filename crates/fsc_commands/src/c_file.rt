//! The command `go`: reads a file, makes the image of its program and runs it.

ghost use Rattle.std.specs.Prelude.{◌≡◌, ◌≢◌, ℕ, ◌≤◌, List, [], ◌∷◌, length, IfOk, IfErr, Some, None};
ghost use Rattle.fsc_outside.specs.Calls.{counts_of};
ghost use Rattle.fsc_outside.specs.FileMap.{Holds};
ghost use Rattle.fsc_outside.specs.Counts.{Rose};
ghost use Rattle.fsc_run.specs.Reading.{RefusesRead};
ghost use Rattle.fsc_run.specs.Running.{streams_of};
ghost use Rattle.fsc_commands.specs.Refusing.{IsNoProgram};
ghost use Rattle.fsc_commands.specs.Finding.{IsFound};
ghost use Rattle.fsc_commands.specs.Going.{RunsProgram, RunsFile, RunsFiles};

use crate::given::{Back, Lender, ReadOnce};
use crate::units::go_file;
use fsc_base::{Bytes, Image, Name};
use fsc_ending::Ending;
use fsc_outside::{Files, Sink, Source};
use fsc_run::{Done, read_file, run_machine};
use plain_image::image;
use plain_text::{Program, ReadNo, read_program};
use rv_run::Machine;
use std::alloc::Global;
use std::marker::{Brand, PhantomData};

/// What a file has.
#[derive(Debug, Drop)]
enum Found {
    /// The program of the first path.
    Plain(Program),
    /// Another text, for the compiler.
    Text(Bytes),
}

/// Reads a file: its program, where its text is plain.
fn read<F: Files>(alloc: Global, files: &mut F, file: &Name) -> Result<Found, Ending>
    ensures plain { IfOk result (λ found. IsFound found file.now (F.contents files.old)) }
    ensures refused { IfErr result (λ ending. RefusesRead ending file.now (counts_of F.Files files.old files.new)) }
    ensures kept { F.contents files.new ≡ F.contents files.old }
    ensures faults_counted { F.fault_count files.old ≤ F.fault_count files.new }
    ensures absences_counted { F.absence_count files.old ≤ F.absence_count files.new }
{
    let text = read_file(alloc, files, file)?;
    match read_program(alloc, text.as_slice()) {
        Ok(program) => Ok(Found::Plain(program)),
        Err(ReadNo::NotPlain) => Ok(Found::Text(text)),
        Err(ReadNo::NoMemory) => Err(Ending::NoMemory),
    }
}

/// Makes the image of a program, leaves it in `made` and runs it, at most `steps` instructions of it.
fn run<S: Source, O: Sink>(
    alloc: Global,
    program: &Program,
    steps: u64,
    stats: bool,
    input: &mut S,
    out: &mut O,
    made: &mut Option<Image>,
) -> Done
    requires few { length program.now.bytes ≤ 1000 }
    requires none { made.old ≡ None }
    ensures runs { RunsProgram made.new result.ending result.marks program.now steps stats
        ((input.new ≡ input.old) × (out.new ≡ out.old)) (streams_of S.Source O.Sink input.old out.old) (streams_of S.Source O.Sink input.new out.new) }
    ensures failed { result.ending ≡ Ending.WriteFault → Rose (O.fault_count out.old) (O.fault_count out.new) }
    ensures unnoted { result.ending ≢ Ending.NoteFault }
    ensures unread { result.ending ≢ Ending.ReadFault }
    ensures counted { O.fault_count out.old ≤ O.fault_count out.new }
    ensures untouched { input.new ≡ input.old }
{
    let Ok(image) = image(alloc, program.bytes.as_slice(), program.status) else {
        return Done::without_run(Ending::NoMemory);
    };
    let Ok(mut machine) = Machine::new(alloc, &image) else {
        return Done::without_run(Ending::NoMemory);
    };
    *made = Some(image);
    run_machine(&mut machine, steps, stats, input, out)
}

/// Runs the program of one file, whose text was read, and gives the files back with the answer.
fn go_lent<'f, 'n, F: Files, L: Lender, S: Source, O: Sink>(
    alloc: Global,
    file: &'n Name,
    text: Bytes,
    steps: u64,
    stats: bool,
    files: &'f mut F,
    input: &mut S,
    out: &mut O,
    made: &mut Option<Image>,
) -> Back<'f, F, Done>
    requires lent { files.ghost_name ≡ L.name }
    requires none { made.old ≡ None }
    requires held { Holds (F.contents files.old) file.now (Some text) }
    ensures back { result.files.ghost_name ≡ files.entry.ghost_name }
    ensures ran { RunsFiles made.new result.answer.ending result.answer.marks (file.now ∷ []) steps stats (counts_of F.Files files.old result.files.now)
        ((input.new ≡ input.old) × (out.new ≡ out.old)) (streams_of S.Source O.Sink input.old out.old) (streams_of S.Source O.Sink input.new out.new) }
    ensures read_failed { result.answer.ending ≡ Ending.ReadFault → Rose (S.fault_count input.old) (S.fault_count input.new) }
    ensures write_failed { result.answer.ending ≡ Ending.WriteFault → Rose (O.fault_count out.old) (O.fault_count out.new) }
    ensures unnoted { result.answer.ending ≢ Ending.NoteFault }
    ensures kept { F.contents result.files.now ≡ F.contents files.old }
    ensures faults_counted { F.fault_count files.old ≤ F.fault_count result.files.now }
    ensures absences_counted { F.absence_count files.old ≤ F.absence_count result.files.now }
    ensures read_counted { S.fault_count input.old ≤ S.fault_count input.new }
    ensures write_counted { O.fault_count out.old ≤ O.fault_count out.new }
{
    let mut once: ReadOnce<'f, 'n, F, L> = ReadOnce {
        files,
        name: file,
        bytes: Some(text),
        lender: PhantomData,
    };
    let answer = go_file(alloc, file, steps, stats, &mut once, input, out, made);
    let ReadOnce {
        files,
        name: _,
        bytes: _,
        lender: _,
    } = once;
    Back { files, answer }
}

/// Runs the program of one file, whose text was read and isn't read again.
fn go_text<F: Files, S: Source, O: Sink>(
    alloc: Global,
    file: &Name,
    text: Bytes,
    steps: u64,
    stats: bool,
    files: &mut F,
    input: &mut S,
    out: &mut O,
    made: &mut Option<Image>,
) -> Done
    requires none { made.old ≡ None }
    requires held { Holds (F.contents files.old) file.now (Some text) }
    ensures ran { RunsFiles made.new result.ending result.marks (file.now ∷ []) steps stats (counts_of F.Files files.old files.new)
        ((input.new ≡ input.old) × (out.new ≡ out.old)) (streams_of S.Source O.Sink input.old out.old) (streams_of S.Source O.Sink input.new out.new) }
    ensures read_failed { result.ending ≡ Ending.ReadFault → Rose (S.fault_count input.old) (S.fault_count input.new) }
    ensures write_failed { result.ending ≡ Ending.WriteFault → Rose (O.fault_count out.old) (O.fault_count out.new) }
    ensures unnoted { result.ending ≢ Ending.NoteFault }
    ensures kept { F.contents files.new ≡ F.contents files.old }
    ensures faults_counted { F.fault_count files.old ≤ F.fault_count files.new }
    ensures absences_counted { F.absence_count files.old ≤ F.absence_count files.new }
    ensures read_counted { S.fault_count input.old ≤ S.fault_count input.new }
    ensures write_counted { O.fault_count out.old ≤ O.fault_count out.new }
{
    go_lent::<F, Brand, S, O>(alloc, file, text, steps, stats, files, input, out, made).answer()
}

/// Runs the program in a file, at most `steps` instructions of it, and leaves its image in `made`, or answers why there is none.
pub fn go<F: Files, S: Source, O: Sink>(
    alloc: Global,
    file: &Name,
    steps: u64,
    stats: bool,
    files: &mut F,
    input: &mut S,
    out: &mut O,
    made: &mut Option<Image>,
) -> Done
    requires { made.old ≡ None }
    ensures ran { RunsFile made.new result.ending result.marks file.now steps stats (counts_of F.Files files.old files.new)
        ((input.new ≡ input.old) × (out.new ≡ out.old)) (streams_of S.Source O.Sink input.old out.old) (streams_of S.Source O.Sink input.new out.new) }
    ensures read_failed { result.ending ≡ Ending.ReadFault → Rose (S.fault_count input.old) (S.fault_count input.new) }
    ensures write_failed { result.ending ≡ Ending.WriteFault → Rose (O.fault_count out.old) (O.fault_count out.new) }
    ensures unnoted { result.ending ≢ Ending.NoteFault }
    ensures kept { F.contents files.new ≡ F.contents files.old }
    ensures faults_counted { F.fault_count files.old ≤ F.fault_count files.new }
    ensures absences_counted { F.absence_count files.old ≤ F.absence_count files.new }
    ensures read_counted { S.fault_count input.old ≤ S.fault_count input.new }
    ensures write_counted { O.fault_count out.old ≤ O.fault_count out.new }
    // Only the program of another text takes from the input.
    ensures untouched { ((text : List ℕ) → Holds (F.contents files.old) file.now (Some text) → IsNoProgram text → ⊥) → input.new ≡ input.old }
{
    match read(alloc, files, file) {
        Ok(Found::Plain(program)) => run(alloc, &program, steps, stats, input, out, made),
        Ok(Found::Text(text)) => go_text(alloc, file, text, steps, stats, files, input, out, made),
        Err(ending) => Done::without_run(ending),
    }
}
