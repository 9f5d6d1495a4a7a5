//! The top call.

ghost use Rattle.std.specs.Prelude.{◌≡◌, ◌≢◌, ℕ, List, ◌+◌, ◌*◌, ◌<◌, ◌≤◌, ◌⊎◌, length, Bool, Option, Some, None, IsSome, Err};
ghost use Rattle.c_link.specs.declared.fault.LinkFault.{LinkFault};
ghost use Rattle.fat_code.specs.declared.fault.UnitFault.{UnitFault};
ghost use Rattle.fat_code.specs.declared.fault.Version.TheVariants.{Two};
ghost use Rattle.fat_code.specs.declared.unit.FatParts.{FatParts};
ghost use Rattle.fat_code.specs.Faults.{IsFaultless};
ghost use Rattle.unit_file.specs.Spelling.{spelled_unit};
ghost use Rattle.unit_file.specs.Units.{IsFault};
ghost use Rattle.fsc_base.specs.declared.place.Place.{Place};
ghost use Rattle.fsc_base.specs.declared.rule.Rule.{Rule};
ghost use Rattle.fsc_outside.specs.Calls.{counts_of, Fails, Misses};
ghost use Rattle.fsc_outside.specs.Counts.{Rose};
ghost use Rattle.fsc_outside.specs.FileMap.{Holds, Replaces, KeepsOthers};
ghost use Rattle.fsc_outside.specs.Streams.{Appends, AppendsFront};
ghost use Rattle.elf_image.specs.Reading.{image_at};
ghost use Rattle.elf_image.specs.declared.fault.ElfFault.{ElfFault};
ghost use Rattle.elf_image.specs.declared.fault.ReadElfNo.TheVariants.{Bad};
ghost use Rattle.elf_image.specs.Writing.{elf_of};
ghost use Rattle.fsc_base.specs.declared.image.Image.{Image};
ghost use Rattle.fsc_base.specs.Image.{IsSound};
ghost use Rattle.block_report.specs.declared.live.Live.{Live};
ghost use Rattle.command_line.specs.Requests.{IsUsable, Listed};
ghost use Rattle.command_line.specs.declared.request.Request.TheVariants.{Build, Compile, Link, Mean};
ghost use Rattle.fsc_ending.specs.Reporting.{IsUnless, IsReported};
ghost use Rattle.fsc_run.specs.Running.{streams_of, RanNothing, RunsImage};
ghost use Rattle.fsc_commands.specs.Refusing.{IsNoProgram, IsRejection};
ghost use Rattle.fsc_tool.specs.Words.{Asks, AsksRun, AsksUnit, NamesToRead, NamesToWrite, MayTouch};
ghost use Rattle.fsc_tool.specs.Performing.{Performed};
ghost use Rattle.fsc_tool.specs.Tool.{Job, IsAsked, IsRunOf, IsTold, AppendsAtLeast, LeavesFiles, IsEnd, IsRefusedText, AsksText, AsksLinked, AsksInput};

use block_report::Lives;
use command_line::{Request, WordsNo, request_of};
use fsc_base::{Image, Name};
use fsc_commands::{build_file, compile_file, demo, go, go_units, link_files, mean, report_files};
use fsc_ending::{Ending, Form, report};
use fsc_outside::{Files, Sink, Source};
use fsc_run::{Done, run_file};
use std::alloc::Global;

/// Does what the words ask for, before the lines of notes.
#[tactic(auto, using(crate::proofs::Telling::told_unmade))]
fn perform<F: Files, S: Source, O: Sink>(
    alloc: Global,
    words: &[Name],
    files: &mut F,
    input: &mut S,
    out: &mut O,
    made: &mut Option<Image>,
    lives: &mut Option<Lives>,
) -> Done
    requires { made.old ≡ None }
    ensures performed { Performed made.new result.ending result.marks words.now (counts_of F.Files files.old files.new) (F.contents files.new)
        ((input.new ≡ input.old) × (out.new ≡ out.old)) (streams_of S.Source O.Sink input.old out.old) (streams_of S.Source O.Sink input.new out.new) }
    ensures told { IsTold made.new result.ending result.marks lives.new words.now (streams_of S.Source O.Sink input.old out.old) (streams_of S.Source O.Sink input.new out.new) }
    ensures read_failed { result.ending ≡ Ending.ReadFault → Rose (S.fault_count input.old) (S.fault_count input.new) }
    ensures write_failed { result.ending ≡ Ending.WriteFault → Rose (O.fault_count out.old) (O.fault_count out.new) }
    ensures unnoted { result.ending ≢ Ending.NoteFault }
    ensures kept { ((name : List ℕ) → NamesToWrite words.now name → ⊥) → F.contents files.new ≡ F.contents files.old }
    ensures others { (name : List ℕ) → NamesToWrite words.now name → KeepsOthers (F.contents files.old) (F.contents files.new) name }
    ensures faults_counted { F.fault_count files.old ≤ F.fault_count files.new }
    ensures absences_counted { F.absence_count files.old ≤ F.absence_count files.new }
    ensures read_counted { S.fault_count input.old ≤ S.fault_count input.new }
    ensures write_counted { O.fault_count out.old ≤ O.fault_count out.new }
    ensures untouched { (AsksInput words.now (F.contents files.old) → ⊥) → input.new ≡ input.old }
{
    *lives = None;
    match request_of(alloc, words) {
        Ok(
            Request::Go {
                steps,
                stats,
                files: names,
            },
        ) => {
            let names = names.as_slice();
            if names.len() == 1 {
                go(alloc, &names[0], steps, stats, files, input, out, made)
            } else {
                go_units(alloc, names, steps, stats, files, input, out, made)
            }
        }
        Ok(
            Request::Run {
                steps,
                stats,
                image,
            },
        ) => run_file(alloc, &image, steps, stats, files, input, out),
        Ok(
            Request::Build {
                image,
                files: names,
            },
        ) => Done::without_run(build_file(alloc, &image, names.as_slice(), files)),
        Ok(Request::Compile { unit, file }) => {
            Done::without_run(compile_file(alloc, &unit, &file, files))
        }
        Ok(Request::Link { image, units }) => {
            Done::without_run(link_files(alloc, &image, units.as_slice(), files))
        }
        Ok(Request::Mean { cost, files: names }) => {
            Done::without_run(mean(alloc, names.as_slice(), cost, files, input, out))
        }
        Ok(
            Request::Report {
                steps,
                files: names,
            },
        ) => {
            report_files(
                alloc,
                names.as_slice(),
                steps,
                files,
                input,
                out,
                made,
                lives,
            )
        }
        Ok(Request::Demo { count }) => Done::without_run(demo(alloc, count, out, made)),
        Err(WordsNo::Usage) => Done::without_run(Ending::Usage),
        Err(WordsNo::NoMemory) => Done::without_run(Ending::NoMemory),
    }
}

/// Does what the words ask for. It takes the words after the program's name, the files to read, the input and the
/// output of the program that is run, and where to write the lines of notes; it gives how that ended, and leaves in
/// `made` the image that `go`, `report` or `demo` ran, or None.
///
/// `go [--steps N] [--stats] FILE..` runs the files' program and `run [--steps N] [--stats] IMAGE` the image in a file, at
/// most 10^10 or N instructions of it. With `--stats` the line `methods M` tells how many marks were run. `build -o IMAGE FILE..`
/// writes the image of the files' program, `compile -o UNIT FILE` the unit of a file and `link -o IMAGE UNIT..` the image of
/// the units' program; `mean [--cost K] FILE..` follows the meaning of the files' program up to a cost of 10^9 or K;
/// `report [--steps N] FILE..` runs the files' program as `go` and then tells its objects that are alive, a line each, where it was the
/// program that ended its run; and `demo N` runs the program of the demonstration of N functions. All files but the one that is to be
/// written stay as they were. Where memory is refused the answer is `NoMemory`, at any place.
pub fn tool<F: Files, S: Source, O: Sink, E: Sink>(
    alloc: Global,
    words: &[Name],
    files: &mut F,
    input: &mut S,
    out: &mut O,
    notes: &mut E,
    made: &mut Option<Image>,
) -> Ending
    // The answer, the marks, the objects that are told, what was taken and what was written are those of the run of an image, and of no
    // other; without one the input and the output are as they were.
    ensures run { (said : Ending) × (marks : Option ℕ) × (lives : Option (List Live)) × IsReported said marks lives result (E.written notes.old) (E.written notes.new)
        × IsRunOf made.new said marks words.now (F.contents files.old) ((input.new ≡ input.old) × (out.new ≡ out.old)) (streams_of S.Source O.Sink input.old out.old) (streams_of S.Source O.Sink input.new out.new)
        × IsTold made.new said marks lives words.now (streams_of S.Source O.Sink input.old out.old) (streams_of S.Source O.Sink input.new out.new) }
    // `run` of a told file answers, writes and leaves of the input what the run of the image of its bytes does, and
    // tells its marks; or the file could not be read.
    ensures image { (file : List ℕ) (steps : ℕ) (stats : Bool) (bytes : List ℕ) → IsSome (F.contents files.old) →
        AsksRun words.now file steps stats → Holds (F.contents files.old) file (Some bytes) →
        (said : Ending) × (marks : Option ℕ) × IsReported said marks None result (E.written notes.old) (E.written notes.new)
        × (RunsImage (image_at bytes) steps stats said marks ((input.new ≡ input.old) × (out.new ≡ out.old)) (streams_of S.Source O.Sink input.old out.old) (streams_of S.Source O.Sink input.new out.new)
        ⊎ ((said ≡ Ending.FileFault file) × Rose (F.fault_count files.old) (F.fault_count files.new) × RanNothing marks ((input.new ≡ input.old) × (out.new ≡ out.old)) (streams_of S.Source O.Sink input.old out.old) (streams_of S.Source O.Sink input.new out.new))) }

    // Of a job that the words and the told files ask for: a front of the program's bytes was written.
    ensures prefix { (job : Job) → IsSome (F.contents files.old) → IsAsked words.now (F.contents files.old) job →
        AppendsFront (O.written out.old) (O.written out.new) job.program.bytes }
    // Exited comes only with the program's status and all its bytes written.
    ensures exited { (job : Job) (status : ℕ) → IsSome (F.contents files.old) → IsAsked words.now (F.contents files.old) job →
        result ≡ Ending.Exited status →
        (status ≡ job.program.status) × Appends (O.written out.old) (O.written out.new) job.program.bytes }
    // StepsUsed comes only where 64 instructions a byte and 128 more are above the bound, with each byte in its time.
    ensures steps_used { (job : Job) (n : ℕ) → IsSome (F.contents files.old) → IsAsked words.now (F.contents files.old) job →
        result ≡ Ending.StepsUsed n →
        (n ≡ job.steps) × (n < 64 * (length job.program.bytes + 2)) × ((j : ℕ) → j ≤ length job.program.bytes → 64 * (j + 1) ≤ n →
        AppendsAtLeast j (O.written out.old) (O.written out.new) job.program.bytes) }
    // Where no count rose, the run comes to its end or its bound.
    ensures ends { (job : Job) → IsSome (F.contents files.old) → IsAsked words.now (F.contents files.old) job →
        (Rose (F.fault_count files.old) (F.fault_count files.new) → ⊥) →
        (Misses (counts_of F.Files files.old files.new) → ⊥) →
        (Rose (O.fault_count out.old) (O.fault_count out.new) → ⊥) →
        (Rose (E.fault_count notes.old) (E.fault_count notes.new) → ⊥) → IsEnd result }

    // When each other answer comes.
    ensures usage_only { result ≡ Ending.Usage → IsUsable words.now → ⊥ }
    ensures usage { (IsUsable words.now → ⊥) → IsUnless Ending.Usage result }
    ensures built_commands { result ≢ Ending.NotBuilt Form.Command }
    ensures text_only { result ≡ Ending.NotBuilt Form.Text → AsksText words.now (F.contents files.old) }
    ensures text { (file : List ℕ) (steps : ℕ) (text : List ℕ) → IsSome (F.contents files.old) →
        Asks words.now file steps → Holds (F.contents files.old) file (Some text) → IsNoProgram text → IsRefusedText result ⊎ IsSome made.new }
    ensures rejected { (rule : Rule) (place : Place) (name : List ℕ) → result ≡ Ending.Rejected rule place name →
        IsRejection rule place (counts_of F.Files files.old files.new) × AsksText words.now (F.contents files.old) }
    ensures link_refused { (fault : LinkFault) → result ≡ Ending.LinkRefused fault → AsksLinked words.now (F.contents files.old) }
    ensures bad_unit { (name : List ℕ) (fault : UnitFault) (offset : ℕ) → result ≡ Ending.BadUnit name fault offset → AsksUnit words.now name ×
        ((bytes : List ℕ) × Holds (F.contents files.old) name (Some bytes) × IsFault bytes fault offset) }
    ensures cost_used { (k : ℕ) → result ≡ Ending.CostUsed k → (names : List (List ℕ)) × Listed words.now (Mean k names) }
    ensures bad_image { (fault : ElfFault) (offset : ℕ) → result ≡ Ending.BadImage fault offset → (file : List ℕ) × (steps : ℕ) × (stats : Bool) × (bytes : List ℕ) ×
        AsksRun words.now file steps stats × Holds (F.contents files.old) file (Some bytes) × (image_at bytes ≡ Err (Bad fault offset)) }
    ensures missing { (name : List ℕ) → result ≡ Ending.MissingFile name →
        Misses (counts_of F.Files files.old files.new) × NamesToRead words.now name × Holds (F.contents files.old) name None }
    ensures file_fault { (name : List ℕ) → result ≡ Ending.FileFault name →
        Fails name (counts_of F.Files files.old files.new) × MayTouch words.now name }
    ensures read_fault { result ≡ Ending.ReadFault → Rose (S.fault_count input.old) (S.fault_count input.new) }
    ensures write_fault { result ≡ Ending.WriteFault → Rose (O.fault_count out.old) (O.fault_count out.new) }
    ensures note_fault { result ≡ Ending.NoteFault → Rose (E.fault_count notes.old) (E.fault_count notes.new) }

    // Of a file that is to be written: Exited says that it was, with the bytes of a sound image, or of a unit without a fault.
    ensures built { (image : List ℕ) (sources : List (List ℕ)) (status : ℕ) → Listed words.now (Build image sources) → result ≡ Ending.Exited status →
        (status ≡ 0) × ((made : Image) × IsSound made × Replaces (F.contents files.old) (F.contents files.new) image (elf_of made)) }
    ensures linked { (image : List ℕ) (units : List (List ℕ)) (status : ℕ) → Listed words.now (Link image units) → result ≡ Ending.Exited status →
        (status ≡ 0) × ((made : Image) × IsSound made × Replaces (F.contents files.old) (F.contents files.new) image (elf_of made)) }
    ensures compiled { (unit file : List ℕ) (status : ℕ) → Listed words.now (Compile unit file) → result ≡ Ending.Exited status →
        (status ≡ 0) × ((made : FatParts) × IsFaultless made × Replaces (F.contents files.old) (F.contents files.new) unit (spelled_unit Two made)) }

    // After every other answer than Exited, a fault of the file that is to be written, of the notes or of memory all files are as they were.
    ensures unchanged { LeavesFiles result words.now (F.contents files.old) (F.contents files.new) }
    // Only the file that the words name to be written changes; an image that the words name and the program of files that are no
    // job alone take from the input; and no count falls.
    ensures files_kept { ((name : List ℕ) → NamesToWrite words.now name → ⊥) → F.contents files.new ≡ F.contents files.old }
    ensures others_kept { (name : List ℕ) → NamesToWrite words.now name → KeepsOthers (F.contents files.old) (F.contents files.new) name }
    ensures input_kept { (AsksInput words.now (F.contents files.old) → ⊥) → input.new ≡ input.old }
    ensures faults_counted { F.fault_count files.old ≤ F.fault_count files.new }
    ensures absences_counted { F.absence_count files.old ≤ F.absence_count files.new }
    ensures input_counted { S.fault_count input.old ≤ S.fault_count input.new }
    ensures out_counted { O.fault_count out.old ≤ O.fault_count out.new }
    ensures notes_counted { E.fault_count notes.old ≤ E.fault_count notes.new }
{
    *made = None;
    let mut lives = None;
    let done = perform(alloc, words, files, input, out, made, &mut lives);
    report(alloc, notes, done.ending, done.marks, lives)
}
