//! The lines on standard error.

ghost use Rattle.std.specs.Prelude.{◌≡◌, ◌≢◌, ◌++◌, ◌<◌, ◌≤◌, ◌⊎◌, length, IfOk, OnOk, OnErr, codes};
ghost use Rattle.std.specs.Fmt.{decimal};
ghost use Rattle.fsc_outside.specs.Counts.{Rose};
ghost use Rattle.fsc_outside.specs.Streams.{Appends, AppendsPart};
ghost use Rattle.fsc_ending.specs.Ending.{line, place, extent, stop_text, storage_text, fault_name, trap_name, unit_fault_name, numbered, rejection, link_texts, link_line, bad_unit_line, note_of, marks_line};
ghost use Rattle.fsc_ending.specs.Lives.{front_of};
ghost use Rattle.fsc_ending.specs.Reporting.{IsReported};

use crate::ending::{Ending, StopKind, Storage};
use crate::lives::add_told;
use block_report::Lives;
use c_link::LinkFault;
use elf_image::ElfFault;
use fat_code::UnitFault;
use fsc_base::{Bytes, Name, NoMemory, Place, Rule};
use fsc_outside::{Sink, Wrote, write_whole};
use rv_run::TrapKind;
use std::alloc::Global;

/// Adds the decimal of a number to a line.
pub(crate) fn add_number(alloc: Global, line: &mut Vec<u8>, n: u64) -> Result<(), NoMemory>
    ensures { OnOk result (line.new.items ≡ line.old.items ++ decimal n) }
{
    let Ok(digits) = n.to_string(alloc) else {
        return Err(NoMemory);
    };
    line.extend_from_slice(digits.as_bytes())?;
    Ok(())
}

/// Adds the words of a place in a block, in bytes.
fn add_place(alloc: Global, line: &mut Vec<u8>, block: u32, offset: u32) -> Result<(), NoMemory>
    ensures { OnOk result (line.new.items ≡ line.old.items ++ place block offset) }
{
    line.extend_from_slice(b" block ")?;
    add_number(alloc, line, u64::from(block))?;
    line.extend_from_slice(b" offset ")?;
    add_number(alloc, line, u64::from(offset))
}

/// Adds the words of a place and a width, in bytes.
fn add_extent(
    alloc: Global,
    line: &mut Vec<u8>,
    block: u32,
    offset: u32,
    width: u32,
) -> Result<(), NoMemory>
    ensures { OnOk result (line.new.items ≡ line.old.items ++ extent block offset width) }
{
    add_place(alloc, line, block, offset)?;
    line.extend_from_slice(b" width ")?;
    add_number(alloc, line, u64::from(width))
}

/// A text, and the words of a place in a block.
fn place_text(alloc: Global, text: &[u8], block: u32, offset: u32) -> Result<Vec<u8>, NoMemory>
    ensures { IfOk result (λ made. made.items ≡ text.now ++ place block offset) }
{
    let mut line = Vec::from_slice(alloc, text)?;
    add_place(alloc, &mut line, block, offset)?;
    Ok(line)
}

/// A text, and the words of a place and a width.
fn extent_text(
    alloc: Global,
    text: &[u8],
    block: u32,
    offset: u32,
    width: u32,
) -> Result<Vec<u8>, NoMemory>
    ensures { IfOk result (λ made. made.items ≡ text.now ++ extent block offset width) }
{
    let mut line = Vec::from_slice(alloc, text)?;
    add_extent(alloc, &mut line, block, offset, width)?;
    Ok(line)
}

/// A text, a space and a number.
fn numbered(alloc: Global, text: &[u8], n: u64) -> Result<Vec<u8>, NoMemory>
    ensures { IfOk result (λ made. made.items ≡ numbered text.now n) }
{
    let mut line = Vec::from_slice(alloc, text)?;
    line.extend_from_slice(b" ")?;
    add_number(alloc, &mut line, n)?;
    Ok(line)
}

/// A text of two parts.
fn joined(alloc: Global, head: &[u8], tail: &[u8]) -> Result<Vec<u8>, NoMemory>
    ensures { IfOk result (λ made. made.items ≡ head.now ++ tail.now) }
{
    let mut text = Vec::from_slice(alloc, head)?;
    text.extend_from_slice(tail)?;
    Ok(text)
}

/// The words of a program that stopped itself.
fn stop_text_of(
    alloc: Global,
    kind: StopKind,
    block: u32,
    offset: u32,
    width: u32,
) -> Result<Vec<u8>, NoMemory>
    ensures { IfOk result (λ made. made.items ≡ stop_text kind block offset width) }
{
    match kind {
        StopKind::Access => extent_text(alloc, b"stop access", block, offset, width),
        StopKind::ReadOnly => extent_text(alloc, b"stop readonly", block, offset, width),
        StopKind::Call => place_text(alloc, b"stop call", block, offset),
        StopKind::Divide => joined(alloc, b"stop divide", b""),
        StopKind::Abort => joined(alloc, b"stop abort", b""),
    }
}

/// The name of a fault of an image.
fn fault_name(fault: ElfFault) -> &'static [u8]
    ensures { result.now ≡ fault_name fault }
{
    match fault {
        ElfFault::Short => b"Short",
        ElfFault::Magic => b"Magic",
        ElfFault::Machine => b"Machine",
        ElfFault::Header => b"Header",
        ElfFault::Segment => b"Segment",
    }
}

/// The name of a kind of trap.
fn trap_name(kind: TrapKind) -> &'static [u8]
    ensures { result.now ≡ trap_name kind }
{
    match kind {
        TrapKind::Misaligned => b"Misaligned",
        TrapKind::Fetch => b"Fetch",
        TrapKind::Load => b"Load",
        TrapKind::Store => b"Store",
        TrapKind::Illegal => b"Illegal",
        TrapKind::Break => b"Break",
        TrapKind::Call => b"Call",
    }
}

/// The words of a fault of an image, and where it is.
fn bad_image_text(alloc: Global, fault: ElfFault, offset: u32) -> Result<Vec<u8>, NoMemory>
    ensures { IfOk result (λ made. made.items ≡ numbered (codes "bad image " ++ fault_name fault) offset) }
{
    let text = joined(alloc, b"bad image ", fault_name(fault))?;
    numbered(alloc, &text, u64::from(offset))
}

/// The name of a fault of a unit file.
fn unit_fault_name(fault: UnitFault) -> &'static [u8]
    ensures { result.now ≡ unit_fault_name fault }
{
    match fault {
        UnitFault::Short => b"Short",
        UnitFault::Magic => b"Magic",
        UnitFault::Version => b"Version",
        UnitFault::Tag => b"Tag",
        UnitFault::Index => b"Index",
        UnitFault::Limit => b"Limit",
        UnitFault::Height => b"Height",
        UnitFault::Trailing => b"Trailing",
    }
}

/// The words of a fault of a unit file: the file, the fault, and where it is.
fn bad_unit_text(
    alloc: Global,
    name: &Name,
    fault: UnitFault,
    offset: u32,
) -> Result<Vec<u8>, NoMemory>
    ensures { IfOk result (λ made. made.items ≡ bad_unit_line name.now fault offset) }
{
    let mut text = joined(alloc, b"bad unit ", name.as_slice())?;
    text.extend_from_slice(b" ")?;
    text.extend_from_slice(unit_fault_name(fault))?;
    numbered(alloc, &text, u64::from(offset))
}

/// Adds what more is told of a fault of linking, if there is something.
fn add_texts(line: &mut Vec<u8>, first: &Bytes, second: &Bytes) -> Result<(), NoMemory>
    ensures { OnOk result (line.new.items ≡ line.old.items ++ link_texts first.now second.now) }
{
    if first.as_slice().is_empty() && second.as_slice().is_empty() {
        return Ok(());
    }
    line.extend_from_slice(b": ")?;
    line.extend_from_slice(first.as_slice())?;
    line.extend_from_slice(b" / ")?;
    line.extend_from_slice(second.as_slice())?;
    Ok(())
}

/// The words of a fault of linking: the rule, the name, and what more is told.
fn link_text(alloc: Global, fault: &LinkFault) -> Result<Vec<u8>, NoMemory>
    ensures { IfOk result (λ made. made.items ≡ link_line fault.now) }
{
    let mut text = Vec::from_slice(alloc, b"link ")?;
    text.extend_from_slice(&fault.rule.code())?;
    text.extend_from_slice(b" ")?;
    text.extend_from_slice(fault.name.as_slice())?;
    add_texts(&mut text, &fault.first, &fault.second)?;
    Ok(text)
}

/// The words of a trap, and where it came.
fn trap_text(alloc: Global, kind: TrapKind, pc: u32) -> Result<Vec<u8>, NoMemory>
    ensures { IfOk result (λ made. made.items ≡ numbered (codes "trap " ++ trap_name kind) pc) }
{
    let text = joined(alloc, b"trap ", trap_name(kind))?;
    numbered(alloc, &text, u64::from(pc))
}

/// The words of used-up storage.
fn storage_text(storage: Storage) -> &'static [u8]
    ensures { result.now ≡ storage_text storage }
{
    match storage {
        Storage::Blocks => b"storage blocks",
        Storage::Depth => b"storage depth",
    }
}

/// The words of a rule that is broken: the file, the line in it, and the rule.
fn rejection_text(
    alloc: Global,
    rule: Rule,
    place: &Place,
    file: &Name,
) -> Result<Vec<u8>, NoMemory>
    ensures { IfOk result (λ made. made.items ≡ rejection rule place.now file.now) }
{
    let mut text = joined(alloc, file.as_slice(), b":")?;
    add_number(alloc, &mut text, u64::from(place.line))?;
    text.extend_from_slice(b": ")?;
    text.extend_from_slice(&rule.code())?;
    Ok(text)
}

/// The line of an ending, where it has one.
#[tactic(auto, using(crate::proofs::Noting::some_line))]
fn note(alloc: Global, ending: &Ending) -> Result<Vec<u8>, NoMemory>
    ensures made { IfOk result (λ made. made.items ≡ note_of ending.now) }
    ensures refused { OnErr result (0 < length (note_of ending.now)) }
{
    let mut line = match ending {
        Ending::Exited(_) | Ending::NoteFault => return Ok(Vec::new(alloc)),
        Ending::Stopped {
            kind,
            block,
            offset,
            width,
        } => stop_text_of(alloc, *kind, *block, *offset, *width)?,
        Ending::OutOfStorage(storage) => joined(alloc, storage_text(*storage), b"")?,
        Ending::StepsUsed(n) => numbered(alloc, b"steps", *n)?,
        Ending::CostUsed(cost) => numbered(alloc, b"cost", *cost)?,
        Ending::Usage => joined(alloc, b"usage", b"")?,
        Ending::MissingFile(name) => joined(alloc, b"missing ", name.as_slice())?,
        Ending::FileFault(name) => joined(alloc, b"fault ", name.as_slice())?,
        Ending::ReadFault => joined(alloc, b"fault input", b"")?,
        Ending::WriteFault => joined(alloc, b"fault output", b"")?,
        Ending::Rejected { rule, place, file } => rejection_text(alloc, *rule, place, file)?,
        Ending::LinkRefused(fault) => link_text(alloc, fault)?,
        Ending::BadUnit {
            name,
            fault,
            offset,
        } => bad_unit_text(alloc, name, *fault, *offset)?,
        Ending::BadImage { fault, offset } => bad_image_text(alloc, *fault, *offset)?,
        Ending::Trap { kind, pc } => trap_text(alloc, *kind, *pc)?,
        Ending::NotBuilt(_) => joined(alloc, b"not built", b"")?,
        Ending::NoMemory => joined(alloc, b"no memory", b"")?,
    };
    line.push(b'\n')?;
    Ok(line)
}

/// Writes the line of an ending, where it has one. That of `NoMemory` needs no memory.
#[tactic(auto, using(crate::proofs::Noting::nothing_of))]
fn write_note<E: Sink>(alloc: Global, notes: &mut E, ending: &Ending) -> Wrote
    ensures whole { result ≡ Wrote.Whole → Appends (E.written notes.old) (E.written notes.new) (note_of ending.now) }
    ensures part { result ≢ Wrote.Whole → AppendsPart (E.written notes.old) (E.written notes.new) (note_of ending.now) }
    ensures failed { result ≡ Wrote.Failed → Rose (E.fault_count notes.old) (E.fault_count notes.new) }
    ensures counted { E.fault_count notes.old ≤ E.fault_count notes.new }
{
    if let Ending::NoMemory = ending {
        return write_whole(notes, b"no memory\n");
    }
    match note(alloc, ending) {
        Ok(line) => write_whole(notes, &line),
        Err(NoMemory) => Wrote::NoMemory,
    }
}

/// The line of the marks, if they are told.
#[tactic(auto, using(crate::proofs::Noting::some_line))]
fn marks_text(alloc: Global, marks: Option<u64>) -> Result<Vec<u8>, NoMemory>
    ensures made { IfOk result (λ made. made.items ≡ marks_line marks) }
    ensures refused { OnErr result (0 < length (marks_line marks)) }
{
    let Some(marks) = marks else {
        return Ok(Vec::new(alloc));
    };
    let mut line = numbered(alloc, b"methods", marks)?;
    line.push(b'\n')?;
    Ok(line)
}

/// The lines that stand before that of an ending: that of the marks and those of the objects that are alive, if they are told.
#[tactic(auto, using(crate::proofs::Noting::front_refused, crate::proofs::Noting::behind_refused))]
fn front_text(alloc: Global, marks: Option<u64>, lives: &Option<Lives>) -> Result<Vec<u8>, NoMemory>
    ensures made { IfOk result (λ made. made.items ≡ front_of marks lives.now) }
    ensures refused { OnErr result (0 < length (front_of marks lives.now)) }
{
    let mut lines = marks_text(alloc, marks)?;
    add_told(alloc, &mut lines, lives)?;
    Ok(lines)
}

/// Writes the lines that stand before that of an ending.
#[tactic(auto, using(crate::proofs::Noting::nothing_of))]
fn write_front<E: Sink>(
    alloc: Global,
    notes: &mut E,
    marks: Option<u64>,
    lives: &Option<Lives>,
) -> Wrote
    ensures whole { result ≡ Wrote.Whole → Appends (E.written notes.old) (E.written notes.new) (front_of marks lives.now) }
    ensures part { result ≢ Wrote.Whole → AppendsPart (E.written notes.old) (E.written notes.new) (front_of marks lives.now) }
    ensures failed { result ≡ Wrote.Failed → Rose (E.fault_count notes.old) (E.fault_count notes.new) }
    ensures counted { E.fault_count notes.old ≤ E.fault_count notes.new }
{
    match front_text(alloc, marks, lives) {
        Ok(lines) => write_whole(notes, &lines),
        Err(NoMemory) => Wrote::NoMemory,
    }
}

/// Writes the line of the marks and those of the objects that are alive, if they are told, and that of an ending, and answers that
/// ending, or what takes its place where a line could not be written.
pub fn report<E: Sink>(
    alloc: Global,
    notes: &mut E,
    ending: Ending,
    marks: Option<u64>,
    lives: Option<Lives>,
) -> Ending
    ensures reported { IsReported ending marks lives result (E.written notes.old) (E.written notes.new) }
    ensures failed { result ≡ Ending.NoteFault → (ending ≡ Ending.NoteFault) ⊎ Rose (E.fault_count notes.old) (E.fault_count notes.new) }
    ensures counted { E.fault_count notes.old ≤ E.fault_count notes.new }
{
    match write_front(alloc, notes, marks, &lives) {
        Wrote::Whole => match write_note(alloc, notes, &ending) {
            Wrote::Whole => ending,
            Wrote::Failed => Ending::NoteFault,
            Wrote::NoMemory => Ending::NoMemory,
        },
        Wrote::Failed => Ending::NoteFault,
        Wrote::NoMemory => Ending::NoMemory,
    }
}
