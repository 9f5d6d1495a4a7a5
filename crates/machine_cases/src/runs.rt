//! Machines and their runs.

use crate::assembly::register_of;
use crate::draft::{Draft, code_of};
use crate::streams::Streams;
use crate::told::{Told, tell, tell_count, tell_number};
use case_table::{NoStep, index_of, number_of};
use fsc_base::{Bytes, Segment};
use fsc_outside::{MemSink, MemSource};
use rv_isa::{Inst, Reg, encode};
use rv_run::{Machine, Step, Stop, TrapKind};
use std::alloc::Global;

/// Where the words of a machine lie.
const CODE: u32 = 0x1_0000;

/// How many bytes of memory the words of a machine have at least.
const CODE_BYTES: u32 = 64;

/// The machine of a case, and what registers are to hold when it starts.
#[derive(Drop)]
pub struct Runs {
    registers: Vec<(Reg, u32)>,
    machine: Option<Machine>,
    /// How many instructions ran before its first word.
    before: u64,
}

/// The name of a kind of trap.
fn name_of(kind: TrapKind) -> &'static str {
    match kind {
        TrapKind::Misaligned => "misaligned",
        TrapKind::Fetch => "fetch",
        TrapKind::Load => "load",
        TrapKind::Store => "store",
        TrapKind::Illegal => "illegal",
        TrapKind::Break => "break",
        TrapKind::Call => "call",
    }
}

/// How a run stopped.
fn tell_stop(alloc: Global, stop: Stop) -> Told {
    match stop {
        Stop::Exit(status) => Ok(Some(format!(in alloc; "exit {status}")?)),
        Stop::StopCall {
            kind,
            block,
            offset,
            width,
        } => Ok(Some(format!(in alloc; "stop {kind} {block} {offset} {width}")?)),
        Stop::Steps => tell(alloc, "steps"),
        Stop::Trap { kind, pc } => {
            let name = name_of(kind);
            Ok(Some(format!(in alloc; "trap {name} 0x{pc:x}")?))
        }
        Stop::ReadFault => tell(alloc, "read fault"),
        Stop::WriteFault => tell(alloc, "write fault"),
        Stop::NoMemory => Err(NoStep::NoMemory),
    }
}

/// The two words that make a register hold a value: LUI and ADDI.
fn setting(rd: Reg, value: u32) -> Result<[u32; 2], NoStep> {
    let low = (value & 0xfff) as i32;
    let imm = if low < 2048 { low } else { low - 4096 };
    let upper = (value.wrapping_sub(imm.cast_unsigned()) >> 12) as i32;
    let lui = Inst::Lui { rd, imm: upper };
    let addi = Inst::Addi { rd, rs1: rd, imm };
    if !lui.is_valid() || !addi.is_valid() {
        return Err(NoStep::Malformed("no value of 32 bits"));
    }
    Ok([encode(lui), encode(addi)])
}

/// The segment of a machine's words, which may be executed alone.
fn code_segment(bytes: Vec<u8>) -> Result<Segment, NoStep> {
    let Ok(length) = u32::try_from(bytes.len()) else {
        return Err(NoStep::Malformed("too many words"));
    };
    Ok(Segment {
        address: CODE,
        size: length.max(CODE_BYTES),
        flags: 1,
        bytes: Bytes::from_vec(bytes),
    })
}

impl Runs {
    /// No machine, and all registers zero.
    pub fn new(alloc: Global) -> Runs {
        Runs {
            registers: Vec::new(alloc),
            machine: None,
            before: 0,
        }
    }

    /// Makes a register hold a value when the machine starts, in place of an earlier one.
    fn set(&mut self, register: Reg, value: u32) -> Result<(), NoStep> {
        self.registers.retain(|held| held.0 != register);
        self.registers.push((register, value))?;
        Ok(())
    }

    /// The segment right before the machine's words that makes the registers hold what they are to hold, where there are
    /// any.
    fn prologue(&self, alloc: Global) -> Result<Option<Segment>, NoStep> {
        let mut bytes = Vec::new(alloc);
        for (register, value) in &self.registers {
            for word in setting(*register, *value)? {
                bytes.extend_from_slice(&word.to_le_bytes())?;
            }
        }
        match u32::try_from(bytes.len()) {
            Ok(0) => Ok(None),
            Ok(size) => Ok(Some(Segment {
                address: CODE.wrapping_sub(size),
                size,
                flags: 1,
                bytes: Bytes::from_vec(bytes),
            })),
            Err(_) => Err(NoStep::Malformed("too many registers")),
        }
    }

    /// Makes a machine of what is written down and of these words, and lets it set its registers.
    fn start(&mut self, alloc: Global, words: &[&str], draft: &Draft) -> Told {
        let mut segments = Vec::new(alloc);
        let mut entry = None;
        if let Some(prologue) = self.prologue(alloc)? {
            entry = Some(prologue.address);
            segments.push(prologue)?;
        }
        if !words.is_empty() {
            segments.push(code_segment(code_of(alloc, words)?)?)?;
        }
        let image = draft.image(alloc, segments, entry)?;
        if !image.is_sound() {
            return tell(alloc, "unsound");
        }
        let mut machine = Machine::new(alloc, &image)?;
        self.before = (self.registers.len() as u64).saturating_mul(2);
        if !set_registers(alloc, &mut machine, self.before)? {
            return tell(alloc, "not set");
        }
        self.machine = Some(machine);
        tell(alloc, "ok")
    }

    /// Makes a machine of one word whose registers x10 and x11 hold two numbers, and runs the word.
    fn once(
        &mut self,
        alloc: Global,
        words: [&str; 3],
        draft: &Draft,
        streams: &mut Streams,
    ) -> Result<Option<Stop>, NoStep> {
        let [word, x, y] = words;
        self.registers.clear();
        self.registers.push((Reg::new(10), number_of(x)?))?;
        self.registers.push((Reg::new(11), number_of(y)?))?;
        self.start(alloc, &[word], draft)?;
        Ok(match &mut self.machine {
            Some(machine) => run(machine, 1, streams),
            None => None,
        })
    }

    /// What x12 holds after one word.
    fn computed(
        &mut self,
        alloc: Global,
        words: [&str; 3],
        draft: &Draft,
        streams: &mut Streams,
    ) -> Told {
        match (self.once(alloc, words, draft, streams)?, &self.machine) {
            (Some(Stop::Steps), Some(machine)) if machine.pc() == CODE.wrapping_add(4) => {
                tell_number(alloc, machine.reg(Reg::new(12)))
            }
            (Some(stop), _) => tell_stop(alloc, stop),
            (None, _) => tell(alloc, "no machine"),
        }
    }

    /// Where the machine goes on after one word.
    fn gone(
        &mut self,
        alloc: Global,
        words: [&str; 3],
        draft: &Draft,
        streams: &mut Streams,
    ) -> Told {
        match (self.once(alloc, words, draft, streams)?, &self.machine) {
            (Some(Stop::Steps), Some(machine)) => tell_number(alloc, machine.pc()),
            (Some(stop), _) => tell_stop(alloc, stop),
            (None, _) => tell(alloc, "no machine"),
        }
    }

    /// Makes a machine at an environment call of a number with four arguments, and runs it.
    fn called(
        &mut self,
        alloc: Global,
        call: [&str; 5],
        draft: &Draft,
        streams: &mut Streams,
    ) -> Told {
        let [number, a, b, c, d] = call;
        self.registers.clear();
        for (register, value) in [(10, a), (11, b), (12, c), (13, d), (17, number)] {
            self.registers
                .push((Reg::new(register), number_of(value)?))?;
        }
        self.start(alloc, &["00000073"], draft)?;
        match &mut self.machine {
            Some(machine) => tell_run(alloc, machine, 100, streams),
            None => tell(alloc, "no machine"),
        }
    }

    /// Does a step of runs.
    pub fn step(
        &mut self,
        alloc: Global,
        words: &[&str],
        draft: &Draft,
        streams: &mut Streams,
    ) -> Told {
        match words {
            ["set", register, value] => {
                self.set(Reg::new(register_of(register)?), number_of(value)?)?;
                tell(alloc, "ok")
            }
            ["machine", words @ ..] => self.start(alloc, words, draft),
            ["computes", word, x, y] => self.computed(alloc, [word, x, y], draft, streams),
            ["goes", word, x, y] => self.gone(alloc, [word, x, y], draft, streams),
            ["calls", number, a, b, c, d] => {
                self.called(alloc, [number, a, b, c, d], draft, streams)
            }
            _ => match &mut self.machine {
                Some(machine) => step_on(machine, alloc, words, self.before, streams),
                None => Ok(None),
            },
        }
    }
}

/// Runs the words that set registers. Whether they all ran.
fn set_registers(alloc: Global, machine: &mut Machine, count: u64) -> Result<bool, NoStep> {
    let mut input = MemSource::new(alloc, &[], &[])?;
    let mut out = MemSink::new(alloc, &[])?;
    if machine.count().checked_add(count).is_none() {
        return Ok(false);
    }
    Ok(machine.run(count, &mut input, &mut out) == Stop::Steps)
}

/// Runs a machine, unless its count would pass 2^64.
fn run(machine: &mut Machine, n: u64, streams: &mut Streams) -> Option<Stop> {
    machine.count().checked_add(n)?;
    Some(machine.run(n, &mut streams.input, &mut streams.out))
}

/// How a run of a machine stops.
fn tell_run(alloc: Global, machine: &mut Machine, n: u64, streams: &mut Streams) -> Told {
    match run(machine, n, streams) {
        Some(stop) => tell_stop(alloc, stop),
        None => Err(NoStep::Malformed("too many instructions")),
    }
}

/// What one instruction does.
fn tell_step(alloc: Global, machine: &mut Machine, streams: &mut Streams) -> Told {
    if machine.count().checked_add(1).is_none() {
        return Err(NoStep::Malformed("too many instructions"));
    }
    match machine.step(&mut streams.input, &mut streams.out) {
        Step::Next => tell(alloc, "next"),
        Step::Ended(stop) => tell_stop(alloc, stop),
    }
}

/// The registers that are not zero, each with its number, or `none`.
fn tell_registers(alloc: Global, machine: &Machine) -> Told {
    let mut text = String::new(alloc);
    for number in 0..32 {
        let value = machine.reg(Reg::new(number));
        if value != 0 {
            text.push_str(&format!(in alloc; "x{number} 0x{value:x} ")?)?;
        }
    }
    if text.is_empty() {
        return tell(alloc, "none");
    }
    Ok(Some(text))
}

/// Does a step on a machine.
fn step_on(
    machine: &mut Machine,
    alloc: Global,
    words: &[&str],
    before: u64,
    streams: &mut Streams,
) -> Told {
    match words {
        ["run", n] => tell_run(alloc, machine, index_of(n)?, streams),
        ["step"] => tell_step(alloc, machine, streams),
        ["pc"] => tell_number(alloc, machine.pc()),
        ["count"] => tell_count(alloc, machine.count().saturating_sub(before)),
        ["marks"] => tell_count(alloc, machine.marks()),
        ["registers"] => tell_registers(alloc, machine),
        ["register", register] => {
            let register = Reg::new(register_of(register)?);
            tell_number(alloc, machine.reg(register))
        }
        ["word", at] => match machine.word(number_of(at)?) {
            Some(word) => tell_number(alloc, word),
            None => tell(alloc, "none"),
        },
        _ => Ok(None),
    }
}
