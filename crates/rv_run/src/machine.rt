//! The machine and its runs.

ghost use Rattle.std.specs.Prelude.{◌≡◌, ◌≢◌, ℕ, ◌+◌, ◌^◌, ◌<◌, ◌≤◌, List, IfOk, slice_index};
ghost use Rattle.fsc_outside.specs.Counts.{Rose};
ghost use Rattle.fsc_base.specs.Image.{IsSound};
ghost use Rattle.guest_mem.specs.Guest.{loaded};
ghost use Rattle.rv_run.specs.Machine.{start_of, action_of, row, counted, WordIs};
ghost use Rattle.rv_isa.specs.Encoding.{IsValid};
ghost use Rattle.rv_run.specs.ImageRun.{FindsRow, Performs, Runs, TakesNothing, IsKnown, image_run, EndsWithin, EndsWhereReached};

use crate::stop::{Refusal, Step, Stop, TrapKind};
use fsc_base::{Image, NoMemory};
use fsc_outside::{Sink, Source};
use guest_mem::{Fault, Guest};
use rv_isa::{Inst, Reg, decode};
use std::alloc::Global;
use std::marker::Model;

/// A machine in the midst of a run.
#[derive(Debug, Drop)]
pub struct Machine {
    pub(crate) registers: [u32; 32],
    pub(crate) pc: u32,
    pub(crate) memory: Guest,
    pub(crate) marks: u64,
    pub(crate) count: u64,
}

impl Model for Machine {
    ghost use Rattle.std.specs.Prelude.{◌≡◌, ◌≤◌, slice_index};
    ghost use Rattle.guest_mem.specs.Regions.{regions_of};
    ghost use Rattle.rv_run.specs.Machine.{State};

    ghost Value = { State };

    ghost view = { λ m. record { registers = m.registers; pc = m.pc; memory = regions_of m.memory; marks = m.marks; count = m.count } };

    ghost invariant = { λ m. (slice_index m.registers 0 ≡ 0) × (m.marks ≤ m.count) };
}

impl Machine {
    /// A machine that stands at the entry of a sound image, with all registers zero and memory past a segment's bytes
    /// zero. It takes the pages of the bytes that the segments give. Refused only for want of memory.
    pub fn new(alloc: Global, image: &Image) -> Result<Machine, NoMemory>
        requires { IsSound image.now }
        ensures { IfOk result (λ machine. machine ≡ start_of image.now) }
    {
        Ok(Machine {
            registers: [0; 32],
            pc: image.entry,
            memory: Guest::new(alloc, image)?,
            marks: 0,
            count: 0,
        })
    }

    /// How many instructions were run, those that met an end included.
    pub fn count(&self) -> u64
        ensures { result ≡ self.now.count }
    {
        self.count
    }

    /// How many of them were marks.
    pub fn marks(&self) -> u64
        ensures { result ≡ self.now.marks }
    {
        self.marks
    }

    /// The address of the next instruction.
    pub fn pc(&self) -> u32
        ensures { result ≡ self.now.pc }
    {
        self.pc
    }

    /// What a register holds.
    pub fn reg(&self, r: Reg) -> u32
        ensures { result ≡ slice_index self.now.registers r }
    {
        self.registers[r.number() as usize]
    }

    /// The word at an address, or None exactly where a load of it is refused.
    pub fn word(&self, at: u32) -> Option<u32>
        ensures { WordIs (loaded 4 self.now.memory at) result }
    {
        self.memory.load32(at).ok()
    }

    /// The instruction at the pc, or why there is none.
    #[tactic(auto, unfolding(crate::specs::Machine::action_of))]
    fn instruction(&self) -> Result<Inst, TrapKind>
        ensures found { FindsRow self.now result }
        ensures valid { IfOk result IsValid }
    {
        match self.memory.fetch(self.pc) {
            Ok(word) => match decode(word) {
                Some(inst) => Ok(inst),
                None => Err(TrapKind::Illegal),
            },
            Err(Fault::Misaligned) => Err(TrapKind::Misaligned),
            Err(Fault::Outside) => Err(TrapKind::Fetch),
        }
    }

    /// Ends the run by a trap.
    pub(crate) fn trap(&mut self, kind: TrapKind) -> Step
        requires { self.old.count + 1 < 2 ^ 64 }
        ensures counted { self.new ≡ counted self.old }
        ensures ended { result ≡ Step.Ended (Stop.Trap kind self.old.pc) }
    {
        let pc = self.pc;
        self.end(Stop::Trap { kind, pc })
    }

    /// Ends the run: the instruction counts, and all else stays.
    pub(crate) fn end(&mut self, stop: Stop) -> Step
        requires { self.old.count + 1 < 2 ^ 64 }
        ensures counted { self.new ≡ counted self.old }
        ensures ended { result ≡ Step.Ended stop }
    {
        self.count += 1;
        Step::Ended(stop)
    }

    /// Runs one instruction by its row. But for bytes that a failed read left, an instruction that ends the run leaves
    /// registers, pc and memory as they were, also where no memory is left for a page.
    pub fn step<S: Source, O: Sink>(&mut self, input: &mut S, out: &mut O) -> Step
        requires { self.old.count + 1 < 2 ^ 64 }
        ensures row { Performs (action_of self.old) result self.old self.new
            (record { left = S.left input.old; written = O.written out.old }) (record { left = S.left input.new; written = O.written out.new }) }
        ensures read_failed { result ≡ Step.Ended Stop.ReadFault → Rose (S.fault_count input.old) (S.fault_count input.new) }
        ensures write_failed { result ≡ Step.Ended Stop.WriteFault → Rose (O.fault_count out.old) (O.fault_count out.new) }
        ensures read_counted { S.fault_count input.old ≤ S.fault_count input.new }
        ensures write_counted { O.fault_count out.old ≤ O.fault_count out.new }
        ensures untouched { TakesNothing (action_of self.old) → input.new ≡ input.old }
        ensures unread { TakesNothing (action_of self.old) → result ≢ Step.Ended Stop.ReadFault }
    {
        match self.instruction() {
            Ok(inst) => self.perform(inst, input, out),
            Err(kind) => self.trap(kind),
        }
    }

    /// Runs one instruction by its row, wherever it stands.
    #[tactic(auto, unfolding(crate::specs::Machine::row), using(fsc_outside::proofs::Appending::appends_nothing))]
    fn perform<S: Source, O: Sink>(&mut self, inst: Inst, input: &mut S, out: &mut O) -> Step
        requires valid { IsValid inst }
        requires counts { self.old.count + 1 < 2 ^ 64 }
        ensures row { Performs (row inst self.old) result self.old self.new
            (record { left = S.left input.old; written = O.written out.old }) (record { left = S.left input.new; written = O.written out.new }) }
        ensures read_failed { result ≡ Step.Ended Stop.ReadFault → Rose (S.fault_count input.old) (S.fault_count input.new) }
        ensures write_failed { result ≡ Step.Ended Stop.WriteFault → Rose (O.fault_count out.old) (O.fault_count out.new) }
        ensures read_counted { S.fault_count input.old ≤ S.fault_count input.new }
        ensures write_counted { O.fault_count out.old ≤ O.fault_count out.new }
        ensures untouched { TakesNothing (row inst self.old) → input.new ≡ input.old }
        ensures unread { TakesNothing (row inst self.old) → result ≢ Step.Ended Stop.ReadFault }
    {
        if inst == Inst::Ecall {
            return self.ecall(input, out);
        }
        match self.follow(inst) {
            Ok(()) => Step::Next,
            Err(Refusal::Trap(kind)) => self.trap(kind),
            Err(Refusal::NoMemory) => self.end(Stop::NoMemory),
        }
    }

    /// Runs instructions, at most `n` of them, until one ends the run. The input that the run is given is what the
    /// source has left, where it tells; where it does not, any will do that the run asks nothing of.
    pub fn run<S: Source, O: Sink>(&mut self, n: u64, input: &mut S, out: &mut O) -> Stop
        requires { self.old.count + n < 2 ^ 64 }
        ensures run { (given : List ℕ) → IsKnown (S.left input.old) given (image_run n self.old given).asked → Runs (image_run n self.old given) result self.new
            (record { left = S.left input.old; written = O.written out.old }) (record { left = S.left input.new; written = O.written out.new }) }
        ensures ended { (given : List ℕ) → IsKnown (S.left input.old) given (image_run n self.old given).asked → result ≢ Stop.Steps → EndsWithin n self.old self.new given result
            (record { left = S.left input.old; written = O.written out.old }) (record { left = S.left input.new; written = O.written out.new }) }
        ensures reached { EndsWhereReached n self.old self.new result
            (record { left = S.left input.old; written = O.written out.old }) (record { left = S.left input.new; written = O.written out.new }) }
        ensures read_failed { result ≡ Stop.ReadFault → Rose (S.fault_count input.old) (S.fault_count input.new) }
        ensures write_failed { result ≡ Stop.WriteFault → Rose (O.fault_count out.old) (O.fault_count out.new) }
        ensures read_counted { S.fault_count input.old ≤ S.fault_count input.new }
        ensures write_counted { O.fault_count out.old ≤ O.fault_count out.new }
        ensures untouched { (given : List ℕ) → (image_run n self.old given).asked ≡ 0 → input.new ≡ input.old }
        ensures unread { (given : List ℕ) → (image_run n self.old given).asked ≡ 0 → result ≢ Stop.ReadFault }
    {
        for _ in 0..n {
            match self.step(input, out) {
                Step::Next => {}
                Step::Ended(stop) => return stop,
            }
        }
        Stop::Steps
    }
}
