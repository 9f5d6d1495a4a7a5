//! Environment calls, by the number in x17: 63 reads, 64 writes, 93 exits and 4000 stops.

ghost use Rattle.std.specs.Prelude.{◌≡◌, ◌≢◌, ◌+◌, ◌%◌, ◌^◌, ◌<◌, ◌≤◌, ℕ, List, Option};
ghost use Rattle.fsc_outside.specs.Counts.{Rose};
ghost use Rattle.rv_run.specs.Machine.{value_of, with_register, counted, next, read_call, write_call, stop_call, ecall};
ghost use Rattle.rv_run.specs.ImageRun.{StopsBy, Performs, TakesNothing};

use crate::machine::Machine;
use crate::stop::{Step, Stop, TrapKind};
use fsc_base::NoMemory;
use fsc_outside::{Sink, Source, Wrote};
use guest_mem::{Filled, Right};
use rv_isa::Reg;

/// The number of the call that reads.
const READ: u32 = 63;

/// The number of the call that writes.
const WRITE: u32 = 64;

/// The number of the call that exits.
const EXIT: u32 = 93;

/// The number of the call that stops.
const STOP: u32 = 4000;

/// The one stream that is read from.
const INPUT: u32 = 0;

/// The one stream that is written to.
const OUTPUT: u32 = 1;

/// The last kind of stop; the first is 1.
const LAST_KIND: u32 = 7;

impl Machine {
    /// ECALL: the call of that number, or a trap where there is none.
    pub(crate) fn ecall<S: Source, O: Sink>(&mut self, input: &mut S, out: &mut O) -> Step
        requires { self.old.count + 1 < 2 ^ 64 }
        ensures row { Performs (ecall self.old) result self.old self.new
            (record { left = S.left input.old; written = O.written out.old }) (record { left = S.left input.new; written = O.written out.new }) }
        ensures read_failed { result ≡ Step.Ended Stop.ReadFault → Rose (S.fault_count input.old) (S.fault_count input.new) }
        ensures write_failed { result ≡ Step.Ended Stop.WriteFault → Rose (O.fault_count out.old) (O.fault_count out.new) }
        ensures read_counted { S.fault_count input.old ≤ S.fault_count input.new }
        ensures write_counted { O.fault_count out.old ≤ O.fault_count out.new }
        ensures untouched { TakesNothing (ecall self.old) → input.new ≡ input.old }
        ensures unread { TakesNothing (ecall self.old) → result ≢ Step.Ended Stop.ReadFault }
    {
        match self.registers[17] {
            READ => self.read_call(input),
            WRITE => self.write_call(out),
            EXIT => self.exit_call(),
            STOP => self.stop_call(),
            _ => self.trap(TrapKind::Call),
        }
    }

    /// Fills the x12 bytes at x11 from stream 0, until they are full or the input ends. Their pages are made before, so that
    /// want of memory takes nothing.
    fn read_call<S: Source>(&mut self, input: &mut S) -> Step
        requires { self.old.count + 1 < 2 ^ 64 }
        ensures row { (written : Option (List ℕ)) → Performs (read_call self.old) result self.old self.new
            (record { left = S.left input.old; written = written }) (record { left = S.left input.new; written = written }) }
        ensures failed { result ≡ Step.Ended Stop.ReadFault → Rose (S.fault_count input.old) (S.fault_count input.new) }
        ensures reads { result ≢ Step.Ended Stop.WriteFault }
        ensures counted { S.fault_count input.old ≤ S.fault_count input.new }
        ensures untouched { TakesNothing (read_call self.old) → input.new ≡ input.old }
        ensures unread { TakesNothing (read_call self.old) → result ≢ Step.Ended Stop.ReadFault }
    {
        let at = self.registers[11];
        let length = self.registers[12];
        if self.registers[10] != INPUT {
            return self.trap(TrapKind::Call);
        }
        if !self.memory.covers(at, length, Right::Write) {
            return self.trap(TrapKind::Store);
        }
        match self.memory.ready(at, length) {
            Ok(()) => match self.memory.fill_from(at, length, input) {
                Filled::Read(taken) => self.moved(taken),
                Filled::Failed(_) => self.end(Stop::ReadFault),
            },
            Err(NoMemory) => self.end(Stop::NoMemory),
        }
    }

    /// Writes the x12 bytes at x11 to stream 1.
    fn write_call<O: Sink>(&mut self, out: &mut O) -> Step
        requires { self.old.count + 1 < 2 ^ 64 }
        ensures row { (left : Option (List ℕ)) → Performs (write_call self.old) result self.old self.new
            (record { left = left; written = O.written out.old }) (record { left = left; written = O.written out.new }) }
        ensures failed { result ≡ Step.Ended Stop.WriteFault → Rose (O.fault_count out.old) (O.fault_count out.new) }
        ensures writes { result ≢ Step.Ended Stop.ReadFault }
        ensures counted { O.fault_count out.old ≤ O.fault_count out.new }
    {
        let at = self.registers[11];
        let length = self.registers[12];
        if self.registers[10] != OUTPUT {
            return self.trap(TrapKind::Call);
        }
        if !self.memory.covers(at, length, Right::Read) {
            return self.trap(TrapKind::Load);
        }
        match self.memory.write_to(at, length, out) {
            Wrote::Whole => self.moved(length),
            Wrote::Failed => self.end(Stop::WriteFault),
            Wrote::NoMemory => self.end(Stop::NoMemory),
        }
    }

    /// Exits with the low 8 bits of x10.
    fn exit_call(&mut self) -> Step
        requires { self.old.count + 1 < 2 ^ 64 }
        ensures counted { self.new ≡ counted self.old }
        ensures ended { result ≡ Step.Ended (Stop.Exit (value_of self.old 10 % 2 ^ 8)) }
    {
        let status = (self.registers[10] & 0xff) as u8;
        self.end(Stop::Exit(status))
    }

    /// Stops with the kind in x10, from 1 to 7, and the block, offset and width in x11 to x13.
    fn stop_call(&mut self) -> Step
        requires { self.old.count + 1 < 2 ^ 64 }
        ensures counted { self.new ≡ counted self.old }
        ensures ended { StopsBy (stop_call self.old) self.old.pc result }
    {
        let kind = self.registers[10];
        let block = self.registers[11];
        let offset = self.registers[12];
        let width = self.registers[13];
        if 1 <= kind && kind <= LAST_KIND {
            self.end(Stop::StopCall {
                kind,
                block,
                offset,
                width,
            })
        } else {
            self.trap(TrapKind::Call)
        }
    }

    /// The call is done: x10 becomes the number of bytes that it moved, and the run goes on.
    fn moved(&mut self, length: u32) -> Step
        requires { self.old.count + 1 < 2 ^ 64 }
        ensures state { self.new ≡ next (with_register self.old 10 length) }
        ensures next { result ≡ Step.Next }
    {
        self.set_register(Reg::new(10), length);
        self.advance();
        Step::Next
    }
}
