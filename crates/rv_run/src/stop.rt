//! How a step and a run end.

/// Why the machine has no row for what it is to do.
#[derive(Clone, Copy, Debug, PartialEq, Eq)]
pub enum TrapKind {
    /// The pc, the target of a jump or of a taken branch is no multiple of 4, or the address of a load or a store none
    /// of its width.
    Misaligned,
    /// The four bytes at the pc don't all lie in one segment that may be executed.
    Fetch,
    /// The bytes to be loaded or written don't all lie in one segment that may be read.
    Load,
    /// The bytes to be stored or filled don't all lie in one segment that may be written.
    Store,
    /// The word at the pc spells no instruction.
    Illegal,
    /// The instruction is EBREAK.
    Break,
    /// There is no environment call of that number, none for that stream, or no stop of that kind.
    Call,
}

/// Why an instruction that asks nothing of the environment did not go on.
#[derive(Clone, Copy, Debug, PartialEq, Eq)]
pub(crate) enum Refusal {
    /// The machine has no row for it.
    Trap(TrapKind),
    /// No memory was left for the page of a store.
    NoMemory,
}

/// How a run ended.
#[derive(Clone, Copy, Debug, PartialEq, Eq)]
pub enum Stop {
    /// The program exited with this status.
    Exit(u8),
    /// The program stopped itself by environment call 4000: with a kind from 1 to 7, and a block, an offset and a width.
    StopCall {
        kind: u32,
        block: u32,
        offset: u32,
        width: u32,
    },
    /// As many instructions ran as were asked for.
    Steps,
    /// The machine has no row for the instruction at this pc.
    Trap {
        kind: TrapKind,
        pc: u32,
    },
    /// The input failed.
    ReadFault,
    /// The output refused a write.
    WriteFault,
    /// No memory was left: for the page of a store, for the buffer of a read, or in the output for a write.
    NoMemory,
}

/// What one instruction did.
#[derive(Clone, Copy, Debug, PartialEq, Eq)]
pub enum Step {
    /// The run goes on.
    Next,
    /// The run ended.
    Ended(Stop),
}
