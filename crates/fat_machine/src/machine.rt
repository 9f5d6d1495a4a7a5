//! The machine and its steps.

use crate::frame::{Callee, Code, Frame, Making};
use crate::memory::{Memory, ShapeRef};
use crate::start::{Descriptors, all_callees, all_descs, fill};
use crate::stop::{FatStep, MachineNo, Stop};
use cell_store::CellStore;
use fat_code::{FatFunction, FatParts, Op, ProgramParts};
use fsc_base::Word;
use fsc_outside::{Sink, Source};
use std::alloc::Global;
use type_desc::Shapes;

/// The bytes of all headers and cells of a run.
const REGION_BYTES: u32 = 0x2000_0000;

/// A program of fat code in the midst of its run.
#[derive(Drop)]
pub struct FatMachine<'p> {
    pub(crate) alloc: Global,
    pub(crate) program: &'p ProgramParts,
    pub(crate) memory: Memory,
    /// The descriptors of each unit's shapes.
    pub(crate) descs: Vec<Vec<ShapeRef>>,
    /// By the number of a block.
    pub(crate) callees: Vec<Option<Callee>>,
    pub(crate) frame: Frame,
    /// The activations that wait, the latest last.
    pub(crate) callers: Vec<Frame>,
    /// The slots of all activations.
    pub(crate) slots: Vec<Word>,
    /// Their words.
    pub(crate) words: Vec<Word>,
    /// The extra words of an activation whose block of them is still to be made.
    pub(crate) extra: Vec<Word>,
}

impl<'p> FatMachine<'p> {
    /// The machine at the start of a program's run, in a region of 2^29 bytes, which it takes at once. Refused as `Misfit` where the
    /// program's lists, heap and units do not fit, and as `NoMemory`.
    pub fn new(alloc: Global, program: &'p ProgramParts) -> Result<FatMachine<'p>, MachineNo> {
        FatMachine::with_region(alloc, program, REGION_BYTES)
    }

    /// The same in a region of another size, in bytes: where it is smaller, the run finds less storage.
    pub fn with_region(
        alloc: Global,
        program: &'p ProgramParts,
        bytes: u32,
    ) -> Result<FatMachine<'p>, MachineNo> {
        let mut descriptors = Descriptors::new(alloc)?;
        let descs = all_descs(alloc, &mut descriptors, program.units.as_slice())?;
        let memory = filled(alloc, program, bytes, &descs, descriptors.into_shapes())?;
        let callees = all_callees(alloc, program, memory.made())?;
        FatMachine::starting(alloc, program, memory, descs, callees)
    }

    /// The machine with a filled memory.
    fn starting(
        alloc: Global,
        program: &'p ProgramParts,
        memory: Memory,
        descs: Vec<Vec<ShapeRef>>,
        callees: Vec<Option<Callee>>,
    ) -> Result<FatMachine<'p>, MachineNo> {
        let mut words = Vec::new(alloc);
        words.push(memory.address(program.entry))?;
        Ok(FatMachine {
            alloc,
            program,
            memory,
            descs,
            callees,
            frame: Frame::start(),
            callers: Vec::new(alloc),
            slots: Vec::new(alloc),
            words,
            extra: Vec::new(alloc),
        })
    }

    /// How many accesses were away so far. It stands still at 2^64 - 1.
    pub fn away(&self) -> u64 {
        self.memory.away()
    }

    /// The blocks of the run, with their headers.
    pub fn store(&self) -> &CellStore {
        self.memory.store()
    }

    /// The shapes of blocks, by their descriptors.
    pub fn shapes(&self) -> &Shapes {
        self.memory.shapes()
    }

    /// What comes next: a block that is still to be made, or an operation. It reads a byte of the input or writes one of the output
    /// only where that is the operation.
    pub fn step<S: Source, O: Sink>(&mut self, input: &mut S, out: &mut O) -> FatStep {
        match self.next(input, out) {
            Ok(()) => FatStep::Next,
            Err(stop) => stop.answer(),
        }
    }

    /// The same.
    fn next<S: Source, O: Sink>(&mut self, input: &mut S, out: &mut O) -> Result<(), Stop> {
        match self.making()? {
            Some(making) => self.make(making),
            None => {
                let op = self.operation()?;
                self.perform(op, input, out)
            }
        }
    }

    /// A unit of the program.
    pub(crate) fn unit(&self, unit: u32) -> Result<&FatParts, Stop> {
        match self.program.units.get(unit as usize) {
            Some(unit) => Ok(unit.parts()),
            None => Err(Stop::Misfit),
        }
    }

    /// A function of the program.
    pub(crate) fn function(&self, unit: u32, function: u32) -> Result<&FatFunction, Stop> {
        match self.unit(unit)?.functions.get(function as usize) {
            Some(function) => Ok(function),
            None => Err(Stop::Misfit),
        }
    }

    /// The block that is still to be made, if one is.
    fn making(&self) -> Result<Option<Making>, Stop> {
        match self.frame.code {
            Code::Start => Ok(None),
            Code::Function { unit, function } => {
                let function = self.function(unit, function)?;
                Ok(making_in(function, self.frame.made))
            }
        }
    }

    /// The next operation.
    fn operation(&self) -> Result<Op, Stop> {
        let op = match self.frame.code {
            Code::Start => starting_op(self.frame.pc),
            Code::Function { unit, function } => {
                let function = self.function(unit, function)?;
                function.ops.get(self.frame.pc as usize).copied()
            }
        };
        match op {
            Some(op) => Ok(op),
            None => Err(Stop::Misfit),
        }
    }

    /// The operation behind the present one is the next.
    pub(crate) fn move_on(&mut self) -> Result<(), Stop> {
        match self.frame.pc.checked_add(1) {
            Some(pc) => {
                self.frame.pc = pc;
                Ok(())
            }
            None => Err(Stop::Misfit),
        }
    }
}

/// A memory with the blocks of a program.
fn filled(
    alloc: Global,
    program: &ProgramParts,
    bytes: u32,
    descs: &[Vec<ShapeRef>],
    shapes: Shapes,
) -> Result<Memory, MachineNo> {
    let store = CellStore::new(alloc, bytes)?;
    let mut memory = Memory::new(alloc, store, shapes)?;
    fill(alloc, &mut memory, program, descs)?;
    Ok(memory)
}

/// The operations of what calls `main`.
fn starting_op(pc: u32) -> Option<Op> {
    match pc {
        0 => Some(Op::Call(0)),
        1 => Some(Op::Primitive(c_ops::Primitive::Exit)),
        _ => None,
    }
}

/// The block that comes after so many of those that the entry of a function makes: the one of the extra words first.
fn making_in(function: &FatFunction, made: u32) -> Option<Making> {
    if !function.is_variadic {
        return entry_in(function, made);
    }
    match made.checked_sub(1) {
        None => Some(Making::Extra),
        Some(index) => entry_in(function, index),
    }
}

/// An entry block.
fn entry_in(function: &FatFunction, index: u32) -> Option<Making> {
    match function.entries.get(index as usize) {
        Some(entry) => Some(Making::Entry {
            size: entry.size,
            shape: entry.shape,
        }),
        None => None,
    }
}
