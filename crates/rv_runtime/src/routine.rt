//! The whole runtime.

use crate::blocks::emit_blocks;
use crate::calls::emit_calls;
use crate::copies::emit_copies;
use crate::entries::Entries;
use crate::methods::emit_methods;
use crate::near::emit_near;
use crate::places::emit_places;
use crate::primitives::emit_primitives;
use crate::stops::emit_stops;
use rv_asm::{AsmNo, Assembler, Label};
use rv_isa::Inst;

/// Emits a routine, and gives a label that means its first instruction.
pub(crate) fn routine(asm: &mut Assembler, insts: &[Inst]) -> Result<Label, AsmNo> {
    let label = asm.label()?;
    asm.bind(label)?;
    asm.emit_all(insts)?;
    Ok(label)
}

/// Emits the runtime, 651 instructions, at the end of the code, and gives its entries. It may stand at any address: it reaches the data
/// segment through S2. Refused with `Misfit` where the end of the code has no address in 32 bits, and for want of memory; the code
/// is then of no further use.
pub fn emit_runtime(asm: &mut Assembler) -> Result<Entries, AsmNo> {
    let near = emit_near(asm)?;
    let methods = emit_methods(asm)?;
    emit_places(asm)?;
    let ranges = emit_copies(asm)?;
    let blocks = emit_blocks(asm)?;
    let calls = emit_calls(asm)?;
    let primitives = emit_primitives(asm)?;
    let stops = emit_stops(asm)?;
    Ok(Entries {
        near,
        methods,
        ranges,
        blocks,
        calls,
        primitives,
        stops,
    })
}
