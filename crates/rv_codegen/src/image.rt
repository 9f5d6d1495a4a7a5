//! Images of programs.

ghost use Rattle.std.specs.Prelude.{IfOk};
ghost use Rattle.fsc_base.specs.Image.{IsSound};

use crate::no::GenerateNo;
use crate::start::{data_address, emit_start};
use crate::unit::{Source, emit_units, shapes_of};
use byte_blocks::Heap;
use fat_code::ProgramParts;
use fsc_base::{Bytes, Image, Segment, Segments, Word};
use rv_asm::{AsmNo, Assembler};
use rv_runtime::{emit_runtime, layout};
use rv_statics::{Blocks, Contents, Counts, ShapeRecords, Statics, base_of, count, data_segment};
use std::alloc::Global;

/// Code, and what the rest of the image has to know of it.
struct Code {
    segment: Segment,
    /// Where the run starts.
    entry: u32,
    /// The address of the data segment.
    data: u32,
    contents: Contents,
}

/// The word of `main`.
fn main_word(program: &ProgramParts) -> Result<Word, AsmNo> {
    match base_of(&program.heap, program.entry) {
        None => Err(AsmNo::Misfit),
        Some(value) => Ok(Word {
            value,
            block: program.entry,
        }),
    }
}

/// The segment of code.
fn code_segment(bytes: Bytes) -> Result<Segment, AsmNo> {
    Ok(Segment {
        address: layout::CODE,
        size: count(bytes.as_slice())?,
        flags: layout::EXECUTED,
        bytes,
    })
}

/// The code of a program: the runtime, the functions in order, and the start.
fn code_of(
    alloc: Global,
    program: &ProgramParts,
    records: &ShapeRecords,
    shapes: &[Vec<u32>],
) -> Result<Code, AsmNo> {
    let mut asm = Assembler::new(alloc, layout::CODE);
    let entries = emit_runtime(&mut asm)?;
    let source = Source {
        program,
        records,
        entries: &entries,
    };
    let contents = emit_units(alloc, &mut asm, source, shapes)?;
    let entry = asm.here();
    let data = data_address(&asm)?;
    let main = main_word(program)?;
    emit_start(&mut asm, &entries, data, main)?;
    let segment = code_segment(asm.finish()?)?;
    Ok(Code {
        segment,
        entry,
        data,
        contents,
    })
}

/// A segment that may be read and written, from one address to another.
fn written_segment(address: u32, end: u32, bytes: Vec<u8>) -> Result<Segment, AsmNo> {
    match end.checked_sub(address) {
        None => Err(AsmNo::Misfit),
        Some(size) => Ok(Segment {
            address,
            size,
            flags: layout::READ_WRITTEN,
            bytes: Bytes::from_vec(bytes),
        }),
    }
}

/// The stack, of which no bytes are given.
fn stack_segment(alloc: Global) -> Segment {
    Segment {
        address: layout::STACK,
        size: layout::STACK_SIZE,
        flags: layout::READ_WRITTEN,
        bytes: Bytes::from_vec(Vec::new(alloc)),
    }
}

/// The counts of the blocks at the start of a run.
fn counts_of(heap: &Heap, statics: &Statics) -> Result<Counts, AsmNo> {
    match u32::try_from(heap.count()) {
        Err(_) => Err(AsmNo::Misfit),
        Ok(made) => Ok(Counts {
            made,
            next_base: heap.next_base() as u32,
            bottom: statics.bottom,
        }),
    }
}

/// The segments of memory: the data of the runtime, the headers and the cells.
fn memory_of(
    alloc: Global,
    heap: &Heap,
    records: &ShapeRecords,
    data: u32,
    statics: &Statics,
) -> Result<(Segment, Segment, Segment), AsmNo> {
    let counts = counts_of(heap, statics)?;
    let data = data_segment(alloc, data, counts, records)?;
    let headers = statics.headers(alloc)?;
    let low = written_segment(layout::REGION, statics.bottom, headers)?;
    let cells = statics.cells(alloc, heap, records)?;
    let end = layout::REGION + layout::REGION_SIZE;
    let high = written_segment(statics.bottom, end, cells)?;
    Ok((data, low, high))
}

/// The five segments of an image.
fn segments_of(
    alloc: Global,
    code: Segment,
    memory: (Segment, Segment, Segment),
) -> Result<Segments, AsmNo> {
    let (data, low, high) = memory;
    let mut segments = Vec::with_capacity(alloc, 5)?;
    segments.push(code)?;
    segments.push(data)?;
    segments.push(low)?;
    segments.push(high)?;
    segments.push(stack_segment(alloc))?;
    Ok(Segments::from_vec(segments))
}

/// The image of code and of the records of its shapes.
fn image_of(
    alloc: Global,
    heap: &Heap,
    records: &ShapeRecords,
    code: Code,
) -> Result<Image, AsmNo> {
    let Code {
        segment,
        entry,
        data,
        contents,
    } = code;
    let blocks = Blocks {
        heap,
        records,
        data,
    };
    let statics = Statics::of(alloc, blocks, &contents)?;
    let memory = memory_of(alloc, heap, records, data, &statics)?;
    let segments = segments_of(alloc, segment, memory)?;
    Ok(Image { entry, segments })
}

/// The image of a program, whether or not it is sound.
fn whole_image(alloc: Global, program: &ProgramParts) -> Result<Image, AsmNo> {
    let mut records = ShapeRecords::new(alloc)?;
    let shapes = shapes_of(alloc, &mut records, program.units.as_slice())?;
    let code = code_of(alloc, program, &records, shapes.as_slice())?;
    image_of(alloc, &program.heap, &records, code)
}

/// The image of a program. Its segments are the code, with the runtime in front and the start of the run at the end; the data of the
/// runtime with the records of shapes; the headers and the cells of the blocks that are there at the start of a run, of which the
/// first has the room of later ones too; and the stack. Refused with `Misfit` where a number of the program names nothing or is above
/// what a unit or a program may have, so that no sound image comes of it; and for want of memory.
pub fn generate(alloc: Global, program: &ProgramParts) -> Result<Image, GenerateNo>
    ensures { IfOk result (λ image. IsSound image) }
{
    let image = whole_image(alloc, program)?;
    if image.is_sound() {
        Ok(image)
    } else {
        Err(GenerateNo::Misfit)
    }
}
