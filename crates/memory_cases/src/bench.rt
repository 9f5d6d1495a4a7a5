//! What a case of memory works on.

use crate::headers::Headers;
use crate::twins::Twins;
use crate::{sequences, shape_steps};
use case_table::{Bench, NoStep};
use std::alloc::Global;
use type_desc::Shapes;

/// All that the steps of a case are done on.
#[derive(Drop)]
pub struct MemoryBench {
    twins: Twins,
    shapes: Shapes,
    headers: Headers,
}

/// The shapes that are there from the start: all narrow, all fat, narrow and fat in turn, two fat and a narrow one in turn.
fn first_shapes(alloc: Global) -> Result<Shapes, NoStep> {
    let mut shapes = Shapes::new(alloc);
    for (number, kinds) in [(4, "n"), (8, "f"), (12, "nf"), (16, "ffn")] {
        shape_steps::add(alloc, &mut shapes, number, &[kinds])?;
    }
    Ok(shapes)
}

impl Bench for MemoryBench {
    fn new(alloc: Global) -> Result<MemoryBench, NoStep> {
        Ok(MemoryBench {
            twins: Twins::new(alloc)?,
            shapes: first_shapes(alloc)?,
            headers: Headers::new(alloc),
        })
    }

    fn step(&mut self, alloc: Global, words: &[&str]) -> Result<String, NoStep> {
        if let Some(answer) = shape_steps::step(alloc, words, &mut self.shapes)? {
            return Ok(answer);
        }
        if let Some(answer) = self.headers.step(alloc, words)? {
            return Ok(answer);
        }
        if let Some(answer) = sequences::step(alloc, words, &self.shapes)? {
            return Ok(answer);
        }
        match self.twins.step(alloc, words, &self.shapes)? {
            Some(answer) => Ok(answer),
            None => Err(NoStep::Malformed("no such step")),
        }
    }
}
