//! Records of shapes in the data segment, one for each shape of the program.

use crate::bytes::{count, push_word};
use fsc_base::{Bytes, WordKind};
use indexmap::IndexMap;
use rv_asm::AsmNo;
use rv_runtime::layout::RECORDS;
use rv_templates::ShapePlace;
use std::alloc::Global;
use type_desc::{Kinds, Shape, encode_desc};

/// The most words of a shape.
const MOST_WORDS: usize = 1024;

/// A shape, and where its record stands.
#[derive(Drop)]
pub struct ShapeRecord {
    pub shape: Shape,
    pub place: ShapePlace,
}

/// The records of shapes that the program has, each once. Equal shapes have one record, also of different units.
#[derive(Drop)]
pub struct ShapeRecords {
    /// The numbers of records by their descriptors.
    numbers: IndexMap<Vec<u8>, u32>,
    records: Vec<ShapeRecord>,
    /// From the first record on.
    bytes: Vec<u8>,
}

/// The shape of these kinds. Refused with `Misfit` where they are none, or more than a shape may have.
fn shape_of(alloc: Global, kinds: &[WordKind]) -> Result<Shape, AsmNo> {
    if kinds.is_empty() || MOST_WORDS < kinds.len() {
        return Err(AsmNo::Misfit);
    }
    Ok(Shape::of(alloc, kinds)?)
}

/// The kind of a shape's word, where it has one word.
fn single(kinds: &[WordKind]) -> Option<WordKind> {
    match kinds {
        [kind] => Some(*kind),
        _ => None,
    }
}

/// Four bytes for a fat word.
fn bytes_of_base(kind: WordKind) -> u32 {
    match kind {
        WordKind::Fat => 4,
        WordKind::Narrow => 0,
    }
}

/// For each word of a shape, and for their end, four times the number of fat words before it.
fn counts_of(alloc: Global, kinds: &[WordKind]) -> Result<Vec<u32>, AsmNo> {
    let mut counts = Vec::new(alloc);
    let mut count = 0u32;
    counts.push(count)?;
    for kind in kinds {
        count = count.wrapping_add(bytes_of_base(*kind));
        counts.push(count)?;
    }
    Ok(counts)
}

/// Adds the counts of a shape, the last one first.
fn push_counts(alloc: Global, bytes: &mut Vec<u8>, kinds: &[WordKind]) -> Result<(), AsmNo> {
    let counts = counts_of(alloc, kinds)?;
    for count in counts.iter().rev() {
        push_word(bytes, *count)?;
    }
    Ok(())
}

impl ShapeRecords {
    /// The record of the shape that is one fat word, which stands first in every program.
    pub fn new(alloc: Global) -> Result<ShapeRecords, AsmNo> {
        let mut records = ShapeRecords {
            numbers: IndexMap::new(alloc),
            records: Vec::new(alloc),
            bytes: Vec::new(alloc),
        };
        let _ = records.number(alloc, &[WordKind::Fat])?;
        Ok(records)
    }

    /// The number of the record of these kinds, which is added where there is none yet. Refused with `Misfit` where they are no shape,
    /// or 32 bits can't tell the record's place.
    fn number(&mut self, alloc: Global, kinds: &[WordKind]) -> Result<u32, AsmNo> {
        let shape = shape_of(alloc, kinds)?;
        let descriptor = encode_desc(alloc, &shape)?;
        match self.numbers.get(descriptor.as_slice()).copied() {
            Some(number) => Ok(number),
            None => self.add(alloc, shape, descriptor),
        }
    }

    /// Adds the record of a shape with this descriptor.
    fn add(&mut self, alloc: Global, shape: Shape, descriptor: Bytes) -> Result<u32, AsmNo> {
        let number = u32::try_from(self.records.len()).map_err(|_| AsmNo::Misfit)?;
        push_counts(alloc, &mut self.bytes, shape.kinds())?;
        let place = self.next_place(shape.kinds())?;
        self.bytes.extend_from_slice(descriptor.as_slice())?;
        self.records.push(ShapeRecord { shape, place })?;
        self.numbers.insert(descriptor.into_vec(), number)?;
        Ok(number)
    }

    /// The place of a descriptor behind the bytes so far.
    fn next_place(&self, kinds: &[WordKind]) -> Result<ShapePlace, AsmNo> {
        let behind = count(self.bytes.as_slice())?;
        match RECORDS.checked_add(behind) {
            None => Err(AsmNo::Misfit),
            Some(descriptor) => Ok(ShapePlace {
                descriptor,
                single: single(kinds),
            }),
        }
    }

    /// The numbers of the records of a unit's shapes.
    pub fn numbers_of(&mut self, alloc: Global, shapes: &[Kinds]) -> Result<Vec<u32>, AsmNo> {
        let mut numbers = Vec::with_capacity(alloc, shapes.len())?;
        for kinds in shapes {
            self.push_number(alloc, &mut numbers, kinds)?;
        }
        Ok(numbers)
    }

    /// Adds the number of the record of these kinds to a list.
    fn push_number(
        &mut self,
        alloc: Global,
        numbers: &mut Vec<u32>,
        kinds: &Kinds,
    ) -> Result<(), AsmNo> {
        let number = self.number(alloc, kinds.as_slice())?;
        numbers.push(number)?;
        Ok(())
    }

    /// The record with a number.
    pub fn get(&self, number: u32) -> Option<&ShapeRecord> {
        self.records.get(number as usize)
    }

    /// The bytes of the records.
    pub fn bytes(&self) -> &[u8] {
        self.bytes.as_slice()
    }
}
