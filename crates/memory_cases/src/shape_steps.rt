//! Shapes, places and descriptors.

use crate::told::{Told, tell, tell_numbers};
use case_table::{NoStep, bytes_of_hex, hex_of, number_of};
use fsc_base::WordKind;
use std::alloc::Global;
use type_desc::{Kinds, Shape, Shapes, decode_desc, encode_desc, place};

/// The most words of a shape.
const MOST_WORDS: usize = 1024;

/// The most words of a block.
const MOST_TOTAL: u32 = 1 << 30;

/// The kind of a letter: `n` for narrow, `f` for fat.
fn kind_of(letter: u8) -> Result<WordKind, NoStep> {
    match letter {
        b'n' => Ok(WordKind::Narrow),
        b'f' => Ok(WordKind::Fat),
        _ => Err(NoStep::Malformed("no kind of a word")),
    }
}

/// The kinds of words of letters, 1 to 1,024 of them.
fn kinds_of(alloc: Global, words: &[&str]) -> Result<Vec<WordKind>, NoStep> {
    let mut kinds = Vec::new(alloc);
    for word in words {
        for letter in word.as_bytes() {
            kinds.push(kind_of(*letter)?)?;
        }
    }
    Ok(kinds)
}

/// The shape of words of letters.
fn shape_of(alloc: Global, words: &[&str]) -> Result<Shape, NoStep> {
    let kinds = kinds_of(alloc, words)?;
    if kinds.is_empty() || kinds.len() > MOST_WORDS {
        return Err(NoStep::Malformed("no shape of 1 to 1,024 words"));
    }
    Ok(Shape::of(alloc, &kinds)?)
}

/// Kinds as an answer.
fn tell_kinds(alloc: Global, kinds: &[WordKind]) -> Told {
    let mut text = String::new(alloc);
    for kind in kinds {
        text.push_str(match kind {
            WordKind::Narrow => "n ",
            WordKind::Fat => "f ",
        })?;
    }
    Ok(Some(text))
}

/// The shape at a number, as an answer.
fn tell_shape(alloc: Global, shapes: &Shapes, number: u32) -> Told {
    match shapes.get(number) {
        Some(shape) => tell_kinds(alloc, shape.kinds()),
        None => tell(alloc, "none"),
    }
}

/// Adds a shape under a number.
pub fn add(alloc: Global, shapes: &mut Shapes, number: u32, words: &[&str]) -> Result<(), NoStep> {
    let shape = shape_of(alloc, words)?;
    if number < 4 || number % 4 != 0 {
        return Err(NoStep::Malformed("no number of a shape"));
    }
    if shapes.get(number).is_some() {
        return Err(NoStep::Malformed("a number that has a shape"));
    }
    Ok(shapes.add(number, shape)?)
}

/// The places of a word's value and base.
fn tell_place(alloc: Global, total: u32, word: u32, shape: &Shape) -> Told {
    if word >= total || total > MOST_TOTAL {
        return Err(NoStep::Malformed("no word of such a block"));
    }
    let (value, base) = place(shape, total, word);
    tell_numbers(alloc, &[value, base])
}

/// Does a step of shapes.
pub fn step(alloc: Global, words: &[&str], shapes: &mut Shapes) -> Told {
    match words {
        ["shape", number, kinds @ ..] => {
            add(alloc, shapes, number_of(number)?, kinds)?;
            tell(alloc, "ok")
        }
        ["shape_at", number] => tell_shape(alloc, shapes, number_of(number)?),
        ["kinds", kinds @ ..] => tell_kinds(alloc, shape_of(alloc, kinds)?.kinds()),
        ["words", kinds @ ..] => tell_numbers(alloc, &[shape_of(alloc, kinds)?.words()]),
        ["keep_kinds", kinds @ ..] => {
            let copy = Kinds::from_slice(alloc, &kinds_of(alloc, kinds)?)?;
            let again = Kinds::from_vec(copy.into_vec());
            tell_kinds(alloc, again.as_slice())
        }
        ["into_kinds", kinds @ ..] => {
            let kinds = shape_of(alloc, kinds)?.into_kinds();
            tell_kinds(alloc, kinds.as_slice())
        }
        ["place", total, word, kinds @ ..] => {
            let shape = shape_of(alloc, kinds)?;
            tell_place(alloc, number_of(total)?, number_of(word)?, &shape)
        }
        ["encode", kinds @ ..] => {
            let bytes = encode_desc(alloc, &shape_of(alloc, kinds)?)?;
            Ok(Some(hex_of(alloc, bytes.as_slice())?))
        }
        ["decode", bytes @ ..] => match decode_desc(alloc, &bytes_of_hex(alloc, bytes)?)? {
            Some(shape) => tell_kinds(alloc, shape.kinds()),
            None => tell(alloc, "none"),
        },
        _ => Ok(None),
    }
}
