//! The lines of the objects that are alive.

ghost use Rattle.std.specs.Prelude.{◌≡◌, ◌++◌, ◌<◌, length, map, flat_map, OnOk, OnErr};
ghost use Rattle.fsc_ending.specs.Lives.{letter_of, shape_text, live_line, lives_lines};

use crate::note::add_number;
use block_report::{Live, LiveShape, Lives};
use fsc_base::{NoMemory, WordKind};
use std::alloc::Global;

/// The letter of a word of a shape.
fn letter_of(kind: WordKind) -> u8
    ensures { result ≡ letter_of kind }
{
    match kind {
        WordKind::Fat => b'f',
        WordKind::Narrow => b'n',
    }
}

/// Adds a letter for each word of a shape.
fn add_letters(line: &mut Vec<u8>, kinds: &[WordKind]) -> Result<(), NoMemory>
    ensures { OnOk result (line.new.items ≡ line.old.items ++ map letter_of kinds.now) }
{
    for kind in kinds {
        line.push(letter_of(*kind))?;
    }
    Ok(())
}

/// Adds the words of a shape.
fn add_shape(line: &mut Vec<u8>, shape: &LiveShape) -> Result<(), NoMemory>
    ensures { OnOk result (line.new.items ≡ line.old.items ++ shape_text shape.now) }
{
    match shape {
        LiveShape::Undecided => {
            line.extend_from_slice(b"undecided")?;
            Ok(())
        }
        LiveShape::Words(kinds) => add_letters(line, kinds.as_slice()),
    }
}

/// Adds the line of an object.
fn add_live(alloc: Global, lines: &mut Vec<u8>, live: &Live) -> Result<(), NoMemory>
    ensures { OnOk result (lines.new.items ≡ lines.old.items ++ live_line live.now) }
{
    lines.extend_from_slice(b"block ")?;
    add_number(alloc, lines, u64::from(live.block))?;
    lines.extend_from_slice(b" size ")?;
    add_number(alloc, lines, u64::from(live.size))?;
    lines.extend_from_slice(b" shape ")?;
    add_shape(lines, &live.shape)?;
    lines.push(b'\n')?;
    Ok(())
}

/// Adds the lines of objects.
fn add_lives(alloc: Global, lines: &mut Vec<u8>, lives: &[Live]) -> Result<(), NoMemory>
    ensures made { OnOk result (lines.new.items ≡ lines.old.items ++ flat_map live_line lives.now) }
    ensures refused { OnErr result (0 < length (flat_map live_line lives.now)) }
{
    for live in lives {
        add_live(alloc, lines, live)?;
    }
    Ok(())
}

/// Adds the lines of objects, if they are told.
pub(crate) fn add_told(
    alloc: Global,
    lines: &mut Vec<u8>,
    lives: &Option<Lives>,
) -> Result<(), NoMemory>
    ensures made { OnOk result (lines.new.items ≡ lines.old.items ++ lives_lines lives.now) }
    ensures refused { OnErr result (0 < length (lives_lines lives.now)) }
{
    match lives {
        Some(lives) => add_lives(alloc, lines, lives.as_slice()),
        None => Ok(()),
    }
}
