//! Phases 1 and 2: the characters of a text (C90 5.1.1.2).

ghost use Rattle.std.specs.Prelude.{◌≡◌, ◌≤◌, ◌<◌, ◌+◌, ◌^◌, ◌++◌, [], ◌∷◌, if◌then◌else◌, length, OnOk, IfOk, IfSome, IsSome, option_map};
ghost use Rattle.pp_token.specs.Characters as text;
ghost use Rattle.pp_token.specs.CharacterLoop.{first_at, splice_at, ends, all_bytes, all_lines};

use fsc_base::NoMemory;
use std::alloc::Global;

/// The characters of a text after phase 2, each with its physical line.
#[derive(Drop)]
pub struct Characters {
    /// The byte of each.
    pub bytes: Vec<u8>,
    /// The physical line of each, from 1.
    pub lines: Vec<u32>,
    /// The line that is reached, in the end that where the text ends.
    pub end: u32,
}

/// The character that a trigraph with this last byte stands for (C90 5.2.1.1).
#[tactic(auto, unfolding(crate::specs::Characters::trigraph_of))]
fn trigraph(last: u8) -> Option<u8>
    ensures { result ≡ text.trigraph_of last }
{
    match last {
        b'=' => Some(b'#'),
        b'(' => Some(b'['),
        b'/' => Some(b'\\'),
        b')' => Some(b']'),
        b'\'' => Some(b'^'),
        b'<' => Some(b'{'),
        b'!' => Some(b'|'),
        b'>' => Some(b'}'),
        b'-' => Some(b'~'),
        _ => None,
    }
}

/// The character at the front after phase 1, and the bytes behind it.
#[tactic(auto, unfolding(crate::specs::Characters::first, crate::specs::CharacterLoop::first_at))]
fn first(bytes: &[u8]) -> Option<(u8, &[u8])>
    ensures first { option_map (λ found. (found.0, found.1.now)) result ≡ first_at bytes.now }
    ensures within { IfSome result (λ found. length found.1.now < length bytes.now) }
    ensures some { 0 < length bytes.now → IsSome result }
{
    match bytes {
        [] => None,
        [b'?', b'?', last, behind @ ..] => match trigraph(*last) {
            Some(c) => Some((c, behind)),
            None => Some((b'?', &bytes[1..])),
        },
        [b'\r', b'\n', behind @ ..] => Some((b'\n', behind)),
        [c, behind @ ..] => Some((*c, behind)),
    }
}

/// The bytes behind the line end that goes with `c`, where `c` is a backslash just before it.
#[tactic(auto, unfolding(crate::specs::CharacterLoop::splice_at))]
fn splice(c: u8, behind: &[u8]) -> Option<&[u8]>
    ensures found { option_map (λ after. after.now) result ≡ splice_at c behind.now }
    ensures within { IfSome result (λ after. length after.now < length behind.now) }
{
    if c != b'\\' {
        return None;
    }
    match first(behind) {
        Some((b'\n', after)) => Some(after),
        _ => None,
    }
}

impl Characters {
    /// One more character, on the line that is reached.
    fn push(&mut self, c: u8) -> Result<(), NoMemory>
        ensures bytes { OnOk result (self.new.bytes.items ≡ self.old.bytes.items ++ c ∷ []) }
        ensures lines { OnOk result (self.new.lines.items ≡ self.old.lines.items ++ self.old.end ∷ []) }
        ensures end { self.new.end ≡ self.old.end }
    {
        self.bytes.push(c)?;
        self.lines.push(self.end)?;
        Ok(())
    }

    /// One more character; behind a line feed the next line is reached.
    fn put(&mut self, c: u8) -> Result<(), NoMemory>
        requires { self.old.end + 1 < 2 ^ 32 }
        ensures bytes { OnOk result (self.new.bytes.items ≡ self.old.bytes.items ++ c ∷ []) }
        ensures lines { OnOk result (self.new.lines.items ≡ self.old.lines.items ++ self.old.end ∷ []) }
        ensures end { OnOk result (self.new.end ≡ text.line_after c self.old.end) }
    {
        self.push(c)?;
        if c == b'\n' {
            self.end += 1;
        }
        Ok(())
    }

    /// Takes the character at the front of `bytes`, or leaves it out with the line end behind it, and gives the bytes
    /// that are left.
    #[tactic(auto, using(crate::proofs::CharacterLaws::bytes_spliced, crate::proofs::CharacterLaws::bytes_kept, crate::proofs::CharacterLaws::lines_spliced, crate::proofs::CharacterLaws::lines_kept, crate::proofs::CharacterLaws::ends_spliced, crate::proofs::CharacterLaws::ends_kept))]
    fn take<'a>(&mut self, bytes: &'a [u8]) -> Result<&'a [u8], NoMemory>
        requires some { 0 < length bytes.now }
        requires lines { self.old.end + length bytes.now < 2 ^ 32 }
        ensures bytes { IfOk result (λ rest. all_bytes self.new.bytes.items self.new.end rest.now ≡ all_bytes self.old.bytes.items self.old.end bytes.now) }
        ensures lines { IfOk result (λ rest. all_lines self.new.lines.items self.new.end rest.now ≡ all_lines self.old.lines.items self.old.end bytes.now) }
        ensures end { IfOk result (λ rest. ends self.new.end rest.now ≡ ends self.old.end bytes.now) }
        ensures within { IfOk result (λ rest. length rest.now < length bytes.now) }
        ensures room { IfOk result (λ rest. self.new.end + length rest.now ≤ self.old.end + length bytes.now) }
    {
        let Some((c, behind)) = first(bytes) else {
            return Ok(bytes);
        };
        match splice(c, behind) {
            Some(after) => {
                self.end += 1;
                Ok(after)
            }
            None => {
                self.put(c)?;
                Ok(behind)
            }
        }
    }

    /// Ends the last line, where it has something and no line end.
    #[tactic(auto, unfolding(crate::specs::Characters::is_open))]
    fn end_line(&mut self) -> Result<(), NoMemory>
        ensures bytes { OnOk result (self.new.bytes.items ≡ (if text.is_open self.old.bytes.items then self.old.bytes.items ++ 10 ∷ [] else self.old.bytes.items)) }
        ensures lines { OnOk result (self.new.lines.items ≡ (if text.is_open self.old.bytes.items then self.old.lines.items ++ self.old.end ∷ [] else self.old.lines.items)) }
        ensures end { self.new.end ≡ self.old.end }
    {
        let length = self.bytes.len();
        if length > 0 && self.bytes[length - 1] != b'\n' {
            self.push(b'\n')?;
        }
        Ok(())
    }

    /// The characters of `bytes`, at most 2^24, after phase 2. The last line ends by a line feed even where the text has none there.
    #[tactic(auto, unfolding(crate::specs::Characters::characters_of, crate::specs::Characters::end_of, crate::specs::CharacterLoop::left, crate::specs::CharacterLoop::ends), using(crate::proofs::CharacterLaws::bytes_ended, crate::proofs::CharacterLaws::lines_ended))]
    pub fn new(alloc: Global, bytes: &[u8]) -> Result<Characters, NoMemory>
        requires { length bytes.now ≤ 2 ^ 24 }
        ensures bytes { IfOk result (λ made. made.bytes.items ≡ text.bytes_of (text.characters_of bytes.now)) }
        ensures lines { IfOk result (λ made. made.lines.items ≡ text.lines_of (text.characters_of bytes.now)) }
        ensures end { IfOk result (λ made. made.end ≡ text.end_of bytes.now) }
    {
        let mut characters = Characters {
            bytes: Vec::new(alloc),
            lines: Vec::new(alloc),
            end: 1,
        };
        let mut rest = bytes;
        while !rest.is_empty() {
            rest = characters.take(rest)?;
        }
        characters.end_line()?;
        Ok(characters)
    }
}
