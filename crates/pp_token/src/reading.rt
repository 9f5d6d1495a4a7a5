//! Phase 3: from characters to preprocessing tokens (C90 5.1.1.2 and 6.1).

ghost use Rattle.std.specs.Prelude.{◌≡◌, ◌≤◌, ◌<◌, ◌+◌, [], length, slice_index, take, drop, OnOk, IfOk, OnErr, IfErr, List, Result};
ghost use Rattle.fsc_base.specs.declared.place.Broken.{Broken};
ghost use Rattle.pp_token.specs.declared.token.PpToken.{PpToken};
ghost use Rattle.pp_token.specs.Tokens as phase;
ghost use Rattle.pp_token.specs.Stepping.{Knows, IsReady, all_of, gathered, Refuses};

use crate::characters::Characters;
use crate::hide_set::HideSet;
use crate::piece::{Piece, Spot, Unclosed, piece_at};
use crate::token::{PpKind, PpToken, PpTokens};
use fsc_base::{Broken, Bytes, NoMemory, Place, Refused, Rule};
use std::alloc::Global;

/// The most bytes of a source file.
const MOST_BYTES: usize = 1 << 24;

/// A file: its unit, its index in the unit's list of files, and the line where it ends.
#[derive(Clone, Copy)]
pub struct Source {
    pub unit: u32,
    pub file: u32,
    pub end: u32,
}

impl Source {
    /// A place on this line.
    fn place(self, line: u32) -> Place
        ensures { result ≡ phase.place_of self line }
    {
        Place {
            unit: self.unit,
            file: self.file,
            line,
        }
    }

    /// A token of this text on this line.
    fn token(
        self,
        alloc: Global,
        line: u32,
        spaced: bool,
        kind: PpKind,
        text: &[u8],
    ) -> Result<PpToken, NoMemory>
        ensures { IfOk result (λ token. token ≡ phase.token_of self line spaced kind text.now) }
    {
        Ok(PpToken {
            kind,
            text: Bytes::from_slice(alloc, text)?,
            place: self.place(line),
            spaced,
            hide: HideSet::new(alloc),
        })
    }
}

/// How far phase 3 has come in a text.
#[derive(Drop)]
pub struct Reader<'a> {
    pub source: Source,
    /// The characters that are left.
    pub text: &'a [u8],
    /// Their lines.
    pub lines: &'a [u32],
    /// Where in its line the next token stands.
    pub spot: Spot,
    /// Whether white space stands just before.
    pub spaced: bool,
    pub unclosed: Unclosed,
}

impl Reader<'_> {
    /// Puts the token of a piece at the front behind the others, or refuses a comment that isn't closed.
    fn give(&self, alloc: Global, piece: Piece, tokens: &mut Vec<PpToken>) -> Result<(), Refused>
        requires some { 0 < length self.now.lines.now }
        requires within { phase.length_of piece ≤ length self.now.text.now }
        ensures ok { OnOk result ((rest : Result (List PpToken) Broken) → gathered tokens.new.items rest ≡ gathered tokens.old.items (phase.given self.now.source self.now.spaced (slice_index self.now.lines.now 0) self.now.text.now piece rest)) }
        ensures err { IfErr result (λ refused. (rest : Result (List PpToken) Broken) → Refuses refused (phase.given self.now.source self.now.spaced (slice_index self.now.lines.now 0) self.now.text.now piece rest)) }
    {
        let line = self.lines[0];
        match piece {
            Piece::Blank(_) => Ok(()),
            Piece::OpenComment => Err(Refused::Broken(Broken {
                rule: Rule::K32,
                place: self.source.place(line),
            })),
            Piece::LineEnd => {
                let token = self
                    .source
                    .token(alloc, line, self.spaced, PpKind::LineEnd, &[])?;
                tokens.push(token)?;
                Ok(())
            }
            Piece::Token(found) => {
                let text = &self.text[..found.length];
                let token = self
                    .source
                    .token(alloc, line, self.spaced, found.kind, text)?;
                tokens.push(token)?;
                Ok(())
            }
        }
    }

    /// Where in its line a token stands that comes behind a piece at the front.
    fn spot_behind(&self, piece: Piece) -> Spot
        requires { phase.length_of piece ≤ length self.now.text.now }
        ensures { result ≡ phase.spot_behind self.now.spot piece self.now.text.now }
    {
        match piece {
            Piece::Blank(_) | Piece::OpenComment => self.spot,
            Piece::LineEnd => Spot::LineStart,
            Piece::Token(found) => self.spot.after(found.kind, &self.text[..found.length]),
        }
    }

    /// Passes over a piece at the front.
    fn pass(&mut self, piece: Piece)
        requires even { length self.old.text.now ≡ length self.old.lines.now }
        requires within { phase.length_of piece ≤ length self.old.text.now }
        requires known { Knows self.old.unclosed self.old.text.now }
        ensures passed { self.new ≡ record self.old { text = self.new.text; lines = self.new.lines; spot = phase.spot_behind self.old.spot piece self.old.text.now; spaced = phase.is_space piece; unclosed = self.new.unclosed } }
        ensures text { self.new.text.now ≡ drop (phase.length_of piece) self.old.text.now }
        ensures lines { self.new.lines.now ≡ drop (phase.length_of piece) self.old.lines.now }
        ensures known { Knows self.new.unclosed self.new.text.now }
    {
        self.spot = self.spot_behind(piece);
        self.spaced = piece.is_space();
        let (passed, rest) = self.text.split_at(piece.length());
        self.unclosed = self.unclosed.behind(passed, rest);
        self.text = rest;
        self.lines = &self.lines[piece.length()..];
    }

    /// Reads what stands at the front, and puts its token behind the others.
    #[tactic(auto, using(crate::proofs::PhaseLaws::phase_3_step))]
    fn step(&mut self, alloc: Global, tokens: &mut Vec<PpToken>) -> Result<(), Refused>
        requires some { 0 < length self.old.text.now }
        requires ready { IsReady self.old }
        ensures ok { OnOk result (gathered tokens.new.items (all_of self.new) ≡ gathered tokens.old.items (all_of self.old)) }
        ensures ready { OnOk result (IsReady self.new) }
        ensures shorter { OnOk result (length self.new.text.now < length self.old.text.now) }
        ensures err { IfErr result (λ refused. Refuses refused (all_of self.old)) }
    {
        let piece = piece_at(self.text, self.spot, &mut self.unclosed);
        self.give(alloc, piece, tokens)?;
        self.pass(piece);
        Ok(())
    }

    /// Reads all that is left, and puts its tokens behind the others.
    fn steps(&mut self, alloc: Global, tokens: &mut Vec<PpToken>) -> Result<(), Refused>
        requires { IsReady self.old }
        ensures ok { OnOk result (gathered tokens.new.items (all_of self.new) ≡ gathered tokens.old.items (all_of self.old)) }
        ensures all { OnOk result (self.new.text.now ≡ []) }
        ensures err { IfErr result (λ refused. Refuses refused (gathered tokens.old.items (all_of self.old))) }
    {
        'pieces: while !self.text.is_empty() {
            self.step(alloc, tokens)?;
        }
        Ok(())
    }

    /// The tokens of all that is left, with End behind them.
    fn all(&mut self, alloc: Global) -> Result<PpTokens, Refused>
        requires { IsReady self.old }
        ensures { phase.Gives result (all_of self.old) }
    {
        let mut tokens = Vec::new(alloc);
        self.steps(alloc, &mut tokens)?;
        let end = self
            .source
            .token(alloc, self.source.end, self.spaced, PpKind::End, &[])?;
        tokens.push(end)?;
        Ok(PpTokens::from_vec(tokens))
    }
}

/// The preprocessing tokens of a file, phases 1 to 3 of a translation (C90 5.1.1.2 and 6.1): `bytes` is what the file
/// `file` of the unit `unit` has. Each line that has anything ends by a LineEnd, also a last one without a line feed;
/// the last token is End, on the line behind the last line feed. Refuses as L14, on line 1, a file of more than 2^24
/// bytes, and as K32, on the line where it opens, the first comment that isn't closed. Refuses as `NoMemory` where no
/// memory is left for the tokens.
#[tactic(auto, unfolding(crate::specs::Tokens::tokens_of))]
pub fn pp_tokens(alloc: Global, unit: u32, file: u32, bytes: &[u8]) -> Result<PpTokens, Refused>
    ensures { phase.Gives result (phase.tokens_of unit file bytes.now) }
{
    if bytes.len() > MOST_BYTES {
        let place = Place {
            unit,
            file,
            line: 1,
        };
        return Err(Refused::Broken(Broken {
            rule: Rule::L14,
            place,
        }));
    }
    let characters = Characters::new(alloc, bytes)?;
    let mut reader = Reader {
        source: Source {
            unit,
            file,
            end: characters.end,
        },
        text: characters.bytes.as_slice(),
        lines: characters.lines.as_slice(),
        spot: Spot::LineStart,
        spaced: false,
        unclosed: Unclosed::none(),
    };
    reader.all(alloc)
}
