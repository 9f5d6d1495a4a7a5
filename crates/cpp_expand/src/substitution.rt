//! Replacement lists with arguments put in, and the operators `#` and `##` (C90 6.8.3.1 to 6.8.3.3).

ghost use Rattle.std.specs.Prelude.{◌≡◌, ◌≤◌, ◌<◌, ◌++◌, length, IfOk, IfErr, OnOk};
ghost use Rattle.cpp_expand.specs.Causes.{RefusesAt, OfPaste};
ghost use Rattle.cpp_expand.specs.Operators.{escaped};

use crate::definition::{BodyToken, Role};
use crate::hide_sets::HideId;
use crate::item::{Item, Text};
use crate::store::Store;
use fsc_base::{Broken, NoMemory, Place, Refused, Rule};
use pp_token::{PpKind, kind_of};

/// An argument of a call.
#[derive(Drop)]
pub struct Argument<'a> {
    /// Its tokens as they are.
    pub raw: Vec<Item<'a>>,
    /// What they expand to, where the replacement list asks for that and it was done.
    pub expanded: Vec<Item<'a>>,
}

/// What a replacement list is read with.
#[derive(Drop)]
struct Site<'s, 'a> {
    /// Where the name that is replaced stands.
    place: Place,
    arguments: &'s [Argument<'a>],
}

/// What a replacement list gives, as far as it was read.
#[derive(Drop)]
struct Output<'a> {
    tokens: Vec<Item<'a>>,
    /// Whether white space stands in front of the next token, since it stood in front of something that gave none.
    owes_space: bool,
}

/// A copy of a list.
fn copied<'a>(store: &mut Store, list: &[Item<'a>]) -> Result<Vec<Item<'a>>, NoMemory> {
    store.spend(list.len())?;
    Ok(Vec::from_slice(store.alloc(), list)?)
}

/// A list of one token.
fn one<'a>(store: &mut Store, token: Item<'a>) -> Result<Vec<Item<'a>>, NoMemory> {
    let mut list = Vec::new(store.alloc());
    store.put(&mut list, token)?;
    Ok(list)
}

/// Puts a text into a string, with a backslash in front of each backslash and each double quote.
pub fn escape_into(string: &mut Vec<u8>, text: &[u8]) -> Result<(), NoMemory>
    ensures { OnOk result (string.new.items ≡ string.old.items ++ escaped text.now) }
{
    for c in text {
        if *c == b'\\' || *c == b'"' {
            string.push(b'\\')?;
        }
        string.push(*c)?;
    }
    Ok(())
}

/// Puts a token's spelling into a string: character constants and string literals are escaped.
fn spell_into(string: &mut Vec<u8>, kind: PpKind, text: &[u8]) -> Result<(), NoMemory> {
    match kind {
        PpKind::Char | PpKind::Str => escape_into(string, text),
        _ => Ok(string.extend_from_slice(text)?),
    }
}

/// The string literal that spells an argument (C90 6.8.3.2).
fn string_text(store: &Store, argument: &[Item<'_>]) -> Result<Vec<u8>, NoMemory> {
    let mut string = Vec::from_slice(store.alloc(), b"\"")?;
    for (index, token) in argument.iter().enumerate() {
        if index > 0 && token.spaced {
            string.push(b' ')?;
        }
        spell_into(&mut string, token.kind, store.bytes(token.text))?;
    }
    string.push(b'"')?;
    Ok(string)
}

/// Whether a replacement list goes on with `##`.
fn begins_paste(body: &[BodyToken]) -> bool {
    match body {
        [first, ..] => first.role == Role::Paste,
        [] => false,
    }
}

impl<'s, 'a> Site<'s, 'a> {
    /// The argument of a parameter.
    fn argument(&self, index: usize) -> Option<&'s Argument<'a>> {
        self.arguments.get(index)
    }

    /// The token that `#` makes of an argument. Where its text is no string literal, it is no token of C.
    fn string(
        &self,
        store: &mut Store,
        spaced: bool,
        argument: &[Item<'a>],
    ) -> Result<Item<'a>, NoMemory> {
        store.spend(argument.len())?;
        let text = string_text(store, argument)?;
        let kind = kind_of(text.as_slice()).unwrap_or(PpKind::Other);
        let text = store.keep(text)?;
        Ok(Item {
            kind,
            text,
            place: self.place,
            spaced,
            hide: HideId::NONE,
        })
    }

    /// The token that `#` makes of the argument of this index.
    fn string_of(
        &self,
        store: &mut Store,
        spaced: bool,
        index: usize,
    ) -> Result<Item<'a>, NoMemory> {
        match self.argument(index) {
            Some(argument) => self.string(store, spaced, argument.raw.as_slice()),
            None => self.string(store, spaced, &[]),
        }
    }

    /// A token of the replacement list that stands for itself.
    fn placed(&self, token: &'a BodyToken) -> Item<'a> {
        Item {
            kind: token.kind,
            text: Text::Lent(token.text.as_slice()),
            place: self.place,
            spaced: token.spaced,
            hide: HideId::NONE,
        }
    }

    /// The tokens of an argument as they are.
    fn raw(&self, store: &mut Store, index: usize) -> Result<Vec<Item<'a>>, NoMemory> {
        match self.argument(index) {
            Some(argument) => copied(store, argument.raw.as_slice()),
            None => Ok(Vec::new(store.alloc())),
        }
    }

    /// The tokens that an argument expands to.
    fn expanded(&self, store: &mut Store, index: usize) -> Result<Vec<Item<'a>>, NoMemory> {
        match self.argument(index) {
            Some(argument) => copied(store, argument.expanded.as_slice()),
            None => Ok(Vec::new(store.alloc())),
        }
    }

    /// What the operand at the front of a list stands for, and the list behind it.
    fn operand(
        &self,
        store: &mut Store,
        body: &'a [BodyToken],
    ) -> Result<(Vec<Item<'a>>, &'a [BodyToken]), NoMemory>
        ensures within { IfOk result (λ found. length found.1.now ≤ length body.now) }
        ensures shorter { 0 < length body.now → IfOk result (λ found. length found.1.now < length body.now) }
    {
        match body {
            [hash, parameter, behind @ ..] if hash.role == Role::Hash => {
                let Role::Raw(index) = parameter.role else {
                    return Ok((Vec::new(store.alloc()), behind));
                };
                let string = self.string_of(store, hash.spaced, index)?;
                Ok((one(store, string)?, behind))
            }
            [token, behind @ ..] => {
                let tokens = match token.role {
                    Role::Raw(index) => self.raw(store, index)?,
                    Role::Expanded(index) => self.expanded(store, index)?,
                    Role::Token | Role::Hash | Role::Paste => one(store, self.placed(token))?,
                };
                Ok((tokens, behind))
            }
            [] => Ok((Vec::new(store.alloc()), body)),
        }
    }

    /// The one token that `##` makes of two (C90 6.8.3.3).
    fn joint(&self, store: &mut Store, left: Item<'a>, right: Item<'a>) -> Result<Item<'a>, Refused>
        ensures { IfErr result (RefusesAt OfPaste self.now.place) }
    {
        let mut text = Vec::from_slice(store.alloc(), store.bytes(left.text))?;
        text.extend_from_slice(store.bytes(right.text))?;
        let Some(kind) = kind_of(text.as_slice()) else {
            return Err(Refused::Broken(Broken {
                rule: Rule::K42,
                place: self.place,
            }));
        };
        let text = store.keep(text)?;
        let hide = store.hide_in_both(left.hide, right.hide)?;
        Ok(Item {
            kind,
            text,
            place: self.place,
            spaced: left.spaced,
            hide,
        })
    }

    /// Puts the right operand of `##` behind the left one, the last token of the left joined with the first of the
    /// right. Where one of them is empty, the other stays.
    fn join(
        &self,
        store: &mut Store,
        left: &mut Vec<Item<'a>>,
        right: &[Item<'a>],
    ) -> Result<(), Refused>
        ensures { IfErr result (RefusesAt OfPaste self.now.place) }
    {
        let [first, rest @ ..] = right else {
            return Ok(());
        };
        let joint = match left.pop() {
            Some(last) => self.joint(store, last, *first)?,
            None => *first,
        };
        store.put(left, joint)?;
        Ok(store.put_all(left, rest)?)
    }

    /// Takes each `##` and its right operand from the front of a list. The list behind.
    fn pastes(
        &self,
        store: &mut Store,
        left: &mut Vec<Item<'a>>,
        body: &'a [BodyToken],
    ) -> Result<&'a [BodyToken], Refused>
        ensures cause { IfErr result (RefusesAt OfPaste self.now.place) }
        ensures within { IfOk result (λ rest. length rest.now ≤ length body.now) }
    {
        let mut rest = body;
        while let [paste, behind @ ..] = rest {
            if paste.role != Role::Paste {
                break;
            }
            let (right, after) = self.operand(store, behind)?;
            self.join(store, left, right.as_slice())?;
            rest = after;
        }
        Ok(rest)
    }

    /// Puts what the front of a list stands for into the output. The list behind.
    fn front(
        &self,
        store: &mut Store,
        output: &mut Output<'a>,
        body: &'a [BodyToken],
    ) -> Result<&'a [BodyToken], Refused>
        ensures cause { IfErr result (RefusesAt OfPaste self.now.place) }
        ensures shorter { 0 < length body.now → IfOk result (λ rest. length rest.now < length body.now) }
    {
        let spaced = match body {
            [first, ..] => first.spaced,
            [] => false,
        };
        let (mut tokens, rest) = self.operand(store, body)?;
        let behind = self.pastes(store, &mut tokens, rest)?;
        output.put_in(store, spaced, tokens.as_slice())?;
        Ok(behind)
    }
}

impl<'a> Output<'a> {
    /// Puts tokens in the place of one that has white space in front, or not.
    fn put_in(
        &mut self,
        store: &mut Store,
        spaced: bool,
        tokens: &[Item<'a>],
    ) -> Result<(), NoMemory> {
        let spaced = spaced || self.owes_space;
        let [first, rest @ ..] = tokens else {
            self.owes_space = spaced;
            return Ok(());
        };
        self.owes_space = false;
        store.put(&mut self.tokens, Item { spaced, ..*first })?;
        store.put_all(&mut self.tokens, rest)
    }
}

/// What a whole replacement list gives with these arguments, where the name that is replaced stands at `place`. Broken
/// K42 at that place where `##` gives no preprocessing token.
pub fn substituted<'a>(
    store: &mut Store,
    place: Place,
    arguments: &[Argument<'a>],
    body: &'a [BodyToken],
) -> Result<Vec<Item<'a>>, Refused>
    ensures { IfErr result (RefusesAt OfPaste place) }
{
    let site = Site { place, arguments };
    let mut output = Output {
        tokens: Vec::new(store.alloc()),
        owes_space: false,
    };
    let mut rest = body;
    while !rest.is_empty() {
        rest = site.front(store, &mut output, rest)?;
    }
    Ok(output.tokens)
}
