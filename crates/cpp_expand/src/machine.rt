//! Expansion by a stack of lists.

ghost use Rattle.std.specs.Prelude.{◌≡◌, ◌++◌, IfOk, IfErr};
ghost use Rattle.fsc_base.specs.declared.place.Refused.TheVariants as refusals;
ghost use Rattle.cpp_expand.specs.Causes.{Refuses, OfExpand};
ghost use Rattle.cpp_expand.specs.Operators.{escaped, quoted};

use crate::argument_list::{ArgumentList, Progress};
use crate::definition::{BodyToken, Function, Macro};
use crate::hide_sets::HideId;
use crate::item::{Item, Text};
use crate::macros::Macros;
use crate::store::{MOST_WORK, Store};
use crate::substitution::{Argument, escape_into, substituted};
use fsc_base::{Broken, Bytes, NoMemory, Place, Refused, Rule};
use pp_token::{HideSet, PpKind, PpToken, PpTokens};
use std::alloc::Global;
use std::mem;

/// The most tokens of a unit.
const MOST_TOKENS: u64 = 1 << 20;

/// A list that is being expanded.
#[derive(Drop)]
struct Listing<'a> {
    /// What is left to expand, its first token last.
    pending: Vec<Item<'a>>,
    /// What was given out.
    given: Vec<Item<'a>>,
}

/// A call whose arguments were read.
#[derive(Drop)]
struct Call<'a> {
    /// The name that is replaced.
    name: Item<'a>,
    function: &'a Function,
    /// The hide set that each token of the replacement gets.
    hide: HideId,
    arguments: Vec<Argument<'a>>,
    /// How many tokens the arguments have, as they are and expanded.
    size: usize,
}

/// A call that waits for an argument to be expanded.
#[derive(Drop)]
struct Waiting<'a> {
    /// The list in which the call stands.
    outer: Listing<'a>,
    call: Call<'a>,
    /// Which argument is expanded.
    index: usize,
    /// How many tokens the list and the call keep.
    size: usize,
}

/// An expansion under way.
#[derive(Drop)]
struct Machine<'a> {
    alloc: Global,
    macros: &'a Macros,
    store: Store,
    /// The list that is being expanded: the whole one, or the argument for which the last call waits.
    list: Listing<'a>,
    /// The calls that wait, each inside the one before.
    waiting: Vec<Waiting<'a>>,
    /// How many tokens of the unit there are so far.
    counted: u64,
}

/// Whether the machine goes on.
#[derive(Clone, Copy, Debug, PartialEq, Eq)]
enum Progression {
    GoesOn,
    Done,
}

/// A rule that is broken at a place.
fn broken(rule: Rule, place: Place) -> Refused
    ensures { result ≡ refusals.Broken (record { rule = rule; place = place }) }
{
    Refused::Broken(Broken { rule, place })
}

impl<'a> Listing<'a> {
    /// A list with its first token first.
    fn of(alloc: Global, tokens: Vec<Item<'a>>) -> Listing<'a> {
        let mut pending = tokens;
        pending.reverse();
        Listing {
            pending,
            given: Vec::new(alloc),
        }
    }

    /// Gives memory back where most of it is that of tokens which were taken out.
    fn compact(&mut self) {
        if self.pending.len() < self.pending.capacity() / 2 {
            self.pending.shrink_to_fit();
        }
    }

    /// How many tokens it has.
    fn size(&self) -> usize {
        self.pending.len().saturating_add(self.given.len())
    }
}

impl<'a> Call<'a> {
    /// The first argument from an index on that is to be expanded.
    fn next_expanded(&self, from: usize) -> Option<usize> {
        for index in from..self.arguments.len() {
            if let Some((_, uses)) = self.function.parameters.get_index(index)
                && uses.expanded
            {
                return Some(index);
            }
        }
        None
    }

    /// The tokens of an argument. They are taken out of the call, unless its replacement list asks for them too.
    fn tokens_to_expand(&mut self, alloc: Global, index: usize) -> Result<Vec<Item<'a>>, NoMemory> {
        let keeps = match self.function.parameters.get_index(index) {
            Some((_, uses)) => uses.raw,
            None => false,
        };
        let Some(argument) = self.arguments.get_mut(index) else {
            return Ok(Vec::new(alloc));
        };
        if keeps {
            Ok(Vec::from_slice(alloc, argument.raw.as_slice())?)
        } else {
            self.size = self.size.saturating_sub(argument.raw.len());
            Ok(mem::replace(&mut argument.raw, Vec::new(alloc)))
        }
    }

    /// Takes what an argument expands to.
    fn take_expanded(&mut self, index: usize, tokens: Vec<Item<'a>>) {
        if let Some(argument) = self.arguments.get_mut(index) {
            self.size = self.size.saturating_add(tokens.len());
            argument.expanded = tokens;
        }
    }
}

impl<'a> Machine<'a> {
    /// Gives out a token. Broken L10 where it is one too many for the unit.
    fn give(&mut self, token: Item<'a>) -> Result<(), Refused>
        ensures { IfErr result (Refuses OfExpand) }
    {
        if self.waiting.is_empty() && token.kind != PpKind::LineEnd && token.kind != PpKind::End {
            if self.counted >= MOST_TOKENS {
                return Err(broken(Rule::L10, token.place));
            }
            self.counted += 1;
        }
        Ok(self.store.put(&mut self.list.given, token)?)
    }

    /// Puts tokens in the place of a name, to be expanded with those behind it, with more names in their hide sets.
    fn put_in(
        &mut self,
        name: Item<'a>,
        hide: HideId,
        tokens: Vec<Item<'a>>,
    ) -> Result<(), NoMemory> {
        let mut tokens = tokens;
        match tokens.first_mut() {
            Some(first) => first.spaced = name.spaced,
            None => {
                if let Some(next) = self.list.pending.last_mut() {
                    next.spaced = next.spaced || name.spaced;
                }
            }
        }
        let mut last = (HideId::NONE, hide);
        while let Some(token) = tokens.pop() {
            if token.hide != last.0 {
                last = (token.hide, self.store.hide_with_all(token.hide, hide)?);
            }
            let hide = last.1;
            self.store
                .put(&mut self.list.pending, Item { hide, ..token })?;
        }
        Ok(())
    }

    /// Replaces the name of an object-like macro.
    fn object(&mut self, name: Item<'a>, index: usize, body: &'a [BodyToken]) -> Result<(), Refused>
        ensures { IfErr result (Refuses OfExpand) }
    {
        let hide = self.store.hide_with(name.hide, index)?;
        let tokens = substituted(&mut self.store, name.place, &[], body)?;
        Ok(self.put_in(name, hide, tokens)?)
    }

    /// Whether a left parenthesis comes next, maybe on a later line.
    fn opens(&self) -> bool {
        match self
            .list
            .pending
            .iter()
            .rev()
            .find(|token| token.kind != PpKind::LineEnd)
        {
            Some(next) => self.store.is_punct(next, b"("),
            None => false,
        }
    }

    /// Takes the left parenthesis that comes next, and the ends of lines in front of it.
    fn open(&mut self) {
        while let Some(token) = self.list.pending.pop() {
            if token.kind != PpKind::LineEnd {
                return;
            }
        }
    }

    /// Reads the arguments of a call behind its left parenthesis: their list, and the token that closes the call. None
    /// where the call has no end.
    fn arguments(&mut self) -> Result<Option<(ArgumentList<'a>, Item<'a>)>, NoMemory> {
        let mut list = ArgumentList::new(self.alloc);
        while let Some(token) = self.list.pending.pop() {
            self.store.spend(1)?;
            match list.take(&mut self.store, token)? {
                Progress::Open => {}
                Progress::Closed => return Ok(Some((list, token))),
                Progress::Ended => return Ok(None),
            }
        }
        Ok(None)
    }

    /// A call of a function-like macro: reads its arguments. Broken K38 where they have no end or a wrong number.
    fn called(
        &mut self,
        name: Item<'a>,
        index: usize,
        function: &'a Function,
    ) -> Result<(), Refused>
        ensures { IfErr result (Refuses OfExpand) }
    {
        self.open();
        let Some((list, close)) = self.arguments()? else {
            return Err(broken(Rule::K38, name.place));
        };
        let Some(lists) = list.fitting(function.parameters.len()) else {
            return Err(broken(Rule::K38, name.place));
        };
        let mut arguments = Vec::new(self.alloc);
        let mut size: usize = 0;
        for raw in lists {
            size = size.saturating_add(raw.len());
            arguments.push(Argument {
                raw,
                expanded: Vec::new(self.alloc),
            })?;
        }
        let both = self.store.hide_in_both(name.hide, close.hide)?;
        let hide = self.store.hide_with(both, index)?;
        self.proceed(
            Call {
                name,
                function,
                hide,
                arguments,
                size,
            },
            0,
        )
    }

    /// Goes on with a call whose arguments below an index are expanded: to the next one, or to its replacement.
    fn proceed(&mut self, call: Call<'a>, from: usize) -> Result<(), Refused>
        ensures { IfErr result (Refuses OfExpand) }
    {
        match call.next_expanded(from) {
            Some(index) => Ok(self.expand_argument(call, index)?),
            None => self.replace(call),
        }
    }

    /// Begins to expand an argument of a call, as if nothing stood behind it.
    fn expand_argument(&mut self, call: Call<'a>, index: usize) -> Result<(), NoMemory> {
        let mut call = call;
        let tokens = call.tokens_to_expand(self.alloc, index)?;
        self.store.spend(tokens.len())?;
        let mut outer = mem::replace(&mut self.list, Listing::of(self.alloc, tokens));
        outer.compact();
        let size = outer.size().saturating_add(call.size);
        self.store.hold(size)?;
        self.waiting.push(Waiting {
            outer,
            call,
            index,
            size,
        })?;
        Ok(())
    }

    /// Replaces a call whose arguments are expanded.
    fn replace(&mut self, call: Call<'a>) -> Result<(), Refused>
        ensures { IfErr result (Refuses OfExpand) }
    {
        let place = call.name.place;
        let body = call.function.body.as_slice();
        let tokens = substituted(&mut self.store, place, call.arguments.as_slice(), body)?;
        Ok(self.put_in(call.name, call.hide, tokens)?)
    }

    /// Ends a list: it is the argument for which the last call waits, or all.
    fn end(&mut self) -> Result<Progression, Refused>
        ensures { IfErr result (Refuses OfExpand) }
    {
        let Some(
            Waiting {
                outer,
                call,
                index,
                size,
            },
        ) = self.waiting.pop()
        else {
            return Ok(Progression::Done);
        };
        self.store.release(size);
        let inner = mem::replace(&mut self.list, outer);
        let mut call = call;
        call.take_expanded(index, inner.given);
        self.proceed(call, index.saturating_add(1))?;
        Ok(Progression::GoesOn)
    }

    /// Gives out a token that stands for a predefined macro.
    fn predefined(&mut self, name: Item<'a>, kind: PpKind, text: Vec<u8>) -> Result<(), Refused>
        ensures { IfErr result (Refuses OfExpand) }
    {
        let text = self.store.keep(text)?;
        self.give(Item { kind, text, ..name })
    }

    /// What `__FILE__` stands for: a string literal.
    fn file_text(&self) -> Result<Vec<u8>, NoMemory>
        ensures { IfOk result (λ text. text.items ≡ quoted (escaped self.now.macros.now.file)) }
    {
        let mut text = Vec::from_slice(self.alloc, b"\"")?;
        escape_into(&mut text, self.macros.file())?;
        text.push(b'"')?;
        Ok(text)
    }

    /// What `__LINE__` stands for: a decimal.
    fn line_text(&self, name: Item<'a>) -> Result<Vec<u8>, NoMemory> {
        let line = self.macros.line(name.place.line);
        Ok(format!(in self.alloc; "{line}")?.into_bytes())
    }

    /// Turns the name of a macro, which isn't hidden, into what it stands for.
    fn turn_macro(&mut self, name: Item<'a>, index: usize, found: &'a Macro) -> Result<(), Refused>
        ensures { IfErr result (Refuses OfExpand) }
    {
        match found {
            Macro::ObjectLike(body) => self.object(name, index, body),
            Macro::FunctionLike(function) if self.opens() => self.called(name, index, function),
            Macro::FunctionLike(_) => self.give(name),
            Macro::FileName => {
                let text = self.file_text()?;
                self.predefined(name, PpKind::Str, text)
            }
            Macro::LineNumber => {
                let text = self.line_text(name)?;
                self.predefined(name, PpKind::Number, text)
            }
            Macro::Standard => {
                let text = Vec::from_slice(self.alloc, b"1")?;
                self.predefined(name, PpKind::Number, text)
            }
            Macro::Moment => Err(broken(Rule::L15, name.place)),
        }
    }

    /// The macro that a token is to be expanded by. None for no identifier, no macro, or one in its hide set.
    fn meaning(&mut self, token: Item<'a>) -> Option<(usize, &'a Macro)> {
        if token.kind != PpKind::Name {
            return None;
        }
        let macros = self.macros;
        let (index, found) = macros.find(self.store.bytes(token.text))?;
        if self.store.is_hidden(token.hide, index) {
            None
        } else {
            Some((index, found))
        }
    }

    /// Takes the next token of the list and turns it into what it stands for.
    fn step(&mut self) -> Result<Progression, Refused>
        ensures { IfErr result (Refuses OfExpand) }
    {
        let Some(token) = self.list.pending.pop() else {
            return self.end();
        };
        match self.meaning(token) {
            Some((index, found)) => self.turn_macro(token, index, found)?,
            None => self.give(token)?,
        }
        Ok(Progression::GoesOn)
    }

    /// Expands all.
    fn run(&mut self) -> Result<(), Refused>
        ensures { IfErr result (Refuses OfExpand) }
    {
        for _ in 0..MOST_WORK {
            if self.step()? == Progression::Done {
                return Ok(());
            }
        }
        Err(Refused::NoMemory)
    }

    /// A token that was given out, as one of its own, without a hide set. Each byte counts as work.
    fn own_token(&mut self, token: Item<'a>) -> Result<PpToken, NoMemory> {
        let length = self.store.bytes(token.text).len();
        self.store.spend(length)?;
        Ok(PpToken {
            kind: token.kind,
            text: Bytes::from_slice(self.alloc, self.store.bytes(token.text))?,
            place: token.place,
            spaced: token.spaced,
            hide: HideSet::new(self.alloc),
        })
    }

    /// What was given out.
    fn answer(&mut self) -> Result<PpTokens, NoMemory> {
        let given = mem::replace(&mut self.list.given, Vec::new(self.alloc));
        let mut tokens = Vec::with_capacity(self.alloc, given.len())?;
        for token in given {
            tokens.push(self.own_token(token)?)?;
        }
        Ok(PpTokens::from_vec(tokens))
    }
}

/// A hide set by the indices of its macros. Names that are no macros hide nothing.
fn hide_of(store: &mut Store, macros: &Macros, hide: &HideSet) -> Result<HideId, NoMemory> {
    let mut set = HideId::NONE;
    for name in hide.as_slice() {
        if let Some((index, _)) = macros.find(name.as_slice()) {
            set = store.hide_with(set, index)?;
        }
    }
    Ok(set)
}

/// A list's tokens, their texts lent.
fn items<'a>(
    store: &mut Store,
    macros: &Macros,
    tokens: &'a [PpToken],
) -> Result<Vec<Item<'a>>, NoMemory> {
    let mut items = Vec::with_capacity(store.alloc(), tokens.len())?;
    for token in tokens {
        let hide = hide_of(store, macros, &token.hide)?;
        items.push(Item {
            kind: token.kind,
            text: Text::Lent(token.text.as_slice()),
            place: token.place,
            spaced: token.spaced,
            hide,
        })?;
    }
    Ok(items)
}

/// What a list of tokens expands to. See [`Macros::expand`].
pub fn expanded(
    alloc: Global,
    macros: &Macros,
    tokens: &[PpToken],
    before: u32,
) -> Result<PpTokens, Refused>
    ensures { IfErr result (Refuses OfExpand) }
{
    let mut store = Store::new(alloc);
    let items = items(&mut store, macros, tokens)?;
    let mut machine = Machine {
        alloc,
        macros,
        store,
        list: Listing::of(alloc, items),
        waiting: Vec::new(alloc),
        counted: u64::from(before),
    };
    machine.run()?;
    Ok(machine.answer()?)
}
