//! The state of reading a unit.

use crate::draft::{Draft, DraftOf, Kept};
use crate::entity::Entity;
use crate::frame::{Frame, number};
use crate::symbol::{LinkedSymbols, SymbolNote};
use c_tree::{Piece, Symbol, TStatement, TypedFunction};
use c_types::{TypeId, TypeTable};
use check_refusal::{CheckRefused, CheckRule, broken};
use fsc_base::{Bytes, Name, NoMemory, Place};
use indexmap::{IndexMap, IndexSet};
use scoped_names::Scopes;
use sqlite_items::Items;
use std::alloc::Global;

/// A unit so far, and the open scopes.
#[derive(Drop)]
pub struct Scope {
    pub(crate) alloc: Global,
    /// The types of the unit.
    pub types: TypeTable,
    /// The complete structs and unions with a const member, at any depth.
    pub with_const: IndexSet<TypeId>,
    pub(crate) levels: Scopes<Entity>,
    /// The symbols of each name with linkage.
    pub(crate) linked: IndexMap<Vec<u8>, LinkedSymbols>,
    pub(crate) symbols: Vec<SymbolNote>,
    /// Which candidates for objects are made.
    kept: Kept,
    /// How many candidates there were.
    candidates: usize,
    pub(crate) drafts: Vec<Draft>,
    pub(crate) frame: Frame,
    pub(crate) functions: Vec<TypedFunction>,
    /// The tags whose bodies are being read.
    pub(crate) open: Vec<TypeId>,
    /// How many `sizeof` are around.
    pub(crate) quiet: u32,
}

impl Scope {
    /// An empty unit in its file scope, of whose candidates for objects these are made.
    pub fn new(alloc: Global, kept: Kept) -> Result<Scope, NoMemory> {
        Ok(Scope {
            alloc,
            types: TypeTable::new(alloc)?,
            with_const: IndexSet::new(alloc),
            levels: Scopes::new(alloc),
            linked: IndexMap::new(alloc),
            symbols: Vec::new(alloc),
            kept,
            candidates: 0,
            drafts: Vec::new(alloc),
            frame: Frame::idle(alloc),
            functions: Vec::new(alloc),
            open: Vec::new(alloc),
            quiet: 0,
        })
    }

    /// What stands under `sizeof` begins: until its end nothing in it is used, addressed, called or made an object (C90 6.3.3.4).
    pub fn enter_quiet(&mut self) {
        self.quiet = self.quiet.saturating_add(1);
    }

    /// What stands under `sizeof` ends.
    pub fn leave_quiet(&mut self) {
        self.quiet = self.quiet.saturating_sub(1);
    }

    /// The body of a struct, union or enum begins.
    pub fn open_tag(&mut self, tag: TypeId) -> Result<(), NoMemory> {
        self.open.push(tag)?;
        Ok(())
    }

    /// The innermost body ends.
    pub fn close_tag(&mut self) {
        let _ = self.open.pop();
    }

    /// Whether the body of that struct, union or enum is being read.
    pub fn is_open(&self, tag: TypeId) -> bool {
        self.open.contains(&tag)
    }

    /// A name with linkage stands in an expression. An object without a name is used in any case.
    pub fn mark_used(&mut self, symbol: Symbol) {
        if self.quiet == 0 {
            if let Symbol::Named(symbol) = symbol {
                self.note_used(symbol);
            }
        }
    }

    /// The symbol is used.
    fn note_used(&mut self, symbol: u32) {
        if let Some(note) = self.symbols.get_mut(symbol as usize) {
            note.is_used = true;
        }
    }

    /// A parameter or automatic name stands under `&`.
    pub fn mark_addressed(&mut self, local: u32) {
        if self.quiet == 0 {
            self.frame.mark_addressed(local);
        }
    }

    /// The number of the next call of a function that returns a struct or union of that type, among those of the function that
    /// is being read, in order of their opening parentheses. Under `sizeof` it is 0, and no number is taken.
    pub fn number_call(&mut self, kind: TypeId) -> Result<u32, NoMemory> {
        if self.quiet != 0 {
            return Ok(0);
        }
        self.frame.add_call(kind)
    }

    /// A further candidate for an object. Gives the number of its draft, where it is made.
    pub(crate) fn add_draft(
        &mut self,
        of: DraftOf,
        kind: TypeId,
        place: Place,
    ) -> Result<Option<u32>, NoMemory> {
        let candidate = self.candidates;
        self.candidates = candidate.saturating_add(1);
        if !self.kept.is_kept(candidate) {
            return Ok(None);
        }
        let index = number(self.drafts.len())?;
        self.drafts.push(Draft {
            of,
            kind,
            place,
            pieces: Items::new(self.alloc),
            is_kept: true,
        })?;
        Ok(Some(index))
    }

    /// The number of the object of a string literal, given by its bytes without the closing zero, its type, an array of char, and
    /// its place. Under `sizeof`, and where it fills an array, it makes none, and the number names no object.
    pub fn draft_text(
        &mut self,
        bytes: &Bytes,
        kind: TypeId,
        place: Place,
    ) -> Result<u32, NoMemory> {
        if self.quiet != 0 {
            return Ok(u32::MAX);
        }
        let bytes = Bytes::from_slice(self.alloc, bytes.as_slice())?;
        let draft = self.add_draft(DraftOf::Text(bytes), kind, place)?;
        Ok(draft.unwrap_or(u32::MAX))
    }

    /// The number of the static object of a block.
    pub fn draft_static(
        &mut self,
        name: &Name,
        kind: TypeId,
        place: Place,
    ) -> Result<u32, NoMemory> {
        let name = Name::from_slice(self.alloc, name.as_slice())?;
        let draft = self.add_draft(DraftOf::Static(name), kind, place)?;
        Ok(draft.unwrap_or(u32::MAX))
    }

    /// A string fills an array of characters and makes no object.
    pub fn drop_text(&mut self, draft: u32) {
        if let Some(draft) = self.drafts.get_mut(draft as usize) {
            draft.is_kept = false;
        }
    }

    /// The draft that a symbol or an object without linkage has.
    fn draft_of(&self, object: Symbol) -> Option<u32> {
        match object {
            Symbol::Object(draft) => Some(draft),
            Symbol::Named(symbol) => self.symbols.get(symbol as usize)?.draft,
        }
    }

    /// What the initialiser of a static object stores. K19 at the place where it is no object.
    pub fn fill(
        &mut self,
        object: Symbol,
        pieces: Items<Piece>,
        place: Place,
    ) -> Result<(), CheckRefused> {
        let Some(draft) = self.draft_of(object) else {
            return Err(broken(CheckRule::K19, place));
        };
        match self.drafts.get_mut(draft as usize) {
            Some(draft) => {
                draft.pieces = pieces;
                Ok(())
            }
            None => Err(broken(CheckRule::K19, place)),
        }
    }

    /// The definition of a function begins, which returns that type, without qualifiers, or void.
    pub fn begin_function(&mut self, returns: TypeId) {
        self.frame = Frame::new(self.alloc, returns);
    }

    /// What the function that is being read returns, without qualifiers.
    pub fn returns(&self) -> TypeId {
        self.frame.returns
    }

    /// A further parameter or automatic name of the function that is being read. Gives its index.
    pub fn add_local(&mut self, kind: TypeId) -> Result<u32, NoMemory> {
        self.frame.add_local(kind)
    }

    /// A statement has a label. Gives its number in the function, in order of first mention. L12 at the place where its name is
    /// kept for primitives, K48 where a statement before has it.
    pub fn place_label(&mut self, name: &Name, place: Place) -> Result<u32, CheckRefused> {
        if crate::entity::is_reserved(name) {
            return Err(broken(CheckRule::L12, place));
        }
        self.frame.place_label(name, place)
    }

    /// `goto` names a label. Gives its number.
    pub fn mention_label(&mut self, name: &Name, place: Place) -> Result<u32, NoMemory> {
        self.frame.mention_label(name, place)
    }

    /// The definition of a function ends, the place being that of its first token: K50 at a `goto` whose label no statement has,
    /// L08 at the place where it has more than 250 parameters, automatic names and struct calls.
    pub fn end_function(
        &mut self,
        symbol: u32,
        parameters: u32,
        body: TStatement,
        place: Place,
    ) -> Result<(), CheckRefused> {
        let labels = self.frame.label_count()?;
        self.frame.is_within(place)?;
        let entries = self.frame.entries(&self.types, place)?;
        let locals = self.frame.local_kinds()?;
        self.functions.push(TypedFunction {
            symbol,
            parameters,
            locals,
            entries,
            labels,
            body,
        })?;
        self.frame = Frame::idle(self.alloc);
        Ok(())
    }
}
