//! Names with linkage: what a declaration of one declares, and what defines it (C90 6.1.2.2, 6.5, 6.7).

use crate::draft::DraftOf;
use crate::entity::{Entity, is_reserved};
use crate::frame::number;
use crate::scope::Scope;
use crate::symbol::{Defined, LinkedSymbols, SymbolNote};
use c_syntax::Storage;
use c_tree::{Linkage, Symbol};
use c_types::{INT, TypeId, TypeNode, TypeTable};
use check_refusal::{CheckRefused, CheckRule, broken};
use fsc_base::{Name, NoMemory, Place};
use scoped_names::Space;
use std::alloc::Global;
use type_relations::{compatible_in, composite};

/// A declarator of a function, or of an object with linkage.
#[derive(Clone, Copy)]
pub struct LinkedName<'a> {
    pub name: &'a Name,
    pub kind: TypeId,
    pub storage: Option<Storage>,
    pub is_function: bool,
    /// Where the declarator begins.
    pub place: Place,
}

impl LinkedName<'_> {
    /// Whether its linkage is that of the visible declaration, where that has one.
    fn follows(&self) -> bool {
        match self.storage {
            Some(Storage::Extern) => true,
            Some(Storage::Typedef)
            | Some(Storage::Static)
            | Some(Storage::Auto)
            | Some(Storage::Register) => false,
            None => self.is_function,
        }
    }
}

/// Whether types are compatible one by one.
fn are_compatible(
    alloc: Global,
    types: &TypeTable,
    some: &[TypeId],
    others: &[TypeId],
) -> Result<bool, NoMemory> {
    if some.len() != others.len() {
        return Ok(false);
    }
    for (one, other) in some.iter().zip(others.iter()) {
        if !compatible_in(alloc, types, *one, *other)? {
            return Ok(false);
        }
    }
    Ok(true)
}

/// Whether a function's type agrees with a definition whose parameters have these promoted types: by number and type where its own
/// are known, and never with `...` (C90 6.5.4.3).
fn agrees_with_list(
    alloc: Global,
    types: &TypeTable,
    kind: TypeId,
    promoted: &[TypeId],
) -> Result<bool, NoMemory> {
    match types.node(kind) {
        TypeNode::Function {
            is_known: true,
            parameters,
            is_variadic,
            ..
        } => {
            if *is_variadic {
                return Ok(false);
            }
            are_compatible(alloc, types, parameters.as_slice(), promoted)
        }
        _ => Ok(true),
    }
}

/// The same, where there is such a definition.
fn agrees_with_note(
    alloc: Global,
    types: &TypeTable,
    kind: TypeId,
    note: &SymbolNote,
) -> Result<bool, NoMemory> {
    match &note.promoted {
        Some(promoted) => agrees_with_list(alloc, types, kind, promoted.as_slice()),
        None => Ok(true),
    }
}

impl Scope {
    /// A symbol's linkage.
    fn linkage_at(&self, symbol: u32) -> Option<Linkage> {
        Some(self.symbols.get(symbol as usize)?.linkage)
    }

    /// The linkage of the visible declaration of a name.
    fn visible_linkage(&self, name: &Name) -> Option<Linkage> {
        self.linkage_at(self.find(Space::Ordinary, name)?.linked()?)
    }

    /// The linkage that a declaration gives its name (C90 6.1.2.2).
    fn linkage_of(&self, linked: &LinkedName) -> Linkage {
        if self.is_file() && linked.storage == Some(Storage::Static) {
            return Linkage::Internal;
        }
        if !linked.follows() {
            return Linkage::External;
        }
        self.visible_linkage(linked.name)
            .unwrap_or(Linkage::External)
    }

    /// Whether a declaration agrees with an earlier one of this scope, of a symbol and by its type there.
    fn agrees_with(
        &self,
        linked: &LinkedName,
        linkage: Linkage,
        symbol: u32,
        before: TypeId,
    ) -> Result<bool, NoMemory> {
        match self.symbols.get(symbol as usize) {
            Some(note) => Ok(
                note.linkage == linkage
                    && compatible_in(self.alloc, &self.types, before, linked.kind)?
                    && agrees_with_note(self.alloc, &self.types, linked.kind, note)?,
            ),
            None => Ok(false),
        }
    }

    /// The type that the innermost scope has for a name with this declaration: composed with what that scope had. K03 where that
    /// has the name without linkage; K04 where the linkage differs or the types are not compatible.
    fn kind_here(&mut self, linked: &LinkedName, linkage: Linkage) -> Result<TypeId, CheckRefused> {
        match self.find_here(Space::Ordinary, linked.name) {
            None => Ok(linked.kind),
            Some(Entity::Object(Symbol::Named(symbol), before)) => {
                if !self.agrees_with(linked, linkage, symbol, before)? {
                    return Err(broken(CheckRule::K04, linked.place));
                }
                Ok(composite(self.alloc, &mut self.types, before, linked.kind)?)
            }
            Some(_) => Err(broken(CheckRule::K03, linked.place)),
        }
    }

    /// A symbol's type becomes its composite with a type, where these are compatible.
    fn refine(&mut self, symbol: u32, kind: TypeId) -> Result<(), NoMemory> {
        let Some(note) = self.symbols.get(symbol as usize) else {
            return Ok(());
        };
        let before = note.kind;
        if !compatible_in(self.alloc, &self.types, before, kind)? {
            return Ok(());
        }
        let kind = composite(self.alloc, &mut self.types, before, kind)?;
        self.set_kind(symbol, kind);
        Ok(())
    }

    /// A symbol's type becomes that one.
    fn set_kind(&mut self, symbol: u32, kind: TypeId) {
        if let Some(note) = self.symbols.get_mut(symbol as usize) {
            note.kind = kind;
        }
    }

    /// Whether a symbol's type is compatible with a type.
    fn is_compatible(&self, symbol: u32, kind: TypeId) -> Result<bool, NoMemory> {
        match self.symbols.get(symbol as usize) {
            Some(note) => compatible_in(self.alloc, &self.types, note.kind, kind),
            None => Ok(false),
        }
    }

    /// Whether the types of symbols are all compatible with a type.
    fn all_compatible(&self, symbols: &[u32], kind: TypeId) -> Result<bool, NoMemory> {
        for symbol in symbols {
            if !self.is_compatible(*symbol, kind)? {
                return Ok(false);
            }
        }
        Ok(true)
    }

    /// The first symbol of a name with external linkage, where all of them have types compatible with that one.
    fn external_symbol(&self, name: &Name, kind: TypeId) -> Result<Option<u32>, NoMemory> {
        let Some(known) = self.linked.get(name.as_slice()) else {
            return Ok(None);
        };
        if self.all_compatible(known.external.as_slice(), kind)? {
            Ok(known.external.first().copied())
        } else {
            Ok(None)
        }
    }

    /// The symbol of a name with internal linkage.
    fn internal_symbol(&self, name: &Name) -> Option<u32> {
        self.linked.get(name.as_slice())?.internal
    }

    /// The symbol that a declaration is one of, where there is one.
    fn earlier_symbol(
        &self,
        linked: &LinkedName,
        linkage: Linkage,
    ) -> Result<Option<u32>, NoMemory> {
        match linkage {
            Linkage::Internal => Ok(self.internal_symbol(linked.name)),
            Linkage::External => self.external_symbol(linked.name, linked.kind),
        }
    }

    /// Notes a symbol under its name.
    fn note_symbol(&mut self, name: &Name, linkage: Linkage, symbol: u32) -> Result<(), NoMemory> {
        match self.linked.get_mut(name.as_slice()) {
            Some(known) => known.add(linkage, symbol),
            None => {
                let mut known = LinkedSymbols::new(self.alloc);
                known.add(linkage, symbol)?;
                let key = Vec::from_slice(self.alloc, name.as_slice())?;
                self.linked.insert(key, known)?;
                Ok(())
            }
        }
    }

    /// The draft of a new symbol's object; a function has none.
    fn draft_linked(&mut self, linked: &LinkedName, symbol: u32) -> Result<Option<u32>, NoMemory> {
        if linked.is_function {
            return Ok(None);
        }
        self.add_draft(DraftOf::Linked(symbol), linked.kind, linked.place)
    }

    /// A further symbol. Gives its index.
    fn add_symbol(&mut self, linked: &LinkedName, linkage: Linkage) -> Result<u32, NoMemory> {
        let symbol = number(self.symbols.len())?;
        let draft = self.draft_linked(linked, symbol)?;
        self.note_symbol(linked.name, linkage, symbol)?;
        self.symbols.push(SymbolNote {
            name: Name::from_slice(self.alloc, linked.name.as_slice())?,
            linkage,
            kind: linked.kind,
            is_used: false,
            defined: Defined::Nothing,
            draft,
            place: linked.place,
            is_tentative: false,
            promoted: None,
        })?;
        Ok(symbol)
    }

    /// The symbol of a declaration. Its type becomes the composite where it was there.
    fn symbol_of(&mut self, linked: &LinkedName, linkage: Linkage) -> Result<u32, NoMemory> {
        match self.earlier_symbol(linked, linkage)? {
            Some(symbol) => {
                self.refine(symbol, linked.kind)?;
                Ok(symbol)
            }
            None => self.add_symbol(linked, linkage),
        }
    }

    /// Declares a function, or an object with linkage, in the innermost scope. Gives its symbol. At its place L12 where the name
    /// is kept for primitives; K03 where this scope has it without linkage; K04 where this scope has it with another linkage or
    /// an incompatible type (C90 6.1.2.2, 6.5).
    pub fn declare_linked(&mut self, linked: &LinkedName) -> Result<u32, CheckRefused> {
        if is_reserved(linked.name) {
            return Err(broken(CheckRule::L12, linked.place));
        }
        let linkage = self.linkage_of(linked);
        let kind = self.kind_here(linked, linkage)?;
        let symbol = self.symbol_of(linked, linkage)?;
        let entity = Entity::Object(Symbol::Named(symbol), kind);
        self.set_here(Space::Ordinary, linked.name, entity)?;
        Ok(symbol)
    }

    /// Declares the name of a called function that has no visible declaration, as `extern int name();` does (C90 6.3.2.2).
    pub fn implicit(&mut self, name: &Name, place: Place) -> Result<(), CheckRefused> {
        let kind = self.types.function(INT, false, &[], false)?;
        let _ = self.declare_linked(&LinkedName {
            name,
            kind,
            storage: Some(Storage::Extern),
            is_function: true,
            place,
        })?;
        Ok(())
    }

    /// Whether a symbol with external linkage is defined.
    fn is_defined_externally(&self, symbol: u32) -> bool {
        match self.symbols.get(symbol as usize) {
            Some(note) => { note.linkage == Linkage::External && note.defined != Defined::Nothing }
            None => false,
        }
    }

    /// The symbol that a definition of a declared name defines: the declaration's, or a further one where that has external
    /// linkage and is defined.
    pub fn symbol_to_define(&mut self, symbol: u32, linked: &LinkedName) -> Result<u32, NoMemory> {
        if self.is_defined_externally(symbol) {
            self.add_symbol(linked, Linkage::External)
        } else {
            Ok(symbol)
        }
    }

    /// Whether a symbol has external linkage.
    fn is_external(&self, symbol: u32) -> bool {
        match self.symbols.get(symbol as usize) {
            Some(note) => note.linkage == Linkage::External,
            None => false,
        }
    }

    /// The symbol whose object an initialiser fills that gives it that type: the one to define, where their types are compatible. A
    /// declaration of another scope may have given it another type: with external linkage a further symbol is defined then, with internal
    /// linkage the symbol takes the new type (C90 6.1.2.6, 6.5.7).
    pub fn symbol_to_complete(
        &mut self,
        symbol: u32,
        linked: &LinkedName,
    ) -> Result<u32, NoMemory> {
        if self.is_compatible(symbol, linked.kind)? {
            return Ok(symbol);
        }
        if self.is_external(symbol) {
            return self.add_symbol(linked, Linkage::External);
        }
        self.set_kind(symbol, linked.kind);
        Ok(symbol)
    }

    /// Notes what defines a symbol. K16 at the place where it is defined.
    fn define(&mut self, symbol: u32, defined: Defined, place: Place) -> Result<(), CheckRefused> {
        match self.symbols.get_mut(symbol as usize) {
            Some(note) => {
                if note.defined != Defined::Nothing {
                    return Err(broken(CheckRule::K16, place));
                }
                note.defined = defined;
                Ok(())
            }
            None => Err(broken(CheckRule::K19, place)),
        }
    }

    /// An initialiser defines a symbol's object. K16 at the place where it is defined, as no symbol of `symbol_to_define` with
    /// external linkage is.
    pub fn define_object(&mut self, symbol: u32, place: Place) -> Result<(), CheckRefused> {
        self.define(symbol, Defined::Object, place)
    }

    /// A body defines a symbol's function, which is the next one of the unit. K16 as of an object.
    pub fn define_function(&mut self, symbol: u32, place: Place) -> Result<(), CheckRefused> {
        let index = number(self.functions.len())?;
        self.define(symbol, Defined::Function(index), place)
    }

    /// A declaration at file scope defines a symbol's object where nothing else in the unit does (C90 6.7.2).
    pub fn mark_tentative(&mut self, symbol: u32) {
        if let Some(note) = self.symbols.get_mut(symbol as usize) {
            note.is_tentative = true;
        }
    }

    /// The type of an object with linkage becomes known by its initialiser: that of the name in this scope, and that of its
    /// symbol.
    pub fn complete_linked(
        &mut self,
        name: &Name,
        symbol: u32,
        kind: TypeId,
    ) -> Result<(), NoMemory> {
        self.refine(symbol, kind)?;
        let Some(Entity::Object(of, before)) = self.find_here(Space::Ordinary, name) else {
            return Ok(());
        };
        let kind = composite(self.alloc, &mut self.types, before, kind)?;
        self.set_here(Space::Ordinary, name, Entity::Object(of, kind))
    }

    /// The type that the innermost scope has for a name with linkage.
    pub fn kind_of(&self, name: &Name) -> Option<TypeId> {
        match self.find_here(Space::Ordinary, name) {
            Some(Entity::Object(_, kind)) => Some(kind),
            _ => None,
        }
    }

    /// The definition of a function has a list of names whose types are, promoted, these; its scope had that type for it. K04 at
    /// the place where the parameters of that type do not agree (C90 6.5.4.3).
    pub fn meet_list(
        &mut self,
        kind: TypeId,
        symbol: u32,
        promoted: Vec<TypeId>,
        place: Place,
    ) -> Result<(), CheckRefused> {
        if !agrees_with_list(self.alloc, &self.types, kind, promoted.as_slice())? {
            return Err(broken(CheckRule::K04, place));
        }
        if let Some(note) = self.symbols.get_mut(symbol as usize) {
            note.promoted = Some(promoted);
        }
        Ok(())
    }
}
