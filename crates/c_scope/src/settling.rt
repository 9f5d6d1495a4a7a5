//! The end of a unit.

use crate::draft::{Draft, DraftOf, Kept};
use crate::scope::Scope;
use crate::symbol::{Defined, SymbolNote};
use c_tree::{
    Definition, Form, Linkage, Piece, TExpr, TypedFunction, TypedObject, TypedSymbol, TypedUnit,
};
use c_types::{CHAR, LayoutNo, TypeId, TypeNode, TypeTable};
use check_refusal::{CheckRefused, CheckRule, broken};
use fsc_base::{Bytes, Name, NoMemory, Place};
use sqlite_items::Items;
use std::alloc::Global;
use std::default::MadeWith;

/// The type that a tentative definition makes of its object's (C90 6.7.2): an array of unknown size has one element. K18 at the
/// place where the type is not complete otherwise.
fn tentative_kind(
    types: &mut TypeTable,
    kind: TypeId,
    place: Place,
) -> Result<TypeId, CheckRefused> {
    if types.size(kind).is_some() {
        return Ok(kind);
    }
    let TypeNode::Array { of, .. } = types.node(kind) else {
        return Err(broken(CheckRule::K18, place));
    };
    let of = *of;
    match types.array_of(of, 1) {
        Ok(kind) => Ok(kind),
        Err(LayoutNo::NoMemory) => Err(CheckRefused::NoMemory),
        Err(LayoutNo::Part | LayoutNo::NotIncomplete) => Err(broken(CheckRule::K18, place)),
        Err(LayoutNo::Large) => Err(broken(CheckRule::L05, place)),
    }
}

/// A tentative definition counts where nothing else defines the symbol. K18 at its first declarator where its type is not
/// complete.
fn settle_tentative(types: &mut TypeTable, note: &mut SymbolNote) -> Result<(), CheckRefused> {
    if note.is_tentative && note.defined == Defined::Nothing {
        note.kind = tentative_kind(types, note.kind, note.place)?;
        note.defined = Defined::Object;
    }
    Ok(())
}

/// K16 at its first declarator where a symbol with internal linkage is used and not defined.
fn settle_internal(note: &SymbolNote) -> Result<(), CheckRefused> {
    let is_missing = note.defined == Defined::Nothing;
    if note.linkage == Linkage::Internal && note.is_used && is_missing {
        return Err(broken(CheckRule::K16, note.place));
    }
    Ok(())
}

/// Ends the symbols in order.
fn settle_symbols(types: &mut TypeTable, symbols: &mut [SymbolNote]) -> Result<(), CheckRefused> {
    for note in symbols {
        settle_tentative(types, note)?;
        settle_internal(note)?;
    }
    Ok(())
}

/// Whether a symbol is defined by its object.
fn is_object(symbols: &[SymbolNote], symbol: u32) -> bool {
    match symbols.get(symbol as usize) {
        Some(note) => note.defined == Defined::Object,
        None => false,
    }
}

/// Whether an object is made of a draft.
fn is_kept(symbols: &[SymbolNote], draft: &Draft) -> bool {
    match &draft.of {
        DraftOf::Text(_) | DraftOf::Static(_) => draft.is_kept,
        DraftOf::Linked(symbol) => is_object(symbols, *symbol),
    }
}

/// The piece of a string's byte.
fn byte_piece(offset: u32, byte: u8, place: Place) -> Piece {
    Piece {
        offset,
        size: 1,
        first: 0,
        count: 0,
        is_record: false,
        value: TExpr {
            form: Form::Number(u32::from(byte)),
            kind: CHAR,
            place,
        },
    }
}

/// The pieces of a string: its bytes and a zero.
fn text_pieces(alloc: Global, bytes: &Bytes, place: Place) -> Result<Items<Piece>, NoMemory> {
    let mut pieces = Items::new(alloc);
    let mut offset = 0u32;
    for byte in bytes.as_slice() {
        pieces.push(byte_piece(offset, *byte, place))?;
        offset = offset.saturating_add(1);
    }
    pieces.push(byte_piece(offset, 0, place))?;
    Ok(pieces)
}

/// The object of that name and type. A type that is not complete can't come and is refused.
fn object(
    types: &TypeTable,
    name: Name,
    kind: TypeId,
    pieces: Items<Piece>,
    place: Place,
) -> Result<TypedObject, CheckRefused> {
    match types.size(kind) {
        Some(size) => Ok(TypedObject {
            name,
            kind,
            size,
            pieces,
        }),
        None => Err(broken(CheckRule::K18, place)),
    }
}

/// What the objects of a unit are made of.
#[derive(Clone, Copy)]
struct Settling<'a> {
    alloc: Global,
    types: &'a TypeTable,
    symbols: &'a [SymbolNote],
}

impl Settling<'_> {
    /// The object of a symbol.
    fn linked_object(
        &self,
        symbol: u32,
        pieces: Items<Piece>,
        place: Place,
    ) -> Result<TypedObject, CheckRefused> {
        let Some(note) = self.symbols.get(symbol as usize) else {
            return Err(broken(CheckRule::K19, place));
        };
        let name = Name::from_slice(self.alloc, note.name.as_slice())?;
        object(self.types, name, note.kind, pieces, place)
    }

    /// The object of a string literal.
    fn text_object(
        &self,
        bytes: &Bytes,
        kind: TypeId,
        place: Place,
    ) -> Result<TypedObject, CheckRefused> {
        let pieces = text_pieces(self.alloc, bytes, place)?;
        object(self.types, Name::made_with(self.alloc), kind, pieces, place)
    }

    /// The object of a draft.
    fn drafted(&self, draft: Draft) -> Result<TypedObject, CheckRefused> {
        let Draft {
            of,
            kind,
            place,
            pieces,
            is_kept: _,
        } = draft;
        match of {
            DraftOf::Text(bytes) => self.text_object(&bytes, kind, place),
            DraftOf::Static(name) => object(self.types, name, kind, pieces, place),
            DraftOf::Linked(symbol) => self.linked_object(symbol, pieces, place),
        }
    }

    /// The objects of drafts.
    fn objects(&self, drafts: Vec<Draft>) -> Result<Items<TypedObject>, CheckRefused> {
        let mut objects = Items::new(self.alloc);
        for draft in drafts {
            objects.push(self.drafted(draft)?)?;
        }
        Ok(objects)
    }
}

/// What defines a symbol.
fn definition(note: &SymbolNote) -> Result<Definition, CheckRefused> {
    match note.defined {
        Defined::Nothing => Ok(Definition::Missing),
        Defined::Function(index) => Ok(Definition::Function(index)),
        Defined::Object => {
            match note.draft {
                Some(index) => Ok(Definition::Object(index)),
                None => Err(broken(CheckRule::K19, note.place)),
            }
        }
    }
}

/// The symbol of a unit.
fn typed_symbol(note: SymbolNote) -> Result<TypedSymbol, CheckRefused> {
    let definition = definition(&note)?;
    Ok(TypedSymbol {
        name: note.name,
        linkage: note.linkage,
        kind: note.kind,
        used: note.is_used,
        definition,
    })
}

/// The symbols of a unit.
fn typed_symbols(
    alloc: Global,
    notes: Vec<SymbolNote>,
) -> Result<Items<TypedSymbol>, CheckRefused> {
    let mut symbols = Items::new(alloc);
    for note in notes {
        symbols.push(typed_symbol(note)?)?;
    }
    Ok(symbols)
}

/// What a unit is made of at its end.
#[derive(Drop)]
struct Parts {
    types: TypeTable,
    symbols: Vec<SymbolNote>,
    drafts: Vec<Draft>,
    functions: Vec<TypedFunction>,
}

/// The unit of these parts.
fn unit(alloc: Global, parts: Parts) -> Result<TypedUnit, CheckRefused> {
    let Parts {
        types,
        symbols,
        drafts,
        functions,
    } = parts;
    let settling = Settling {
        alloc,
        types: &types,
        symbols: symbols.as_slice(),
    };
    let objects = settling.objects(drafts)?;
    let symbols = typed_symbols(alloc, symbols)?;
    Ok(TypedUnit {
        types,
        symbols,
        functions: Items::from_vec(functions),
        objects,
    })
}

impl Scope {
    /// Ends the symbols of the unit, in order. At a symbol's first declarator K16 where its linkage is internal and it is used and
    /// not defined, K18 where a tentative definition is the only one and its type is not complete (C90 6.7.2).
    pub fn end(&mut self) -> Result<(), CheckRefused> {
        settle_symbols(&mut self.types, self.symbols.as_mut_slice())
    }

    /// Which of the objects that the unit may make are made, at its end: not those of names that stay undefined, and not those of
    /// strings that fill arrays of characters.
    pub fn kept(&self) -> Result<Kept, NoMemory> {
        let mut kept = Kept::all(self.alloc);
        for draft in &self.drafts {
            kept.add(is_kept(self.symbols.as_slice(), draft))?;
        }
        Ok(kept)
    }

    /// What the unit leaves at its end.
    fn into_parts(self) -> Parts {
        let Scope {
            types,
            symbols,
            drafts,
            functions,
            ..
        } = self;
        Parts {
            types,
            symbols,
            drafts,
            functions,
        }
    }

    /// The unit, at its end, with an object for each candidate that was to be made.
    pub fn into_unit(self) -> Result<TypedUnit, CheckRefused> {
        let alloc = self.alloc;
        unit(alloc, self.into_parts())
    }
}
