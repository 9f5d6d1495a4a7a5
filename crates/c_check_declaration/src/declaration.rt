//! Declarations (C90 6.5).

use crate::initializer::laid_out;
use crate::knot::{declared, specified};
use c_check_type::Specified;
use c_scope::{Entity, LinkedName, Scope, Space};
use c_syntax::{Declaration, Declarator, InitDeclarator, Initializer, Storage};
use c_tree::{Piece, Symbol, TStatement};
use c_types::{TypeId, TypeNode, TypeTable};
use check_refusal::{CheckRefused, CheckRule, broken};
use fsc_base::{Name, Place};
use sqlite_items::Items;
use std::alloc::Global;

/// What a declarator declares, before its initialiser.
#[derive(Clone, Copy)]
pub(crate) struct Declaring<'a> {
    pub name: &'a Name,
    pub kind: TypeId,
    pub storage: Option<Storage>,
    /// Where the declarator begins.
    pub place: Place,
    pub initial: &'a Option<Initializer>,
    /// Whether the declaration stands outside of functions.
    pub is_file: bool,
}

impl<'a> Declaring<'a> {
    /// The same as a name with linkage.
    fn linked(&self, is_function: bool) -> LinkedName<'a> {
        LinkedName {
            name: self.name,
            kind: self.kind,
            storage: self.storage,
            is_function,
            place: self.place,
        }
    }

    /// The same as an object with linkage whose initialiser gives it that type.
    fn completed(&self, kind: TypeId) -> LinkedName<'a> {
        LinkedName {
            name: self.name,
            kind,
            storage: self.storage,
            is_function: false,
            place: self.place,
        }
    }

    /// K14 at the declarator where it has an initialiser.
    fn takes_none(&self) -> Result<(), CheckRefused> {
        match self.initial {
            Some(_) => Err(broken(CheckRule::K14, self.place)),
            None => Ok(()),
        }
    }
}

/// Whether a type is a function's.
fn is_function(types: &TypeTable, kind: TypeId) -> bool {
    matches!(types.node(kind), TypeNode::Function { .. })
}

/// Whether an object of a type may have an initialiser: it is complete, or an array.
fn can_take(types: &TypeTable, kind: TypeId) -> bool {
    types.size(kind).is_some() || matches!(types.node(kind), TypeNode::Array { .. })
}

/// Whether a type without qualifiers is an array, struct or union.
fn is_aggregate_node(node: &TypeNode) -> bool {
    match node {
        TypeNode::Array { .. } | TypeNode::Struct(_) | TypeNode::Union(_) => true,
        _ => false,
    }
}

/// Whether a type is an array, struct or union.
fn is_aggregate(types: &TypeTable, kind: TypeId) -> bool {
    match types.node(kind) {
        TypeNode::Qualified { of, .. } => is_aggregate_node(types.node(*of)),
        node => is_aggregate_node(node),
    }
}

/// K14 at the declarator where its type takes no initialiser.
fn is_target(scope: &Scope, declaring: &Declaring) -> Result<(), CheckRefused> {
    if can_take(&scope.types, declaring.kind) {
        Ok(())
    } else {
        Err(broken(CheckRule::K14, declaring.place))
    }
}

/// K18 at the declarator where its type is not complete.
fn is_complete(scope: &Scope, declaring: &Declaring) -> Result<(), CheckRefused> {
    if scope.types.size(declaring.kind).is_some() {
        Ok(())
    } else {
        Err(broken(CheckRule::K18, declaring.place))
    }
}

/// A typedef name (C90 6.5.6).
fn declare_typedef(scope: &mut Scope, declaring: &Declaring) -> Result<(), CheckRefused> {
    let entity = Entity::Typedef(declaring.kind);
    scope.declare_plain(Space::Ordinary, declaring.name, entity, declaring.place)?;
    declaring.takes_none()
}

/// K52 at the declarator where a function of a block has a storage class that is not extern.
fn can_store_function(declaring: &Declaring) -> Result<(), CheckRefused> {
    if declaring.is_file {
        return Ok(());
    }
    match declaring.storage {
        None | Some(Storage::Extern) => Ok(()),
        Some(Storage::Typedef)
        | Some(Storage::Static)
        | Some(Storage::Auto)
        | Some(Storage::Register) => Err(broken(CheckRule::K52, declaring.place)),
    }
}

/// A function.
fn declare_function(scope: &mut Scope, declaring: &Declaring) -> Result<(), CheckRefused> {
    can_store_function(declaring)?;
    let _ = scope.declare_linked(&declaring.linked(true))?;
    declaring.takes_none()
}

/// The type of an object with linkage that an initialiser is for: that of the innermost scope where that is complete.
fn target_kind(scope: &Scope, declaring: &Declaring) -> TypeId {
    match scope.find_here(Space::Ordinary, declaring.name) {
        Some(Entity::Object(_, kind)) if scope.types.size(kind).is_some() => kind,
        _ => declaring.kind,
    }
}

/// The initialiser of an object with linkage, which defines it. K14 at the declarator where it takes none, K16 where the object has
/// internal linkage and is defined.
fn initialise_linked(
    alloc: Global,
    scope: &mut Scope,
    declaring: &Declaring,
    symbol: u32,
    initial: &Initializer,
) -> Result<(), CheckRefused> {
    if !declaring.is_file {
        return Err(broken(CheckRule::K14, declaring.place));
    }
    is_target(scope, declaring)?;
    let symbol = scope.symbol_to_define(symbol, &declaring.linked(false))?;
    let kind = target_kind(scope, declaring);
    let (kind, pieces) = laid_out(alloc, scope, kind, initial, true)?;
    let symbol = scope.symbol_to_complete(symbol, &declaring.completed(kind))?;
    scope.complete_linked(declaring.name, symbol, kind)?;
    scope.define_object(symbol, declaring.place)?;
    scope.fill(Symbol::Named(symbol), pieces, declaring.place)
}

/// An object with linkage.
fn declare_object(
    alloc: Global,
    scope: &mut Scope,
    declaring: &Declaring,
) -> Result<(), CheckRefused> {
    let symbol = scope.declare_linked(&declaring.linked(false))?;
    match declaring.initial {
        Some(initial) => initialise_linked(alloc, scope, declaring, symbol, initial),
        None => {
            if declaring.storage != Some(Storage::Extern) {
                scope.mark_tentative(symbol);
            }
            Ok(())
        }
    }
}

/// The initialiser of a static object of a block.
fn initialise_static(
    alloc: Global,
    scope: &mut Scope,
    declaring: &Declaring,
    draft: u32,
    initial: &Initializer,
) -> Result<(), CheckRefused> {
    is_target(scope, declaring)?;
    let (kind, pieces) = laid_out(alloc, scope, declaring.kind, initial, true)?;
    scope.complete_static(declaring.name, draft, kind)?;
    scope.fill(Symbol::Object(draft), pieces, declaring.place)
}

/// A static object of a block. K18 at the declarator where it is not complete.
fn declare_static(
    alloc: Global,
    scope: &mut Scope,
    declaring: &Declaring,
) -> Result<(), CheckRefused> {
    let draft = scope.draft_static(declaring.name, declaring.kind, declaring.place)?;
    let entity = Entity::Object(Symbol::Object(draft), declaring.kind);
    scope.declare_plain(Space::Ordinary, declaring.name, entity, declaring.place)?;
    match declaring.initial {
        Some(initial) => initialise_static(alloc, scope, declaring, draft, initial),
        None => is_complete(scope, declaring),
    }
}

/// The statement that initialises an automatic name of a type. A type that is not complete can't come and is refused.
fn initialising(
    scope: &Scope,
    local: u32,
    kind: TypeId,
    pieces: Items<Piece>,
    place: Place,
) -> Result<TStatement, CheckRefused> {
    match scope.types.size(kind) {
        Some(size) => Ok(TStatement::Initialise {
            local,
            size,
            is_aggregate: is_aggregate(&scope.types, kind),
            pieces,
        }),
        None => Err(broken(CheckRule::K18, place)),
    }
}

/// The initialiser of an automatic name.
fn initialise_local(
    alloc: Global,
    scope: &mut Scope,
    declaring: &Declaring,
    local: u32,
    initial: &Initializer,
) -> Result<TStatement, CheckRefused> {
    is_target(scope, declaring)?;
    let (kind, pieces) = laid_out(alloc, scope, declaring.kind, initial, false)?;
    let is_register = declaring.storage == Some(Storage::Register);
    scope.complete_local(declaring.name, local, kind, is_register)?;
    initialising(scope, local, kind, pieces, declaring.place)
}

/// An automatic name, and the statement that initialises it. K18 at the declarator where it is not complete.
fn declare_local(
    alloc: Global,
    scope: &mut Scope,
    declaring: &Declaring,
    statements: &mut Items<TStatement>,
) -> Result<(), CheckRefused> {
    let local = scope.add_local(declaring.kind)?;
    let is_register = declaring.storage == Some(Storage::Register);
    let entity = Entity::Local(local, declaring.kind, is_register);
    scope.declare_plain(Space::Ordinary, declaring.name, entity, declaring.place)?;
    match declaring.initial {
        Some(initial) => {
            let statement = initialise_local(alloc, scope, declaring, local, initial)?;
            statements.push(statement)?;
            Ok(())
        }
        None => is_complete(scope, declaring),
    }
}

/// An object.
fn declare_by_storage(
    alloc: Global,
    scope: &mut Scope,
    declaring: &Declaring,
    statements: &mut Items<TStatement>,
) -> Result<(), CheckRefused> {
    if declaring.is_file {
        return declare_object(alloc, scope, declaring);
    }
    match declaring.storage {
        Some(Storage::Extern) => declare_object(alloc, scope, declaring),
        Some(Storage::Static) => declare_static(alloc, scope, declaring),
        None | Some(Storage::Auto) | Some(Storage::Register) | Some(Storage::Typedef) => {
            declare_local(alloc, scope, declaring, statements)
        }
    }
}

/// What a declarator declares; initialisers of automatic names are added to the statements.
fn declare(
    alloc: Global,
    scope: &mut Scope,
    declaring: &Declaring,
    statements: &mut Items<TStatement>,
) -> Result<(), CheckRefused> {
    if declaring.storage == Some(Storage::Typedef) {
        return declare_typedef(scope, declaring);
    }
    if is_function(&scope.types, declaring.kind) {
        return declare_function(scope, declaring);
    }
    declare_by_storage(alloc, scope, declaring, statements)
}

/// The name of a declarator; the grammar has none without. K02 at it where there is none.
pub fn name_of(declarator: &Declarator) -> Result<&Name, CheckRefused> {
    match declarator.name() {
        Some(name) => Ok(name),
        None => Err(broken(CheckRule::K02, declarator.place)),
    }
}

/// A declarator with its initialiser.
fn init_declarator(
    alloc: Global,
    scope: &mut Scope,
    specified: &Specified,
    is_file: bool,
    init: &InitDeclarator,
    statements: &mut Items<TStatement>,
) -> Result<(), CheckRefused> {
    let kind = declared(alloc, scope, &init.declarator, specified.kind)?;
    let declaring = Declaring {
        name: name_of(&init.declarator)?,
        kind,
        storage: specified.storage,
        place: init.declarator.place,
        initial: &init.initial,
        is_file,
    };
    declare(alloc, scope, &declaring, statements)
}

/// K15 at a storage class that no declaration outside of functions has.
fn can_store(specified: &Specified, is_file: bool) -> Result<(), CheckRefused> {
    match specified.storage {
        Some(Storage::Auto) | Some(Storage::Register) if is_file => {
            Err(broken(CheckRule::K15, specified.storage_place))
        }
        _ => Ok(()),
    }
}

/// The declarators of a declaration.
fn init_declarators(
    alloc: Global,
    scope: &mut Scope,
    specified: &Specified,
    is_file: bool,
    inits: &[InitDeclarator],
    statements: &mut Items<TStatement>,
) -> Result<(), CheckRefused> {
    for init in inits {
        init_declarator(alloc, scope, specified, is_file, init, statements)?;
    }
    Ok(())
}

/// A declaration, outside of functions or in a block. The initialisers of automatic names are added to the statements. K15 at a
/// storage class, K02 at the declaration where it declares nothing; the others at specifiers and declarators.
pub fn read_declaration(
    alloc: Global,
    scope: &mut Scope,
    is_file: bool,
    declaration: &Declaration,
    statements: &mut Items<TStatement>,
) -> Result<(), CheckRefused> {
    let is_alone = declaration.inits.is_empty();
    let list = declaration.specifiers.as_slice();
    let specified = specified(alloc, scope, list, is_alone, declaration.place)?;
    can_store(&specified, is_file)?;
    if is_alone && !specified.declares {
        return Err(broken(CheckRule::K02, declaration.place));
    }
    let inits = declaration.inits.as_slice();
    init_declarators(alloc, scope, &specified, is_file, inits, statements)
}
