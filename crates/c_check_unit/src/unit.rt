//! Units (C90 6.7).

ghost use Rattle.std.specs.Prelude.{IfErr};
ghost use Rattle.check_refusal.specs.Causes.{IsCheckRefusal};

use crate::definition::define;
use c_check_declaration::read_declaration;
use c_scope::{Kept, Scope};
use c_syntax::{Declaration, External, Tree};
use c_tree::{TStatement, TypedUnit};
use check_refusal::CheckRefused;
use fsc_base::Refused;
use sqlite_items::Items;
use std::alloc::Global;

/// A declaration outside of functions, which initialises no automatic name.
fn declare(alloc: Global, scope: &mut Scope, given: &Declaration) -> Result<(), CheckRefused> {
    let mut statements: Items<TStatement> = Items::new(alloc);
    read_declaration(alloc, scope, true, given, &mut statements)
}

/// An external declaration.
fn external(alloc: Global, scope: &mut Scope, external: &External) -> Result<(), CheckRefused> {
    match external {
        External::Function(function) => define(alloc, scope, function),
        External::Declaration(declaration) => declare(alloc, scope, declaration),
    }
}

/// External declarations, in order.
fn externals(alloc: Global, scope: &mut Scope, externals: &[External]) -> Result<(), CheckRefused> {
    for one in externals {
        external(alloc, scope, one)?;
    }
    Ok(())
}

/// Reads a tree to its end, as a unit of whose candidates for objects these are made.
fn read(alloc: Global, tree: &Tree, kept: Kept) -> Result<Scope, CheckRefused> {
    let mut scope = Scope::new(alloc, kept)?;
    externals(alloc, &mut scope, tree.externals.as_slice())?;
    scope.end()?;
    Ok(scope)
}

/// The typed unit of a tree. Where the first reading tells that a candidate for an object is not made, a second one numbers those that
/// are.
fn checked(alloc: Global, tree: &Tree) -> Result<TypedUnit, CheckRefused> {
    let scope = read(alloc, tree, Kept::all(alloc))?;
    let kept = scope.kept()?;
    if kept.are_all() {
        return scope.into_unit();
    }
    drop(scope);
    read(alloc, tree, kept)?.into_unit()
}

/// The typed unit of a tree: each name stands for what it declares, each expression has its type, each conversion is written out, and
/// each initialiser is laid out. Refused where the tree breaks a rule, at the first token of the smallest form that breaks it, and for
/// want of memory. The rules are those of declarations (C90 6.5), expressions (6.3), statements (6.6) and definitions (6.7),
/// and their limits. A tree that the grammar's reader makes is at most 256 nodes deep; L03 where it is deeper.
pub fn check(alloc: Global, tree: &Tree) -> Result<TypedUnit, Refused>
    ensures cause { IfErr result IsCheckRefusal }
{
    match checked(alloc, tree) {
        Ok(unit) => Ok(unit),
        Err(refused) => Err(refused.refused()),
    }
}
