//! Open scopes and the names in them.

use crate::entity::{Entity, is_reserved};
use crate::scope::Scope;
use c_tree::Symbol;
use c_types::TypeId;
use check_refusal::{CheckRefused, CheckRule, broken};
use fsc_base::{Name, NoMemory, Place};
use scoped_names::{Level, Space};
use type_relations::{element, qualifiers, unqualified};

impl Scope {
    /// What the innermost declaration of a name says.
    pub fn find(&self, space: Space, name: &Name) -> Option<Entity> {
        self.levels.find(space, name.as_slice()).copied()
    }

    /// What the innermost scope says of a name.
    pub fn find_here(&self, space: Space, name: &Name) -> Option<Entity> {
        self.levels.find_here(space, name.as_slice()).copied()
    }

    /// Whether the file's scope is the only open one.
    pub fn is_file(&self) -> bool {
        self.levels.depth() == 0
    }

    /// Whether a type has a const in it: its own, that of an array's element, or that of a member at any depth (C90 6.2.2.1).
    pub fn has_const(&self, kind: TypeId) -> bool {
        let element = element(&self.types, kind);
        qualifiers(&self.types, element) & 1 != 0
            || self.with_const.contains(&unqualified(&self.types, element))
    }

    /// Opens a scope.
    pub fn enter(&mut self) -> Result<(), NoMemory> {
        self.levels.enter()
    }

    /// Closes the innermost scope.
    pub fn leave(&mut self) {
        self.levels.leave();
    }

    /// Closes the innermost scope, and keeps what it declared.
    pub fn leave_with(&mut self) -> Result<Level<Entity>, NoMemory> {
        self.levels.leave_with()
    }

    /// Opens a scope with what a closed one declared.
    pub fn enter_with(&mut self, level: Level<Entity>) -> Result<(), NoMemory> {
        self.levels.enter_with(level)
    }

    /// Says what a name stands for in the innermost scope, in place of what that scope said of it.
    pub(crate) fn set_here(
        &mut self,
        space: Space,
        name: &Name,
        entity: Entity,
    ) -> Result<(), NoMemory> {
        if self.levels.replace_here(space, name.as_slice(), entity) {
            Ok(())
        } else {
            self.levels.declare(space, name.as_slice(), entity)
        }
    }

    /// Declares a name without linkage, a tag or an enumerator in the innermost scope. At the place L12 where the name is kept
    /// for primitives, and K03 where that scope has it (C90 6.5).
    pub fn declare_plain(
        &mut self,
        space: Space,
        name: &Name,
        entity: Entity,
        place: Place,
    ) -> Result<(), CheckRefused> {
        if is_reserved(name) {
            return Err(broken(CheckRule::L12, place));
        }
        if self.find_here(space, name).is_some() {
            return Err(broken(CheckRule::K03, place));
        }
        self.levels.declare(space, name.as_slice(), entity)?;
        Ok(())
    }

    /// The type of an automatic name becomes known by its initialiser.
    pub fn complete_local(
        &mut self,
        name: &Name,
        local: u32,
        kind: TypeId,
        is_register: bool,
    ) -> Result<(), NoMemory> {
        self.frame.complete_local(local, kind);
        self.set_here(
            Space::Ordinary,
            name,
            Entity::Local(local, kind, is_register),
        )
    }

    /// The type of a static object of a block becomes known by its initialiser.
    pub fn complete_static(
        &mut self,
        name: &Name,
        draft: u32,
        kind: TypeId,
    ) -> Result<(), NoMemory> {
        if let Some(draft) = self.drafts.get_mut(draft as usize) {
            draft.kind = kind;
        }
        self.set_here(
            Space::Ordinary,
            name,
            Entity::Object(Symbol::Object(draft), kind),
        )
    }
}
