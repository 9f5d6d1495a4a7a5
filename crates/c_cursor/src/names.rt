//! The names that stand for types.

use fsc_base::{Name, NoMemory};
use scoped_names::{Level, Scopes, Space};
use std::alloc::Global;

/// For each ordinary identifier that is visible whether its innermost declaration is a typedef (C90 6.5.6).
#[derive(Drop)]
pub struct TypeNames {
    scopes: Scopes<bool>,
}

impl TypeNames {
    /// One scope, with no names. It takes no memory.
    pub fn new(alloc: Global) -> TypeNames {
        TypeNames {
            scopes: Scopes::new(alloc),
        }
    }

    /// Declares a name in the innermost scope, as a type or as anything else. Refused only for want of memory, and then nothing
    /// has changed.
    pub fn declare(&mut self, name: &Name, is_type: bool) -> Result<(), NoMemory> {
        self.scopes
            .declare(Space::Ordinary, name.as_slice(), is_type)
    }

    /// Opens a scope. Refused only for want of memory, and then nothing has changed.
    pub fn enter(&mut self) -> Result<(), NoMemory> {
        self.scopes.enter()
    }

    /// Closes the innermost scope; where it is the only one, nothing changes. It takes no memory.
    pub fn leave(&mut self) {
        self.scopes.leave();
    }

    /// Closes the innermost scope, and answers what it declared. Refused only for want of memory, and then nothing has changed.
    pub fn leave_with(&mut self) -> Result<Level<bool>, NoMemory> {
        self.scopes.leave_with()
    }

    /// Opens a scope that declares what a closed one did. Refused only for want of memory, and then nothing has changed.
    pub fn enter_with(&mut self, level: Level<bool>) -> Result<(), NoMemory> {
        self.scopes.enter_with(level)
    }

    /// Whether a name stands for a type: its innermost visible declaration is a typedef.
    pub fn is_type(&self, name: &Name) -> bool {
        match self.scopes.find(Space::Ordinary, name.as_slice()) {
            Some(is_type) => *is_type,
            None => false,
        }
    }
}
