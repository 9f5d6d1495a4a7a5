//! What a production is asked for, and what it answers.

use crate::refused::ParseRefused;
use c_syntax::Declarator;
use scoped_names::Level;
use sqlite_items::Items;
use std::alloc::Global;

/// The most nodes of a tree that lie one above the other.
pub const MOST_NODES: u32 = 256;

/// Which expression is read (C90 6.3).
#[derive(Clone, Copy, Debug, PartialEq, Eq)]
pub enum Goal {
    /// With commas.
    Expr,
    /// An assignment expression.
    Assign,
    /// A conditional expression.
    Constant,
    /// Operators with two operands that bind at least so tightly.
    Binary(u8),
    Cast,
    Unary,
}

/// Which specifiers are read (C90 6.5): those of declarations and parameters may be storage classes, those of members and type
/// names not.
#[derive(Clone, Copy, Debug, PartialEq, Eq)]
pub enum List {
    WithStorage,
    WithoutStorage,
}

/// Which declarator is read (C90 6.5.4, 6.5.5): with a name, without one, or with or without one as in a parameter. A name that
/// stands for a type may be declared anew only behind a type specifier.
#[derive(Clone, Copy, Debug, PartialEq, Eq)]
pub enum Mode {
    Named { may_rename: bool },
    Abstract,
    Either { may_rename: bool },
}

/// What was read, and how high it is: the most nodes that lie one above the other in it, itself counted where it is a node.
#[derive(Drop)]
pub struct Read<T> {
    pub node: T,
    pub height: u32,
}

/// A declarator that was read.
#[derive(Drop)]
pub struct ReadDeclarator {
    pub node: Declarator,
    pub height: u32,
    /// What the list of parameters next around its name declares; nothing where no list of parameters stands there.
    pub inside: Level<bool>,
    /// Whether nothing but parentheses stands around its name.
    pub is_bare: bool,
}

/// The height of a node over things of these heights.
pub fn outside(first: u32, second: u32) -> u32 {
    first.max(second).saturating_add(1)
}

impl<T: Drop> Read<Items<T>> {
    /// A list of nothing, and its height. It takes no memory.
    pub fn none(alloc: Global) -> Read<Items<T>> {
        Read {
            node: Items::new(alloc),
            height: 0,
        }
    }

    /// Adds something to a list, which gets as high as the highest thing in it. Refused only for want of memory.
    pub fn add(&mut self, item: Read<T>) -> Result<(), ParseRefused> {
        self.height = self.height.max(item.height);
        self.node.push(item.node)?;
        Ok(())
    }
}

impl ReadDeclarator {
    /// The declarator alone.
    pub fn read(self) -> Read<Declarator> {
        let ReadDeclarator {
            node,
            height,
            inside: _,
            is_bare: _,
        } = self;
        Read { node, height }
    }
}

impl Mode {
    /// Whether a declarator may have a name.
    pub fn may_name(self) -> bool {
        match self {
            Mode::Named { .. } | Mode::Either { .. } => true,
            Mode::Abstract => false,
        }
    }

    /// Whether a declarator has to have a name.
    pub fn must_name(self) -> bool {
        match self {
            Mode::Named { .. } => true,
            Mode::Abstract | Mode::Either { .. } => false,
        }
    }

    /// Whether the name may be one that stands for a type.
    pub fn may_rename(self) -> bool {
        match self {
            Mode::Named { may_rename } | Mode::Either { may_rename } => may_rename,
            Mode::Abstract => false,
        }
    }
}
