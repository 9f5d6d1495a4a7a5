//! The rule of linking on types: M01 (two declarations of a name with external linkage are not compatible, C90 6.1.2.6).
//! All pairs are compared, since being compatible is not transitive; but types of one class are compatible with the same ones, so that
//! one declaration of each class is enough, and each pair of classes is compared once.

use crate::declarations::{Declaration, Declarations, symbol_at};
use crate::refusal::{LinkNo, broken_by};
use c_link::LinkFault;
use c_types::{TypeId, TypeNode};
use fat_code::FatParts;
use fsc_base::{NoMemory, Rule};
use indexmap::IndexMap;
use start_blocks::{LinkSymbol, LinkView};
use std::alloc::Global;
use type_classes::{TypeClasses, TypeGraph};
use type_relations::{compatible, type_text};

/// Two classes, that of the earlier declaration first.
#[derive(PartialEq, Eq, Hash, Drop)]
struct ClassPair {
    first: u32,
    second: u32,
}

/// A declaration of a class.
#[derive(Clone, Copy)]
struct Representative {
    declaration: Declaration,
    class: u32,
}

/// What the comparing stands on: all units in link order and what linking sees of them, how many of these are the user's, the
/// classes of all types, and what pairs of classes were found to be.
#[derive(Drop)]
pub(crate) struct Comparing<'a> {
    alloc: Global,
    units: &'a [&'a FatParts],
    views: &'a [LinkView],
    users: usize,
    classes: TypeClasses,
    answers: IndexMap<ClassPair, bool>,
}

/// The classes of the types of all units.
fn classes_of(alloc: Global, units: &[&FatParts]) -> Result<TypeClasses, NoMemory> {
    let mut graph = TypeGraph::new(alloc)?;
    'units: for unit in units {
        graph.add(unit.types.as_slice())?;
    }
    TypeClasses::of(graph)
}

/// A type's node without its qualifiers, where there is one.
fn bare(types: &[TypeNode], id: TypeId) -> Option<&TypeNode> {
    let mut id = id;
    'qualifiers: for _ in 0..types.len() {
        match types.get(id as usize) {
            Some(TypeNode::Qualified { of, .. }) => id = *of,
            Some(node) => return Some(node),
            None => return None,
        }
    }
    None
}

/// Whether a type is that of a function without a prototype.
fn lacks_prototype(types: &[TypeNode], id: TypeId) -> bool {
    match bare(types, id) {
        Some(TypeNode::Function { is_known, .. }) => !*is_known,
        _ => false,
    }
}

impl<'a> Comparing<'a> {
    fn new(
        alloc: Global,
        units: &'a [&'a FatParts],
        views: &'a [LinkView],
        users: usize,
    ) -> Result<Comparing<'a>, NoMemory> {
        Ok(Comparing {
            alloc,
            units,
            views,
            users,
            classes: classes_of(alloc, units)?,
            answers: IndexMap::new(alloc),
        })
    }

    /// The types of the unit of a declaration.
    fn types(&self, at: Declaration) -> Result<&'a [TypeNode], LinkNo> {
        match self.units.get(at.unit as usize) {
            Some(unit) => Ok(unit.types.as_slice()),
            None => Err(LinkNo::Misfit),
        }
    }

    fn symbol(&self, at: Declaration) -> Result<&'a LinkSymbol, LinkNo> {
        symbol_at(self.views, at)
    }

    /// Whether one of the declarations is the definition of a function by a unit of the library.
    fn is_of_library(&self, declarations: &[Declaration]) -> Result<bool, LinkNo> {
        'declarations: for declaration in declarations {
            let is_added = self.users <= declaration.unit as usize;
            if is_added && self.symbol(*declaration)?.is_function() {
                return Ok(true);
            }
        }
        Ok(false)
    }

    /// Whether a declaration has no prototype, and a unit of the library defines the function. So old code may call the library
    /// without its headers.
    fn is_exempt(&self, at: Declaration, is_of_library: bool) -> Result<bool, LinkNo> {
        if !is_of_library {
            return Ok(false);
        }
        Ok(lacks_prototype(self.types(at)?, self.symbol(at)?.kind))
    }

    fn class(&self, at: Declaration) -> Result<u32, LinkNo> {
        let kind = self.symbol(at)?.kind;
        match self.classes.class(at.unit as usize, kind) {
            Some(class) => Ok(class),
            None => Err(LinkNo::Misfit),
        }
    }

    /// Whether the types of two declarations are compatible.
    fn are_compatible(&self, first: Declaration, second: Declaration) -> Result<bool, LinkNo> {
        let kind = self.symbol(first)?.kind;
        let other = self.symbol(second)?.kind;
        let types = self.types(first)?;
        let others = self.types(second)?;
        Ok(compatible(self.alloc, types, kind, others, other)?)
    }

    /// The same, asked once for each pair of classes.
    fn agree(&mut self, first: Representative, second: Representative) -> Result<bool, LinkNo> {
        let pair = ClassPair {
            first: first.class,
            second: second.class,
        };
        if let Some(answer) = self.answers.get(&pair) {
            return Ok(*answer);
        }
        let answer = self.are_compatible(first.declaration, second.declaration)?;
        self.answers.insert(pair, answer)?;
        Ok(answer)
    }

    /// The first of the earlier representatives with which a later one is not compatible.
    fn opponent(
        &mut self,
        earlier: &[Representative],
        later: Representative,
    ) -> Result<Option<Declaration>, LinkNo> {
        'earlier: for one in earlier {
            if !self.agree(*one, later)? {
                return Ok(Some(one.declaration));
            }
        }
        Ok(None)
    }

    fn text(&self, at: Declaration) -> Result<fsc_base::Bytes, LinkNo> {
        let kind = self.symbol(at)?.kind;
        Ok(type_text(self.alloc, self.types(at)?, kind)?)
    }

    /// Two declarations of a name that are not compatible.
    fn incompatible(
        &self,
        name: &[u8],
        first: Declaration,
        second: Declaration,
    ) -> Result<LinkFault, LinkNo> {
        let earlier = self.text(first)?;
        let later = self.text(second)?;
        Ok(broken_by(self.alloc, Rule::M01, name, earlier, later)?)
    }

    /// One more declaration of a name, of which these representatives were compared.
    fn compare_with(
        &mut self,
        earlier: &mut Vec<Representative>,
        declaration: Declaration,
    ) -> Result<Option<Declaration>, LinkNo> {
        let class = self.class(declaration)?;
        if has_class(earlier, class) {
            return Ok(None);
        }
        let later = Representative { declaration, class };
        let opponent = self.opponent(earlier, later)?;
        earlier.push(later)?;
        Ok(opponent)
    }

    /// The declarations of a name.
    fn compare(
        &mut self,
        name: &[u8],
        declarations: &[Declaration],
    ) -> Result<Option<LinkFault>, LinkNo> {
        let is_of_library = self.is_of_library(declarations)?;
        let mut earlier = Vec::new(self.alloc);
        'declarations: for declaration in declarations {
            if self.is_exempt(*declaration, is_of_library)? {
                continue;
            }
            if let Some(first) = self.compare_with(&mut earlier, *declaration)? {
                return Ok(Some(self.incompatible(name, first, *declaration)?));
            }
        }
        Ok(None)
    }

    fn compare_all(&mut self, names: &Declarations) -> Result<Option<LinkFault>, LinkNo> {
        'names: for (name, declarations) in names {
            let fault = self.compare(name.as_slice(), declarations)?;
            if fault.is_some() {
                return Ok(fault);
            }
        }
        Ok(None)
    }
}

/// Whether one of the representatives is of that class.
fn has_class(representatives: &[Representative], class: u32) -> bool {
    'representatives: for one in representatives {
        if one.class == class {
            return true;
        }
    }
    false
}

/// M01: two declarations of a name are not compatible. The units are in link order, the user's first, of which there are so many.
pub(crate) fn first_m01(
    alloc: Global,
    units: &[&FatParts],
    views: &[LinkView],
    users: usize,
    names: &Declarations,
) -> Result<Option<LinkFault>, LinkNo> {
    let mut comparing = Comparing::new(alloc, units, views, users)?;
    comparing.compare_all(names)
}
