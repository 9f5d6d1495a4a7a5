//! Classes of types.

use crate::graph::TypeGraph;
use c_types::TypeId;
use fsc_base::NoMemory;

/// The classes of the types of several units.
#[derive(Drop)]
pub struct TypeClasses {
    classes: Vec<u32>,
    units: Vec<u32>,
}

impl TypeClasses {
    /// The classes of the units of a graph, in the order in which they were added. Its time grows with the number of types, and with
    /// the longest chain of structs and unions that name one another. Refused only for want of memory.
    pub fn of(graph: TypeGraph) -> Result<TypeClasses, NoMemory> {
        let classes = graph.refined()?;
        let TypeGraph { units, .. } = graph;
        Ok(TypeClasses { classes, units })
    }

    /// Where the types of a unit end.
    fn end(&self, unit: usize) -> usize {
        match self.units.get(unit.saturating_add(1)) {
            Some(next) => *next as usize,
            None => self.classes.len(),
        }
    }

    /// The class of a type of a unit, where that is there; a number outside its table is read as void.
    pub fn class(&self, unit: usize, id: TypeId) -> Option<u32> {
        let first = *self.units.get(unit)?;
        let at = (first as usize).saturating_add(id as usize);
        if at < self.end(unit) {
            self.classes.get(at).copied()
        } else {
            self.classes.first().copied()
        }
    }
}
