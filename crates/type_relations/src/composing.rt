//! Composite types (C90 6.1.2.6).

use crate::bounds::TURNS;
use c_types::{LayoutNo, TypeId, TypeIds, TypeNode, TypeTable};
use fsc_base::NoMemory;
use indexmap::IndexMap;
use std::alloc::Global;

/// Two compatible types whose composite type is wanted.
#[derive(Clone, Copy, Debug, PartialEq, Eq, Hash)]
struct Pair {
    one: TypeId,
    other: TypeId,
}

/// What the composite type of two types is, besides its parts.
#[derive(Clone, Copy, Debug, PartialEq, Eq)]
enum Shape {
    /// The first of the two.
    First,
    Pointer,
    /// With this number of elements; 0 where it is unknown.
    Array(u32),
    Function { is_known: bool, is_variadic: bool },
    Qualified(u32),
}

/// A composite type before its parts are known.
#[derive(Drop)]
struct Plan {
    shape: Shape,
    /// The pairs whose composite types are its parts: what is returned comes before parameters.
    parts: Vec<Pair>,
}

impl Plan {
    /// Without parts. It takes no memory.
    fn of(alloc: Global, shape: Shape) -> Plan {
        Plan {
            shape,
            parts: Vec::new(alloc),
        }
    }

    /// With one part.
    fn with_part(
        alloc: Global,
        shape: Shape,
        one: TypeId,
        other: TypeId,
    ) -> Result<Plan, NoMemory> {
        let mut plan = Plan::of(alloc, shape);
        plan.add(one, other)?;
        Ok(plan)
    }

    /// One more part.
    fn add(&mut self, one: TypeId, other: TypeId) -> Result<(), NoMemory> {
        self.parts.push(Pair { one, other })?;
        Ok(())
    }

    /// Parts for parameters of two prototypes, one by one.
    fn add_parameters(&mut self, ones: &[TypeId], others: &[TypeId]) -> Result<(), NoMemory> {
        for (one, other) in ones.iter().zip(others) {
            self.add(*one, *other)?;
        }
        Ok(())
    }
}

/// What a function type says besides what it returns.
#[derive(Clone, Copy)]
struct Prototype<'a> {
    is_known: bool,
    parameters: &'a [TypeId],
    is_variadic: bool,
}

/// The plan of a composite function type: its parameters are those of the one prototype, or the composite ones of both.
fn function_plan(
    alloc: Global,
    returns: Pair,
    one: Prototype<'_>,
    other: Prototype<'_>,
) -> Result<Plan, NoMemory> {
    let known = if one.is_known { one } else { other };
    let second = if other.is_known { other } else { one };
    let shape = Shape::Function {
        is_known: known.is_known,
        is_variadic: known.is_variadic,
    };
    let mut plan = Plan::with_part(alloc, shape, returns.one, returns.other)?;
    plan.add_parameters(known.parameters, second.parameters)?;
    Ok(plan)
}

/// The plan of two types of which the first is a function.
fn plan_beside_function(
    alloc: Global,
    returns: TypeId,
    prototype: Prototype<'_>,
    other: &TypeNode,
) -> Result<Plan, NoMemory> {
    match other {
        TypeNode::Function {
            returns: second,
            is_known,
            parameters,
            is_variadic,
        } => {
            let pair = Pair {
                one: returns,
                other: *second,
            };
            let other = Prototype {
                is_known: *is_known,
                parameters: parameters.as_slice(),
                is_variadic: *is_variadic,
            };
            function_plan(alloc, pair, prototype, other)
        }
        _ => Ok(Plan::of(alloc, Shape::First)),
    }
}

/// The plan of two types of which the first is a pointer.
fn plan_beside_pointer(alloc: Global, to: TypeId, other: &TypeNode) -> Result<Plan, NoMemory> {
    match other {
        TypeNode::Pointer(other) => Plan::with_part(alloc, Shape::Pointer, to, *other),
        _ => Ok(Plan::of(alloc, Shape::First)),
    }
}

/// The plan of two types of which the first is an array: its number of elements is the known one.
fn plan_beside_array(
    alloc: Global,
    element: TypeId,
    count: u32,
    other: &TypeNode,
) -> Result<Plan, NoMemory> {
    match other {
        TypeNode::Array { of, count: number } => {
            let count = if count == 0 { *number } else { count };
            Plan::with_part(alloc, Shape::Array(count), element, *of)
        }
        _ => Ok(Plan::of(alloc, Shape::First)),
    }
}

/// The plan of two types of which the first is qualified.
fn plan_beside_qualified(
    alloc: Global,
    of: TypeId,
    bits: u32,
    other: &TypeNode,
) -> Result<Plan, NoMemory> {
    match other {
        TypeNode::Qualified { of: other, .. } => Plan::with_part(
            alloc,
            Shape::Qualified(bits),
            of,
            *other,
        ),
        _ => Ok(Plan::of(alloc, Shape::First)),
    }
}

/// What the composite type of two types is made of.
fn plan_of(alloc: Global, table: &TypeTable, pair: Pair) -> Result<Plan, NoMemory> {
    let other = table.node(pair.other);
    match table.node(pair.one) {
        TypeNode::Pointer(to) => plan_beside_pointer(alloc, *to, other),
        TypeNode::Array { of, count } => plan_beside_array(alloc, *of, *count, other),
        TypeNode::Function {
            returns,
            is_known,
            parameters,
            is_variadic,
        } => {
            let prototype = Prototype {
                is_known: *is_known,
                parameters: parameters.as_slice(),
                is_variadic: *is_variadic,
            };
            plan_beside_function(alloc, *returns, prototype, other)
        }
        TypeNode::Qualified { of, bits } => plan_beside_qualified(alloc, *of, *bits, other),
        TypeNode::Void | TypeNode::Basic(_) => Ok(Plan::of(alloc, Shape::First)),
        TypeNode::Struct(_) | TypeNode::Union(_) | TypeNode::Enum(_) => {
            Ok(Plan::of(alloc, Shape::First))
        }
    }
}

/// An array type, or the other type where there is none of so many elements.
fn array_or(
    table: &mut TypeTable,
    of: TypeId,
    count: u32,
    other: TypeId,
) -> Result<TypeId, NoMemory> {
    match table.array_of(of, count) {
        Ok(id) => Ok(id),
        Err(LayoutNo::NoMemory) => Err(NoMemory),
        Err(LayoutNo::Part | LayoutNo::Large | LayoutNo::NotIncomplete) => Ok(other),
    }
}

/// A qualified version of a type that is neither an array nor outside the table, or the other type.
fn version_or(
    table: &mut TypeTable,
    of: TypeId,
    bits: u32,
    other: TypeId,
) -> Result<TypeId, NoMemory> {
    match table.node(of) {
        TypeNode::Array { .. } => Ok(other),
        _ => {
            if of as usize >= table.len() {
                return Ok(other);
            }
            table.qualified_version(of, bits)
        }
    }
}

/// A function type from its parts: what it returns, then its parameters. Without parts the other type.
fn function_or(
    table: &mut TypeTable,
    is_known: bool,
    is_variadic: bool,
    parts: &[TypeId],
    other: TypeId,
) -> Result<TypeId, NoMemory> {
    match parts {
        [returns, parameters @ ..] => table.function(*returns, is_known, parameters, is_variadic),
        [] => Ok(other),
    }
}

/// The type of a shape with these parts; the first of the pair where it has none.
fn built(
    table: &mut TypeTable,
    shape: Shape,
    parts: &[TypeId],
    first: TypeId,
) -> Result<TypeId, NoMemory> {
    let part = match parts.first() {
        Some(part) => *part,
        None => return Ok(first),
    };
    match shape {
        Shape::First => Ok(first),
        Shape::Pointer => table.pointer_to(part),
        Shape::Array(count) => array_or(table, part, count, first),
        Shape::Function {
            is_known,
            is_variadic,
        } => function_or(table, is_known, is_variadic, parts, first),
        Shape::Qualified(bits) => version_or(table, part, bits, first),
    }
}

/// Composite types that are known, and those that are waited for, the innermost last.
#[derive(Drop)]
struct Composition {
    alloc: Global,
    known: IndexMap<Pair, TypeId>,
    waiting: Vec<Pair>,
}

impl Composition {
    /// The composite type of a pair, where it is known. That of one type is itself.
    fn find(&self, pair: Pair) -> Option<TypeId> {
        if pair.one == pair.other {
            return Some(pair.one);
        }
        self.known.get(&pair).copied()
    }

    /// The composite types of all pairs. None where one is not known yet.
    fn found(&self, pairs: &[Pair]) -> Result<Option<TypeIds>, NoMemory> {
        let mut ids = TypeIds::new(self.alloc);
        for pair in pairs {
            match self.find(*pair) {
                Some(id) => ids.push(id)?,
                None => return Ok(None),
            }
        }
        Ok(Some(ids))
    }

    /// Waits for those of these pairs that are not known yet.
    fn wait_for(&mut self, pairs: &[Pair]) -> Result<(), NoMemory> {
        for pair in pairs {
            if self.find(*pair).is_none() {
                self.waiting.push(*pair)?;
            }
        }
        Ok(())
    }

    /// The innermost pair that is waited for becomes known, or its parts are waited for.
    fn turn(&mut self, table: &mut TypeTable, pair: Pair) -> Result<(), NoMemory> {
        if self.find(pair).is_some() {
            let _ = self.waiting.pop();
            return Ok(());
        }
        let plan = plan_of(self.alloc, table, pair)?;
        match self.found(plan.parts.as_slice())? {
            None => self.wait_for(plan.parts.as_slice()),
            Some(parts) => {
                let id = built(table, plan.shape, parts.as_slice(), pair.one)?;
                self.known.insert(pair, id)?;
                let _ = self.waiting.pop();
                Ok(())
            }
        }
    }

    /// Until nothing is waited for.
    fn run(&mut self, table: &mut TypeTable) -> Result<(), NoMemory> {
        for _ in 0..TURNS {
            let Some(pair) = self.waiting.last().copied() else {
                return Ok(());
            };
            self.turn(table, pair)?;
        }
        Err(NoMemory)
    }
}

/// The composite type of two compatible types of one unit (C90 6.1.2.6): an array has the number of elements that is known, a function
/// the parameters that are; of an enum and int it is the first. The types that were in the table stay. Of two types that are not
/// compatible it is some type, and numbers outside the table are read as void. Refused only for want of memory.
pub fn composite(
    alloc: Global,
    table: &mut TypeTable,
    one: TypeId,
    other: TypeId,
) -> Result<TypeId, NoMemory> {
    let pair = Pair { one, other };
    let mut composition = Composition {
        alloc,
        known: IndexMap::new(alloc),
        waiting: Vec::new(alloc),
    };
    composition.waiting.push(pair)?;
    composition.run(table)?;
    match composition.find(pair) {
        Some(id) => Ok(id),
        None => Ok(one),
    }
}
