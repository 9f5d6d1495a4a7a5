//! Compatible types (C90 6.1.2.6, 6.5.2, 6.5.3, 6.5.4).

use crate::bounds::TURNS;
use crate::members::ordered;
use crate::nodes::Nodes;
use c_types::{Basic, Field, Record, TypeId, TypeNode, TypeTable};
use fsc_base::NoMemory;
use indexmap::IndexSet;
use std::alloc::Global;

/// Two types that have to be compatible.
#[derive(Clone, Copy, Debug, PartialEq, Eq, Hash)]
struct Pair {
    one: TypeId,
    other: TypeId,
}

/// What a function type says besides what it returns.
#[derive(Clone, Copy)]
struct Prototype<'a> {
    is_known: bool,
    parameters: &'a [TypeId],
    is_variadic: bool,
}

/// Types of one or two units that are compared. The pairs are those that have to be compatible; each that was gone over has forms
/// that match, and the pairs of its parts among them. So when all were gone over they are a relation that proves itself.
#[derive(Drop)]
struct Comparison<'a> {
    alloc: Global,
    nodes: Nodes<'a>,
    others: Nodes<'a>,
    /// Both are one unit's, where a struct, union or enum is compatible with no other.
    is_one_unit: bool,
    pairs: IndexSet<Pair>,
}

impl<'a> Comparison<'a> {
    /// No pairs yet. It takes no memory.
    fn new(
        alloc: Global,
        nodes: Nodes<'a>,
        others: Nodes<'a>,
        is_one_unit: bool,
    ) -> Comparison<'a> {
        Comparison {
            alloc,
            nodes,
            others,
            is_one_unit,
            pairs: IndexSet::new(alloc),
        }
    }

    /// One more pair. A type of one unit is compatible with itself.
    fn ask(&mut self, one: TypeId, other: TypeId) -> Result<(), NoMemory> {
        if self.is_one_unit && one == other {
            return Ok(());
        }
        self.pairs.insert(Pair { one, other })?;
        Ok(())
    }

    /// Goes over the pairs until all are compatible or one isn't.
    fn run(&mut self) -> Result<bool, NoMemory> {
        for at in 0..TURNS {
            let Some(pair) = self.pairs.get_index(at as usize).copied() else {
                return Ok(true);
            };
            if !self.matches(pair)? {
                return Ok(false);
            }
        }
        Err(NoMemory)
    }

    /// Whether two types have the same qualifiers and forms that match (C90 6.5.3). The pairs of their parts are asked for.
    fn matches(&mut self, pair: Pair) -> Result<bool, NoMemory> {
        let one = self.nodes.bare(pair.one);
        let other = self.others.bare(pair.other);
        if one.bits != other.bits {
            return Ok(false);
        }
        if self.is_one_unit && one.of == other.of {
            return Ok(true);
        }
        match (self.nodes.node(one.of), self.others.node(other.of)) {
            (Some(one), Some(other)) => self.forms_match(one, other),
            (Some(one), None) => Ok(is_void(one)),
            (None, Some(other)) => Ok(is_void(other)),
            (None, None) => Ok(true),
        }
    }

    /// Whether two types that are not qualified have forms that match.
    fn forms_match(&mut self, one: &'a TypeNode, other: &'a TypeNode) -> Result<bool, NoMemory> {
        match one {
            TypeNode::Void => Ok(is_void(other)),
            TypeNode::Basic(basic) => Ok(basic_matches(*basic, other)),
            TypeNode::Enum(_) => Ok(self.enum_matches(other)),
            TypeNode::Pointer(to) => self.pointer_matches(*to, other),
            TypeNode::Array { of, count } => self.array_matches(*of, *count, other),
            TypeNode::Function {
                returns,
                is_known,
                parameters,
                is_variadic,
            } => {
                let prototype = Prototype {
                    is_known: *is_known,
                    parameters: parameters.as_slice(),
                    is_variadic: *is_variadic,
                };
                self.function_matches(*returns, prototype, other)
            }
            TypeNode::Struct(record) => self.struct_matches(record, other),
            TypeNode::Union(record) => self.union_matches(record, other),
            TypeNode::Qualified { .. } => Ok(false),
        }
    }

    /// An enum is compatible with int, and with every enum of another unit (C90 6.5.2.2).
    fn enum_matches(&self, other: &TypeNode) -> bool {
        match other {
            TypeNode::Basic(basic) => *basic == Basic::Int,
            TypeNode::Enum(_) => !self.is_one_unit,
            _ => false,
        }
    }

    /// Pointers to compatible types (C90 6.5.4.1).
    fn pointer_matches(&mut self, one: TypeId, other: &TypeNode) -> Result<bool, NoMemory> {
        match other {
            TypeNode::Pointer(other) => {
                self.ask(one, *other)?;
                Ok(true)
            }
            _ => Ok(false),
        }
    }

    /// Arrays of compatible elements, of the same number where both are known (C90 6.5.4.2).
    fn array_matches(
        &mut self,
        one: TypeId,
        count: u32,
        other: &TypeNode,
    ) -> Result<bool, NoMemory> {
        match other {
            TypeNode::Array { of, count: number } => {
                self.ask(one, *of)?;
                Ok(count == 0 || *number == 0 || count == *number)
            }
            _ => Ok(false),
        }
    }

    /// Functions that return compatible types and have compatible parameters (C90 6.5.4.3).
    fn function_matches(
        &mut self,
        one: TypeId,
        prototype: Prototype<'a>,
        other: &'a TypeNode,
    ) -> Result<bool, NoMemory> {
        match other {
            TypeNode::Function {
                returns,
                is_known,
                parameters,
                is_variadic,
            } => {
                self.ask(one, *returns)?;
                let second = Prototype {
                    is_known: *is_known,
                    parameters: parameters.as_slice(),
                    is_variadic: *is_variadic,
                };
                self.prototypes_match(prototype, second)
            }
            _ => Ok(false),
        }
    }

    /// Parameters of two functions. A prototype beside a declaration without one has no ellipsis, and parameters that the default
    /// argument promotions leave as they are (C90 6.5.4.3).
    fn prototypes_match(
        &mut self,
        one: Prototype<'a>,
        other: Prototype<'a>,
    ) -> Result<bool, NoMemory> {
        match (one.is_known, other.is_known) {
            (true, true) => {
                if one.is_variadic != other.is_variadic {
                    return Ok(false);
                }
                self.parameters_match(one.parameters, other.parameters)
            }
            (true, false) => Ok(!one.is_variadic && self.nodes.are_kept(one.parameters)),
            (false, true) => Ok(!other.is_variadic && self.others.are_kept(other.parameters)),
            (false, false) => Ok(true),
        }
    }

    /// Parameters one by one.
    fn parameters_match(&mut self, ones: &[TypeId], others: &[TypeId]) -> Result<bool, NoMemory> {
        if ones.len() != others.len() {
            return Ok(false);
        }
        for (one, other) in ones.iter().zip(others) {
            self.ask(*one, *other)?;
        }
        Ok(true)
    }

    /// Structs of two units: an incomplete one matches every other (C90 6.1.2.6), else the members match in order.
    fn struct_matches(&mut self, one: &'a Record, other: &'a TypeNode) -> Result<bool, NoMemory> {
        match other {
            TypeNode::Struct(other) => {
                if self.is_one_unit {
                    return Ok(false);
                }
                if !one.is_complete || !other.is_complete {
                    return Ok(true);
                }
                self.members_match(one.fields.as_slice(), other.fields.as_slice())
            }
            _ => Ok(false),
        }
    }

    /// Unions of two units: as structs, but the members match in any order.
    fn union_matches(&mut self, one: &'a Record, other: &'a TypeNode) -> Result<bool, NoMemory> {
        match other {
            TypeNode::Union(other) => {
                if self.is_one_unit {
                    return Ok(false);
                }
                if !one.is_complete || !other.is_complete {
                    return Ok(true);
                }
                self.alternatives_match(one.fields.as_slice(), other.fields.as_slice())
            }
            _ => Ok(false),
        }
    }

    /// Members one by one.
    fn members_match(&mut self, ones: &[Field], others: &[Field]) -> Result<bool, NoMemory> {
        if ones.len() != others.len() {
            return Ok(false);
        }
        for (one, other) in ones.iter().zip(others) {
            if !self.member_matches(one, other)? {
                return Ok(false);
            }
        }
        Ok(true)
    }

    /// Members in any order.
    fn alternatives_match(
        &mut self,
        ones: &'a [Field],
        others: &'a [Field],
    ) -> Result<bool, NoMemory> {
        if ones.len() != others.len() {
            return Ok(false);
        }
        let ones = ordered(self.alloc, self.nodes, ones)?;
        let others = ordered(self.alloc, self.others, others)?;
        for (one, other) in ones.as_slice().iter().zip(others.as_slice()) {
            if !self.member_matches(one.field, other.field)? {
                return Ok(false);
            }
        }
        Ok(true)
    }

    /// Two members: of one name, at the same bits, of compatible types.
    fn member_matches(&mut self, one: &Field, other: &Field) -> Result<bool, NoMemory> {
        if one.name.as_slice() != other.name.as_slice() {
            return Ok(false);
        }
        if one.first != other.first || one.count != other.count {
            return Ok(false);
        }
        self.ask(one.kind, other.kind)?;
        Ok(true)
    }
}

/// Whether a type is void.
fn is_void(node: &TypeNode) -> bool {
    matches!(node, TypeNode::Void)
}

/// An arithmetic type is compatible with itself, and int with an enum (C90 6.5.2.2).
fn basic_matches(basic: Basic, other: &TypeNode) -> bool {
    match other {
        TypeNode::Basic(other) => basic == *other,
        TypeNode::Enum(_) => basic == Basic::Int,
        _ => false,
    }
}

/// Whether two types of one unit are compatible (C90 6.1.2.6): a struct, union or enum is compatible with no other struct, union or
/// enum. A number outside the table is read as void. Refused only for want of memory.
pub fn compatible_in(
    alloc: Global,
    table: &TypeTable,
    one: TypeId,
    other: TypeId,
) -> Result<bool, NoMemory> {
    let nodes = Nodes::Table(table);
    let mut comparison = Comparison::new(alloc, nodes, nodes, true);
    comparison.ask(one, other)?;
    comparison.run()
}

/// Whether two types of different units are compatible (C90 6.1.2.6): structs whose members agree in number, order, names, bits and
/// compatible types; unions whose members do in any order; every incomplete struct or union with every other; every enum with every
/// other; tags are not compared. It is the greatest relation with these rules, so types that refer to themselves may agree. Numbers
/// outside the lists are read as void. Refused only for want of memory.
pub fn compatible(
    alloc: Global,
    nodes: &[TypeNode],
    one: TypeId,
    others: &[TypeNode],
    other: TypeId,
) -> Result<bool, NoMemory> {
    let mut comparison = Comparison::new(alloc, Nodes::Listed(nodes), Nodes::Listed(others), false);
    comparison.ask(one, other)?;
    comparison.run()
}
