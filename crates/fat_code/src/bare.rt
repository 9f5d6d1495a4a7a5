//! Types without their qualifiers, all of a table at once.

ghost use Rattle.std.specs.Prelude.{◌≡◌, ◌<◌, ◌/◌, length, map, if◌then◌else◌, IfOk};
ghost use Rattle.c_types.specs.Nodes.{node_at};
ghost use Rattle.fat_code.specs.Bare.{stepped, followed, IsAfter, AreBare, AreComing};

use c_types::TypeNode;
use fsc_base::NoMemory;
use std::alloc::Global;

/// The type that a qualified type qualifies; every other is itself.
fn stepped(node: &TypeNode, id: u32) -> u32
    ensures { result ≡ stepped node.now id }
{
    match node {
        TypeNode::Qualified { of, .. } => *of,
        TypeNode::Void
        | TypeNode::Basic(_)
        | TypeNode::Pointer(_)
        | TypeNode::Array { .. }
        | TypeNode::Function { .. }
        | TypeNode::Struct(_)
        | TypeNode::Union(_)
        | TypeNode::Enum(_) => id,
    }
}

/// A number of a type. Refused where it has more than 32 bits: no memory holds as many types.
fn number_of(index: usize) -> Result<u32, NoMemory>
    ensures { IfOk result (λ id. id ≡ index) }
{
    match u32::try_from(index) {
        Ok(id) => Ok(id),
        Err(_) => Err(NoMemory),
    }
}

/// Each type itself.
fn no_steps(alloc: Global, nodes: &[TypeNode]) -> Result<Vec<u32>, NoMemory>
    ensures { IfOk result (λ table. IsAfter nodes.now 0 (length nodes.now) table.items) }
{
    let mut table = Vec::new(alloc);
    for index in 0..nodes.len() {
        let id = number_of(index)?;
        table.push(id)?;
    }
    Ok(table)
}

/// Each type without its first qualifier.
fn one_step(alloc: Global, nodes: &[TypeNode]) -> Result<Vec<u32>, NoMemory>
    ensures { IfOk result (λ table. IsAfter nodes.now 1 (length nodes.now) table.items) }
{
    let mut table = Vec::new(alloc);
    for index in 0..nodes.len() {
        let id = number_of(index)?;
        table.push(stepped(&nodes[index], id))?;
    }
    Ok(table)
}

/// What a table says of a type; one that isn't in it is itself.
fn followed(table: &[u32], id: u32) -> u32
    ensures { result ≡ followed table.now id }
{
    match table.get(id as usize) {
        Some(there) => *there,
        None => id,
    }
}

/// Each type without as many qualifiers as two tables take off.
fn both(alloc: Global, first: &[u32], behind: &[u32]) -> Result<Vec<u32>, NoMemory>
    ensures { IfOk result (λ table. table.items ≡ map (followed behind.now) first.now) }
{
    let mut table = Vec::new(alloc);
    for id in first {
        table.push(followed(behind, *id))?;
    }
    Ok(table)
}

/// A table, without a number of qualifiers more where that is asked for.
fn advanced(alloc: Global, done: Vec<u32>, step: &[u32], is_odd: bool) -> Result<Vec<u32>, NoMemory>
    ensures { IfOk result (λ table. table.items ≡ (if is_odd then map (followed step.now) done.items else done.items)) }
{
    if is_odd {
        both(alloc, done.as_slice(), step)
    } else {
        Ok(done)
    }
}

/// Types without a number of their qualifiers, and without a power of 2 of them.
#[derive(Drop)]
pub(crate) struct Stripped {
    pub done: Vec<u32>,
    pub step: Vec<u32>,
}

impl Stripped {
    /// The next power of 2, where so many steps of this one are left.
    fn next(self, alloc: Global, nodes: &[TypeNode], left: usize) -> Result<Stripped, NoMemory>
        requires some { 0 < left }
        requires coming { AreComing nodes.now self left }
        ensures { IfOk result (λ after. AreComing nodes.now after (left / 2)) }
    {
        let Stripped { done, step } = self;
        let done = advanced(alloc, done, step.as_slice(), left % 2 == 1)?;
        let step = both(alloc, step.as_slice(), step.as_slice())?;
        Ok(Stripped { done, step })
    }
}

/// Each type of a table without its qualifiers, in time that grows little faster than the table does, however many qualifiers stand
/// upon one another: a number of them, which is a sum of powers of 2, is taken off at a time.
pub(crate) fn bare_types(alloc: Global, nodes: &[TypeNode]) -> Result<Vec<u32>, NoMemory>
    ensures { IfOk result (λ table. AreBare nodes.now table.items) }
{
    let mut stripped = Stripped {
        done: no_steps(alloc, nodes)?,
        step: one_step(alloc, nodes)?,
    };
    let mut left = nodes.len();
    while left > 0 {
        stripped = stripped.next(alloc, nodes, left)?;
        left /= 2;
    }
    Ok(stripped.done)
}
