//! Nodes with their layouts.

ghost use Rattle.std.specs.Prelude.{◌≡◌, ◌++◌, ◌∷◌, [], ◌<◌, ◌≤◌, length, slice_get, slice_index_or, OnOk, OnErr, IfOk, IfErr, IsSomeAnd, Bool, Err, Some, None, IsSome, true};
ghost use Rattle.std.specs.Option.{option_copied, option_map};
ghost use Rattle.c_types.specs.Nodes.{node_at, presets, unqualified_in};
ghost use Rattle.c_types.specs.Layouts.{layout_of, layout_in, members_in, members_of, members_of_record, parts_of, record_layout, scalar, size_of_fields, IsReason};
ghost use Rattle.c_types.specs.Parts.{parts_in};
ghost use Rattle.c_types.specs.Building.{completed, is_incomplete, is_union, with_completed, IsReasonAt};
ghost use Rattle.c_types.specs.Built.{IsBuilt, IsModest, IsNext, is_unqualified};
ghost use Rattle.c_types.specs.Kept.{layout_kept};

use crate::layout::{Layout, LayoutNo};
use crate::node::{Basic, Field, Fields, Member, Members, TypeId, TypeNode};
use crate::record::{PartOf, lay_out};
use fsc_base::NoMemory;
use std::alloc::Global;
use std::marker::Model;

/// A node and what it makes of its parts.
#[derive(Debug, Drop)]
pub(crate) struct Kept {
    pub node: TypeNode,
    /// None of a type that has none, and of a qualified one, which has that of the type that it qualifies.
    pub layout: Option<Layout>,
    /// The members of a struct or union.
    pub members: Members,
}

impl Kept {
    /// A struct or union whose members become known, with the layout and the members that it then has.
    fn complete(&mut self, fields: Fields, layout: Layout, members: Members)
        ensures { self.new ≡ record { node = completed fields self.old.node; layout = Some layout; members = members } }
    {
        self.node.complete(fields);
        self.layout = Some(layout);
        self.members = members;
    }
}

/// Nodes, each behind those that its layout is made of, with these layouts. Contracts see the list of nodes.
#[derive(Drop)]
pub(crate) struct LaidNodes {
    alloc: Global,
    kept: Vec<Kept>,
    /// What a number outside the table is read as.
    outside: TypeNode,
}

impl Model for LaidNodes {
    ghost use Rattle.std.specs.Prelude.{List, ◌≡◌};
    ghost use Rattle.c_types.specs.declared.node.TypeNode.{TypeNode};

    ghost Value = { List TypeNode };

    ghost use Rattle.c_types.specs.declared.node.TypeNode.TheVariants.{Void};
    ghost use Rattle.c_types.specs.Kept.{nodes_of, IsKept};

    ghost view = { λ t. nodes_of t.kept.items };

    ghost invariant = { λ t. IsKept t.kept.items t.outside };
}

impl LaidNodes {
    /// No nodes.
    pub fn new(alloc: Global) -> LaidNodes
        ensures { result ≡ [] }
    {
        LaidNodes {
            alloc,
            kept: Vec::new(alloc),
            outside: TypeNode::Void,
        }
    }

    /// Void and the arithmetic types, under their numbers. Refused only for want of memory.
    pub fn presets(alloc: Global) -> Result<LaidNodes, NoMemory>
        ensures { IfOk result (λ t. t ≡ presets) }
    {
        let mut nodes = LaidNodes::new(alloc);
        nodes.push(TypeNode::Void, None)?;
        nodes.push_basic(Basic::Char)?;
        nodes.push_basic(Basic::SignedChar)?;
        nodes.push_basic(Basic::UnsignedChar)?;
        nodes.push_basic(Basic::Short)?;
        nodes.push_basic(Basic::UnsignedShort)?;
        nodes.push_basic(Basic::Int)?;
        nodes.push_basic(Basic::Unsigned)?;
        nodes.push_basic(Basic::Long)?;
        nodes.push_basic(Basic::UnsignedLong)?;
        Ok(nodes)
    }

    /// One more arithmetic type.
    fn push_basic(&mut self, basic: Basic) -> Result<(), NoMemory>
        ensures pushed { OnOk result (self.new ≡ self.old ++ TypeNode.Basic basic ∷ []) }
    {
        let layout = Layout::scalar(self.alloc, basic.size())?;
        self.push(TypeNode::Basic(basic), Some(layout))
    }

    /// The node at a place of the table.
    pub fn get(&self, index: usize) -> Option<&TypeNode>
        ensures { option_copied result ≡ slice_get self.now index }
    {
        match self.kept.get(index) {
            Some(kept) => Some(&kept.node),
            None => None,
        }
    }

    /// How many nodes there are.
    pub fn len(&self) -> usize
        ensures { result ≡ length self.now }
    {
        self.kept.len()
    }

    /// The node of a type. A number outside the table is read as void.
    pub fn node(&self, id: TypeId) -> &TypeNode
        ensures node { result.now ≡ node_at self.now id }
        ensures built { IsBuilt self.now }
    {
        match self.kept.get(id as usize) {
            Some(kept) => &kept.node,
            None => &self.outside,
        }
    }

    /// The type that a qualified type qualifies; every other is itself.
    pub fn unqualified(&self, id: TypeId) -> TypeId
        ensures bare { result ≡ unqualified_in (λ of. of) id (node_at self.now id) }
        ensures built { IsBuilt self.now }
    {
        match self.node(id) {
            TypeNode::Qualified { of, .. } => *of,
            TypeNode::Void
            | TypeNode::Basic(_)
            | TypeNode::Pointer(_)
            | TypeNode::Array { .. }
            | TypeNode::Function { .. }
            | TypeNode::Struct(_)
            | TypeNode::Union(_)
            | TypeNode::Enum(_) => id,
        }
    }

    /// What is kept as the layout of a type that is not qualified.
    fn kept_layout(&self, id: TypeId) -> Option<&Layout>
        ensures { is_unqualified (node_at self.now id) ≡ true → option_copied result ≡ layout_of self.now id }
    {
        self.kept.get(id as usize)?.layout.as_ref()
    }

    /// The layout of a type; None exactly where it is no complete object type.
    pub fn layout(&self, id: TypeId) -> Option<&Layout>
        ensures { option_copied result ≡ layout_of self.now id }
    {
        self.kept_layout(self.unqualified(id))
    }

    /// The members of a struct or union, perhaps qualified; every other type has none.
    pub fn members(&self, id: TypeId) -> &[Member]
        ensures { result.now ≡ members_of self.now id }
    {
        self.kept_members(self.unqualified(id))
    }

    /// What is kept as the members of a type.
    fn kept_members(&self, id: TypeId) -> &[Member]
        ensures { result.now ≡ members_in (layout_of self.now) (node_at self.now id) }
    {
        match self.kept.get(id as usize) {
            Some(kept) => kept.members.as_slice(),
            None => &[],
        }
    }

    /// One more node behind the others, with its layout. Refused only for want of memory; all stays then as it was.
    pub fn push(&mut self, node: TypeNode, layout: Option<Layout>) -> Result<(), NoMemory>
        requires next { IsNext self.old node }
        requires layout { is_unqualified node ≡ true → layout ≡ layout_in (layout_of self.old) node }
        requires members { members_in (layout_of self.old) node ≡ [] }
        ensures pushed { OnOk result (self.new ≡ self.old ++ node ∷ []) }
        ensures err { OnErr result (self.new ≡ self.old) }
    {
        let members = Members::new(self.alloc);
        self.kept.push(Kept {
            node,
            layout,
            members,
        })?;
        Ok(())
    }

    /// Fields with the layouts of their types; Part exactly where one of them has none.
    fn parts<'a>(&'a self, fields: &'a [Field]) -> Result<Vec<PartOf<'a>>, LayoutNo>
        ensures found { IfOk result (λ parts. parts_of (layout_of self.now) fields.now ≡ Some (parts_in parts.items)) }
        ensures refused { (is_union : Bool) → IfErr result (IsReason (size_of_fields is_union (layout_of self.now) fields.now)) }
        ensures built { IsBuilt self.now }
    {
        let _ = self.node(0);
        let mut parts = Vec::new(self.alloc);
        for field in fields {
            match self.layout(field.kind) {
                Some(layout) => parts.push(PartOf { field, layout })?,
                None => return Err(LayoutNo::Part),
            }
        }
        Ok(parts)
    }

    /// The layout and the members that a struct or union with these fields has. Part only where a field's type has no layout, Large only
    /// where it is larger than 2^27 bytes.
    pub fn lay_out(&self, is_union: bool, fields: &[Field]) -> Result<(Layout, Members), LayoutNo>
        ensures layout { IfOk result (λ r. option_map (record_layout is_union) (parts_of (layout_of self.now) fields.now) ≡ Some r.0) }
        ensures members { IfOk result (λ r. members_of_record is_union (parts_of (layout_of self.now) fields.now) ≡ r.1) }
        ensures modest { IfOk result (λ r. IsModest r.0) }
        ensures refused { IfErr result (IsReason (size_of_fields is_union (layout_of self.now) fields.now)) }
    {
        let parts = self.parts(fields)?;
        lay_out(self.alloc, is_union, parts.as_slice())
    }

    /// An incomplete struct or union becomes complete, with these fields. NotIncomplete exactly where it is none; Part and
    /// Large as in `lay_out`. When it is refused, all stays as it was.
    pub fn complete(&mut self, id: TypeId, fields: Fields) -> Result<(), LayoutNo>
        ensures completed { OnOk result (self.new ≡ with_completed self.old id fields) }
        ensures incomplete { OnOk result (is_incomplete (node_at self.old id) ≡ true) }
        ensures size { OnOk result (IsSomeAnd (size_of_fields (is_union (node_at self.old id)) (layout_of self.old) fields) (λ size. size ≤ 134217728)) }
        ensures refused { IfErr result (IsReasonAt self.old id fields) }
        ensures err { OnErr result (self.new ≡ self.old) }
    {
        let Some(is_union) = self.node(id).incomplete_is_union() else {
            return Err(LayoutNo::NotIncomplete);
        };
        let (layout, members) = self.lay_out(is_union, fields.as_slice())?;
        self.kept[id as usize].complete(fields, layout, members);
        Ok(())
    }
}
