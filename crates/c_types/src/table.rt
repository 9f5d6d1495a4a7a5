//! A unit's types.

ghost use Rattle.std.specs.Prelude.{◌≡◌, ℕ, ◌+◌, ◌*◌, ◌<◌, ◌≤◌, ◌++◌, ◌∷◌, [], ◌↔◌, length, slice_get, true, false, Some, None, Err, IsSomeAnd, IfOk, IfErr, OnOk, OnErr};
ghost use Rattle.std.specs.Option.{option_copied, option_map};
ghost use Rattle.c_types.specs.Built.{IsBuilt, IsNext, is_unqualified};
ghost use Rattle.c_types.specs.Building.{can_be_qualified, version_of, number_of, index_of, is_incomplete, is_union, with_completed, with_node, IsReasonAt};
ghost use Rattle.c_types.specs.Layouts.{layout_of, layout_in, size_of, align_of, kinds_of, members_in, members_of, member_of, members_of_record, parts_of, record_layout, size_of_fields, IsReason};
ghost use Rattle.c_types.specs.Nodes.{presets, node_at};
ghost use Rattle.c_types.specs.Numbered.{node_of};

use crate::form::{Form, FunctionForm};
use crate::laid::LaidNodes;
use crate::layout::{LARGEST, Layout, LayoutNo};
use crate::node::{Fields, Member, Members, Record, TypeId, TypeIds, TypeNode};
use fsc_base::{Name, NoMemory};
use indexmap::IndexMap;
use std::alloc::Global;
use std::marker::Model;
use type_desc::Kinds;

/// A unit's types, built node by node. Each pointer, array, function and qualified type stands in it once, so that the same type is
/// the same number; each struct, union and enum is a type of its own. Contracts see the list of nodes.
#[derive(Drop)]
pub struct TypeTable {
    alloc: Global,
    nodes: LaidNodes,
    numbers: IndexMap<Form, TypeId>,
}

impl Model for TypeTable {
    ghost use Rattle.std.specs.Prelude.{List};
    ghost use Rattle.c_types.specs.declared.node.TypeNode.{TypeNode};

    ghost Value = { List TypeNode };

    ghost use Rattle.c_types.specs.Numbered.{IsNumbered};

    ghost view = { λ t. t.nodes };

    ghost invariant = { λ t. IsNumbered t.numbers.entries t.nodes };
}

impl TypeTable {
    /// Void and the arithmetic types, under their numbers.
    pub fn new(alloc: Global) -> Result<TypeTable, NoMemory>
        ensures { IfOk result (λ table. table ≡ presets) }
    {
        Ok(TypeTable {
            alloc,
            nodes: LaidNodes::presets(alloc)?,
            numbers: IndexMap::new(alloc),
        })
    }

    /// The node of a type. A number outside the table is read as void.
    pub fn node(&self, id: TypeId) -> &TypeNode
        ensures node { result.now ≡ node_at self.now id }
        ensures built { IsBuilt self.now }
    {
        self.nodes.node(id)
    }

    /// The node at a place of the table.
    pub fn get(&self, index: usize) -> Option<&TypeNode>
        ensures { option_copied result ≡ slice_get self.now index }
    {
        self.nodes.get(index)
    }

    /// How many nodes there are.
    pub fn len(&self) -> usize
        ensures { result ≡ length self.now }
    {
        self.nodes.len()
    }

    /// The layout of a type; None exactly where it is no complete object type. It takes no memory.
    pub fn layout(&self, id: TypeId) -> Option<&Layout>
        ensures { option_copied result ≡ layout_of self.now id }
    {
        self.nodes.layout(id)
    }

    /// The size of a type in bytes; None exactly where it is no complete object type. It takes no memory.
    pub fn size(&self, id: TypeId) -> Option<u32>
        ensures { result ≡ size_of self.now id }
    {
        Some(self.nodes.layout(id)?.size)
    }

    /// The alignment of a type in bytes; None exactly where it is no complete object type. It takes no memory.
    pub fn align(&self, id: TypeId) -> Option<u32>
        ensures { result ≡ align_of self.now id }
    {
        Some(self.nodes.layout(id)?.align)
    }

    /// The kinds of a type's words, in their least period; None exactly where it is no complete object type.
    pub fn kinds(&self, alloc: Global, id: TypeId) -> Result<Option<Kinds>, NoMemory>
        ensures { IfOk result (λ kinds. kinds ≡ kinds_of self.now id) }
    {
        match self.nodes.layout(id) {
            Some(layout) => Ok(Some(Kinds::from_slice(alloc, layout.kinds.as_slice())?)),
            None => Ok(None),
        }
    }

    /// The members of a struct or union, perhaps qualified, where they lie; every other type has none. It takes no memory.
    pub fn members(&self, id: TypeId) -> &[Member]
        ensures { result.now ≡ members_of self.now id }
    {
        self.nodes.members(id)
    }

    /// The number of a form, where it stands in the table.
    fn number(&self, form: &Form) -> Option<TypeId>
        ensures { result ≡ number_of self.now (node_of form.now) }
    {
        self.numbers.get(form).copied()
    }

    /// A form that does not stand in the table, behind it. Gives its number.
    fn add_form(
        &mut self,
        form: Form,
        node: TypeNode,
        layout: Option<Layout>,
    ) -> Result<TypeId, NoMemory>
        requires same { node ≡ node_of form }
        requires absent { number_of self.old node ≡ None }
        requires next { IsNext self.old node }
        requires layout { is_unqualified node ≡ true → layout ≡ layout_in (layout_of self.old) node }
        requires members { members_in (layout_of self.old) node ≡ [] }
        ensures id { IfOk result (λ id. id ≡ length self.old) }
        ensures added { OnOk result (self.new ≡ self.old ++ node ∷ []) }
        ensures err { OnErr result (self.new ≡ self.old) }
    {
        let id = self.next_id()?;
        self.numbers.reserve(1)?;
        self.nodes.push(node, layout)?;
        match self.numbers.insert(form, id) {
            Ok(_) => Ok(id),
            Err(_) => unreachable!(),
        }
    }

    /// The number of the next node.
    fn next_id(&self) -> Result<TypeId, NoMemory>
        ensures { IfOk result (λ id. id ≡ length self.now) }
    {
        let count = self.nodes.len();
        if count <= 0xffff_ffff {
            Ok(count as u32)
        } else {
            Err(NoMemory)
        }
    }

    /// A node that is a type of its own, behind the others. Gives its number.
    fn add_own(&mut self, node: TypeNode, layout: Option<Layout>) -> Result<TypeId, NoMemory>
        requires own { (one : Form) → number_of (self.old ++ node ∷ []) (node_of one) ≡ number_of self.old (node_of one) }
        requires next { IsNext self.old node }
        requires layout { is_unqualified node ≡ true → layout ≡ layout_in (layout_of self.old) node }
        requires members { members_in (layout_of self.old) node ≡ [] }
        ensures id { IfOk result (λ id. id ≡ length self.old) }
        ensures added { OnOk result (self.new ≡ self.old ++ node ∷ []) }
        ensures err { OnErr result (self.new ≡ self.old) }
    {
        let id = self.next_id()?;
        self.nodes.push(node, layout)?;
        Ok(id)
    }

    /// The type of pointers to a type.
    pub fn pointer_to(&mut self, to: TypeId) -> Result<TypeId, NoMemory>
        ensures id { IfOk result (λ id. id ≡ index_of self.old (TypeNode.Pointer to)) }
        ensures nodes { OnOk result (self.new ≡ with_node self.old (TypeNode.Pointer to)) }
        ensures err { OnErr result (self.new ≡ self.old) }
    {
        let form = Form::Pointer(to);
        match self.number(&form) {
            Some(id) => Ok(id),
            None => {
                let layout = Layout::scalar(self.alloc, 4)?;
                self.add_form(form, TypeNode::Pointer(to), Some(layout))
            }
        }
    }

    /// What the qualified version of a type that is no array qualifies, and all its qualifiers.
    fn version(&self, id: TypeId, bits: u32) -> (TypeId, u32)
        ensures version { TypeNode.Qualified result.0 result.1 ≡ version_of self.now id bits }
        ensures built { IsBuilt self.now }
    {
        match self.node(id) {
            TypeNode::Qualified { of, bits: own } => (*of, bits | *own),
            TypeNode::Void
            | TypeNode::Basic(_)
            | TypeNode::Pointer(_)
            | TypeNode::Array { .. }
            | TypeNode::Function { .. }
            | TypeNode::Struct(_)
            | TypeNode::Union(_)
            | TypeNode::Enum(_) => (id, bits),
        }
    }

    /// The qualified version of a type that is no array: 1 for const, 2 for volatile, 3 for both. They are joined with the type's own
    /// (C90 6.1.2.5).
    pub fn qualified_version(&mut self, id: TypeId, bits: u32) -> Result<TypeId, NoMemory>
        requires within { id < length self.old }
        requires no_array { can_be_qualified (node_at self.old id) ≡ true }
        ensures id { IfOk result (λ version. version ≡ index_of self.old (version_of self.old id bits)) }
        ensures nodes { OnOk result (self.new ≡ with_node self.old (version_of self.old id bits)) }
        ensures err { OnErr result (self.new ≡ self.old) }
    {
        let (of, bits) = self.version(id, bits);
        let form = Form::Qualified(of, bits);
        match self.number(&form) {
            Some(version) => Ok(version),
            None => self.add_form(form, TypeNode::Qualified { of, bits }, None),
        }
    }

    /// A struct of its own, not complete yet.
    pub fn add_struct(&mut self, tag: Name) -> Result<TypeId, NoMemory>
        ensures id { IfOk result (λ id. id ≡ length self.old) }
        ensures nodes { OnOk result (self.new ≡ self.old ++ TypeNode.Struct (record { tag = tag; is_complete = false; fields = [] }) ∷ []) }
        ensures err { OnErr result (self.new ≡ self.old) }
    {
        let fields = Fields::new(self.alloc);
        self.add_own(
            TypeNode::Struct(Record {
                tag,
                is_complete: false,
                fields,
            }),
            None,
        )
    }

    /// A union of its own, not complete yet.
    pub fn add_union(&mut self, tag: Name) -> Result<TypeId, NoMemory>
        ensures id { IfOk result (λ id. id ≡ length self.old) }
        ensures nodes { OnOk result (self.new ≡ self.old ++ TypeNode.Union (record { tag = tag; is_complete = false; fields = [] }) ∷ []) }
        ensures err { OnErr result (self.new ≡ self.old) }
    {
        let fields = Fields::new(self.alloc);
        self.add_own(
            TypeNode::Union(Record {
                tag,
                is_complete: false,
                fields,
            }),
            None,
        )
    }

    /// An enum of its own.
    pub fn add_enum(&mut self, tag: Name) -> Result<TypeId, NoMemory>
        ensures id { IfOk result (λ id. id ≡ length self.old) }
        ensures nodes { OnOk result (self.new ≡ self.old ++ TypeNode.Enum tag ∷ []) }
        ensures err { OnErr result (self.new ≡ self.old) }
    {
        let layout = Layout::scalar(self.alloc, 4)?;
        self.add_own(TypeNode::Enum(tag), Some(layout))
    }

    /// A function type. Its parameters are given without their own qualifiers, arrays and functions among them as pointers.
    pub fn function(
        &mut self,
        returns: TypeId,
        is_known: bool,
        parameters: &[TypeId],
        is_variadic: bool,
    ) -> Result<TypeId, NoMemory>
        ensures id { IfOk result (λ id. id ≡ index_of self.old (TypeNode.Function returns is_known parameters.now is_variadic)) }
        ensures nodes { OnOk result (self.new ≡ with_node self.old (TypeNode.Function returns is_known parameters.now is_variadic)) }
        ensures err { OnErr result (self.new ≡ self.old) }
    {
        let form = FunctionForm::of(self.alloc, returns, is_known, parameters, is_variadic)?;
        match self.number(&form) {
            Some(id) => Ok(id),
            None => {
                let parameters = TypeIds::from_slice(self.alloc, parameters)?;
                self.add_form(
                    form,
                    TypeNode::Function {
                        returns,
                        is_known,
                        parameters,
                        is_variadic,
                    },
                    None,
                )
            }
        }
    }

    /// The type of arrays of so many elements of a type; 0 where their number is unknown. It is refused where the element is of no
    /// complete object type, or where the array would be larger than 2^27 bytes.
    pub fn array_of(&mut self, of: TypeId, count: u32) -> Result<TypeId, LayoutNo>
        ensures part { (result ≡ Err LayoutNo.Part) ↔ (size_of self.old of ≡ None) }
        ensures large { (result ≡ Err LayoutNo.Large) ↔ IsSomeAnd (size_of self.old of) (λ size. 134217728 < size * count) }
        ensures id { IfOk result (λ id. id ≡ index_of self.old (TypeNode.Array of count)) }
        ensures nodes { OnOk result (self.new ≡ with_node self.old (TypeNode.Array of count)) }
        ensures err { OnErr result (self.new ≡ self.old) }
    {
        let size = match self.size(of) {
            Some(size) => size,
            None => return Err(LayoutNo::Part),
        };
        if u64::from(size) * u64::from(count) > LARGEST {
            return Err(LayoutNo::Large);
        }
        match self.array_within(of, count) {
            Ok(id) => Ok(id),
            Err(NoMemory) => Err(LayoutNo::NoMemory),
        }
    }

    /// The type of arrays that are not too large.
    fn array_within(&mut self, of: TypeId, count: u32) -> Result<TypeId, NoMemory>
        requires { IsSomeAnd (size_of self.old of) (λ size. size * count ≤ 134217728) }
        ensures id { IfOk result (λ id. id ≡ index_of self.old (TypeNode.Array of count)) }
        ensures nodes { OnOk result (self.new ≡ with_node self.old (TypeNode.Array of count)) }
        ensures err { OnErr result (self.new ≡ self.old) }
    {
        let form = Form::Array(of, count);
        match self.number(&form) {
            Some(id) => Ok(id),
            None => {
                let layout = self.array_layout(of, count)?;
                self.add_form(form, TypeNode::Array { of, count }, layout)
            }
        }
    }

    /// The layout of an array that is not too large.
    fn array_layout(&self, of: TypeId, count: u32) -> Result<Option<Layout>, NoMemory>
        requires { IsSomeAnd (size_of self.now of) (λ size. size * count ≤ 134217728) }
        ensures layout { IfOk result (λ layout. layout ≡ layout_in (layout_of self.now) (TypeNode.Array of count)) }
        ensures built { IsBuilt self.now }
    {
        let _ = self.node(of);
        match self.nodes.layout(of) {
            Some(element) => element.times(self.alloc, count),
            None => unreachable!(),
        }
    }

    /// The layout and the members that a struct or union with these fields has: a bit-field at bit 0 opens a unit of 4 bytes, every
    /// other lies in that of the one before. Refused where a field is of no complete object type, or where it would be larger than
    /// 2^27 bytes.
    pub fn lay_out(&self, is_union: bool, fields: &Fields) -> Result<(Layout, Members), LayoutNo>
        ensures layout { IfOk result (λ r. option_map (record_layout is_union) (parts_of (layout_of self.now) fields.now) ≡ Some r.0) }
        ensures members { IfOk result (λ r. members_of_record is_union (parts_of (layout_of self.now) fields.now) ≡ r.1) }
        ensures refused { IfErr result (IsReason (size_of_fields is_union (layout_of self.now) fields.now)) }
    {
        self.nodes.lay_out(is_union, fields.as_slice())
    }

    /// Makes an incomplete struct or union complete, with these fields; all other types of the table stay. Refused where it is none,
    /// where a field is of no complete object type, or where it would be larger than 2^27 bytes; all stays then as it was.
    pub fn complete(&mut self, id: TypeId, fields: Fields) -> Result<(), LayoutNo>
        ensures completed { OnOk result (self.new ≡ with_completed self.old id fields) }
        ensures incomplete { OnOk result (is_incomplete (node_at self.old id) ≡ true) }
        ensures size { OnOk result (IsSomeAnd (size_of_fields (is_union (node_at self.old id)) (layout_of self.old) fields) (λ size. size ≤ 134217728)) }
        ensures refused { IfErr result (IsReasonAt self.old id fields) }
        ensures err { OnErr result (self.new ≡ self.old) }
    {
        self.nodes.complete(id, fields)?;
        Ok(())
    }

    /// The member of a struct or union that has that name. It takes no memory.
    pub fn find_member(&self, id: TypeId, name: &Name) -> Option<&Member>
        ensures { option_copied result ≡ member_of self.now id name.now }
    {
        let name = name.as_slice();
        self.members(id)
            .iter()
            .find(|member| member.name.as_slice() == name)
    }
}
