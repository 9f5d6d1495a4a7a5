//! Declarators (C90 6.5.4): what they make of the type of their specifiers.

ghost use Rattle.c_check_type.specs.Nested.{IsNested, IsNestedList};

use crate::parameter::Parameters;
use crate::types::Types;
use c_conversion::Typed;
use c_scope::Scope;
use c_specifiers::{Specified, qualifier_bit};
use c_syntax::{Declarator, Expr, Parameter, Part, PartForm, Pointer, Qualifier, Specifier};
use c_types::{LayoutNo, TypeId, TypeIds, TypeNode, TypeTable};
use check_refusal::{CheckRefused, CheckRule, broken};
use fsc_base::{NoMemory, Place};
use sqlite_items::Boxed;
use std::alloc::Global;
use type_relations::qualified;

/// The list behind the plain name of a declarator, parentheses aside.
#[derive(Drop)]
pub enum Own {
    /// The part there is no list.
    Nothing,
    /// A list of parameters.
    Parameters(Parameters),
    /// A list of names, which may be empty.
    Names,
}

/// What a declarator defines.
#[derive(Drop)]
pub struct Defined {
    pub kind: TypeId,
    pub own: Own,
}

/// What stands in a part of a declarator.
#[derive(Drop)]
enum Content {
    /// Nothing that was read before.
    Nothing,
    /// How many elements; 0 where that is unknown.
    Count(u32),
    /// The types of parameters, and whether `...` ends their list.
    Parameters(TypeIds, bool),
}

/// What stands in the parts of a declarator, from the first one on.
#[derive(Drop)]
struct Contents {
    list: Vec<Content>,
    /// Whether a list of names may stand behind the name.
    may_define: bool,
    /// Whether the parts so far are a name, and parentheses around it.
    is_plain: bool,
    own: Own,
}

impl Contents {
    fn new(alloc: Global, may_define: bool) -> Contents {
        Contents {
            list: Vec::new(alloc),
            may_define,
            is_plain: false,
            own: Own::Nothing,
        }
    }

    /// A part with nothing in it that is read before.
    fn add_nothing(&mut self) -> Result<(), NoMemory> {
        self.list.push(Content::Nothing)?;
        Ok(())
    }

    /// Parameters: those of the declared function where they stand behind its name.
    fn add_parameters(
        &mut self,
        parameters: Parameters,
        is_variadic: bool,
    ) -> Result<(), NoMemory> {
        let kinds = parameters.kinds()?;
        self.list.push(Content::Parameters(kinds, is_variadic))?;
        if self.is_plain {
            self.own = Own::Parameters(parameters);
        }
        self.is_plain = false;
        Ok(())
    }

    /// A list of names. K12 at the place where it has names and is not that of a definition.
    fn add_names(&mut self, is_empty: bool, place: Place) -> Result<(), CheckRefused> {
        let is_own = self.is_plain;
        if !is_empty && !(is_own && self.may_define) {
            return Err(broken(CheckRule::K12, place));
        }
        if is_own {
            self.own = Own::Names;
        }
        self.is_plain = false;
        Ok(self.add_nothing()?)
    }
}

/// What a parameter's type is adjusted to (C90 6.7.1): an array to a pointer to its element, a function to a pointer to it.
pub fn adjusted(types: &mut TypeTable, kind: TypeId) -> Result<TypeId, NoMemory> {
    let to = match types.node(kind) {
        TypeNode::Array { of, .. } => *of,
        TypeNode::Function { .. } => kind,
        _ => return Ok(kind),
    };
    types.pointer_to(to)
}

/// The qualifiers behind a `*`. K13 at the second of two equal ones.
fn qualifier_bits(list: &[(Qualifier, Place)]) -> Result<u32, CheckRefused> {
    let mut bits = 0;
    for one in list {
        let bit = qualifier_bit(one.0);
        if bits & bit != 0 {
            return Err(broken(CheckRule::K13, one.1));
        }
        bits |= bit;
    }
    Ok(bits)
}

/// A pointer to a type, with the qualifiers behind its `*`.
fn pointer(
    alloc: Global,
    types: &mut TypeTable,
    to: TypeId,
    pointer: &Pointer,
) -> Result<TypeId, CheckRefused> {
    let bits = qualifier_bits(pointer.qualifiers.as_slice())?;
    let kind = types.pointer_to(to)?;
    Ok(qualified(alloc, types, kind, bits)?)
}

/// Pointers to pointers, from the innermost on.
fn pointers(
    alloc: Global,
    types: &mut TypeTable,
    to: TypeId,
    list: &[Pointer],
) -> Result<TypeId, CheckRefused> {
    let mut kind = to;
    for one in list {
        kind = pointer(alloc, types, kind, one)?;
    }
    Ok(kind)
}

/// An array of elements of a type. At the place K10 where that is of no complete object type, L05 where the array is larger than
/// 2^27 bytes.
fn array(
    types: &mut TypeTable,
    of: TypeId,
    count: u32,
    place: Place,
) -> Result<TypeId, CheckRefused> {
    match types.array_of(of, count) {
        Ok(kind) => Ok(kind),
        Err(LayoutNo::NoMemory) => Err(CheckRefused::NoMemory),
        Err(LayoutNo::Large) => Err(broken(CheckRule::L05, place)),
        Err(LayoutNo::Part | LayoutNo::NotIncomplete) => Err(broken(CheckRule::K10, place)),
    }
}

/// K11 at the place where a function would return an array or a function.
fn can_return(types: &TypeTable, kind: TypeId, place: Place) -> Result<(), CheckRefused> {
    match types.node(kind) {
        TypeNode::Array { .. } | TypeNode::Function { .. } => Err(broken(CheckRule::K11, place)),
        _ => Ok(()),
    }
}

/// A function that returns a type. K11 at the place where there is none.
fn function(
    types: &mut TypeTable,
    returns: TypeId,
    content: &Content,
    place: Place,
) -> Result<TypeId, CheckRefused> {
    can_return(types, returns, place)?;
    match content {
        Content::Parameters(kinds, is_variadic) => {
            Ok(types.function(returns, true, kinds.as_slice(), *is_variadic)?)
        }
        Content::Nothing | Content::Count(_) => Ok(types.function(returns, false, &[], false)?),
    }
}

/// How many elements an array part asks for; an array part without a number is read as one with none.
fn count_of(content: &Content) -> u32 {
    match content {
        Content::Count(count) => *count,
        Content::Nothing | Content::Parameters(..) => 0,
    }
}

/// What a part makes of the type of the parts outside of it.
fn derived(
    alloc: Global,
    types: &mut TypeTable,
    kind: TypeId,
    part: &Part,
    content: &Content,
) -> Result<TypeId, CheckRefused> {
    match &part.form {
        PartForm::Plain(_) | PartForm::Group => Ok(kind),
        PartForm::Pointers(list) => pointers(alloc, types, kind, list.as_slice()),
        PartForm::Array(_) => array(types, kind, count_of(content), part.place),
        PartForm::Parameters(..) | PartForm::Names(_) => {
            function(types, kind, content, part.place)
        }
    }
}

/// The type that the parts make of a base, from the outermost to the innermost.
fn derive_all(
    alloc: Global,
    types: &mut TypeTable,
    base: TypeId,
    parts: &[Part],
    contents: &mut Vec<Content>,
) -> Result<TypeId, CheckRefused> {
    let mut kind = base;
    for part in parts.iter().rev() {
        let content = contents.pop().unwrap_or(Content::Nothing);
        kind = derived(alloc, types, kind, part, &content)?;
    }
    Ok(kind)
}

/// The size of an array. K10 at the place where it is no integral constant above 0.
fn size(value: Option<i64>, place: Place) -> Result<u32, CheckRefused> {
    let Some(value) = value else {
        return Err(broken(CheckRule::K10, place));
    };
    match u32::try_from(value) {
        Ok(count) if count > 0 => Ok(count),
        _ => Err(broken(CheckRule::K10, place)),
    }
}

impl<
    E: Fn(Global, &mut Scope, u32, &Expr) -> Result<Typed, CheckRefused>,
    S: Fn(Global, &mut Scope, u32, &[Specifier]) -> Result<Specified, CheckRefused>,
    P: Fn(Global, &mut Scope, u32, &[Parameter], bool) -> Result<Parameters, CheckRefused>,
> Types<E, S, P> {
    /// The number of elements that an array part asks for.
    fn count(
        &self,
        scope: &mut Scope,
        e: &Option<Boxed<Expr>>,
        place: Place,
    ) -> Result<u32, CheckRefused>
        requires { IsNested self.now.room (E.pre self.now.expr) }
    {
        match e {
            Some(e) => size(self.constant(scope, e.get())?, place),
            None => Ok(0),
        }
    }

    /// Reads what stands in an array part.
    fn read_array(
        &self,
        scope: &mut Scope,
        contents: &mut Contents,
        e: &Option<Boxed<Expr>>,
        place: Place,
    ) -> Result<(), CheckRefused>
        requires { IsNested self.now.room (E.pre self.now.expr) }
    {
        let count = self.count(scope, e, place)?;
        contents.is_plain = false;
        contents.list.push(Content::Count(count))?;
        Ok(())
    }

    /// Reads a list of parameters.
    fn read_parameters(
        &self,
        scope: &mut Scope,
        contents: &mut Contents,
        list: &[Parameter],
        is_variadic: bool,
    ) -> Result<(), CheckRefused>
        requires { IsNestedList self.now.room (P.pre self.now.parameters) }
    {
        let parameters = self.prototype(scope, list, is_variadic)?;
        Ok(contents.add_parameters(parameters, is_variadic)?)
    }

    /// Reads what stands in a part.
    fn read_part(
        &self,
        scope: &mut Scope,
        contents: &mut Contents,
        part: &Part,
    ) -> Result<(), CheckRefused>
        requires expr { IsNested self.now.room (E.pre self.now.expr) }
        requires parameters { IsNestedList self.now.room (P.pre self.now.parameters) }
    {
        match &part.form {
            PartForm::Plain(_) => {
                contents.is_plain = true;
                Ok(contents.add_nothing()?)
            }
            PartForm::Group => Ok(contents.add_nothing()?),
            PartForm::Pointers(_) => {
                contents.is_plain = false;
                Ok(contents.add_nothing()?)
            }
            PartForm::Array(e) => self.read_array(scope, contents, e, part.place),
            PartForm::Parameters(list, is_variadic) => {
                self.read_parameters(scope, contents, list.as_slice(), *is_variadic)
            }
            PartForm::Names(names) => contents.add_names(names.is_empty(), part.place),
        }
    }

    /// Reads what stands in the parts, in order of text.
    fn read_parts(
        &self,
        scope: &mut Scope,
        parts: &[Part],
        may_define: bool,
    ) -> Result<Contents, CheckRefused>
        requires expr { IsNested self.now.room (E.pre self.now.expr) }
        requires parameters { IsNestedList self.now.room (P.pre self.now.parameters) }
    {
        let mut contents = Contents::new(self.alloc, may_define);
        for part in parts {
            self.read_part(scope, &mut contents, part)?;
        }
        Ok(contents)
    }

    /// What a declarator makes of a type, as one that may have a list of names behind its name or not.
    fn declared(
        &self,
        scope: &mut Scope,
        declarator: &Declarator,
        base: TypeId,
        may_define: bool,
    ) -> Result<Defined, CheckRefused>
        requires expr { IsNested self.now.room (E.pre self.now.expr) }
        requires parameters { IsNestedList self.now.room (P.pre self.now.parameters) }
    {
        let parts = declarator.parts.as_slice();
        let mut contents = self.read_parts(scope, parts, may_define)?;
        let kind = derive_all(
            self.alloc,
            &mut scope.types,
            base,
            parts,
            &mut contents.list,
        )?;
        Ok(Defined {
            kind,
            own: contents.own,
        })
    }

    /// The type that a declarator makes of that of its specifiers. At its parts K10 of an array's size or element, K11 of what a
    /// function returns, K12 of a list of names, L05 of an array that is too large; K13 at the second of two equal qualifiers
    /// (C90 6.5.4).
    pub fn declarator(
        &self,
        scope: &mut Scope,
        declarator: &Declarator,
        base: TypeId,
    ) -> Result<TypeId, CheckRefused>
        requires expr { IsNested self.now.room (E.pre self.now.expr) }
        requires parameters { IsNestedList self.now.room (P.pre self.now.parameters) }
    {
        Ok(self.declared(scope, declarator, base, false)?.kind)
    }

    /// The same of a function's definition, which may have a list of names; with the list behind its name.
    pub fn definition(
        &self,
        scope: &mut Scope,
        declarator: &Declarator,
        base: TypeId,
    ) -> Result<Defined, CheckRefused>
        requires expr { IsNested self.now.room (E.pre self.now.expr) }
        requires parameters { IsNestedList self.now.room (P.pre self.now.parameters) }
    {
        self.declared(scope, declarator, base, true)
    }
}
