//! Nodes of expressions over what was read.

use c_cursor::{ParseRefused, Read, outside};
use c_syntax::{Binary, Expr, ExprForm, Step, TypeName, Unary};
use fsc_base::{Name, Place};
use sqlite_items::{Boxed, Items};
use std::alloc::{AllocError, Global};

/// An expression that holds no other.
pub fn leaf(place: Place, form: ExprForm) -> Read<Expr> {
    Read {
        node: Expr { place, form },
        height: 1,
    }
}

/// An expression over things of these heights.
fn over(place: Place, form: ExprForm, first: u32, second: u32) -> Read<Expr> {
    Read {
        node: Expr { place, form },
        height: outside(first, second),
    }
}

/// `(e)`.
pub fn parenthesis(
    alloc: Global,
    place: Place,
    inside: Read<Expr>,
) -> Result<Read<Expr>, AllocError> {
    let form = ExprForm::Parenthesis(Boxed::new(alloc, inside.node)?);
    Ok(over(place, form, inside.height, 0))
}

/// `++e`, `--e`.
pub fn stepped_before(
    alloc: Global,
    place: Place,
    step: Step,
    operand: Read<Expr>,
) -> Result<Read<Expr>, AllocError> {
    let form = ExprForm::Prefix(step, Boxed::new(alloc, operand.node)?);
    Ok(over(place, form, operand.height, 0))
}

/// `e++`, `e--`.
pub fn stepped_behind(
    alloc: Global,
    step: Step,
    operand: Read<Expr>,
) -> Result<Read<Expr>, AllocError> {
    let place = operand.node.place;
    let form = ExprForm::Postfix(step, Boxed::new(alloc, operand.node)?);
    Ok(over(place, form, operand.height, 0))
}

/// `& * + - ~ !` before an operand.
pub fn unary(
    alloc: Global,
    place: Place,
    operator: Unary,
    operand: Read<Expr>,
) -> Result<Read<Expr>, AllocError> {
    let form = ExprForm::Unary(operator, Boxed::new(alloc, operand.node)?);
    Ok(over(place, form, operand.height, 0))
}

/// `sizeof e`.
pub fn size_of_expr(
    alloc: Global,
    place: Place,
    operand: Read<Expr>,
) -> Result<Read<Expr>, AllocError> {
    let form = ExprForm::SizeOfExpr(Boxed::new(alloc, operand.node)?);
    Ok(over(place, form, operand.height, 0))
}

/// `sizeof(T)`.
pub fn size_of_type(
    alloc: Global,
    place: Place,
    name: Read<TypeName>,
) -> Result<Read<Expr>, AllocError> {
    let form = ExprForm::SizeOfType(Boxed::new(alloc, name.node)?);
    Ok(over(place, form, name.height, 0))
}

/// `(T)e`.
pub fn cast(
    alloc: Global,
    place: Place,
    name: Read<TypeName>,
    operand: Read<Expr>,
) -> Result<Read<Expr>, AllocError> {
    let to = Boxed::new(alloc, name.node)?;
    let form = ExprForm::Cast(to, Boxed::new(alloc, operand.node)?);
    Ok(over(place, form, name.height, operand.height))
}

/// Two operands with an operator between them.
pub fn binary(
    alloc: Global,
    operator: Binary,
    left: Read<Expr>,
    right: Read<Expr>,
) -> Result<Read<Expr>, AllocError> {
    let place = left.node.place;
    let first = Boxed::new(alloc, left.node)?;
    let form = ExprForm::Binary(operator, first, Boxed::new(alloc, right.node)?);
    Ok(over(place, form, left.height, right.height))
}

/// `a ? b : c`.
pub fn conditional(
    alloc: Global,
    test: Read<Expr>,
    yes: Read<Expr>,
    no: Read<Expr>,
) -> Result<Read<Expr>, AllocError> {
    let place = test.node.place;
    let first = Boxed::new(alloc, test.node)?;
    let second = Boxed::new(alloc, yes.node)?;
    let form = ExprForm::Conditional(first, second, Boxed::new(alloc, no.node)?);
    Ok(over(place, form, test.height.max(yes.height), no.height))
}

/// `a = b`, and with an operator the compound assignment by it.
pub fn assignment(
    alloc: Global,
    operator: Option<Binary>,
    left: Read<Expr>,
    right: Read<Expr>,
) -> Result<Read<Expr>, AllocError> {
    let place = left.node.place;
    let first = Boxed::new(alloc, left.node)?;
    let form = ExprForm::Assign(operator, first, Boxed::new(alloc, right.node)?);
    Ok(over(place, form, left.height, right.height))
}

/// `a[b]`.
pub fn subscript(
    alloc: Global,
    array: Read<Expr>,
    index: Read<Expr>,
) -> Result<Read<Expr>, AllocError> {
    let place = array.node.place;
    let first = Boxed::new(alloc, array.node)?;
    let form = ExprForm::Subscript(first, Boxed::new(alloc, index.node)?);
    Ok(over(place, form, array.height, index.height))
}

/// A call with arguments.
pub fn call(
    alloc: Global,
    function: Read<Expr>,
    arguments: Read<Items<Expr>>,
) -> Result<Read<Expr>, AllocError> {
    let place = function.node.place;
    let form = ExprForm::Call(Boxed::new(alloc, function.node)?, arguments.node);
    Ok(over(place, form, function.height, arguments.height))
}

/// `e.m`.
pub fn member(alloc: Global, record: Read<Expr>, name: Name) -> Result<Read<Expr>, AllocError> {
    let place = record.node.place;
    let form = ExprForm::Member(Boxed::new(alloc, record.node)?, name);
    Ok(over(place, form, record.height, 0))
}

/// `e->m`.
pub fn pointer_member(
    alloc: Global,
    pointer: Read<Expr>,
    name: Name,
) -> Result<Read<Expr>, AllocError> {
    let place = pointer.node.place;
    let form = ExprForm::PointerMember(Boxed::new(alloc, pointer.node)?, name);
    Ok(over(place, form, pointer.height, 0))
}

/// `a, b, ..`.
pub fn comma(place: Place, parts: Read<Items<Expr>>) -> Read<Expr> {
    over(place, ExprForm::Comma(parts.node), parts.height, 0)
}
