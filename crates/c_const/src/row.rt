//! What each form of expression gives from what its parts give; None of a part is no constant.

ghost use Rattle.std.specs.Prelude.{◌≡◌, ℕ, ◌*◌, ◌-◌, ◌%◌, ◌^◌, ◌&&◌, not, if◌then◌else◌, Some};
ghost use Rattle.std.specs.Option.{option_and_then};
ghost use Rattle.c_ops.specs.Words.{plain as plain_word};
ghost use Rattle.c_ops.specs.Operators.{operated, turned as turned_word};
ghost use Rattle.c_tree.specs.Constants.{Whole, number_of as numbered, with_number, with_numbers, whole, unless_live, is_set as is_set_number, as_number, pointer_behind, place_under};
ghost use Rattle.c_const.specs.Told.{told_of};

use crate::value::{Value, plain};
use c_ops::{Operator, UnaryOperator};

/// The number of an integer.
fn number_of(value: Option<Value>) -> Option<u32>
    ensures { result ≡ numbered (told_of value) }
{
    match value {
        Some(value) => value.number(),
        None => None,
    }
}

/// Whether what is evaluated where a number is not 0 is evaluated.
pub(crate) fn live_on_set(is_live: bool, value: Option<Value>) -> bool
    ensures { (n : ℕ) → numbered (told_of value) ≡ Some n → result ≡ (is_live && is_set_number n) }
{
    match number_of(value) {
        Some(number) => is_live && number != 0,
        None => false,
    }
}

/// Whether what is evaluated where a number is 0 is evaluated.
pub(crate) fn live_on_zero(is_live: bool, value: Option<Value>) -> bool
    ensures { (n : ℕ) → numbered (told_of value) ≡ Some n → result ≡ (is_live && not (is_set_number n)) }
{
    match number_of(value) {
        Some(number) => is_live && number == 0,
        None => false,
    }
}

/// An operator with one operand (C90 6.3.3.3).
pub(crate) fn turned(op: UnaryOperator, operand: Option<Value>) -> Option<Value>
    ensures { told_of result ≡ with_number (told_of operand) (λ n. Some (whole (turned_word op (plain_word n)))) }
{
    match number_of(operand) {
        Some(number) => Some(Value::Whole(op.apply(plain(number)).value)),
        None => None,
    }
}

/// An operator on two integers (C90 6.3.5 to 6.3.12).
pub(crate) fn combined(
    op: Operator,
    left: Option<Value>,
    right: Option<Value>,
    is_live: bool,
) -> Option<Value>
    ensures { told_of result ≡ with_numbers (told_of left) (told_of right) (λ l r. unless_live is_live (operated op (plain_word l) (plain_word r))) }
{
    match number_of(left) {
        Some(left) => match number_of(right) {
            Some(right) => computed(op, left, right, is_live),
            None => None,
        },
        None => None,
    }
}

/// The same of two numbers. A division by zero gives nothing where it is evaluated, and else any number.
fn computed(op: Operator, left: u32, right: u32, is_live: bool) -> Option<Value>
    ensures { told_of result ≡ unless_live is_live (operated op (plain_word left) (plain_word right)) }
{
    match op.apply(plain(left), plain(right)) {
        Some(word) => Some(Value::Whole(word.value)),
        None => { if is_live { None } else { Some(Value::Whole(0)) } }
    }
}

/// `left && right` (C90 6.3.13).
pub(crate) fn both(left: Option<Value>, right: Option<Value>) -> Option<Value>
    ensures { told_of result ≡ with_numbers (told_of left) (told_of right) (λ l r. Some (Whole (as_number (is_set_number l && is_set_number r)))) }
{
    match number_of(left) {
        Some(left) => match number_of(right) {
            Some(right) => Some(Value::Whole(u32::from(left != 0 && right != 0))),
            None => None,
        },
        None => None,
    }
}

/// `left || right` (C90 6.3.14).
pub(crate) fn either(left: Option<Value>, right: Option<Value>) -> Option<Value>
    ensures { told_of result ≡ with_numbers (told_of left) (told_of right) (λ l r. Some (Whole (if is_set_number l then 1 else as_number (is_set_number r)))) }
{
    match number_of(left) {
        Some(left) => match number_of(right) {
            Some(right) => Some(Value::Whole(u32::from(left != 0 || right != 0))),
            None => None,
        },
        None => None,
    }
}

/// `test ? left : right`, of integers (C90 6.3.15).
pub(crate) fn chosen(
    test: Option<Value>,
    left: Option<Value>,
    right: Option<Value>,
) -> Option<Value>
    ensures { told_of result ≡ with_number (told_of test) (λ t. with_numbers (told_of left) (told_of right) (λ l r. Some (Whole (if is_set_number t then l else r)))) }
{
    match number_of(test) {
        Some(test) => chosen_by(test, number_of(left), number_of(right)),
        None => None,
    }
}

/// One of two numbers, where both are constant.
fn chosen_by(test: u32, left: Option<u32>, right: Option<u32>) -> Option<Value>
    ensures { told_of result ≡ option_and_then (λ l. option_and_then (λ r. Some (Whole (if is_set_number test then l else r))) right) left }
{
    match left {
        Some(left) => match right {
            Some(right) => Some(Value::Whole(if test != 0 { left } else { right })),
            None => None,
        },
        None => None,
    }
}

/// The place of an element under a pointer (C90 6.3.2.1).
#[tactic(auto, using(crate::proofs::Wrapping::placed_wrapped))]
pub(crate) fn element(pointer: Option<Value>, index: Option<Value>, size: u32) -> Option<Value>
    ensures { told_of result ≡ with_number (told_of index) (λ n. option_and_then (place_under (n * size)) (told_of pointer)) }
{
    match number_of(index) {
        Some(number) => place(pointer, number.wrapping_mul(size)),
        None => None,
    }
}

/// A pointer plus an integer, for elements of so many bytes (C90 6.3.6).
#[tactic(auto, using(crate::proofs::Wrapping::behind_wrapped))]
pub(crate) fn raised(pointer: Option<Value>, index: Option<Value>, size: u32) -> Option<Value>
    ensures { told_of result ≡ with_number (told_of index) (λ n. option_and_then (pointer_behind (n * size)) (told_of pointer)) }
{
    match number_of(index) {
        Some(number) => moved(pointer, number.wrapping_mul(size)),
        None => None,
    }
}

/// A pointer minus an integer, for elements of so many bytes (C90 6.3.6).
#[tactic(auto, using(crate::proofs::Wrapping::behind_wrapped))]
pub(crate) fn lowered(pointer: Option<Value>, index: Option<Value>, size: u32) -> Option<Value>
    ensures { told_of result ≡ with_number (told_of index) (λ n. option_and_then (pointer_behind (2 ^ 32 - n * size % 2 ^ 32)) (told_of pointer)) }
{
    match number_of(index) {
        Some(number) => moved(pointer, number.wrapping_mul(size).wrapping_neg()),
        None => None,
    }
}

/// A place so many bytes behind (C90 6.3.2.3).
pub(crate) fn place(value: Option<Value>, bytes: u32) -> Option<Value>
    ensures { told_of result ≡ option_and_then (place_under bytes) (told_of value) }
{
    match value {
        Some(value) => value.place_under(bytes),
        None => None,
    }
}

/// A pointer so many bytes behind.
fn moved(value: Option<Value>, bytes: u32) -> Option<Value>
    ensures { told_of result ≡ option_and_then (pointer_behind bytes) (told_of value) }
{
    match value {
        Some(value) => value.pointer_behind(bytes),
        None => None,
    }
}
