//! Operations.

ghost use Rattle.std.specs.Prelude.{◌≡◌, ◌+◌, ◌-◌, ◌^◌, ◌≤◌, ◌++◌, ◌∷◌, [], length, min, OnOk};
ghost use Rattle.fat_code.specs.declared.fault.Version.TheVariants.{Two};
ghost use Rattle.std.specs.Prelude.{◌≢◌, IfSome, IsNone, true, false};
ghost use Rattle.fat_code.specs.declared.op.Op.TheVariants as op;
ghost use Rattle.unit_file.specs.Reading.{ReadsBehind, IsTag};
ghost use Rattle.unit_file.specs.Spelling.{number as number_bytes, numbers, op_numbers, spelled_op};

use crate::number::{Found, bad, put_numbers, read_flag, read_number, read_width, tagged};
use crate::spelled::Spelled;
use crate::tag::{
    binary_of, number_of_binary, number_of_flag, number_of_primitive, number_of_unary,
    number_of_width, primitive_of, unary_of,
};
use fat_code::{CheckNo, Op, UnitFault, Version};
use fsc_base::NoMemory;
use std::alloc::Global;

/// The operation with a tag that has one plain number.
fn with_number(tag: u32, number: u32) -> Option<Op>
    ensures found { IfSome result (λ this. op_numbers this ≡ tag ∷ number ∷ []) }
    ensures none { IsNone result → tag ≢ 1 }
{
    match tag {
        0 => Some(Op::Label(number)),
        1 => Some(Op::Jump(number)),
        2 => Some(Op::JumpZero(number)),
        4 => Some(Op::Number(number)),
        7 => Some(Op::SlotGet(number)),
        8 => Some(Op::SlotSet(number)),
        9 => Some(Op::Entry(number)),
        15 => Some(Op::Cast(number)),
        16 => Some(Op::Copy(number)),
        17 => Some(Op::Clear(number)),
        21 => Some(Op::Call(number)),
        _ => None,
    }
}

/// Whether the operation with a tag has one plain number.
fn has_number(tag: u32) -> bool
    ensures { result ≡ false → tag ≢ 1 }
{
    match tag {
        0 | 1 | 2 | 4 | 7 | 8 | 9 | 15 | 16 | 17 | 21 => true,
        _ => false,
    }
}

/// An operation with one plain number. Tag where the tag is that of no operation.
#[tactic(auto, unfolding(crate::specs::Spelling::spelled_op))]
fn read_with_number(tag: u32, file: &[u8], tag_at: usize, at: usize) -> Result<Found<Op>, CheckNo>
    requires { IsTag file.now tag_at tag }
    ensures { ReadsBehind (number_bytes tag) spelled_op file.now at result }
{
    if !has_number(tag) {
        return Err(bad(UnitFault::Tag, tag_at));
    }
    let number = read_number(file, at)?;
    tagged(with_number(tag, number.value), tag_at, number.behind)
}

/// A jump on a value.
#[tactic(auto, unfolding(crate::specs::Spelling::spelled_op))]
fn read_jump_case(file: &[u8], at: usize) -> Result<Found<Op>, CheckNo>
    ensures { ReadsBehind (number_bytes 3) spelled_op file.now at result }
{
    let value = read_number(file, at)?;
    let to = read_number(file, value.behind)?;
    Ok(Found {
        value: Op::JumpCase {
            value: value.value,
            to: to.value,
        },
        behind: to.behind,
    })
}

/// The address of a symbol.
#[tactic(auto, unfolding(crate::specs::Spelling::spelled_op))]
fn read_symbol(file: &[u8], at: usize) -> Result<Found<Op>, CheckNo>
    ensures { ReadsBehind (number_bytes 5) spelled_op file.now at result }
{
    let symbol = read_number(file, at)?;
    let offset = read_number(file, symbol.behind)?;
    Ok(Found {
        value: Op::Symbol {
            symbol: symbol.value,
            offset: offset.value,
        },
        behind: offset.behind,
    })
}

/// The address of an object.
#[tactic(auto, unfolding(crate::specs::Spelling::spelled_op))]
fn read_object(file: &[u8], at: usize) -> Result<Found<Op>, CheckNo>
    ensures { ReadsBehind (number_bytes 6) spelled_op file.now at result }
{
    let object = read_number(file, at)?;
    let offset = read_number(file, object.behind)?;
    Ok(Found {
        value: Op::Object {
            object: object.value,
            offset: offset.value,
        },
        behind: offset.behind,
    })
}

/// A load.
#[tactic(auto, unfolding(crate::specs::Spelling::spelled_op))]
fn read_load(file: &[u8], at: usize) -> Result<Found<Op>, CheckNo>
    ensures { ReadsBehind (number_bytes 10) spelled_op file.now at result }
{
    let width = read_width(file, at)?;
    let is_signed = read_flag(file, width.behind)?;
    let shape = read_number(file, is_signed.behind)?;
    let member = read_number(file, shape.behind)?;
    Ok(Found {
        value: Op::Load {
            width: width.value,
            is_signed: is_signed.value,
            shape: shape.value,
            member: member.value,
        },
        behind: member.behind,
    })
}

/// A store.
#[tactic(auto, unfolding(crate::specs::Spelling::spelled_op))]
fn read_store(file: &[u8], at: usize) -> Result<Found<Op>, CheckNo>
    ensures { ReadsBehind (number_bytes 11) spelled_op file.now at result }
{
    let width = read_width(file, at)?;
    let shape = read_number(file, width.behind)?;
    let member = read_number(file, shape.behind)?;
    Ok(Found {
        value: Op::Store {
            width: width.value,
            shape: shape.value,
            member: member.value,
        },
        behind: member.behind,
    })
}

/// An operation on two words.
#[tactic(auto, unfolding(crate::specs::Spelling::spelled_op))]
fn read_binary(file: &[u8], at: usize) -> Result<Found<Op>, CheckNo>
    ensures { ReadsBehind (number_bytes 12) spelled_op file.now at result }
{
    let number = read_number(file, at)?;
    let binary = tagged(binary_of(number.value), at, number.behind)?;
    Ok(Found {
        value: Op::Binary(binary.value),
        behind: binary.behind,
    })
}

/// An operation on one word.
#[tactic(auto, unfolding(crate::specs::Spelling::spelled_op))]
fn read_unary(file: &[u8], at: usize) -> Result<Found<Op>, CheckNo>
    ensures { ReadsBehind (number_bytes 13) spelled_op file.now at result }
{
    let number = read_number(file, at)?;
    let unary = tagged(unary_of(number.value), at, number.behind)?;
    Ok(Found {
        value: Op::Unary(unary.value),
        behind: unary.behind,
    })
}

/// A conversion to an arithmetic type.
#[tactic(auto, unfolding(crate::specs::Spelling::spelled_op))]
fn read_narrow(file: &[u8], at: usize) -> Result<Found<Op>, CheckNo>
    ensures { ReadsBehind (number_bytes 14) spelled_op file.now at result }
{
    let width = read_width(file, at)?;
    let is_signed = read_flag(file, width.behind)?;
    Ok(Found {
        value: Op::Narrow {
            width: width.value,
            is_signed: is_signed.value,
        },
        behind: is_signed.behind,
    })
}

/// A primitive.
#[tactic(auto, unfolding(crate::specs::Spelling::spelled_op))]
fn read_primitive(file: &[u8], at: usize) -> Result<Found<Op>, CheckNo>
    ensures { ReadsBehind (number_bytes 22) spelled_op file.now at result }
{
    let number = read_number(file, at)?;
    let primitive = tagged(primitive_of(number.value), at, number.behind)?;
    Ok(Found {
        value: Op::Primitive(primitive.value),
        behind: primitive.behind,
    })
}

/// An operation without numbers.
fn read_plain(op: Op, file: &[u8], at: usize) -> Result<Found<Op>, CheckNo>
    requires { at ≤ length file.now }
    ensures { ReadsBehind (spelled_op op) spelled_op file.now at result }
{
    let _file = file;
    Ok(Found {
        value: op,
        behind: at,
    })
}

/// The operation with a tag, whose numbers stand behind it.
#[tactic(auto, unfolding(crate::specs::Spelling::spelled_op))]
fn read_tagged(tag: u32, file: &[u8], tag_at: usize, at: usize) -> Result<Found<Op>, CheckNo>
    requires tag { IsTag file.now tag_at tag }
    requires within { at ≤ length file.now }
    ensures { ReadsBehind (number_bytes tag) spelled_op file.now at result }
{
    match tag {
        3 => read_jump_case(file, at),
        5 => read_symbol(file, at),
        6 => read_object(file, at),
        10 => read_load(file, at),
        11 => read_store(file, at),
        12 => read_binary(file, at),
        13 => read_unary(file, at),
        14 => read_narrow(file, at),
        18 => read_plain(Op::Duplicate, file, at),
        19 => read_plain(Op::Swap, file, at),
        20 => read_plain(Op::Drop, file, at),
        22 => read_primitive(file, at),
        23 => read_plain(Op::Return, file, at),
        _ => read_with_number(tag, file, tag_at, at),
    }
}

impl Spelled for Op {
    ghost spelled = { λ version op. spelled_op op };

    fn read(
        _alloc: Global,
        _version: Version,
        file: &[u8],
        at: usize,
    ) -> Result<Found<Op>, CheckNo> {
        let tag = read_number(file, at)?;
        read_tagged(tag.value, file, at, tag.behind)
    }

    #[tactic(auto, unfolding(crate::specs::Spelling::spelled_op))]
    fn put(&self, out: &mut Vec<u8>) -> Result<(), NoMemory> {
        match *self {
            Op::Label(height) => put_numbers(out, &[0, height]),
            Op::Jump(to) => put_numbers(out, &[1, to]),
            Op::JumpZero(to) => put_numbers(out, &[2, to]),
            Op::JumpCase { value, to } => put_numbers(out, &[3, value, to]),
            Op::Number(value) => put_numbers(out, &[4, value]),
            Op::Symbol { symbol, offset } => put_numbers(out, &[5, symbol, offset]),
            Op::Object { object, offset } => put_numbers(out, &[6, object, offset]),
            Op::SlotGet(slot) => put_numbers(out, &[7, slot]),
            Op::SlotSet(slot) => put_numbers(out, &[8, slot]),
            Op::Entry(entry) => put_numbers(out, &[9, entry]),
            Op::Load {
                width,
                is_signed,
                shape,
                member,
            } => put_numbers(
                out,
                &[
                    10,
                    number_of_width(width),
                    number_of_flag(is_signed),
                    shape,
                    member,
                ],
            ),
            Op::Store {
                width,
                shape,
                member,
            } => put_numbers(out, &[11, number_of_width(width), shape, member]),
            Op::Binary(binary) => put_numbers(out, &[12, number_of_binary(binary)]),
            Op::Unary(unary) => put_numbers(out, &[13, number_of_unary(unary)]),
            Op::Narrow { width, is_signed } => {
                put_numbers(
                    out,
                    &[14, number_of_width(width), number_of_flag(is_signed)],
                )
            }
            Op::Cast(shape) => put_numbers(out, &[15, shape]),
            Op::Copy(size) => put_numbers(out, &[16, size]),
            Op::Clear(size) => put_numbers(out, &[17, size]),
            Op::Duplicate => put_numbers(out, &[18]),
            Op::Swap => put_numbers(out, &[19]),
            Op::Drop => put_numbers(out, &[20]),
            Op::Call(arguments) => put_numbers(out, &[21, arguments]),
            Op::Primitive(primitive) => put_numbers(out, &[22, number_of_primitive(primitive)]),
            Op::Return => put_numbers(out, &[23]),
        }
    }

    #[tactic(auto, using(crate::proofs::Bytes::lengths), unfolding(crate::specs::Spelling::spelled_op))]
    fn count(&self) -> u64 {
        match self {
            Op::Duplicate | Op::Swap | Op::Drop | Op::Return => 4,
            Op::Label(_)
            | Op::Jump(_)
            | Op::JumpZero(_)
            | Op::Number(_)
            | Op::SlotGet(_)
            | Op::SlotSet(_)
            | Op::Entry(_)
            | Op::Binary(_)
            | Op::Unary(_)
            | Op::Cast(_)
            | Op::Copy(_)
            | Op::Clear(_)
            | Op::Call(_)
            | Op::Primitive(_) => 8,
            Op::JumpCase { .. } | Op::Symbol { .. } | Op::Object { .. } | Op::Narrow { .. } => 12,
            Op::Store { .. } => 16,
            Op::Load { .. } => 20,
        }
    }
}
