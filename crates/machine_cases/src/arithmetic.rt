//! What instructions compute of two registers.

use crate::told::Told;
use case_table::number_of;
use rv_arith::{
    add, div, divu, mul, mulh, mulhsu, mulhu, rem, remu, sll, slt, sltu, sra, srl, sub,
};
use std::alloc::Global;

/// Four numbers as an answer.
fn tell_four(alloc: Global, a: u32, b: u32, c: u32, d: u32) -> Told {
    Ok(Some(format!(in alloc; "0x{a:x} 0x{b:x} 0x{c:x} 0x{d:x}")?))
}

/// Does a step of arithmetic: `sums`, `shifts`, `products` and `quotients` of two numbers.
pub fn step(alloc: Global, words: &[&str]) -> Told {
    let [name, x, y] = words else {
        return Ok(None);
    };
    match *name {
        "sums" => {
            let (x, y) = (number_of(x)?, number_of(y)?);
            tell_four(alloc, add(x, y), sub(x, y), slt(x, y), sltu(x, y))
        }
        "shifts" => {
            let (x, y) = (number_of(x)?, number_of(y)?);
            let (left, right, signed) = (sll(x, y), srl(x, y), sra(x, y));
            Ok(Some(format!(in alloc; "0x{left:x} 0x{right:x} 0x{signed:x}")?))
        }
        "products" => {
            let (x, y) = (number_of(x)?, number_of(y)?);
            tell_four(alloc, mul(x, y), mulh(x, y), mulhsu(x, y), mulhu(x, y))
        }
        "quotients" => {
            let (x, y) = (number_of(x)?, number_of(y)?);
            tell_four(alloc, div(x, y), divu(x, y), rem(x, y), remu(x, y))
        }
        _ => Ok(None),
    }
}
