//! The program of the demonstration.

use fsc_base::{Bytes, NoMemory};
use std::alloc::Global;

/// Adds a text, and the decimal of a number behind it.
fn add(alloc: Global, text: &mut Vec<u8>, head: &[u8], number: u32) -> Result<(), NoMemory> {
    let Ok(digits) = number.to_string(alloc) else {
        return Err(NoMemory);
    };
    text.extend_from_slice(head)?;
    text.extend_from_slice(digits.as_bytes())?;
    Ok(())
}

/// Adds the line of function `k`, which sums four numbers in an array and answers one of them.
fn add_function(alloc: Global, text: &mut Vec<u8>, k: u32) -> Result<(), NoMemory> {
    add(alloc, text, b"int f", k)?;
    text.extend_from_slice(b"(int x){int a[4];int i;for(i=0;i<4;i++)a[i]=x+i;return a[x&3];}\n")?;
    Ok(())
}

/// Adds the line that calls function `k`.
fn add_call(alloc: Global, text: &mut Vec<u8>, k: u32) -> Result<(), NoMemory> {
    add(alloc, text, b"s=s+f", k)?;
    add(alloc, text, b"(", k)?;
    text.extend_from_slice(b");\n")?;
    Ok(())
}

/// The text of the demonstration of that number: so many functions, and a `main` that calls each once and prints the sum of
/// their answers.
pub fn demo_text(alloc: Global, count: u32) -> Result<Bytes, NoMemory> {
    let mut text = Vec::from_slice(alloc, b"#include <stdio.h>\nint s;\n")?;
    for k in 0..count {
        add_function(alloc, &mut text, k.saturating_add(1))?;
    }
    text.extend_from_slice(b"int main(void){\n")?;
    for k in 0..count {
        add_call(alloc, &mut text, k.saturating_add(1))?;
    }
    text.extend_from_slice(b"printf(\"%d\\n\",s);\nreturn 0;}\n")?;
    Ok(Bytes::from_vec(text))
}
