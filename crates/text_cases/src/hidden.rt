//! Sets of names.

use crate::refusals::no_memory;
use case_file::{CaseNo, Field};
use fsc_base::NoMemory;
use pp_token::HideSet;
use std::alloc::{AllocError, Global};

/// The set of a line of names, of the names before a `/` and behind it: each set, whether the first has the first name of
/// the second, what is in both, the first with the second added, and a copy of that.
pub fn sets(alloc: Global, field: &Field) -> Result<Vec<u8>, CaseNo> {
    let Some((one, other)) = field.head.as_str().split_once(" / ") else {
        return Err(field.malformed("no two sets"));
    };
    let mut first = set(alloc, one).map_err(no_memory)?;
    let second = set(alloc, other).map_err(no_memory)?;
    let has = other
        .split(' ')
        .next()
        .is_some_and(|name| first.contains(name.as_bytes()));
    let mut text = String::new(alloc);
    push_names(&mut text, &first)?;
    push_names(&mut text, &second)?;
    write!(text, "{has}; ")?;
    push_names(&mut text, &first.common(alloc, &second).map_err(no_memory)?)?;
    first.insert_all(&second).map_err(no_memory)?;
    push_names(&mut text, &first)?;
    push_names(&mut text, &first.copy(alloc).map_err(no_memory)?)?;
    Ok(text.into_bytes())
}

/// The set of these names.
fn set(alloc: Global, names: &str) -> Result<HideSet, NoMemory> {
    let mut set = HideSet::new(alloc);
    for name in names.split(' ') {
        set.insert(name.as_bytes())?;
    }
    Ok(set)
}

/// Puts a set's names behind a text.
fn push_names(text: &mut String, set: &HideSet) -> Result<(), AllocError> {
    for name in set.as_slice() {
        let name = str::from_utf8(name.as_slice()).unwrap_or("?");
        write!(text, "{name} ")?;
    }
    text.push_str("; ")
}
