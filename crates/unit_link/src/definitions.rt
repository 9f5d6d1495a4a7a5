//! The rules of linking on definitions: M02 (a name with external linkage has two), M03 (a used name has none) and M04 (there is no
//! function `main`) (C90 6.7, 5.1.2.2.1).

use crate::declarations::{Declaration, Declarations, symbol_at};
use crate::refusal::{LinkNo, broken, broken_at};
use c_link::LinkFault;
use fsc_base::Rule;
use start_blocks::{LinkSymbol, LinkView, MAIN};
use std::alloc::Global;

/// The first two definitions among declarations of a name.
#[derive(Clone, Copy)]
struct Definers {
    first: Option<Declaration>,
    second: Option<Declaration>,
}

impl Definers {
    /// One more definition.
    fn with(self, declaration: Declaration) -> Definers {
        match (self.first, self.second) {
            (None, _) => Definers {
                first: Some(declaration),
                second: None,
            },
            (Some(_), None) => Definers {
                first: self.first,
                second: Some(declaration),
            },
            (Some(_), Some(_)) => self,
        }
    }
}

fn definers_among(views: &[LinkView], declarations: &[Declaration]) -> Result<Definers, LinkNo> {
    let mut found = Definers {
        first: None,
        second: None,
    };
    'declarations: for declaration in declarations {
        if symbol_at(views, *declaration)?.is_defined() {
            found = found.with(*declaration);
        }
    }
    Ok(found)
}

fn defined_twice(
    alloc: Global,
    views: &[LinkView],
    name: &[u8],
    declarations: &[Declaration],
) -> Result<Option<LinkFault>, LinkNo> {
    let found = definers_among(views, declarations)?;
    match (found.first, found.second) {
        (Some(first), Some(second)) => Ok(Some(broken_at(
            alloc,
            Rule::M02,
            name,
            u64::from(first.unit),
            u64::from(second.unit),
        )?)),
        _ => Ok(None),
    }
}

/// M02: a name has two definitions.
pub(crate) fn first_m02(
    alloc: Global,
    views: &[LinkView],
    names: &Declarations,
) -> Result<Option<LinkFault>, LinkNo> {
    'names: for (name, declarations) in names {
        let fault = defined_twice(alloc, views, name.as_slice(), declarations)?;
        if fault.is_some() {
            return Ok(fault);
        }
    }
    Ok(None)
}

/// Whether one of the declarations of a name is used, and none is a definition.
fn is_undefined(views: &[LinkView], declarations: &[Declaration]) -> Result<bool, LinkNo> {
    let mut is_used = false;
    'declarations: for declaration in declarations {
        let symbol = symbol_at(views, *declaration)?;
        if symbol.is_defined() {
            return Ok(false);
        }
        is_used = is_used || symbol.is_used;
    }
    Ok(is_used)
}

/// A used name with external linkage that no unit defines.
fn undefined_name(
    alloc: Global,
    views: &[LinkView],
    names: &Declarations,
) -> Result<Option<LinkFault>, LinkNo> {
    'names: for (name, declarations) in names {
        if is_undefined(views, declarations)? {
            return Ok(Some(broken(alloc, Rule::M03, name.as_slice())?));
        }
    }
    Ok(None)
}

/// A used name with internal linkage that its own unit does not define.
fn undefined_inside(alloc: Global, symbols: &[LinkSymbol]) -> Result<Option<LinkFault>, LinkNo> {
    'symbols: for symbol in symbols {
        if symbol.is_used && !symbol.is_external() && !symbol.is_defined() {
            return Ok(Some(broken(alloc, Rule::M03, symbol.name.as_slice())?));
        }
    }
    Ok(None)
}

/// M03: a used name has no definition.
pub(crate) fn first_m03(
    alloc: Global,
    views: &[LinkView],
    names: &Declarations,
) -> Result<Option<LinkFault>, LinkNo> {
    let fault = undefined_name(alloc, views, names)?;
    if fault.is_some() {
        return Ok(fault);
    }
    'units: for view in views {
        let fault = undefined_inside(alloc, view.symbols.as_slice())?;
        if fault.is_some() {
            return Ok(fault);
        }
    }
    Ok(None)
}

/// Whether one of the declarations defines a function.
fn has_function(views: &[LinkView], declarations: &[Declaration]) -> Result<bool, LinkNo> {
    'declarations: for declaration in declarations {
        if symbol_at(views, *declaration)?.is_function() {
            return Ok(true);
        }
    }
    Ok(false)
}

/// M04: there is no function `main`.
pub(crate) fn first_m04(
    alloc: Global,
    views: &[LinkView],
    names: &Declarations,
) -> Result<Option<LinkFault>, LinkNo> {
    let is_there = match names.get(MAIN) {
        Some(declarations) => has_function(views, declarations)?,
        None => false,
    };
    if is_there {
        Ok(None)
    } else {
        Ok(Some(broken(alloc, Rule::M04, MAIN)?))
    }
}
