//! The texts of types.

use crate::bounds::TURNS;
use c_types::{Basic, TypeId, TypeNode};
use fsc_base::{Bytes, NoMemory};
use std::alloc::Global;

/// How many bytes of a text are told.
const TOLD: usize = 1000;

/// What is to be written behind what was.
#[derive(Clone, Copy, Debug, PartialEq, Eq)]
enum Next {
    /// A type.
    Type(TypeId),
    /// A function type from this parameter on.
    Parameter { function: TypeId, index: usize },
}

/// A text that is being written, and what is to follow, the next part last.
#[derive(Drop)]
struct Writer<'a> {
    alloc: Global,
    nodes: &'a [TypeNode],
    text: Vec<u8>,
    next: Vec<Next>,
}

impl<'a> Writer<'a> {
    /// Some bytes more.
    fn write(&mut self, bytes: &[u8]) -> Result<(), NoMemory> {
        self.text.extend_from_slice(bytes)?;
        Ok(())
    }

    /// A number in decimal.
    fn write_number(&mut self, number: u32) -> Result<(), NoMemory> {
        let text = format!(in self.alloc; "{number}")?;
        self.write(text.as_bytes())
    }

    /// Words before a type.
    fn write_before(&mut self, words: &[u8], id: TypeId) -> Result<(), NoMemory> {
        self.write(words)?;
        self.next.push(Next::Type(id))?;
        Ok(())
    }

    /// A tag, or a question mark where there is none.
    fn write_tag(&mut self, words: &[u8], tag: &[u8]) -> Result<(), NoMemory> {
        self.write(words)?;
        if tag.len() == 0 {
            self.write(b"?")
        } else {
            self.write(tag)
        }
    }

    /// An array, with its number of elements where it is known.
    fn write_array(&mut self, of: TypeId, count: u32) -> Result<(), NoMemory> {
        self.write(b"array ")?;
        if count != 0 {
            self.write_number(count)?;
            self.write(b" ")?;
        }
        self.write_before(b"of ", of)
    }

    /// Qualifiers.
    fn write_qualified(&mut self, of: TypeId, bits: u32) -> Result<(), NoMemory> {
        if bits & 1 == 1 {
            self.write(b"const ")?;
        }
        if bits & 2 == 2 {
            self.write(b"volatile ")?;
        }
        self.write_before(b"", of)
    }

    /// A type up to what is in it.
    fn write_type(&mut self, id: TypeId) -> Result<(), NoMemory> {
        let Some(node) = self.nodes.get(id as usize) else {
            return self.write(b"void");
        };
        match node {
            TypeNode::Void => self.write(b"void"),
            TypeNode::Basic(basic) => self.write(name_of(*basic)),
            TypeNode::Pointer(to) => self.write_before(b"pointer to ", *to),
            TypeNode::Array { of, count } => self.write_array(*of, *count),
            TypeNode::Function { .. } => self.write_function(id),
            TypeNode::Struct(record) => self.write_tag(b"struct ", record.tag.as_slice()),
            TypeNode::Union(record) => self.write_tag(b"union ", record.tag.as_slice()),
            TypeNode::Enum(tag) => self.write_tag(b"enum ", tag.as_slice()),
            TypeNode::Qualified { of, bits } => self.write_qualified(*of, *bits),
        }
    }

    /// A function type up to its first parameter.
    fn write_function(&mut self, id: TypeId) -> Result<(), NoMemory> {
        self.write(b"function (")?;
        self.next.push(Next::Parameter {
            function: id,
            index: 0,
        })?;
        Ok(())
    }

    /// A function type from one of its parameters on.
    fn write_parameter(&mut self, function: TypeId, index: usize) -> Result<(), NoMemory> {
        let Some(
            TypeNode::Function {
                returns,
                is_known,
                parameters,
                is_variadic,
            },
        ) = self.nodes.get(function as usize)
        else {
            return Ok(());
        };
        if !*is_known {
            return self.write_before(b") returning ", *returns);
        }
        match parameters.get(index) {
            Some(parameter) => self.write_next(function, index, *parameter),
            None => {
                self.write(closing(index == 0, *is_variadic))?;
                self.write_before(b") returning ", *returns)
            }
        }
    }

    /// One parameter, and what follows it.
    fn write_next(
        &mut self,
        function: TypeId,
        index: usize,
        parameter: TypeId,
    ) -> Result<(), NoMemory> {
        if index > 0 {
            self.write(b", ")?;
        }
        self.next.push(Next::Parameter {
            function,
            index: index.saturating_add(1),
        })?;
        self.next.push(Next::Type(parameter))?;
        Ok(())
    }

    /// What is to be written next.
    fn write_part(&mut self, next: Next) -> Result<(), NoMemory> {
        match next {
            Next::Type(id) => self.write_type(id),
            Next::Parameter { function, index } => self.write_parameter(function, index),
        }
    }

    /// Until the text is whole, or so much of it that the rest is not told.
    fn run(&mut self) -> Result<(), NoMemory> {
        for _ in 0..TURNS {
            if self.text.len() >= TOLD {
                return Ok(());
            }
            let Some(next) = self.next.pop() else {
                return Ok(());
            };
            self.write_part(next)?;
        }
        Err(NoMemory)
    }
}

/// What stands behind known parameters: `void` for none, and dots.
fn closing(is_first: bool, is_variadic: bool) -> &'static [u8] {
    match (is_first, is_variadic) {
        (true, false) => b"void",
        (true, true) => b"...",
        (false, false) => b"",
        (false, true) => b", ...",
    }
}

/// The shortest names (C90 6.5.2).
fn name_of(basic: Basic) -> &'static [u8] {
    match basic {
        Basic::Char => b"char",
        Basic::SignedChar => b"signed char",
        Basic::UnsignedChar => b"unsigned char",
        Basic::Short => b"short",
        Basic::UnsignedShort => b"unsigned short",
        Basic::Int => b"int",
        Basic::Unsigned => b"unsigned",
        Basic::Long => b"long",
        Basic::UnsignedLong => b"unsigned long",
    }
}

/// The text of a type, as `pointer to const char` or `function (int, ...) returning void`, cut to its first 1,000 bytes. A number
/// outside the list is read as void. Refused only for want of memory.
pub fn type_text(alloc: Global, nodes: &[TypeNode], id: TypeId) -> Result<Bytes, NoMemory> {
    let mut writer = Writer {
        alloc,
        nodes,
        text: Vec::new(alloc),
        next: Vec::new(alloc),
    };
    writer.next.push(Next::Type(id))?;
    writer.run()?;
    let Writer { mut text, .. } = writer;
    text.truncate(TOLD);
    Ok(Bytes::from_vec(text))
}
