//! Primitives.

ghost use Rattle.std.specs.Prelude.{◌≡◌};
ghost use Rattle.c_ops.specs.Primitives.{arguments_of};

/// What the library's texts call of the machine. They are no functions with blocks; each stands only as the called name.
#[derive(Clone, Copy, Debug, PartialEq, Eq)]
pub enum Primitive {
    /// Writes the low 8 bits of its argument, and gives them.
    Put,
    /// Gives the next byte of the input, or -1 at its end.
    Get,
    /// Makes a block of so many bytes, and gives its address; null where it does not fit.
    Alloc,
    /// Ends the life of an allocated block; of the value 0 it does nothing.
    Release,
    /// Gives the size of an allocated block.
    Size,
    /// Copies so many bytes with their bases: to, from, number.
    Copy,
    /// Ends the run with a status.
    Exit,
    /// Ends the run as `abort` does.
    Abort,
    /// Gives the address of the block of this activation's extra words, or null in a function that is not variadic.
    Extra,
}

impl Primitive {
    /// How many arguments it takes.
    pub fn arguments(self) -> u32
        ensures { result ≡ arguments_of self }
    {
        match self {
            Primitive::Copy => 3,
            Primitive::Get | Primitive::Abort | Primitive::Extra => 0,
            Primitive::Put
            | Primitive::Alloc
            | Primitive::Release
            | Primitive::Size
            | Primitive::Exit => 1,
        }
    }
}
