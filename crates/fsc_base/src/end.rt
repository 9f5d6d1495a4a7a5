//! How a program's run ends by itself.

ghost use Rattle.std.specs.Prelude.{◌≡◌};
ghost use Rattle.fsc_base.specs.End.{stop_call_of};

/// An end of a program's run.
#[derive(Clone, Copy, Debug, PartialEq, Eq)]
pub enum End {
    /// The program exited: with the low 8 bits of what `main` returned, or of what it gave to `exit`.
    Exit(u8),
    /// An access whose bytes are not all within a live object: the block that its word is based on, the word's offset
    /// there, and how many bytes it touches.
    Access { block: u32, offset: u32, width: u32 },
    /// A write that is within an object which refuses writes.
    ReadOnly { block: u32, offset: u32, width: u32 },
    /// A call of a word that is not the address of a function.
    Call { block: u32, offset: u32 },
    /// A division by zero.
    Divide,
    /// The program called `abort`.
    Abort,
    /// A block that the entry of a function makes does not fit the storage.
    Blocks,
    /// More activations of functions would be alive than may be.
    Depth,
}

/// What the registers a0 to a3 hold at environment call 4000, by which an image stops itself.
#[derive(Clone, Copy, Debug, PartialEq, Eq)]
pub struct StopCall {
    /// From 1 to 7.
    pub kind: u32,
    pub block: u32,
    pub offset: u32,
    pub width: u32,
}

impl End {
    /// The stop by which an image ends so; None for an exit, which is environment call 93. What the end does not name is 0.
    pub fn stop_call(self) -> Option<StopCall>
        ensures { result ≡ stop_call_of self }
    {
        let (kind, block, offset, width) = match self {
            End::Exit(_) => return None,
            End::Access {
                block,
                offset,
                width,
            } => (1, block, offset, width),
            End::Call { block, offset } => (2, block, offset, 0),
            End::Divide => (3, 0, 0, 0),
            End::Abort => (4, 0, 0, 0),
            End::Blocks => (5, 0, 0, 0),
            End::Depth => (6, 0, 0, 0),
            End::ReadOnly {
                block,
                offset,
                width,
            } => (7, block, offset, width),
        };
        Some(StopCall {
            kind,
            block,
            offset,
            width,
        })
    }
}
