//! Where everything stands in the memory of an image.

/// Where the code begins.
pub const CODE: u32 = 0x1_0000;

/// Where the region of blocks begins, with their headers.
pub const REGION: u32 = 0x4000_0000;

/// How many bytes the region of blocks has. Cells are taken downward from its end.
pub const REGION_SIZE: u32 = 0x2000_0000;

/// The header of block b stands 16 b bytes behind this address.
pub const HEADERS: u32 = REGION - 16;

/// Where the stack begins. It grows upward.
pub const STACK: u32 = 0x8000_0000;

/// How many bytes the stack has.
pub const STACK_SIZE: u32 = 0x2000_0000;

/// How many activations may be live at once.
pub const DEPTH: u32 = 65_536;

/// How many bytes the makers have: byte b is 1 where block b was made by `alloc`, else 0.
pub const MAKERS_SIZE: u32 = 0x200_0000;

/// The rights of the code: it may be executed.
pub const EXECUTED: u32 = 1;

/// The rights of all else: it may be read and written.
pub const READ_WRITTEN: u32 = 6;

/// In a header: the descriptor's address, 0 for a dead block, 1 for a function, 2 for an undecided object; one more where the
/// object is sealed.
pub const DESC: i32 = 0;

/// In a header: the block's size.
pub const SIZE: i32 = 4;

/// In a header: the block's virtual base.
pub const BASE: i32 = 8;

/// In a header: the address of the block's cell, 0 for a dead block.
pub const CELL: i32 = 12;

/// In the data segment: how many blocks were made.
pub const COUNT: i32 = 0;

/// In the data segment: the virtual base of the next block.
pub const NEXT_BASE: i32 = 4;

/// In the data segment: the lowest address of a cell.
pub const BOTTOM: i32 = 8;

/// In the data segment: the byte that `put` and `get` move.
pub const BUFFER: i32 = 12;

/// In the data segment: the first free cell of each class, from 16 bytes on, each class twice as large as the one before, 0 where
/// there is none. A free cell begins with the address of the next one.
pub const FREE_LISTS: i32 = 16;

/// How many classes of cells there are.
pub const CLASSES: usize = 26;

/// In the data segment: the address of the makers.
pub const MAKERS: i32 = 120;

/// In the data segment: the records of shapes, each of them a table of counts and then a descriptor. The count of the shape's word j
/// stands 4 + 4 j bytes before the descriptor: four times the number of fat words before word j.
pub const RECORDS: u32 = 128;

/// In the data segment: the descriptor of the shape that is one fat word, whose record is the first.
pub const FAT_WORD: i32 = 136;

/// In a frame, from S0: the return address; before the call, the value of the called word.
pub const RETURN: i32 = -2048;

/// In a frame, from S0: the first block that the activation made; before the call, the block of the called word.
pub const FIRST_BLOCK: i32 = -2044;

/// In a frame, from S0: the value of the first slot. A slot has 8 bytes.
pub const SLOT_VALUE: i32 = -2040;

/// In a frame, from S0: the block of the first slot.
pub const SLOT_BLOCK: i32 = -2036;
