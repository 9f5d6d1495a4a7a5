//! Limits of storage, and how it is counted.

/// The virtual base of the first block.
pub const FIRST_BASE: u64 = 0x1_0000;

/// The greatest virtual base that the block after a new one may get: 2^32 - 2^16.
pub const MOST_BASE: u64 = 0xFFFF_0000;

/// The most that may be stored, in bytes: 2^29.
pub const MOST_STORED: u64 = 0x2000_0000;

/// What each block ever made takes, in bytes, beside its cell.
pub const HEADER_BYTES: u64 = 16;

/// The sizes of cells in bytes: the powers of two from 16 to 2^33, enough for two words for each word of a block.
pub const CLASSES: [u64; 30] = [
    0x10,
    0x20,
    0x40,
    0x80,
    0x100,
    0x200,
    0x400,
    0x800,
    0x1000,
    0x2000,
    0x4000,
    0x8000,
    0x1_0000,
    0x2_0000,
    0x4_0000,
    0x8_0000,
    0x10_0000,
    0x20_0000,
    0x40_0000,
    0x80_0000,
    0x100_0000,
    0x200_0000,
    0x400_0000,
    0x800_0000,
    0x1000_0000,
    0x2000_0000,
    0x4000_0000,
    0x8000_0000,
    0x1_0000_0000,
    0x2_0000_0000,
];
