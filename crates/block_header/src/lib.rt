//! Headers of blocks, as the runtime of a compiled program keeps them: four words for each block, one header after the
//! other from block 1 on.
#![tactic(auto)]

ghost use Rattle.std.specs.Prelude.{◌≡◌, ◌*◌, ◌≤◌, ◌<◌, length};
ghost use Rattle.block_header.specs.Headers.{first_word, header_at, with_header, ReadsBack, KeepsOthers, KeepsWords, KeepsLength};

/// What is kept of a block.
#[derive(Clone, Copy, Debug, PartialEq, Eq)]
pub struct Header {
    /// 0 for a dead block, 1 for a function, 2 for an undecided object, 3 for a plane one, and otherwise the address of
    /// its shape's descriptor.
    pub desc: u32,
    /// The block's size in bytes.
    pub size: u32,
    /// The virtual base, the number that an address of its first byte has.
    pub base: u32,
    /// The address of its cell, and 0 for a dead block.
    pub cell: u32,
}

/// The index of the first word of a block's header. Blocks count from 1.
fn first_word(block: u32) -> usize
    requires { 0 < block }
    ensures { result ≡ first_word block }
{
    4 * (block as usize - 1)
}

/// The header of a block, whose four words `words` has. Blocks count from 1.
pub fn read_header(words: &[u32], block: u32) -> Header
    requires from_one { 0 < block }
    requires stands { 4 * block ≤ length words.now }
    ensures { result ≡ header_at words.now block }
{
    let first = first_word(block);
    Header {
        desc: words[first],
        size: words[first + 1],
        base: words[first + 2],
        cell: words[first + 3],
    }
}

/// Makes these four words the header of a block, whose place `words` has. Blocks count from 1.
pub fn write_header(words: &mut [u32], block: u32, header: Header)
    requires from_one { 0 < block }
    requires stands { 4 * block ≤ length words.old }
    ensures { words.new ≡ with_header words.old block header }
{
    let first = first_word(block);
    words[first] = header.desc;
    words[first + 1] = header.size;
    words[first + 2] = header.base;
    words[first + 3] = header.cell;
}

/// The laws of headers in a list of words. A header that was written is read back; those of other blocks, all words
/// outside its four, and the number of words stay.
pub fn headers_stand_apart()
    ensures read_back { ReadsBack }
    ensures others { KeepsOthers }
    ensures words { KeepsWords }
    ensures length { KeepsLength }
{}
