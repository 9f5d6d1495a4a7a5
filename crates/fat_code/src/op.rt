//! Operations of the fat machine.

use c_ops::{Binary, Primitive, Unary};
use fsc_base::Width;

/// An operation. It works on a stack of words, on the slots of its activation and on memory; the words that it takes are the
/// last ones that were pushed. Their numbers in a unit file are 0 to 23, in this order.
#[derive(Clone, Copy, Debug, PartialEq, Eq)]
pub enum Op {
    /// Where jumps may go. So many words are on the stack here.
    Label(u32),
    /// Goes on at the label that is the operation with this index in its function.
    Jump(u32),
    /// Takes a word, and goes on at a label where its value is 0.
    JumpZero(u32),
    /// Goes on at a label where the last word has this value. It keeps the word.
    JumpCase {
        value: u32,
        to: u32,
    },
    /// Pushes a number.
    Number(u32),
    /// Pushes the address that is so many bytes behind what a symbol of the unit names.
    Symbol {
        symbol: u32,
        offset: u32,
    },
    /// Pushes the address that is so many bytes behind the start of an object of the unit.
    Object {
        object: u32,
        offset: u32,
    },
    /// Pushes the word in a slot.
    SlotGet(u32),
    /// Puts the last word into a slot, and keeps it.
    SlotSet(u32),
    /// Pushes the address of an entry block of the activation.
    Entry(u32),
    /// Takes an address, and pushes what lies there: so many bytes, extended by their sign or by zeros. The pointer that the
    /// text reads through points to a type of this shape, `member` bytes before the address.
    Load {
        width: Width,
        is_signed: bool,
        shape: u32,
        member: u32,
    },
    /// Takes a word, and an address below it, and writes the word's low bytes there. It pushes the word.
    Store {
        width: Width,
        shape: u32,
        member: u32,
    },
    /// Takes the right operand, and the left one below it, and pushes the result.
    Binary(Binary),
    /// Takes an operand and pushes the result.
    Unary(Unary),
    /// Converts the last word to a type of this width, by its sign or by zeros.
    Narrow {
        width: Width,
        is_signed: bool,
    },
    /// Converts the last word to a pointer to a type of this shape, which decides the word's block. The word stays.
    Cast(u32),
    /// Takes the address of a source, and copies so many bytes to the address below it, which it keeps.
    Copy(u32),
    /// Takes an address, and writes so many zero bytes there.
    Clear(u32),
    /// Pushes the last word again.
    Duplicate,
    /// Exchanges the last two words.
    Swap,
    /// Takes a word.
    Drop,
    /// Takes so many arguments and the word below them, and calls the function whose address that is. Its result is pushed.
    Call(u32),
    /// Takes the primitive's arguments, and pushes its result, which is 0 where it has none.
    Primitive(Primitive),
    /// Takes a word, and gives it to the caller.
    Return,
}
