//! Rows.

use c_ops::{Operator, Primitive, UnaryOperator};
use c_tree::{Access, CompoundOp, Side};
use fsc_base::Width;

/// Where a scalar lies.
#[derive(Clone, Copy)]
pub enum Spot {
    /// In this slot of the activation.
    InSlot(u32),
    /// In memory; its address is among the words.
    InMemory,
}

/// What a row does. The words that it finds are those of expressions whose value is still wanted, the last one first. Sizes and
/// offsets are in bytes; a place is the index of a row.
#[derive(Clone, Copy)]
pub enum Act {
    // ---- expressions (C90 6.3)
    /// Gives a number.
    Gives(u32),
    /// Gives the address of the static block with this number.
    Names(u32),
    /// Gives the address of an entry block of the activation.
    Locates(u32),
    /// Changes nothing.
    Stays,
    /// Moves an address by the offset of a member.
    Moves(u32),
    /// A pointer plus an integer; the size is that of an element.
    Indexes(Side, u32),
    /// A pointer minus an integer.
    Lowers(u32),
    /// A pointer minus a pointer.
    Spans(u32),
    /// Converts to a type of this width.
    Narrows {
        width: Width,
        is_signed: bool,
    },
    /// Converts to a pointer to a complete object type: the word stays.
    Casts,
    /// An operator with one operand.
    Turns(UnaryOperator),
    /// An operator with two.
    Operates(Operator),
    /// The value of an lvalue.
    Reads(Spot, Access),
    /// The same where a store to that lvalue follows, which wants its address again.
    Peeks(Spot, Access),
    /// An assignment.
    Stores(Spot, Access),
    /// The rest of a compound assignment.
    Combines(Spot, CompoundOp, Access),
    /// The rest of `++` and `--`, of which the prefix ones give the new value.
    Increments(Spot, CompoundOp, bool, Access),
    /// The second step of a store to a bit-field: writes the bits of the pending word into the unit that was read.
    Writes {
        first: u32,
        count: u32,
    },
    /// An assignment of a struct or union.
    Copies(u32),
    /// `&&`: goes on at the right operand's place where that is wanted.
    AndThen(u32),
    /// `||`: the same.
    OrElse(u32),
    /// Makes the right operand's value 0 or 1.
    Truth,
    /// `?:`: goes on at the third operand's place where the first one is 0.
    Chooses(u32),
    /// Drops a value.
    Drops,
    /// Puts the address of a struct call's entry block below so many arguments.
    Receives {
        entry: u32,
        below: u32,
    },
    /// Calls the word below so many arguments.
    Calls(u32),
    /// A primitive.
    Performs(Primitive),
    // ---- statements (C90 6.6)
    /// `if`: goes on at the other place where the value is 0.
    Branches(u32),
    /// `while` and `for`: a turn begins.
    Loops,
    /// The test of a turn was made: goes on at the body's place, or behind the loop.
    Tests(u32),
    /// The end of the body, where `continue` goes.
    Around,
    /// `do`: a turn begins.
    Repeats,
    /// The end of its body, where `continue` goes.
    Again,
    /// Its test was made: goes on at its beginning, or behind it.
    Until(u32),
    /// `switch`: a label is tested; where the value is this, it goes on at that place.
    Selects {
        value: u32,
        to: u32,
    },
    /// No label fits: `default`, or behind the `switch`.
    SelectsDefault,
    /// The end of a `switch`.
    EndsSwitch,
    /// A `case`, `default` or label.
    Here,
    /// `goto`, `break` and `continue`.
    Goes,
    Breaks,
    Continues,
    // ---- initialisers (C90 6.5.7)
    /// A scalar that is a slot.
    Sets(u32),
    /// An aggregate's bytes and bases are cleared.
    Clears {
        entry: u32,
        size: u32,
    },
    /// A scalar member, or a scalar in memory.
    Initialises {
        entry: u32,
        offset: u32,
        access: Access,
    },
    /// A member that is a struct or union.
    CopiesIn {
        entry: u32,
        offset: u32,
        size: u32,
    },
    // ---- entry and return (C90 6.6.6.4, 6.7.1)
    /// Copies a struct or union to where the caller wants it.
    CopiesOut(u32),
    /// Ends the entry blocks, a step each, and returns.
    Returns,
    /// Makes the block of the extra words of a variadic function.
    MakesExtra,
    /// Makes an entry block.
    Makes(u32),
    /// Fills the entry block of a scalar parameter from its slot.
    Fills {
        slot: u32,
        entry: u32,
        width: Width,
    },
    /// The same for a struct or union: the slot has the address of the argument.
    FillsRecord {
        slot: u32,
        entry: u32,
        size: u32,
    },
}

/// What is done at a place, and the place where it goes on unless the act says otherwise.
#[derive(Clone, Copy)]
pub struct Row {
    pub act: Act,
    pub next: u32,
}

/// No row has this place.
pub(crate) const NO_ROW: u32 = u32::MAX;
