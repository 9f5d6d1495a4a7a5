//! Operations of rows that compute with words alone.

use crate::emitter::Emitter;
use c_ops::{Binary, Operator, Unary, UnaryOperator};
use c_tree::{CompoundOp, Conversion, Side};
use c_types::TypeId;
use elab_setting::binary_of;
use fat_code::Op;
use fsc_base::Width;

impl Emitter<'_> {
    /// A number.
    pub fn gives(&mut self, number: u32) {
        self.put(Op::Number(number));
    }

    /// An operation on the last two words.
    pub(crate) fn binary(&mut self, op: Binary) {
        self.put(Op::Binary(op));
    }

    /// A number, and an operation on the last word and that number.
    pub(crate) fn with(&mut self, number: u32, op: Binary) {
        self.put(Op::Number(number));
        self.put(Op::Binary(op));
    }

    /// Moves the address by the offset of a member.
    pub fn moves(&mut self, offset: u32) {
        if offset != 0 {
            self.with(offset, Binary::Add);
        }
    }

    /// Multiplies an index by the size of an element.
    pub(crate) fn scales(&mut self, size: u32) {
        if size != 1 {
            self.with(size, Binary::Multiply);
        }
    }

    /// A pointer plus an integer (C90 6.3.6), where the pointer is this operand.
    pub fn indexes(&mut self, pointer: Side, size: u32) {
        if matches!(pointer, Side::Right) {
            self.put(Op::Swap);
        }
        self.scales(size);
        self.binary(Binary::Add);
    }

    /// A pointer minus an integer (C90 6.3.6).
    pub fn lowers(&mut self, size: u32) {
        self.scales(size);
        self.binary(Binary::Subtract);
    }

    /// A pointer minus a pointer, in elements (C90 6.3.6).
    pub fn spans(&mut self, size: u32) {
        self.binary(Binary::Subtract);
        self.with(size, Binary::Divide);
    }

    /// Converts to a type of that width; one of 4 bytes keeps the word (C90 6.2.1.2).
    pub fn narrows(&mut self, width: Width, is_signed: bool) {
        match width {
            Width::One | Width::Two => self.put(Op::Narrow { width, is_signed }),
            Width::Four => {}
        }
    }

    /// Converts to a pointer to that type.
    pub fn casts(&mut self, kind: TypeId) {
        let shape = self.shape(kind);
        self.put(Op::Cast(shape));
    }

    /// A conversion (C90 6.2).
    pub fn converts(&mut self, conversion: Conversion) {
        match conversion {
            Conversion::Keep => {}
            Conversion::Narrow { width, is_signed } => self.narrows(width, is_signed),
            Conversion::Decide(kind) => self.casts(kind),
        }
    }

    /// An operator with one operand (C90 6.3.3.3); unary + keeps the word.
    pub fn turns(&mut self, op: UnaryOperator) {
        match op {
            UnaryOperator::Plus => {}
            UnaryOperator::Minus => self.put(Op::Unary(Unary::Minus)),
            UnaryOperator::Complement => self.put(Op::Unary(Unary::Complement)),
            UnaryOperator::Not => self.put(Op::Unary(Unary::Not)),
        }
    }

    /// An operator with two operands (C90 6.3.5 to 6.3.12).
    pub fn operates(&mut self, op: Operator) {
        let (is_exchanged, op) = binary_of(op);
        if is_exchanged {
            self.put(Op::Swap);
        }
        self.binary(op);
    }

    /// The operator of a compound assignment on the target's value and the operand (C90 6.3.16.2).
    pub(crate) fn combined(&mut self, op: CompoundOp) {
        match op {
            CompoundOp::Plain(op) => self.operates(op),
            CompoundOp::PointerPlus(size) => {
                self.scales(size);
                self.binary(Binary::Add);
            }
            CompoundOp::PointerMinus(size) => self.lowers(size),
        }
    }

    /// The same with 1 (C90 6.3.2.4, 6.3.3.1).
    pub(crate) fn combined_with_one(&mut self, op: CompoundOp) {
        match op {
            CompoundOp::Plain(op) => {
                self.gives(1);
                self.operates(op);
            }
            CompoundOp::PointerPlus(size) => self.with(size, Binary::Add),
            CompoundOp::PointerMinus(size) => self.with(size, Binary::Subtract),
        }
    }

    /// Drops a value.
    pub fn drops(&mut self) {
        self.put(Op::Drop);
    }
}
