//! Rows of expressions: first those of the operands, from left to right, and then its own. Each function gives the place of the
//! first one; `next` is where it goes on behind the expression.

use crate::locals::Place;
use crate::refusal::RowsNo;
use crate::row::{Act, Spot};
use crate::translator::Translator;
use c_ops::UnaryOperator;
use c_tree::{Access, Conversion, Form, Symbol, TExpr};

/// The row of a conversion (C90 6.2, 6.3.4).
fn conversion_act(conversion: Conversion) -> Act {
    match conversion {
        Conversion::Keep => Act::Stays,
        Conversion::Narrow { width, is_signed } => Act::Narrows { width, is_signed },
        Conversion::Decide(_) => Act::Casts,
    }
}

/// The row of an operator with one operand (C90 6.3.3.3); unary `+` changes nothing.
fn unary_act(op: UnaryOperator) -> Act {
    match op {
        UnaryOperator::Plus => Act::Stays,
        UnaryOperator::Minus | UnaryOperator::Complement | UnaryOperator::Not => Act::Turns(op),
    }
}

impl Translator<'_> {
    // ---- expressions without operands

    /// A name with linkage, a string literal, or a static object of a block.
    fn named(&mut self, symbol: Symbol, next: u32) -> Result<u32, RowsNo> {
        let block = self.block(symbol)?;
        self.push(Act::Names(block), next)
    }

    /// A local object: its address, and nothing for a slot.
    fn local(&mut self, i: u32, next: u32) -> Result<u32, RowsNo> {
        match self.locals.place(i)? {
            Place::AtSlot(_) => self.push(Act::Stays, next),
            Place::AtEntry(entry) => self.push(Act::Locates(entry), next),
        }
    }

    // ---- own rows

    /// The own row of an expression with one operand.
    fn single_act(&mut self, e: &TExpr) -> Result<Act, RowsNo> {
        Ok(match &e.form {
            Form::Deref(_) | Form::Decay(_) | Form::AddressOf(_) => Act::Stays,
            Form::Dot(_, member) | Form::Arrow(_, member) => Act::Moves(member.offset),
            Form::Convert(_, conversion) => conversion_act(*conversion),
            Form::Unary(op, _) => unary_act(*op),
            Form::Value(lvalue, access) => Act::Reads(self.spot(lvalue.get())?, *access),
            _ => return Err(RowsNo::Misfit),
        })
    }

    /// The own row of an expression with two operands that are always evaluated both, but for assignments.
    fn double_act(&mut self, e: &TExpr) -> Result<Act, RowsNo> {
        Ok(match &e.form {
            Form::Index { pointer, size, .. } | Form::PointerAdd { pointer, size, .. } => {
                Act::Indexes(*pointer, *size)
            }
            Form::Binary(op, _, _) => Act::Operates(*op),
            Form::PointerMinus { size, .. } => Act::Lowers(*size),
            Form::PointerDifference { size, .. } => Act::Spans(*size),
            Form::AssignRecord { size, .. } => Act::Copies(*size),
            _ => return Err(RowsNo::Misfit),
        })
    }

    /// The place behind a store: where it is one to a bit-field in memory, a row writes the unit that it read.
    pub(crate) fn behind_store(
        &mut self,
        spot: Spot,
        access: Access,
        next: u32,
    ) -> Result<u32, RowsNo> {
        match (spot, access) {
            (Spot::InMemory, Access::Bits { first, count, .. }) => {
                self.push(Act::Writes { first, count }, next)
            }
            _ => Ok(next),
        }
    }

    /// The rows of the store of an assignment.
    fn store(&mut self, target: &TExpr, access: Access, next: u32) -> Result<u32, RowsNo> {
        let spot = self.spot(target)?;
        let behind = self.behind_store(spot, access, next)?;
        self.push(Act::Stores(spot, access), behind)
    }

    /// The own rows of an expression with two operands.
    fn double(&mut self, e: &TExpr, next: u32) -> Result<u32, RowsNo> {
        match &e.form {
            Form::Assign { target, access, .. } => self.store(target.get(), *access, next),
            _ => {
                let act = self.double_act(e)?;
                self.push(act, next)
            }
        }
    }

    /// The last rows of a compound assignment (C90 6.3.16.2).
    fn combination(&mut self, e: &TExpr, next: u32) -> Result<u32, RowsNo> {
        match &e.form {
            Form::Compound {
                target,
                op,
                access,
                ..
            } => {
                let spot = self.spot(target.get())?;
                let behind = self.behind_store(spot, *access, next)?;
                self.push(Act::Combines(spot, *op, *access), behind)
            }
            _ => Err(RowsNo::Misfit),
        }
    }

    /// The last rows of `++` and `--`, and before them the read of their operand (C90 6.3.2.4, 6.3.3.1).
    fn increment(&mut self, e: &TExpr, next: u32) -> Result<u32, RowsNo> {
        match &e.form {
            Form::Step {
                target,
                op,
                is_prefix,
                access,
            } => {
                let spot = self.spot(target.get())?;
                let behind = self.behind_store(spot, *access, next)?;
                let own = self.push(Act::Increments(spot, *op, *is_prefix, *access), behind)?;
                self.push(Act::Peeks(spot, *access), own)
            }
            _ => Err(RowsNo::Misfit),
        }
    }

    /// The call of the word below its arguments, of which there may be one more.
    fn calling(&mut self, arguments: usize, hidden: u32, next: u32) -> Result<u32, RowsNo> {
        let Ok(count) = u32::try_from(arguments) else {
            return Err(RowsNo::Misfit);
        };
        match count.checked_add(hidden) {
            Some(count) => self.push(Act::Calls(count), next),
            None => Err(RowsNo::Misfit),
        }
    }

    // ---- expressions

    /// The rows of an expression.
    #[cycle(expressions)]
    pub(crate) fn expression(&mut self, e: &TExpr, next: u32) -> Result<u32, RowsNo> {
        match &e.form {
            Form::Static(symbol) => self.named(*symbol, next),
            Form::Local(i) => self.local(*i, next),
            Form::Number(n) => self.push(Act::Gives(*n), next),
            Form::Deref(_) => self.single(e, next),
            Form::Dot(_, _) => self.single(e, next),
            Form::Arrow(_, _) => self.single(e, next),
            Form::Value(_, _) => self.single(e, next),
            Form::Decay(_) => self.single(e, next),
            Form::Convert(_, _) => self.single(e, next),
            Form::AddressOf(_) => self.single(e, next),
            Form::Unary(_, _) => self.single(e, next),
            Form::Index { .. } => self.pair(e, next),
            Form::Binary(_, _, _) => self.pair(e, next),
            Form::PointerAdd { .. } => self.pair(e, next),
            Form::PointerMinus { .. } => self.pair(e, next),
            Form::PointerDifference { .. } => self.pair(e, next),
            Form::Assign { .. } => self.pair(e, next),
            Form::AssignRecord { .. } => self.pair(e, next),
            Form::Compound { .. } => self.update(e, next),
            Form::Step { .. } => self.update(e, next),
            Form::Both(_, _) => self.choice(e, next),
            Form::Either(_, _) => self.choice(e, next),
            Form::Choose(_, _, _) => self.choice(e, next),
            Form::Comma(_) => self.several(e, next),
            Form::Call { .. } => self.several(e, next),
            Form::CallRecord { .. } => self.several(e, next),
            Form::Primitive(_, _) => self.several(e, next),
        }
    }

    /// One operand.
    #[cycle(expressions)]
    fn single(&mut self, e: &TExpr, next: u32) -> Result<u32, RowsNo> {
        let act = self.single_act(e)?;
        let own = self.push(act, next)?;
        match &e.form {
            Form::Deref(a) => self.expression(a.get(), own),
            Form::Dot(a, _) => self.expression(a.get(), own),
            Form::Arrow(a, _) => self.expression(a.get(), own),
            Form::Value(a, _) => self.expression(a.get(), own),
            Form::Decay(a) => self.expression(a.get(), own),
            Form::Convert(a, _) => self.expression(a.get(), own),
            Form::AddressOf(a) => self.expression(a.get(), own),
            Form::Unary(_, a) => self.expression(a.get(), own),
            _ => Err(RowsNo::Misfit),
        }
    }

    /// Two operands that are always evaluated both.
    #[cycle(expressions)]
    fn pair(&mut self, e: &TExpr, next: u32) -> Result<u32, RowsNo> {
        let own = self.double(e, next)?;
        match &e.form {
            Form::Index { base, index, .. } => {
                let right = self.expression(index.get(), own)?;
                self.expression(base.get(), right)
            }
            Form::Binary(_, a, b) => {
                let right = self.expression(b.get(), own)?;
                self.expression(a.get(), right)
            }
            Form::PointerAdd { left, right, .. } => {
                let right = self.expression(right.get(), own)?;
                self.expression(left.get(), right)
            }
            Form::PointerMinus { pointer, index, .. } => {
                let right = self.expression(index.get(), own)?;
                self.expression(pointer.get(), right)
            }
            Form::PointerDifference { left, right, .. } => {
                let right = self.expression(right.get(), own)?;
                self.expression(left.get(), right)
            }
            Form::Assign { target, value, .. } => {
                let right = self.expression(value.get(), own)?;
                self.expression(target.get(), right)
            }
            Form::AssignRecord { target, value, .. } => {
                let right = self.expression(value.get(), own)?;
                self.expression(target.get(), right)
            }
            _ => Err(RowsNo::Misfit),
        }
    }

    /// A compound assignment, `++` or `--`: the address, the value that is there, the right operand, and the store.
    #[cycle(expressions)]
    fn update(&mut self, e: &TExpr, next: u32) -> Result<u32, RowsNo> {
        match &e.form {
            Form::Compound {
                target,
                value,
                access,
                ..
            } => {
                let spot = self.spot(target.get())?;
                let own = self.combination(e, next)?;
                let right = self.expression(value.get(), own)?;
                let read = self.push(Act::Peeks(spot, *access), right)?;
                self.expression(target.get(), read)
            }
            Form::Step { target, .. } => {
                let read = self.increment(e, next)?;
                self.expression(target.get(), read)
            }
            _ => Err(RowsNo::Misfit),
        }
    }

    /// An operator that evaluates not all of its operands (C90 6.3.13 to 6.3.15).
    #[cycle(expressions)]
    fn choice(&mut self, e: &TExpr, next: u32) -> Result<u32, RowsNo> {
        match &e.form {
            Form::Both(a, b) => {
                let truth = self.push(Act::Truth, next)?;
                let right = self.expression(b.get(), truth)?;
                let own = self.push(Act::AndThen(right), next)?;
                self.expression(a.get(), own)
            }
            Form::Either(a, b) => {
                let truth = self.push(Act::Truth, next)?;
                let right = self.expression(b.get(), truth)?;
                let own = self.push(Act::OrElse(right), next)?;
                self.expression(a.get(), own)
            }
            Form::Choose(c, a, b) => {
                let third = self.expression(b.get(), next)?;
                let second = self.expression(a.get(), next)?;
                let own = self.push(Act::Chooses(third), second)?;
                self.expression(c.get(), own)
            }
            _ => Err(RowsNo::Misfit),
        }
    }

    /// A list of operands: calls (C90 6.3.2.2) and comma expressions (C90 6.3.17). The address that a struct call's value goes to is
    /// put below the arguments behind the third, or behind the last where there are fewer.
    #[cycle(expressions)]
    fn several(&mut self, e: &TExpr, next: u32) -> Result<u32, RowsNo> {
        match &e.form {
            Form::Comma(parts) => self.parts(parts.as_slice(), next),
            Form::Call {
                function,
                arguments,
            } => {
                let own = self.calling(arguments.len(), 0, next)?;
                let first = self.expressions(arguments.as_slice(), own)?;
                self.expression(function.get(), first)
            }
            Form::CallRecord {
                function,
                arguments,
                number,
            } => {
                let own = self.calling(arguments.len(), 1, next)?;
                let first = self.received(arguments.as_slice(), *number, own)?;
                self.expression(function.get(), first)
            }
            Form::Primitive(primitive, arguments) => {
                let own = self.push(Act::Performs(*primitive), next)?;
                self.expressions(arguments.as_slice(), own)
            }
            _ => Err(RowsNo::Misfit),
        }
    }

    /// Expressions, one after the other.
    #[cycle(expressions)]
    fn expressions(&mut self, items: &[TExpr], next: u32) -> Result<u32, RowsNo> {
        let mut first = next;
        'items: for i in (0..items.len()).rev() {
            first = self.expression(&items[i], first)?;
        }
        Ok(first)
    }

    /// The parts of a comma expression: the value of each but the last is dropped.
    #[cycle(expressions)]
    fn parts(&mut self, items: &[TExpr], next: u32) -> Result<u32, RowsNo> {
        let mut first = next;
        'parts: for i in (0..items.len()).rev() {
            let behind = if i + 1 < items.len() {
                self.push(Act::Drops, first)?
            } else {
                first
            };
            first = self.expression(&items[i], behind)?;
        }
        Ok(first)
    }

    /// The arguments of a struct call, with the address for its value.
    #[cycle(expressions)]
    fn received(&mut self, items: &[TExpr], number: u32, next: u32) -> Result<u32, RowsNo> {
        let entry = self.locals.call(number)?;
        let below = items.len().min(3);
        let mut first = next;
        'arguments: for i in (0..items.len()).rev() {
            if i + 1 == below {
                first = self.push(
                    Act::Receives {
                        entry,
                        below: below as u32,
                    },
                    first,
                )?;
            }
            first = self.expression(&items[i], first)?;
        }
        if below == 0 {
            first = self.push(Act::Receives { entry, below: 0 }, first)?;
        }
        Ok(first)
    }
}
