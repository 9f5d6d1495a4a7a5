//! Rows of statements (C90 6.6). Each function gives the place of the first one; `next` is where it goes on behind the statement.

use crate::refusal::RowsNo;
use crate::row::{Act, NO_ROW};
use crate::translator::Translator;
use c_tree::{TExpr, TStatement};

/// What is around a statement: where `break` and `continue` go, and whether `case` may stand there.
#[derive(Clone, Copy)]
pub(crate) struct Around {
    behind: Option<u32>,
    turn: Option<u32>,
    pub is_in_switch: bool,
}

impl Around {
    /// The body of a function.
    pub fn function() -> Around {
        Around {
            behind: None,
            turn: None,
            is_in_switch: false,
        }
    }

    /// The body of a loop here, with the place behind it and that of the end of its turn.
    fn in_loop(self, behind: u32, turn: u32) -> Around {
        Around {
            behind: Some(behind),
            turn: Some(turn),
            is_in_switch: self.is_in_switch,
        }
    }

    /// The body of a `switch` here, with the place behind it.
    fn in_switch(self, behind: u32) -> Around {
        Around {
            behind: Some(behind),
            turn: self.turn,
            is_in_switch: true,
        }
    }
}

impl Translator<'_> {
    // ---- expressions in statements

    /// An expression whose value is dropped.
    fn dropped(&mut self, e: &TExpr, next: u32) -> Result<u32, RowsNo> {
        let drops = self.push(Act::Drops, next)?;
        self.expression(e, drops)
    }

    /// The same where there may be none.
    fn dropped_if_there(&mut self, e: &Option<TExpr>, next: u32) -> Result<u32, RowsNo> {
        match e {
            Some(e) => self.dropped(e, next),
            None => Ok(next),
        }
    }

    /// The test of a loop with this body: its first place, which is the body's where there is no test.
    fn tested(&mut self, test: &Option<TExpr>, body: u32, next: u32) -> Result<u32, RowsNo> {
        match test {
            Some(e) => self.test(e, body, next),
            None => Ok(body),
        }
    }

    fn test(&mut self, e: &TExpr, body: u32, next: u32) -> Result<u32, RowsNo> {
        let tests = self.push(Act::Tests(body), next)?;
        self.expression(e, tests)
    }

    // ---- jumps (C90 6.6.6)

    fn jump(&mut self, act: Act, to: Option<u32>) -> Result<u32, RowsNo> {
        match to {
            Some(to) => self.push(act, to),
            None => Err(RowsNo::Misfit),
        }
    }

    /// The place of a label of the function.
    fn label_place(&self, label: u32) -> Option<u32> {
        if label < self.labels {
            self.first_label.checked_add(label)
        } else {
            None
        }
    }

    /// A label before the statement at a place.
    fn here(&mut self, label: u32, next: u32) -> Result<u32, RowsNo> {
        let Some(at) = self.label_place(label) else {
            return Err(RowsNo::Misfit);
        };
        self.set_next(at, next)?;
        Ok(at)
    }

    fn returns(&mut self) -> Result<u32, RowsNo> {
        self.push(Act::Returns, NO_ROW)
    }

    /// Without a value it gives 0 (C90 6.6.6.4). So does falling off the end of a function.
    pub(crate) fn returns_zero(&mut self) -> Result<u32, RowsNo> {
        let returns = self.returns()?;
        self.push(Act::Gives(0), returns)
    }

    fn returns_value(&mut self, e: &TExpr) -> Result<u32, RowsNo> {
        let returns = self.returns()?;
        self.expression(e, returns)
    }

    fn returns_record(&mut self, e: &TExpr, size: u32) -> Result<u32, RowsNo> {
        let returns = self.returns()?;
        let copies = self.push(Act::CopiesOut(size), returns)?;
        self.expression(e, copies)
    }

    // ---- statements

    /// The rows of a statement.
    #[cycle(statements)]
    pub(crate) fn statement(
        &mut self,
        s: &TStatement,
        around: Around,
        next: u32,
    ) -> Result<u32, RowsNo> {
        match s {
            TStatement::Empty => self.push(Act::Stays, next),
            TStatement::Expression(e) => self.dropped(e, next),
            TStatement::Compound(statements) => {
                self.statements(statements.as_slice(), around, next)
            }
            TStatement::Initialise {
                local,
                size,
                is_aggregate,
                pieces,
            } => {
                let size = if *is_aggregate { Some(*size) } else { None };
                self.initialise(*local, size, pieces.as_slice(), next)
            }
            TStatement::If(_, _) => self.selection(s, around, next),
            TStatement::IfElse(_, _, _) => self.selection(s, around, next),
            TStatement::Switch(_, _) => self.selection(s, around, next),
            TStatement::While(_, _) => self.iteration(s, around, next),
            TStatement::DoWhile(_, _) => self.iteration(s, around, next),
            TStatement::For { .. } => self.iteration(s, around, next),
            TStatement::Case(_, _) => self.labelled(s, around, next),
            TStatement::Default(_) => self.labelled(s, around, next),
            TStatement::Labelled(_, _) => self.labelled(s, around, next),
            TStatement::Goto(label) => self.jump(Act::Goes, self.label_place(*label)),
            TStatement::Break => self.jump(Act::Breaks, around.behind),
            TStatement::Continue => self.jump(Act::Continues, around.turn),
            TStatement::Return => self.returns_zero(),
            TStatement::ReturnValue(e) => self.returns_value(e),
            TStatement::ReturnRecord(e, size) => self.returns_record(e, *size),
        }
    }

    /// Statements, one after the other.
    #[cycle(statements)]
    fn statements(
        &mut self,
        items: &[TStatement],
        around: Around,
        next: u32,
    ) -> Result<u32, RowsNo> {
        let mut first = next;
        'items: for i in (0..items.len()).rev() {
            first = self.statement(&items[i], around, first)?;
        }
        Ok(first)
    }

    /// `if` and `switch` (C90 6.6.4).
    #[cycle(statements)]
    fn selection(&mut self, s: &TStatement, around: Around, next: u32) -> Result<u32, RowsNo> {
        match s {
            TStatement::If(e, first) => {
                let first = self.statement(first.get(), around, next)?;
                let own = self.push(Act::Branches(next), first)?;
                self.expression(e, own)
            }
            TStatement::IfElse(e, first, second) => {
                let second = self.statement(second.get(), around, next)?;
                let first = self.statement(first.get(), around, next)?;
                let own = self.push(Act::Branches(second), first)?;
                self.expression(e, own)
            }
            TStatement::Switch(e, body) => {
                let cases = self.cases.len();
                let ends = self.push(Act::EndsSwitch, next)?;
                self.statement(body.get(), around.in_switch(next), ends)?;
                let own = self.selects(cases, next)?;
                self.expression(e, own)
            }
            _ => Err(RowsNo::Misfit),
        }
    }

    /// Loops (C90 6.6.5).
    #[cycle(statements)]
    fn iteration(&mut self, s: &TStatement, around: Around, next: u32) -> Result<u32, RowsNo> {
        match s {
            TStatement::While(e, body) => {
                let loops = self.push(Act::Loops, next)?;
                let turn = self.push(Act::Around, loops)?;
                let body = self.statement(body.get(), around.in_loop(next, turn), turn)?;
                let test = self.test(e, body, next)?;
                self.set_next(loops, test)?;
                Ok(loops)
            }
            TStatement::DoWhile(body, e) => {
                let repeats = self.push(Act::Repeats, next)?;
                let until = self.push(Act::Until(repeats), next)?;
                let test = self.expression(e, until)?;
                let turn = self.push(Act::Again, test)?;
                let body = self.statement(body.get(), around.in_loop(next, turn), turn)?;
                self.set_next(repeats, body)?;
                Ok(repeats)
            }
            TStatement::For {
                start,
                test,
                step,
                body,
            } => {
                let loops = self.push(Act::Loops, next)?;
                let before = self.dropped_if_there(step, loops)?;
                let turn = self.push(Act::Around, before)?;
                let body = self.statement(body.get(), around.in_loop(next, turn), turn)?;
                let first = self.tested(test, body, next)?;
                self.set_next(loops, first)?;
                self.dropped_if_there(start, loops)
            }
            _ => Err(RowsNo::Misfit),
        }
    }

    /// Labelled statements (C90 6.6.1).
    #[cycle(statements)]
    fn labelled(&mut self, s: &TStatement, around: Around, next: u32) -> Result<u32, RowsNo> {
        match s {
            TStatement::Case(value, s) => {
                let first = self.statement(s.get(), around, next)?;
                self.case(Some(*value), around, first)
            }
            TStatement::Default(s) => {
                let first = self.statement(s.get(), around, next)?;
                self.case(None, around, first)
            }
            TStatement::Labelled(label, s) => {
                let first = self.statement(s.get(), around, next)?;
                self.here(*label, first)
            }
            _ => Err(RowsNo::Misfit),
        }
    }
}
