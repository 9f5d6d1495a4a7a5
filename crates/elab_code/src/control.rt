//! Operations of rows with rows in them: the places that they jump to follow from the lengths of these. Each is put in parts,
//! between which the operations of its operands and bodies are put.

use crate::emitter::{Around, Emitter};
use c_ops::Unary;
use fat_code::Op;

/// Places of a loop.
#[derive(Clone, Copy, Debug, PartialEq, Eq)]
pub struct Loop {
    /// Where a turn begins.
    pub at: u32,
    /// Where `continue` goes.
    pub turn: u32,
    /// Behind the loop, where `break` goes.
    pub behind: u32,
}

impl Loop {
    /// Where `break` and `continue` go in its body.
    pub fn around(self) -> Around {
        Around {
            behind: Some(self.behind),
            turn: Some(self.turn),
        }
    }
}

/// So many operations behind a place.
fn behind(place: u32, count: u32) -> u32 {
    place.saturating_add(count)
}

impl Emitter<'_> {
    /// Where jumps go, with so many words on the stack.
    pub fn label(&mut self, height: u32) {
        self.put(Op::Label(height));
    }

    /// Jumps, and a label for what stands behind.
    fn jumps(&mut self, to: u32, height: u32) {
        self.put(Op::Jump(to));
        self.label(height);
    }

    /// `&&` behind its left operand, where its right one has so many operations (C90 6.3.13). Gives where it goes when one is 0.
    pub fn begins_both(&mut self, right: u32) -> u32 {
        let fails = behind(self.place(), right.saturating_add(4));
        self.put(Op::JumpZero(fails));
        fails
    }

    /// The same behind its right operand, over so many words.
    pub fn ends_both(&mut self, fails: u32, height: u32) {
        self.put(Op::JumpZero(fails));
        self.gives(1);
        self.jumps(behind(fails, 2), height);
        self.gives(0);
        self.label(height.saturating_add(1));
    }

    /// `||` behind its left operand, where its right one has so many operations (C90 6.3.14). Gives where it goes when one is
    /// not 0.
    pub fn begins_either(&mut self, right: u32) -> u32 {
        let holds = behind(self.place(), right.saturating_add(3));
        self.put(Op::Unary(Unary::Not));
        self.put(Op::JumpZero(holds));
        holds
    }

    /// The same behind its right operand, over so many words.
    pub fn ends_either(&mut self, holds: u32, height: u32) {
        self.put(Op::JumpZero(behind(holds, 3)));
        self.label(height);
        self.gives(1);
        self.jumps(behind(holds, 5), height);
        self.gives(0);
        self.label(height.saturating_add(1));
    }

    /// `?:` and `if` with `else` behind the condition, where what comes first has so many operations (C90 6.3.15, 6.6.4.1).
    /// Gives where the other stands.
    pub fn begins_choice(&mut self, first: u32) -> u32 {
        let other = behind(self.place(), first.saturating_add(2));
        self.put(Op::JumpZero(other));
        other
    }

    /// The same between the two, where the other has so many operations, over so many words.
    pub fn turns_choice(&mut self, other: u32, second: u32, height: u32) {
        self.jumps(behind(other, second.saturating_add(1)), height);
    }

    /// `if` without `else` behind the condition, where its body has so many operations (C90 6.6.4.1). A label ends it.
    pub fn begins_branch(&mut self, body: u32) {
        let to = behind(self.place(), body.saturating_add(1));
        self.put(Op::JumpZero(to));
    }

    /// `while` and `for`, where the test, the body and the step have so many operations (C90 6.6.5).
    pub fn begins_loop(&mut self, is_tested: bool, test: u32, body: u32, step: u32) -> Loop {
        let at = self.place();
        let front = if is_tested { 2 } else { 1 };
        let turn = behind(at, test.saturating_add(body).saturating_add(front));
        self.label(0);
        Loop {
            at,
            turn,
            behind: behind(turn, step.saturating_add(2)),
        }
    }

    /// The same behind the test, where there is one.
    pub fn tests_loop(&mut self, place: Loop, is_tested: bool) {
        if is_tested {
            self.put(Op::JumpZero(place.behind));
        }
    }

    /// The same behind the step.
    pub fn ends_loop(&mut self, place: Loop) {
        self.jumps(place.at, 0);
    }

    /// `do`, where the body and the test have so many operations (C90 6.6.5.2).
    pub fn begins_repeat(&mut self, body: u32, test: u32) -> Loop {
        let at = self.place();
        let turn = behind(at, body.saturating_add(1));
        self.label(0);
        Loop {
            at,
            turn,
            behind: behind(turn, test.saturating_add(3)),
        }
    }

    /// The same behind the test.
    pub fn ends_repeat(&mut self, place: Loop) {
        self.put(Op::JumpZero(place.behind));
        self.jumps(place.at, 0);
    }

    /// `goto` (C90 6.6.6.1).
    pub fn goes(&mut self, label: u32) {
        let to = self.wanted(self.places().label(label));
        self.jumps(to, 0);
    }

    /// `break` (C90 6.6.6.3).
    pub fn breaks(&mut self, around: Around) {
        let to = self.wanted(around.behind);
        self.jumps(to, 0);
    }

    /// `continue` (C90 6.6.6.2).
    pub fn continues(&mut self, around: Around) {
        let to = self.wanted(around.turn);
        self.jumps(to, 0);
    }
}
