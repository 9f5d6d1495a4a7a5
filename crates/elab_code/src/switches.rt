//! Operations of `switch` (C90 6.6.4.2): the controlling word is compared with each case in order. Behind the tests there is
//! for each case a landing that drops the word and jumps to where the case stands.

use crate::emitter::{Around, Emitter};
use elab_setting::{SwitchCase, count_of, head_length};
use fat_code::Op;

impl Emitter<'_> {
    /// A switch behind its controlling expression, up to its body, which has so many operations. Gives where `break` and
    /// `continue` go in it, where these go around it. A label ends it.
    pub fn begins_switch(&mut self, body: u32, around: Around) -> Around {
        let number = self.next_switch();
        match self.places().switch(number) {
            Some(switch) => self.selects(switch.cases.as_slice(), switch.default, body, around),
            None => {
                self.misfits();
                around
            }
        }
    }

    /// The same with its cases and its default.
    fn selects(
        &mut self,
        cases: &[SwitchCase],
        default: Option<u32>,
        body: u32,
        around: Around,
    ) -> Around {
        let at = self.place();
        let count = count_of(cases.len());
        let start = at.saturating_add(head_length(count));
        let behind = start.saturating_add(body);
        let landing = at.saturating_add(count).saturating_add(2);
        self.tests_cases(cases, landing);
        self.drops();
        self.put(Op::Jump(default.unwrap_or(behind)));
        self.lands(cases);
        self.label(0);
        Around {
            behind: Some(behind),
            turn: around.turn,
        }
    }

    /// The tests, where the landings begin there.
    fn tests_cases(&mut self, cases: &[SwitchCase], landing: u32) {
        let mut to = landing;
        for case in cases {
            self.put(Op::JumpCase {
                value: case.value,
                to,
            });
            to = to.saturating_add(3);
        }
    }

    /// The landings.
    fn lands(&mut self, cases: &[SwitchCase]) {
        for case in cases {
            self.lands_at(case.place);
        }
    }

    /// A landing.
    fn lands_at(&mut self, place: u32) {
        self.label(1);
        self.drops();
        self.put(Op::Jump(place));
    }
}
