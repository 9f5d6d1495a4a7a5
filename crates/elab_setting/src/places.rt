//! Where the labels and cases of a function stand among its operations.

use crate::refusal::ElaborateNo;
use std::alloc::Global;

/// A case, and where it stands.
#[derive(Clone, Copy, Debug, PartialEq, Eq)]
pub struct SwitchCase {
    pub value: u32,
    pub place: u32,
}

/// The cases of a switch in order of text, and where its default stands, if it has one.
#[derive(Drop)]
pub struct Switch {
    pub cases: Vec<SwitchCase>,
    pub default: Option<u32>,
}

/// Where the labels of a function stand, and the cases of its switches. It keeps the first refusal and gives it at the end.
#[derive(Drop)]
pub struct Places {
    alloc: Global,
    labels: Vec<Option<u32>>,
    /// In order of text.
    switches: Vec<Switch>,
    refusal: Option<ElaborateNo>,
}

impl Places {
    /// Of a function with so many labels, none of which has a place.
    pub fn new(alloc: Global, labels: u32) -> Result<Places, ElaborateNo> {
        let mut places = Vec::new(alloc);
        for _ in 0..labels {
            places.push(None)?;
        }
        Ok(Places {
            alloc,
            labels: places,
            switches: Vec::new(alloc),
            refusal: None,
        })
    }

    /// The same, or the first refusal.
    pub fn finish(self) -> Result<Places, ElaborateNo> {
        match self.refusal {
            None => Ok(self),
            Some(refusal) => Err(refusal),
        }
    }

    /// Keeps a refusal, unless there is one.
    fn refuse(&mut self, refusal: ElaborateNo) {
        if self.refusal.is_none() {
            self.refusal = Some(refusal);
        }
    }

    /// A label stands here. Refused where it is none of the function's, or stands twice.
    pub fn put_label(&mut self, label: u32, place: u32) {
        let fits = match self.labels.get_mut(label as usize) {
            Some(known) => {
                let is_new = known.is_none();
                *known = Some(place);
                is_new
            }
            None => false,
        };
        if !fits {
            self.refuse(ElaborateNo::Misfit);
        }
    }

    /// A switch begins. Gives its number.
    pub fn begin_switch(&mut self) -> usize {
        let number = self.switches.len();
        let switch = Switch {
            cases: Vec::new(self.alloc),
            default: None,
        };
        if self.switches.push(switch).is_err() {
            self.refuse(ElaborateNo::NoMemory);
        }
        number
    }

    /// A case of a switch stands here. Refused outside of each.
    pub fn put_case(&mut self, switch: Option<usize>, value: u32, place: u32) {
        let refusal = match self.switch_mut(switch) {
            Some(switch) => match switch.cases.push(SwitchCase { value, place }) {
                Ok(()) => return,
                Err(_) => ElaborateNo::NoMemory,
            },
            None => ElaborateNo::Misfit,
        };
        self.refuse(refusal);
    }

    /// The default of a switch stands here. Refused outside of each, or where it has one.
    pub fn put_default(&mut self, switch: Option<usize>, place: u32) {
        let fits = match self.switch_mut(switch) {
            Some(switch) => {
                let is_new = switch.default.is_none();
                switch.default = Some(place);
                is_new
            }
            None => false,
        };
        if !fits {
            self.refuse(ElaborateNo::Misfit);
        }
    }

    /// A switch, by its number.
    fn switch_mut(&mut self, number: Option<usize>) -> Option<&mut Switch> {
        match number {
            Some(number) => self.switches.get_mut(number),
            None => None,
        }
    }

    /// Where a label stands; None of one that stands nowhere.
    pub fn label(&self, label: u32) -> Option<u32> {
        match self.labels.get(label as usize) {
            Some(place) => *place,
            None => None,
        }
    }

    /// A switch, by its number in order of text.
    pub fn switch(&self, number: usize) -> Option<&Switch> {
        self.switches.get(number)
    }
}
