//! Places of labels.

ghost use Rattle.std.specs.Prelude.{◌≡◌, ◌++◌, ◌∷◌, [], length, slice_set, OnOk, OnErr, Some, None, IsTrue, ◌↔◌};
ghost use Rattle.rv_asm.specs.Places.{place_in, IsUnbound};

use crate::label::Label;
use std::alloc::{AllocError, Global};
use std::marker::Model;

/// For each label how many bytes of code stand before it, once it is bound. Contracts see that list.
#[derive(Debug, Drop)]
pub(crate) struct Places {
    places: Vec<Option<u32>>,
}

impl Model for Places {
    ghost use Rattle.std.specs.Prelude.{ℕ, List, Option};

    ghost Value = { List (Option ℕ) };

    ghost view = { λ p. p.places.items };
}

impl Places {
    /// No labels. It takes no memory.
    pub fn new(alloc: Global) -> Places
        ensures { result ≡ [] }
    {
        Places {
            places: Vec::new(alloc),
        }
    }

    /// How many labels there are.
    pub fn len(&self) -> usize
        ensures { result ≡ length self.now }
    {
        self.places.len()
    }

    /// One more label, which is not bound. Refused only for want of memory, with nothing changed.
    pub fn add(&mut self) -> Result<(), AllocError>
        ensures added { OnOk result (self.new ≡ self.old ++ None ∷ []) }
        ensures refused { OnErr result (self.new ≡ self.old) }
    {
        self.places.push(None)?;
        Ok(())
    }

    /// The place of a label; None where it is not bound, or none of these.
    pub fn get(&self, label: Label) -> Option<u32>
        ensures { result ≡ place_in self.now label }
    {
        let index = label.number() as usize;
        if index < self.places.len() {
            self.places[index]
        } else {
            None
        }
    }

    /// Whether a label is one of these and not bound.
    pub fn is_unbound(&self, label: Label) -> bool
        ensures { IsTrue result ↔ IsUnbound self.now label }
    {
        let index = label.number() as usize;
        index < self.places.len() && self.places[index].is_none()
    }

    /// Binds a label that is not bound.
    pub fn set(&mut self, label: Label, place: u32)
        requires { IsUnbound self.old label }
        ensures { self.new ≡ slice_set self.old label (Some place) }
    {
        self.places[label.number() as usize] = Some(place);
    }
}
