//! Shapes, and the places of a block's words in its cell.

ghost use Rattle.std.specs.Prelude.{◌≡◌, ◌^◌, ◌<◌, ◌≤◌, length, IfOk};
ghost use Rattle.type_desc.specs.Periods.{IsLeastPeriod, IsShape};
ghost use Rattle.type_desc.specs.Places.{kind_at, fats_in, fats_before, placed};
ghost use Rattle.type_desc.specs.Tables.{IsTable};

use crate::kinds::Kinds;
use crate::period::least_period;
use fsc_base::{NoMemory, WordKind};
use std::alloc::Global;
use std::marker::Model;

/// The kinds of 1 to 1,024 words, in their least period: no shorter list gives them when it is repeated a whole number of
/// times. Word w of a block has the kind of w modulo the number of the shape's words. Contracts see the list of kinds.
#[derive(Debug, Drop)]
pub struct Shape {
    /// How many words they are.
    pub words: u32,
    pub kinds: Kinds,
    /// How many fat words stand before each word, and, last, in all of them.
    fats: Vec<u32>,
}

impl Model for Shape {
    ghost use Rattle.std.specs.Prelude.{List};
    ghost use Rattle.fsc_base.specs.declared.word.WordKind.{WordKind};

    ghost Value = { List WordKind };

    ghost use Rattle.type_desc.specs.Tables.{IsWellFormed};

    ghost view = { λ s. s.kinds };

    ghost invariant = { λ s. IsWellFormed s.words s.kinds s.fats.items };
}

/// How many fat words a word is.
fn fats_in(kind: WordKind) -> u32
    ensures { result ≡ fats_in kind }
{
    match kind {
        WordKind::Fat => 1,
        WordKind::Narrow => 0,
    }
}

/// How many fat words stand before each word, and, last, in all of them.
fn count_fats(alloc: Global, kinds: &[WordKind]) -> Result<Vec<u32>, NoMemory>
    requires { length kinds.now ≤ 1024 }
    ensures { IfOk result (λ fats. IsTable kinds.now fats.items) }
{
    let mut fats = Vec::with_capacity(alloc, kinds.len() + 1)?;
    let mut count = 0;
    fats.push(count)?;
    for kind in kinds {
        count += fats_in(*kind);
        fats.push(count)?;
    }
    Ok(fats)
}

impl Shape {
    /// The shape of these kinds: the shortest list that gives them when it is repeated a whole number of times. Refused
    /// only for want of memory.
    pub fn of(alloc: Global, kinds: &[WordKind]) -> Result<Shape, NoMemory>
        requires some { 0 < length kinds.now }
        requires few { length kinds.now ≤ 1024 }
        ensures { IfOk result (λ shape. IsLeastPeriod kinds.now shape) }
    {
        let period = least_period(kinds);
        Shape::from_least(alloc, &kinds[..period])
    }

    /// The shape of kinds that are in their least period. Refused only for want of memory.
    pub(crate) fn from_least(alloc: Global, kinds: &[WordKind]) -> Result<Shape, NoMemory>
        requires { IsShape kinds.now }
        ensures { IfOk result (λ shape. shape ≡ kinds.now) }
    {
        Ok(Shape {
            words: kinds.len() as u32,
            kinds: Kinds::from_slice(alloc, kinds)?,
            fats: count_fats(alloc, kinds)?,
        })
    }

    /// The number of its words.
    pub fn words(&self) -> u32
        ensures count { result ≡ length self.now }
        ensures shape { IsShape self.now }
    {
        self.words
    }

    /// Their kinds.
    pub fn kinds(&self) -> &[WordKind]
        ensures kinds { result.now ≡ self.now }
        ensures shape { IsShape self.now }
    {
        self.kinds.as_slice()
    }

    /// The same, without the shape. It takes no memory.
    pub fn into_kinds(self) -> Kinds
        ensures kinds { result ≡ self }
        ensures shape { IsShape self }
    {
        let Shape { kinds, .. } = self;
        kinds
    }

    /// The kind of a block's word.
    fn kind(&self, w: u32) -> WordKind
        ensures { result ≡ kind_at self.now w }
    {
        self.kinds.as_slice()[(w % self.words) as usize]
    }

    /// How many of a block's words before this one are fat.
    fn fats_before(&self, w: u32) -> u32
        ensures count { result ≡ fats_before self.now w }
        ensures within { result ≤ w }
    {
        let in_periods = w / self.words * self.fats[self.words as usize];
        in_periods + self.fats[(w % self.words) as usize]
    }
}

/// The indices of the value and of the base of word `w`, among the words of the cell of a block of `total` words. A bounded
/// number of steps, and no memory.
#[tactic(auto, unfolding(crate::specs::Places::placed))]
pub fn place(shape: &Shape, total: u32, w: u32) -> (u32, u32)
    requires within { w < total }
    requires bounded { total ≤ 2 ^ 30 }
    ensures { result ≡ placed shape.now total w }
{
    let fats = shape.fats_before(w);
    let front = w + fats;
    match shape.kind(w) {
        WordKind::Fat => (front + 1, front),
        WordKind::Narrow => (front, 2 * total - 1 - (w - fats)),
    }
}
