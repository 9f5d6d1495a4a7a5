//! Layouts of cells.

ghost use Rattle.std.specs.Prelude.{◌≡◌, ℕ, ◌*◌, ◌^◌, ◌<◌, ◌≤◌};

use type_desc::{Shape, place};

/// Where the value and the base of each word of a block stand among the words of its cell.
///
/// Both calls ask for a word below the total, and for a total of at most 2^30, which a block below 2^32 bytes has. Their
/// answers are the numbers below twice the total, each once. They take no memory.
pub trait Layout {
    ghost use Rattle.cell_store.specs.Layouts.{Layout as Places, IsLayout};
    ghost use Rattle.access_methods.specs.Shaped.{IsOnto};

    /// What contracts see of it.
    ghost places: { Self → Places };

    /// The index of the value of word `w` of a block of `total` words.
    fn value_at(&self, total: u32, w: u32) -> u32
        requires within { w < total }
        requires bounded { total ≤ 2 ^ 30 }
        ensures place { result ≡ (places self.now).value_at total w }
        ensures room { result < 2 * total };

    /// The index of its base.
    fn base_at(&self, total: u32, w: u32) -> u32
        requires within { w < total }
        requires bounded { total ≤ 2 ^ 30 }
        ensures place { result ≡ (places self.now).base_at total w }
        ensures room { result < 2 * total };

    ghost is_layout: { (layout : Self) → IsLayout (places layout) };

    ghost is_onto: { (layout : Self) → IsOnto (places layout) };
}

/// All values, and then all bases.
#[derive(Clone, Copy, Debug)]
pub struct Plane;

impl Layout for Plane {
    ghost use Rattle.access_methods.specs.Shaped.{plane};
    ghost use Rattle.access_methods.specs.ShapedLaws.{plane_is_layout, plane_is_onto};

    ghost places = { λ _. plane };

    fn value_at(&self, _total: u32, w: u32) -> u32 {
        w
    }

    fn base_at(&self, total: u32, w: u32) -> u32 {
        total + w
    }

    ghost is_layout = { λ _. plane_is_layout };

    ghost is_onto = { λ _. plane_is_onto };
}

/// The layout of a block all of whose words are narrow: the values from the front on, the bases from the back on.
#[derive(Clone, Copy, Debug)]
pub struct Narrow;

impl Layout for Narrow {
    ghost use Rattle.access_methods.specs.Shaped.{narrow};
    ghost use Rattle.access_methods.specs.ShapedLaws.{shaped_is_layout, shaped_is_onto};

    ghost places = { λ _. narrow };

    fn value_at(&self, _total: u32, w: u32) -> u32 {
        w
    }

    fn base_at(&self, total: u32, w: u32) -> u32 {
        2 * total - 1 - w
    }

    ghost is_layout = { λ _. shaped_is_layout _ };

    ghost is_onto = { λ _. shaped_is_onto _ };
}

/// The layout of a block all of whose words are fat: the base and the value of each word side by side.
#[derive(Clone, Copy, Debug)]
pub struct Pair;

impl Layout for Pair {
    ghost use Rattle.access_methods.specs.Shaped.{pair};
    ghost use Rattle.access_methods.specs.ShapedLaws.{shaped_is_layout, shaped_is_onto};

    ghost places = { λ _. pair };

    fn value_at(&self, _total: u32, w: u32) -> u32 {
        2 * w + 1
    }

    fn base_at(&self, _total: u32, w: u32) -> u32 {
        2 * w
    }

    ghost is_layout = { λ _. shaped_is_layout _ };

    ghost is_onto = { λ _. shaped_is_onto _ };
}

/// The layout of a shape.
#[derive(Clone, Copy, Debug)]
pub struct Mixed<'a> {
    pub shape: &'a Shape,
}

impl Layout for Mixed<'_> {
    ghost use Rattle.access_methods.specs.Shaped.{shaped};
    ghost use Rattle.access_methods.specs.ShapedLaws.{shaped_is_layout, shaped_is_onto};

    ghost places = { λ m. shaped m.shape.now };

    fn value_at(&self, total: u32, w: u32) -> u32 {
        place(self.shape, total, w).0
    }

    fn base_at(&self, total: u32, w: u32) -> u32 {
        place(self.shape, total, w).1
    }

    ghost is_layout = { λ m. shaped_is_layout m.shape.now };

    ghost is_onto = { λ m. shaped_is_onto m.shape.now };
}
