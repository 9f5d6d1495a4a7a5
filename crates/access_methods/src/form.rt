//! What the descriptor of a live object says.

ghost use Rattle.std.specs.Prelude.{◌≡◌, None, Some, MatchOption};
ghost use Rattle.access_methods.specs.Shaped.{layouts_of, shaped};
ghost use Rattle.access_methods.specs.Forms.{layout_in, IsFormOf};

use crate::layout::{Layout, Mixed, Narrow, Pair, Plane};
use fsc_base::WordKind;
use type_desc::{Shape, Shapes};

/// A layout that a descriptor stands for.
#[derive(Clone, Copy, Debug)]
pub(crate) enum Chosen<'a> {
    Plane,
    Narrow,
    Pair,
    Mixed(&'a Shape),
}

impl Layout for Chosen<'_> {
    ghost use Rattle.access_methods.specs.Forms.{layout_in, chosen_is_layout, chosen_is_onto};

    ghost places = { layout_in };

    fn value_at(&self, total: u32, w: u32) -> u32 {
        match self {
            Chosen::Plane => Plane.value_at(total, w),
            Chosen::Narrow => Narrow.value_at(total, w),
            Chosen::Pair => Pair.value_at(total, w),
            Chosen::Mixed(shape) => Mixed { shape }.value_at(total, w),
        }
    }

    fn base_at(&self, total: u32, w: u32) -> u32 {
        match self {
            Chosen::Plane => Plane.base_at(total, w),
            Chosen::Narrow => Narrow.base_at(total, w),
            Chosen::Pair => Pair.base_at(total, w),
            Chosen::Mixed(shape) => Mixed { shape }.base_at(total, w),
        }
    }

    ghost is_layout = { chosen_is_layout };

    ghost is_onto = { chosen_is_onto };
}

/// What a live object's descriptor says of it.
#[derive(Clone, Copy, Debug)]
pub(crate) enum Form<'a> {
    /// It has no layout yet: its bytes are zero, and it has no bases.
    Undecided,
    /// It has this layout, and may be written.
    Open(Chosen<'a>),
    /// It has this layout, and refuses writes.
    Sealed(Chosen<'a>),
}

/// The layout of a shape: one of its own where all words are of one kind.
fn layout_for(shape: &Shape) -> Chosen<'_>
    ensures { layout_in result ≡ shaped shape.now }
{
    match shape.kinds() {
        [WordKind::Narrow] => Chosen::Narrow,
        [WordKind::Fat] => Chosen::Pair,
        _ => Chosen::Mixed(shape),
    }
}

/// The layout that a number stands for: 3 for the plane one, a multiple of 4 for that of its shape.
#[tactic(auto, unfolding(crate::specs::Shaped::layouts_of))]
fn layout_of<'a>(shapes: &'a Shapes, desc: u32) -> Option<Chosen<'a>>
    ensures { MatchOption result (layouts_of shapes.now desc ≡ None) (λ layout. layouts_of shapes.now desc ≡ Some (layout_in layout)) }
{
    if desc == 3 {
        Some(Chosen::Plane)
    } else if desc % 4 == 0 {
        match shapes.get(desc) {
            Some(shape) => Some(layout_for(shape)),
            None => None,
        }
    } else {
        None
    }
}

/// What the descriptor of a live object says. One that stands for nothing says that the object is undecided.
pub(crate) fn form_of<'a>(shapes: &'a Shapes, desc: u32) -> Form<'a>
    ensures { IsFormOf (layouts_of shapes.now) desc result }
{
    if desc > 3 && desc % 2 == 1 {
        match layout_of(shapes, desc - 1) {
            Some(layout) => Form::Sealed(layout),
            None => Form::Undecided,
        }
    } else {
        match layout_of(shapes, desc) {
            Some(layout) => Form::Open(layout),
            None => Form::Undecided,
        }
    }
}
