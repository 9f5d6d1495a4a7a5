//! The laws of layouts.

ghost use Rattle.access_methods.specs.Laws.{AddressesAlone, FindsShapes, LayoutsAreLayouts, OneKindFat, OneKindNarrow};

/// The law of numbers. A number stands for a layout, if for any; only 3 and multiples of 4 do; a multiple of 4 stands for
/// the layout of its shape.
pub fn numbers_stand_for_layouts()
    ensures layouts { LayoutsAreLayouts }
    ensures addresses { AddressesAlone }
    ensures shapes { FindsShapes }
{}

/// Where the words of a block stand whose words are all of one kind.
pub fn places_of_one_kind()
    ensures narrow { OneKindNarrow }
    ensures fat { OneKindFat }
{}
