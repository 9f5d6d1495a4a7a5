//! The laws of shapes, places, cells and descriptors.

ghost use Rattle.type_desc.specs.Descriptors.{OneSpelling, ReadsBack};
ghost use Rattle.type_desc.specs.Shapes.{FindsAdded, KeepsOthers};
ghost use Rattle.type_desc.specs.Periods.{OneLeastPeriod, LeastIsShape};
ghost use Rattle.type_desc.specs.Places.{ShapesLayOut, PlaneLaysOut, NarrowPlaces, FatPlaces};
ghost use Rattle.type_desc.specs.Cells.{PlacedSize, PlacesEach, PlacedOnce, ZerosPlaced, SetsValue, SetsBase, TenBytes};

/// The law of shapes. A list of kinds has one least period, which is a shape.
pub fn shapes_are_least()
    ensures one { OneLeastPeriod }
    ensures shape { LeastIsShape }
{}

/// The law of places. The values and bases of a block's words stand at the indices below twice the number of words, each
/// at one of its own; so do those of the plane layout. Where all words are of one kind, the places are plain.
pub fn places_are_apart()
    ensures shapes { ShapesLayOut }
    ensures plane { PlaneLaysOut }
    ensures narrow { NarrowPlaces }
    ensures fat { FatPlaces }
{}

/// The law of cells. The list of a block's cell words has each value and base at its place, and it is the only one; zeros
/// without bases are zeros in each shape.
pub fn cells_are_placed()
    ensures size { PlacedSize }
    ensures each { PlacesEach }
    ensures once { PlacedOnce }
    ensures zeros { ZerosPlaced }
    ensures ten_bytes { TenBytes }
{}

/// The law of writes to a cell. In any layout a word written at the place of a value or base is that value or base, and all
/// else stays.
pub fn cells_are_set()
    ensures value { SetsValue }
    ensures base { SetsBase }
{}

/// The law of descriptors. Bytes begin with the descriptor of one shape at most, so a shape is read back from its own.
pub fn descriptors_read_back()
    ensures one { OneSpelling }
    ensures back { ReadsBack }
{}

/// The law of lists of shapes. A shape that was added is found by its number, and each other number gives what it gave.
pub fn shapes_are_found()
    ensures added { FindsAdded }
    ensures others { KeepsOthers }
{}
