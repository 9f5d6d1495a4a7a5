//! Layouts of some types, worked through.

ghost use Rattle.c_types.specs.Worked.{CharAndInt, Incomplete, BitFields, BitMembers, FirstBits, OfUnion, OfArray, LeastPeriod, OfChars, Large};

/// What the definition of layouts says of plain types: a struct of a char and an int, bit-fields and where they begin, a union, arrays,
/// structs of chars and a large struct.
pub fn worked_layouts()
    ensures char_and_int { CharAndInt }
    ensures incomplete { Incomplete }
    ensures bit_fields { BitFields }
    ensures bit_members { BitMembers }
    ensures first_bits { FirstBits }
    ensures of_union { OfUnion }
    ensures of_array { OfArray }
    ensures least_period { LeastPeriod }
    ensures of_chars { OfChars }
    ensures large { Large }
{}
