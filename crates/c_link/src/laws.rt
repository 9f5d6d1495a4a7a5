//! The laws of linking.

ghost use Rattle.c_link.specs.Laws.{LinksTwoUnits, AddsWanted, BreaksEmpty, BreaksUndefined, BreaksTwice, BreaksNodes};
ghost use Rattle.c_link.specs.TypeLaws.{BreaksTypes, AgreesWithItself, BitsDiffer, QualifiersDiffer, TextsOfTypes};

/// Two units, the second with a function and an object that the first names: how their blocks are numbered, and what memory
/// holds at the start. A unit of the library is added where a user's unit uses what it defines, and none defines that.
pub fn units_are_linked()
    ensures program { LinksTwoUnits }
    ensures added { AddsWanted }
{}

/// A unit without anything breaks M04; a function that is used and not defined breaks M03, one that two units define M02, and
/// one node too many M05.
pub fn faults_are_told()
    ensures empty { BreaksEmpty }
    ensures undefined { BreaksUndefined }
    ensures twice { BreaksTwice }
    ensures nodes { BreaksNodes }
{}

/// An int and a char under one name break M01. Structs that refer to themselves agree whatever their tags; bit-fields of other
/// widths and other qualifiers don't. And the texts of five types.
pub fn types_are_compared()
    ensures told { BreaksTypes }
    ensures agree { AgreesWithItself }
    ensures bits { BitsDiffer }
    ensures qualifiers { QualifiersDiffer }
    ensures texts { TextsOfTypes }
{}
