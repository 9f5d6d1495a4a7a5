//! The laws of fat code.

ghost use Rattle.fat_code.specs.BoundLaws.{FunctionsAreBounded, ShapesAreLeast, ShapesAreFew};
ghost use Rattle.fat_code.specs.FaultLaws.{HeightsOfCode, SoundUnits, TypeFaults, HeadFaults, OpFaults, ObjectFaults};
ghost use Rattle.fat_code.specs.RunLaws.{RunsSeven, RunsSum, RunsBehind, RunsEcho, RunsAllocated, RunsToEnds};

/// The heights of the code of three small functions.
pub fn code_has_heights()
    ensures { HeightsOfCode }
{}

/// Units with a fault, and the fault and offset that are told of each; and units without.
pub fn faults_are_told()
    ensures sound { SoundUnits }
    ensures types { TypeFaults }
    ensures heads { HeadFaults }
    ensures ops { OpFaults }
    ensures objects { ObjectFaults }
{}

/// Small programs, each with the end of its run, what it costs and what it writes: a number that is returned; a call; a store
/// behind an array; a byte that is read and written; a block that is allocated; and other ends.
pub fn programs_are_run()
    ensures seven { RunsSeven }
    ensures sum { RunsSum }
    ensures behind { RunsBehind }
    ensures echo { RunsEcho }
    ensures allocated { RunsAllocated }
    ensures ends { RunsToEnds }
{}

/// What each unit without faults is bound by: its functions have slots for their parameters, and no more operations and entry
/// blocks than its nodes allow; its shapes are in their least period, and few.
pub fn units_are_bounded()
    ensures functions { FunctionsAreBounded }
    ensures shapes { ShapesAreLeast }
    ensures few { ShapesAreFew }
{}
