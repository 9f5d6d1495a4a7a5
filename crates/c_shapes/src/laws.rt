//! The laws of shapes.

ghost use Rattle.c_shapes.specs.Runs.{WatchingIsSilent};
ghost use Rattle.c_shapes.specs.Laws.{DecidesOnce, DecidingIsNoAccess, EmptyCopyDecidesNothing, FiveAccesses, FailingAccess, AccessOfNothing, MisplacedRoot};

/// The law of deciding. A decided shape stays, deciding is no access, and a copy of no bytes decides nothing.
pub fn shapes_stay()
    ensures once { DecidesOnce }
    ensures no_access { DecidingIsNoAccess }
    ensures empty_copy { EmptyCopyDecidesNothing }
{}

/// The accesses of one block of 10 bytes: three through its own type are near, two through others are away; one that fails
/// decides all the same, and one without a block nothing.
pub fn block_is_watched()
    ensures five { FiveAccesses }
    ensures failing { FailingAccess }
    ensures nothing { AccessOfNothing }
    ensures misplaced { MisplacedRoot }
{}

/// The law of watching. What is watched changes nothing of a run: not its states, its cost, what it writes and takes, nor its
/// end.
pub fn runs_are_watched<S>()
    ensures { WatchingIsSilent S }
{}
