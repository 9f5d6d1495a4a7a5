//! Laws of runs.

ghost use Rattle.c_ops.specs.Runs.{CostsWithin, EndStays, GoesOn, CutsAtCost};

/// The laws of runs over states of any type. A run costs no more than it may. A longer run is the shorter one where that has ended, and
/// else the shorter one and then the rest of it. At exactly the cost of a run there is the same run.
pub fn runs_compose<S>()
    ensures within { CostsWithin S }
    ensures ended { EndStays S }
    ensures longer { GoesOn S }
    ensures cut { CutsAtCost S }
{}
