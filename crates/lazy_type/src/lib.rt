//! Objects that get their layout at their first use.
#![tactic(auto)]

ghost use Rattle.std.specs.Prelude.{◌≡◌, ◌≢◌, ℕ, ◌%◌, ◌≤◌};
ghost use Rattle.cell_store.specs.Store.{header_in, with_desc, IsLiveIn, IsMade};
ghost use Rattle.lazy_type.specs.Deciding.{KeepsHeaps};

use cell_store::CellStore;

/// The descriptor of an object that is undecided.
const UNDECIDED: u32 = 2;

/// Gives a live object this descriptor, a multiple of 4 that is at least 4, where the object is undecided. Else nothing
/// changes, so an object is decided once. What memory means stays the same.
///
/// It takes no memory and a bounded number of steps.
pub fn decide(store: &mut CellStore, block: u32, desc: u32)
    requires live { IsLiveIn store.old block }
    requires multiple { desc % 4 ≡ 0 }
    requires address { 4 ≤ desc }
    ensures meaning { KeepsHeaps store.old desc store.new }
    ensures decided { (header_in store.old block).desc ≢ 2 → store.new ≡ store.old }
    ensures undecided { (header_in store.old block).desc ≡ 2 → store.new ≡ with_desc store.old block desc }
    ensures others { (b : ℕ) → IsMade store.old b → b ≢ block → header_in store.new b ≡ header_in store.old b }
    ensures desc { (header_in store.old block).desc ≡ 2 → (header_in store.new block).desc ≡ desc }
{
    if store.header(block).desc == UNDECIDED {
        store.set_desc(block, desc);
    }
}
