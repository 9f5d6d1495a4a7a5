//! What a copy takes of its source, before it writes.

ghost use Rattle.std.specs.Prelude.{◌≡◌, ℕ, ◌+◌, ◌*◌, ◌/◌, ◌^◌, ◌<◌, ◌≤◌, drop, take, IfOk, vec_len};
ghost use Rattle.c_memory.specs.Access.{touched};
ghost use Rattle.c_memory.specs.Blocks.{Block};
ghost use Rattle.c_memory.specs.Copying.{copied_base, copied_bases, is_whole};
ghost use Rattle.access_methods.specs.Cells.{IsObjectIn, Lays};
ghost use Rattle.access_methods.specs.Copied.{AreTaken, AreZeros, HasSpot, IsReady, KeepsAt};
ghost use Rattle.access_methods.specs.Shaped.{layouts_of};

use crate::form::{Form, form_of};
use crate::locate::Spot;
use crate::object::{Object, words_of};
use cell_store::CellStore;
use std::alloc::{AllocError, Global};
use type_desc::Shapes;

/// Bytes, and the bases of the words that they will touch.
#[derive(Debug, Drop)]
pub(crate) struct Taken {
    pub bytes: Vec<u8>,
    pub bases: Vec<u32>,
}

/// Whether word `w` of the target is covered whole by `n` bytes from the offset `to` on, and the bytes that cover it come
/// from a multiple of 4. The source's bytes begin at the offset `from`.
fn is_whole(to: u32, from: u32, n: u32, w: u32) -> bool
    ensures { result ≡ is_whole to from n w }
{
    let target = u64::from(to);
    let word = 4 * u64::from(w);
    target <= word
        && word + 4 <= target + u64::from(n)
        && (u64::from(from) + (word - target)) % 4 == 0
}

impl Object<'_> {
    /// `n` bytes from an offset on. Refused only for want of memory.
    fn bytes(
        &self,
        alloc: Global,
        store: &CellStore,
        offset: u32,
        n: u32,
    ) -> Result<Vec<u8>, AllocError>
        requires stands { IsObjectIn store.now self.now }
        requires within { offset + n ≤ self.now.size }
        ensures length { IfOk result (λ bytes. vec_len bytes ≡ n) }
        ensures items { IfOk result (λ bytes. (x : Block) → Lays store.now self.now x → bytes.items ≡ take n (drop offset x.bytes)) }
    {
        let mut bytes = Vec::with_capacity(alloc, n as usize)?;
        for k in 0..n {
            bytes.push(self.byte(store, offset + k))?;
        }
        Ok(bytes)
    }

    /// The base that word `w` of the target gets: that of the word of the source that is copied whole to it, else none.
    fn copied_base(&self, store: &CellStore, to: u32, from: u32, n: u32, w: u32) -> u32
        requires stands { IsObjectIn store.now self.now }
        requires within { from + n ≤ self.now.size }
        ensures { (x : Block) → Lays store.now self.now x → result ≡ copied_base x.bases to from n w }
    {
        if is_whole(to, from, n, w) {
            let source = u64::from(from) + (4 * u64::from(w) - u64::from(to));
            self.base(store, (source / 4) as u32)
        } else {
            0
        }
    }

    /// The bases that the words touched by the target get. Refused only for want of memory.
    fn bases(
        &self,
        alloc: Global,
        store: &CellStore,
        to: u32,
        from: u32,
        n: u32,
    ) -> Result<Vec<u32>, AllocError>
        requires stands { IsObjectIn store.now self.now }
        requires within { from + n ≤ self.now.size }
        requires reach { to + n < 2 ^ 32 }
        ensures length { IfOk result (λ bases. vec_len bases ≡ touched to n) }
        ensures items { IfOk result (λ bases. (x : Block) → Lays store.now self.now x → bases.items ≡ copied_bases (touched to n) x.bases to from n (to / 4)) }
    {
        let mut bases = Vec::new(alloc);
        for w in to / 4..words_of(to + n) {
            bases.push(self.copied_base(store, to, from, n, w))?;
        }
        Ok(bases)
    }

    /// What a copy of `n` bytes from the offset `from` on to the offset `to` takes. Refused only for want of memory.
    fn taken(
        &self,
        alloc: Global,
        store: &CellStore,
        to: u32,
        from: u32,
        n: u32,
    ) -> Result<Taken, AllocError>
        requires stands { IsObjectIn store.now self.now }
        requires within { from + n ≤ self.now.size }
        requires reach { to + n < 2 ^ 32 }
        ensures ready { IfOk result (λ taken. IsReady taken to n) }
        ensures taken { IfOk result (λ taken. (x : Block) → Lays store.now self.now x → AreTaken taken to from n x) }
    {
        let bytes = self.bytes(alloc, store, from, n)?;
        let bases = self.bases(alloc, store, to, from, n)?;
        Ok(Taken { bytes, bases })
    }
}

/// What a copy of `n` bytes to the offset `to` takes from bytes that are zero, without bases. Refused only for want of memory.
fn zeros(alloc: Global, to: u32, n: u32) -> Result<Taken, AllocError>
    requires reach { to + n < 2 ^ 32 }
    ensures ready { IfOk result (λ taken. IsReady taken to n) }
    ensures zero { IfOk result (λ taken. AreZeros taken to n) }
{
    let bytes = vec![in alloc; 0; n as usize]?;
    let touched = words_of(to + n) - to / 4;
    let bases = vec![in alloc; 0; touched as usize]?;
    Ok(Taken { bytes, bases })
}

/// What a copy of `n` bytes from a place takes. Refused only for want of memory.
pub(crate) fn take_from(
    alloc: Global,
    store: &CellStore,
    shapes: &Shapes,
    source: &Spot,
    to: u32,
    n: u32,
) -> Result<Taken, AllocError>
    requires stands { HasSpot store.now source.now }
    requires within { source.now.offset + n ≤ source.now.size }
    requires reach { to + n < 2 ^ 32 }
    ensures ready { IfOk result (λ taken. IsReady taken to n) }
    ensures taken { IfOk result (λ taken. (x : Block) → KeepsAt store.now (layouts_of shapes.now) source.now x → AreTaken taken to source.now.offset n x) }
{
    match form_of(shapes, source.desc) {
        Form::Undecided => zeros(alloc, to, n),
        Form::Open(layout) => source
            .object(layout)
            .taken(alloc, store, to, source.offset, n),
        Form::Sealed(layout) => source
            .object(layout)
            .taken(alloc, store, to, source.offset, n),
    }
}
