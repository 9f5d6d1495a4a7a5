//! The guest's memory as a whole.

ghost use Rattle.std.specs.Prelude.{◌≡◌, ◌≢◌, ◌+◌, ◌%◌, ◌^◌, ◌<◌, ◌≤◌, ◌⊎◌, length, position, IsTrue, None, Some, Ok, Err, IfOk, IfSome, MatchOption};
ghost use Rattle.fsc_base.specs.Image.{IsSound};
ghost use Rattle.guest_mem.specs.Guest.{bytes_at, contains, covers, fetched, little_endian, loaded, memory_in, memory_of, number_at, number_in, stored, with_bytes, Stores};
ghost use Rattle.guest_mem.specs.Layout.{AllApart, layout};
ghost use Rattle.guest_mem.specs.Ready.{IsReady, StaysReady};
ghost use Rattle.guest_mem.specs.Regions.{regions_of};

use crate::fault::{Fault, StoreNo};
use crate::region::PagedRegion;
use crate::right::Right;
use fsc_base::{Image, NoMemory};
use std::alloc::Global;
use std::marker::Model;

/// All memory of a guest machine. Contracts see it as the list of its regions, in the order of the image's segments,
/// each with all its bytes and for which of them a page was made. An access looks through them in that order.
///
/// It takes memory for the pages of the bytes that the image gives, and then a page of 4,096 bytes at the first store
/// that touches it; a page stays until the value ends. For every 4 MiB of a region it takes a table of 32 bytes, and
/// one of 1,024 pages where some page in them was made.
#[derive(Debug, Drop)]
pub struct Guest {
    pub(crate) regions: Vec<PagedRegion>,
    alloc: Global,
}

impl Model for Guest {
    ghost use Rattle.std.specs.Prelude.{List};
    ghost use Rattle.guest_mem.specs.Layout.{AllApart};
    ghost use Rattle.guest_mem.specs.Regions.{Paged, regions_of};

    ghost Value = { List Paged };

    ghost view = { λ g. g.regions.items };

    ghost invariant = { λ g. AllApart (regions_of g.regions.items) };
}

/// The index of the first region that has `n` bytes from the address `at` on and gives the right.
pub(crate) fn place_of(regions: &[PagedRegion], right: Right, at: u32, n: usize) -> Option<usize>
    requires { n < 2 ^ 63 }
    ensures { result ≡ position (λ paged. contains paged.region right at n) regions.now }
{
    regions
        .iter()
        .position(|region| region.contains(right, at, n))
}

/// The index of the region that has `n` bytes from the address `at` on and gives the right; no other has them. Code is looked
/// for from the first one on, and all else from the last one on: there the heap and the stack stand.
#[inline]
fn find(regions: &[PagedRegion], right: Right, at: u32, n: usize) -> Option<usize>
    requires apart { AllApart (regions_of regions.now) }
    requires some { 0 < n }
    requires few { n < 2 ^ 63 }
    ensures { result ≡ position (λ paged. contains paged.region right at n) regions.now }
{
    if right == Right::Execute {
        return place_of(regions, right, at, n);
    }
    let mut index = regions.len();
    while index > 0 {
        index -= 1;
        if regions[index].contains(right, at, n) {
            return Some(index);
        }
    }
    None
}

/// `n` bytes from the address `at` on, all in one page, where one region has them all and gives the right. None where
/// their page was not made: then they are zero.
#[inline]
fn part_in(regions: &[PagedRegion], right: Right, at: u32, n: usize) -> Option<&[u8]>
    requires apart { AllApart (regions_of regions.now) }
    requires some { 0 < n }
    requires page { at % 4096 + n ≤ 4096 }
    ensures number { MatchOption result
        (bytes_at (regions_of regions.now) right at n ≡ None)
        (λ bytes. number_in (bytes_at (regions_of regions.now) right at n) ≡ Ok (little_endian bytes.now)) }
    ensures length { IfSome result (λ bytes. (length bytes.now ≡ 0) ⊎ (length bytes.now ≡ n)) }
{
    let Some(place) = find(regions, right, at, n) else {
        return None;
    };
    Some(regions[place].in_page(at, n))
}

/// The number that the four bytes at the address `at` spell, where it is a multiple of 4 and one region has them all and
/// gives the right.
#[inline]
fn word_in(regions: &[PagedRegion], right: Right, at: u32) -> Result<u32, Fault>
    requires { AllApart (regions_of regions.now) }
    ensures { result ≡ number_at 4 (regions_of regions.now) right at }
{
    if at % 4 != 0 {
        return Err(Fault::Misaligned);
    }
    match part_in(regions, right, at, 4) {
        Some([a, b, c, d]) => Ok(u32::from_le_bytes([*a, *b, *c, *d])),
        Some(_) => Ok(0),
        None => Err(Fault::Outside),
    }
}

/// Puts bytes where one region has as many from the address `at` on, in one page, and may be written.
#[inline]
fn store_in(
    regions: &mut [PagedRegion],
    alloc: Global,
    at: u32,
    bytes: &[u8],
) -> Result<(), StoreNo>
    requires apart { AllApart (regions_of regions.old) }
    requires some { 0 < length bytes.now }
    requires page { at % 4096 + length bytes.now ≤ 4096 }
    ensures stores { Stores (memory_in (with_bytes (regions_of regions.old) at bytes.now)) (regions_of regions.old) (regions_of regions.new) result }
    ensures ready { IsReady regions.old at (length bytes.now) → result ≢ Err StoreNo.NoMemory }
    ensures kept { StaysReady regions.old regions.new }
    ensures laid { layout (regions_of regions.new) ≡ layout (regions_of regions.old) }
{
    let Some(place) = find(regions, Right::Write, at, bytes.len()) else {
        return Err(StoreNo::Outside);
    };
    match regions[place].store(alloc, at, bytes) {
        Ok(()) => Ok(()),
        Err(NoMemory) => Err(StoreNo::NoMemory),
    }
}

/// Makes the pages of the `n` bytes from the address `at` on where one region has them all and may be written.
fn make_in(regions: &mut [PagedRegion], alloc: Global, at: u32, n: u32) -> Result<(), NoMemory>
    requires apart { AllApart (regions_of regions.old) }
    requires covered { IsTrue (covers (regions_of regions.old) Right.Write at n) }
    ensures same { regions_of regions.new ≡ regions_of regions.old }
    ensures ready { IfOk result (λ _. IsReady regions.new at n) }
    ensures kept { StaysReady regions.old regions.new }
{
    let Some(place) = place_of(regions, Right::Write, at, n as usize) else {
        return Ok(());
    };
    regions[place].make(alloc, at, n)
}

impl Guest {
    /// The memory of a sound image: the bytes of its segments, and zeros past them. It takes the pages of the bytes that
    /// the segments give. Refused only for want of memory.
    pub fn new(alloc: Global, image: &Image) -> Result<Guest, NoMemory>
        requires { IsSound image.now }
        ensures { IfOk result (λ guest. regions_of guest ≡ memory_of image.now) }
    {
        let mut regions = Vec::new(alloc);
        for segment in image.segments.as_slice() {
            regions.push(PagedRegion::new(alloc, segment)?)?;
        }
        Ok(Guest { regions, alloc })
    }

    /// Whether `n` is 0 or the `n` bytes from the address `at` on all lie in one region that gives the right.
    pub fn covers(&self, at: u32, n: u32, right: Right) -> bool
        ensures { result ≡ covers (regions_of self.now) right at n }
    {
        n == 0 || place_of(&self.regions, right, at, n as usize).is_some()
    }

    /// Makes each page that the `n` bytes from the address `at` on touch, which all lie in one region that may be written.
    /// From then on a store within them needs no memory. Refused only for want of memory. No byte changes.
    pub fn ready(&mut self, at: u32, n: u32) -> Result<(), NoMemory>
        requires { IsTrue (covers (regions_of self.old) Right.Write at n) }
        ensures same { regions_of self.new ≡ regions_of self.old }
        ensures ready { IfOk result (λ _. IsReady self.new at n) }
        ensures kept { StaysReady self.old self.new }
    {
        make_in(self.regions.as_mut_slice(), self.alloc, at, n)
    }

    /// The byte at the address `at`. Refused with `Outside`, exactly where no region that may be read has it.
    #[tactic(auto, unfolding(crate::specs::Guest::loaded))]
    #[inline]
    pub fn load8(&self, at: u32) -> Result<u8, Fault>
        ensures { result ≡ loaded 1 (regions_of self.now) at }
    {
        match part_in(&self.regions, Right::Read, at, 1) {
            Some([byte]) => Ok(*byte),
            Some(_) => Ok(0),
            None => Err(Fault::Outside),
        }
    }

    /// The two bytes at the address `at`, the lowest first. Refused with `Misaligned` exactly where `at` is odd, else with
    /// `Outside` exactly where the bytes do not both lie in one region that may be read.
    #[tactic(auto, unfolding(crate::specs::Guest::loaded))]
    #[inline]
    pub fn load16(&self, at: u32) -> Result<u16, Fault>
        ensures { result ≡ loaded 2 (regions_of self.now) at }
    {
        if at % 2 != 0 {
            return Err(Fault::Misaligned);
        }
        match part_in(&self.regions, Right::Read, at, 2) {
            Some([low, high]) => Ok(u16::from_le_bytes([*low, *high])),
            Some(_) => Ok(0),
            None => Err(Fault::Outside),
        }
    }

    /// The four bytes at the address `at`, the lowest first. Refused with `Misaligned` exactly where `at` is no multiple
    /// of 4, else with `Outside` exactly where the bytes do not all lie in one region that may be read.
    #[tactic(auto, unfolding(crate::specs::Guest::loaded))]
    #[inline]
    pub fn load32(&self, at: u32) -> Result<u32, Fault>
        ensures { result ≡ loaded 4 (regions_of self.now) at }
    {
        word_in(&self.regions, Right::Read, at)
    }

    /// The four bytes at the address `at`, the lowest first. Refused with `Misaligned` exactly where `at` is no multiple
    /// of 4, else with `Outside` exactly where the bytes do not all lie in one region that may be executed.
    #[tactic(auto, unfolding(crate::specs::Guest::fetched))]
    #[inline]
    pub fn fetch(&self, at: u32) -> Result<u32, Fault>
        ensures { result ≡ fetched (regions_of self.now) at }
    {
        word_in(&self.regions, Right::Execute, at)
    }

    /// Makes `value` the byte at the address `at`. Refused, with nothing changed, with `Outside` exactly where no region
    /// that may be written has it; else with `NoMemory` only where memory is wanted for its page.
    #[tactic(auto, unfolding(crate::specs::Guest::stored))]
    #[inline]
    pub fn store8(&mut self, at: u32, value: u8) -> Result<(), StoreNo>
        ensures stores { Stores (stored 1 (regions_of self.old) at value) (regions_of self.old) (regions_of self.new) result }
        ensures ready { IsReady self.old at 1 → result ≢ Err StoreNo.NoMemory }
        ensures kept { StaysReady self.old self.new }
    {
        self.store(at, &[value])
    }

    /// Makes the bytes of `value` the two bytes at the address `at`, the lowest first. Refused, with nothing changed, with
    /// `Misaligned` exactly where `at` is odd, else with `Outside` exactly where the bytes do not both lie in one region
    /// that may be written; else with `NoMemory` only where memory is wanted for their page.
    #[tactic(auto, unfolding(crate::specs::Guest::stored))]
    #[inline]
    pub fn store16(&mut self, at: u32, value: u16) -> Result<(), StoreNo>
        ensures stores { Stores (stored 2 (regions_of self.old) at value) (regions_of self.old) (regions_of self.new) result }
        ensures ready { IsReady self.old at 2 → result ≢ Err StoreNo.NoMemory }
        ensures kept { StaysReady self.old self.new }
    {
        if at % 2 != 0 {
            return Err(StoreNo::Misaligned);
        }
        self.store(at, &value.to_le_bytes())
    }

    /// Makes the bytes of `value` the four bytes at the address `at`, the lowest first. Refused, with nothing changed, with
    /// `Misaligned` exactly where `at` is no multiple of 4, else with `Outside` exactly where the bytes do not all lie in
    /// one region that may be written; else with `NoMemory` only where memory is wanted for their page.
    #[tactic(auto, unfolding(crate::specs::Guest::stored))]
    #[inline]
    pub fn store32(&mut self, at: u32, value: u32) -> Result<(), StoreNo>
        ensures stores { Stores (stored 4 (regions_of self.old) at value) (regions_of self.old) (regions_of self.new) result }
        ensures ready { IsReady self.old at 4 → result ≢ Err StoreNo.NoMemory }
        ensures kept { StaysReady self.old self.new }
    {
        if at % 4 != 0 {
            return Err(StoreNo::Misaligned);
        }
        self.store(at, &value.to_le_bytes())
    }

    /// Puts these bytes at the address `at`, all in one page.
    #[inline]
    fn store(&mut self, at: u32, bytes: &[u8]) -> Result<(), StoreNo>
        requires some { 0 < length bytes.now }
        requires page { at % 4096 + length bytes.now ≤ 4096 }
        ensures stores { Stores (memory_in (with_bytes (regions_of self.old) at bytes.now)) (regions_of self.old) (regions_of self.new) result }
        ensures ready { IsReady self.old at (length bytes.now) → result ≢ Err StoreNo.NoMemory }
        ensures kept { StaysReady self.old self.new }
    {
        store_in(self.regions.as_mut_slice(), self.alloc, at, bytes)
    }
}
