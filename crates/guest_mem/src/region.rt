//! A region whose bytes stand in pages.

ghost use Rattle.std.specs.Prelude.{◌≡◌, ◌+◌, ◌-◌, ◌/◌, ◌%◌, ◌^◌, ◌<◌, ◌≤◌, ◌⊎◌, ℕ, ◌==◌, ◌&&◌, nat_le, length, IfOk, OnErr, IsOk};
ghost use Rattle.guest_mem.specs.Guest.{blank_region, contains, little_endian, part, with_part, region_of};
ghost use Rattle.guest_mem.specs.Layout.{AreBytes};
ghost use Rattle.guest_mem.specs.Pages.{zeros};
ghost use Rattle.guest_mem.specs.Ready.{HasPage, StaysMade};
ghost use Rattle.guest_mem.specs.Rights.{flag_of};

use crate::directory::Directory;
use crate::page::PAGE_BYTES;
use crate::right::Right;
use fsc_base::{NoMemory, Segment};
use std::alloc::Global;
use std::marker::Model;

/// A segment in memory. Contracts see it as the region with all its bytes, and for which of them a page was made.
#[derive(Debug, Drop)]
pub struct PagedRegion {
    address: u32,
    flags: u32,
    size: u32,
    pages: Directory,
}

impl Model for PagedRegion {
    ghost use Rattle.std.specs.Prelude.{◌+◌, ◌*◌, ◌%◌, ◌^◌, ◌≤◌, length};
    ghost use Rattle.guest_mem.specs.Regions.{Paged, paged_of};

    ghost Value = { Paged };

    ghost view = { λ r. paged_of r.address r.flags r.size r.pages };

    ghost invariant = { λ r. (r.address + r.size ≤ 2 ^ 32) × (r.address % 4096 + r.size ≤ 4194304 * length r.pages) };
}

/// Whether the flags of a segment give a right.
#[inline]
fn gives(flags: u32, right: Right) -> bool
    ensures { result ≡ (flags / flag_of right % 2 == 1) }
{
    match right {
        Right::Execute => flags % 2 == 1,
        Right::Write => flags / 2 % 2 == 1,
        Right::Read => flags / 4 % 2 == 1,
    }
}

/// Whether `n` bytes from the address `at` on all lie in a range of memory, and its flags give a right.
#[inline]
fn has(address: u32, size: u32, flags: u32, right: Right, at: u32, n: usize) -> bool
    requires { n < 2 ^ 63 }
    ensures { result ≡ ((flags / flag_of right % 2 == 1) && (nat_le address at && nat_le (at + n) (address + size))) }
{
    let end = u64::from(address) + u64::from(size);
    gives(flags, right) && address <= at && u64::from(at) + n as u64 <= end
}

/// The place of an address in the pages of a region that begins at `start`.
#[inline]
fn place_of(start: u32, at: u32) -> usize
    requires { start ≤ at }
    ensures { result ≡ start % 4096 + (at - start) }
{
    (start % 4096) as usize + (at - start) as usize
}

impl PagedRegion {
    /// A region of zeros. It takes a table of 32 bytes for every 4 MiB of them, and is refused only for want of memory.
    fn blank(alloc: Global, address: u32, flags: u32, size: u32) -> Result<PagedRegion, NoMemory>
        requires { address + size ≤ 2 ^ 32 }
        ensures { IfOk result (λ paged. paged.region ≡ blank_region address flags size) }
    {
        let span = (address % 4096) as usize + size as usize;
        Ok(PagedRegion {
            address,
            flags,
            size,
            pages: Directory::new(alloc, span)?,
        })
    }

    /// The segment's bytes, and then zeros to its size. It takes the pages of the bytes that the segment gives, and is
    /// refused only for want of memory.
    pub fn new(alloc: Global, segment: &Segment) -> Result<PagedRegion, NoMemory>
        requires roomy { length segment.now.bytes ≤ segment.now.size }
        requires within { segment.now.address + segment.now.size ≤ 2 ^ 32 }
        ensures { IfOk result (λ paged. paged.region ≡ region_of segment.now) }
    {
        let bytes = segment.bytes.as_slice();
        let mut region = PagedRegion::blank(alloc, segment.address, segment.flags, segment.size)?;
        region.make(alloc, segment.address, bytes.len() as u32)?;
        region.put(segment.address, bytes);
        Ok(region)
    }

    /// Whether `n` bytes from the address `at` on all lie in it, and it gives the right.
    #[inline]
    pub fn contains(&self, right: Right, at: u32, n: usize) -> bool
        requires { n < 2 ^ 63 }
        ensures { result ≡ contains self.now.region right at n }
    {
        has(self.address, self.size, self.flags, right, at, n)
    }

    /// The address behind its last byte.
    pub fn end(&self) -> u64
        ensures end { result ≡ self.now.region.address + length self.now.region.bytes }
        ensures fits { result ≤ 2 ^ 32 }
    {
        u64::from(self.address) + u64::from(self.size)
    }

    /// `n` bytes from the address `at` on, all of which it has in one page, or none where the page was not made: then they
    /// are zero.
    #[inline]
    pub fn in_page(&self, at: u32, n: usize) -> &[u8]
        requires some { 0 < n }
        requires from { self.now.region.address ≤ at }
        requires to { at + n ≤ self.now.region.address + length self.now.region.bytes }
        requires page { at % 4096 + n ≤ 4096 }
        ensures number { little_endian result.now ≡ little_endian (part self.now.region at n) }
        ensures length { (length result.now ≡ 0) ⊎ (length result.now ≡ n) }
    {
        let place = place_of(self.address, at);
        let page = self.pages.page(place);
        if page.is_empty() {
            return &[];
        }
        let offset = place % PAGE_BYTES;
        &page[offset..offset + n]
    }

    /// The first of the `n` bytes from the address `at` on, all of which it has: at least one. Those of a page that was not
    /// made are some of the zeros in `blank`.
    pub fn front<'a>(&'a self, at: u32, n: u32, blank: &'a [u8]) -> &'a [u8]
        requires some { 0 < n }
        requires from { self.now.region.address ≤ at }
        requires to { at + n ≤ self.now.region.address + length self.now.region.bytes }
        requires blank { blank.now ≡ zeros (length blank.now) }
        requires any { 0 < length blank.now }
        ensures some { 0 < length result.now }
        ensures most { length result.now ≤ n }
        ensures bytes { result.now ≡ part self.now.region at (length result.now) }
    {
        let place = place_of(self.address, at);
        let offset = place % PAGE_BYTES;
        let room = (PAGE_BYTES - offset).min(n as usize);
        let page = self.pages.page(place);
        if page.is_empty() {
            return &blank[..room.min(blank.len())];
        }
        &page[offset..offset + room]
    }

    /// Makes the pages of the `n` bytes from the address `at` on, all of which it has. Refused only for want of memory. No
    /// byte changes, and each page that was made stays.
    pub fn make(&mut self, alloc: Global, at: u32, n: u32) -> Result<(), NoMemory>
        requires from { self.old.region.address ≤ at }
        requires to { at + n ≤ self.old.region.address + length self.old.region.bytes }
        ensures same { self.new.region ≡ self.old.region }
        ensures kept { StaysMade self.old self.new }
        ensures made { IfOk result (λ _. (k : ℕ) → k < n → HasPage self.new (at + k)) }
    {
        let place = place_of(self.address, at);
        self.pages.make_all(alloc, place, n as usize)
    }

    /// Puts these bytes at the address `at`, where it has as many in one page. Refused only for want of memory, and never
    /// where the page was made; then no byte changes.
    #[inline]
    pub fn store(&mut self, alloc: Global, at: u32, bytes: &[u8]) -> Result<(), NoMemory>
        requires from { self.old.region.address ≤ at }
        requires some { 0 < length bytes.now }
        requires to { at + length bytes.now ≤ self.old.region.address + length self.old.region.bytes }
        requires page { at % 4096 + length bytes.now ≤ 4096 }
        ensures stored { IfOk result (λ _. self.new.region ≡ with_part self.old.region at bytes.now) }
        ensures refused { OnErr result (self.new.region ≡ self.old.region) }
        ensures kept { StaysMade self.old self.new }
        ensures ready { HasPage self.old at → IsOk result }
    {
        let place = place_of(self.address, at);
        self.pages.make(alloc, place)?;
        self.pages.write(place, bytes);
        Ok(())
    }

    /// Puts these bytes at the address `at` and behind it, where it has as many and their pages were made.
    pub fn put(&mut self, at: u32, bytes: &[u8])
        requires from { self.old.region.address ≤ at }
        requires to { at + length bytes.now ≤ self.old.region.address + length self.old.region.bytes }
        requires made { (k : ℕ) → k < length bytes.now → HasPage self.old (at + k) }
        ensures bytes { self.new.region ≡ with_part self.old.region at bytes.now }
        ensures made { self.new.made ≡ self.old.made }
        ensures are_bytes { AreBytes bytes.now }
    {
        let place = place_of(self.address, at);
        self.pages.put(place, bytes);
    }
}
