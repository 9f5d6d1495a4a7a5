//! Bytes that move between memory and the streams outside.

ghost use Rattle.std.specs.Prelude.{◌≡◌, ℕ, ◌+◌, ◌<◌, ◌≤◌, List, Some, length, IsTrue};
ghost use Rattle.fsc_outside.specs.Counts.{Rose};
ghost use Rattle.fsc_outside.specs.Streams.{Appends, AppendsFront};
ghost use Rattle.guest_mem.specs.Filling.{Fills, FillsRegion};
ghost use Rattle.guest_mem.specs.Guest.{bytes_at, covers, part};
ghost use Rattle.guest_mem.specs.Layout.{layout};
ghost use Rattle.guest_mem.specs.Pages.{zeros};
ghost use Rattle.guest_mem.specs.Ready.{HasPage, IsReady, StaysReady};
ghost use Rattle.guest_mem.specs.Regions.{regions_of};

use crate::guest::{Guest, place_of};
use crate::region::PagedRegion;
use crate::right::Right;
use fsc_outside::{Sink, Source, Took, Wrote, write_whole};

/// How a fill ended, and how many bytes it took from the input.
#[derive(Clone, Copy, Debug, PartialEq, Eq)]
pub enum Filled {
    /// There is no room for more, or the input has ended.
    Read(u32),
    /// The input failed, and its count of faults rose.
    Failed(u32),
}

/// Zeros, for pages that were not made.
#[tactic(auto, unfolding(crate::specs::Pages::zeros))]
fn blank() -> [u8; 64]
    ensures { result ≡ zeros 64 }
{
    [0; 64]
}

impl PagedRegion {
    /// Takes bytes from the input to the address `at` and behind it, until they are `n` or the input ends, in as many calls
    /// as the input takes for it; each turn moves at least one byte or ends. It has them all, with their pages. The input
    /// sees only a buffer beside it, since a source may write past what it took. No bytes make no call.
    fn fill_part<S: Source>(&mut self, at: u32, n: u32, input: &mut S) -> Filled
        requires from { self.old.region.address ≤ at }
        requires to { at + n ≤ self.old.region.address + length self.old.region.bytes }
        requires made { (k : ℕ) → k < n → HasPage self.old (at + k) }
        ensures fills { FillsRegion result self.old.region self.new.region at n (S.left input.old) (S.left input.new) }
        ensures made { self.new.made ≡ self.old.made }
        ensures failed { (count : ℕ) → result ≡ Filled.Failed count → Rose (S.fault_count input.old) (S.fault_count input.new) }
        ensures counted { S.fault_count input.old ≤ S.fault_count input.new }
        ensures untouched { n ≡ 0 → input.new ≡ input.old }
        ensures nothing { n ≡ 0 → result ≡ Filled.Read 0 }
    {
        let end = self.end();
        prove!(u64::from(at) + u64::from(n) <= end);
        let mut buffer = [0; 256];
        let mut taken = 0;
        while taken < n {
            let room = (n - taken).min(256) as usize;
            match input.read(&mut buffer[..room]) {
                Took::Moved(count) => {
                    self.put(at + taken, &buffer[..count]);
                    taken += count as u32;
                }
                Took::End => return Filled::Read(taken),
                Took::Failed => return Filled::Failed(taken),
            }
        }
        Filled::Read(taken)
    }

    /// Writes the `n` bytes from the address `at` on, all of which it has: all of them, unless the sink refuses some. No
    /// bytes make no call.
    fn write_part<O: Sink>(&self, at: u32, n: u32, out: &mut O) -> Wrote
        requires from { self.now.region.address ≤ at }
        requires to { at + n ≤ self.now.region.address + length self.now.region.bytes }
        ensures whole { result ≡ Wrote.Whole → Appends (O.written out.old) (O.written out.new) (part self.now.region at n) }
        ensures front { AppendsFront (O.written out.old) (O.written out.new) (part self.now.region at n) }
        ensures failed { result ≡ Wrote.Failed → Rose (O.fault_count out.old) (O.fault_count out.new) }
        ensures counted { O.fault_count out.old ≤ O.fault_count out.new }
    {
        let end = self.end();
        prove!(u64::from(at) + u64::from(n) <= end);
        let zeros = blank();
        let mut done = 0;
        while done < n {
            let piece = self.front(at + done, n - done, &zeros);
            match write_whole(out, piece) {
                Wrote::Whole => done += piece.len() as u32,
                Wrote::Failed => return Wrote::Failed,
                Wrote::NoMemory => return Wrote::NoMemory,
            }
        }
        Wrote::Whole
    }
}

/// Fills `n` bytes from the address `at` on in the region that has them all and may be written.
fn fill_in<S: Source>(regions: &mut [PagedRegion], at: u32, n: u32, input: &mut S) -> Filled
    requires covered { IsTrue (covers (regions_of regions.old) Right.Write at n) }
    requires ready { IsReady regions.old at n }
    ensures fills { Fills result (regions_of regions.old) (regions_of regions.new) at n (S.left input.old) (S.left input.new) }
    ensures kept { StaysReady regions.old regions.new }
    ensures laid { layout (regions_of regions.new) ≡ layout (regions_of regions.old) }
    ensures failed { (count : ℕ) → result ≡ Filled.Failed count → Rose (S.fault_count input.old) (S.fault_count input.new) }
    ensures counted { S.fault_count input.old ≤ S.fault_count input.new }
    ensures untouched { n ≡ 0 → input.new ≡ input.old }
    ensures nothing { n ≡ 0 → result ≡ Filled.Read 0 }
{
    let Some(place) = place_of(regions, Right::Write, at, n as usize) else {
        return Filled::Read(0);
    };
    regions[place].fill_part(at, n, input)
}

impl Guest {
    /// Writes the `n` bytes from the address `at` on, which all lie in one region that may be read: all of them, unless
    /// the sink refuses some. No bytes may be written from anywhere, and make no call.
    pub fn write_to<O: Sink>(&self, at: u32, n: u32, out: &mut O) -> Wrote
        requires { IsTrue (covers (regions_of self.now) Right.Read at n) }
        ensures whole { (bytes : List ℕ) → bytes_at (regions_of self.now) Right.Read at n ≡ Some bytes → result ≡ Wrote.Whole → Appends (O.written out.old) (O.written out.new) bytes }
        ensures front { (bytes : List ℕ) → bytes_at (regions_of self.now) Right.Read at n ≡ Some bytes → AppendsFront (O.written out.old) (O.written out.new) bytes }
        ensures failed { result ≡ Wrote.Failed → Rose (O.fault_count out.old) (O.fault_count out.new) }
        ensures counted { O.fault_count out.old ≤ O.fault_count out.new }
    {
        match place_of(&self.regions, Right::Read, at, n as usize) {
            Some(place) => self.regions[place].write_part(at, n, out),
            None => Wrote::Whole,
        }
    }

    /// Takes bytes from the input to the address `at` and behind it, until they are `n` or the input ends. The `n` bytes
    /// all lie in one region that may be written, and are ready; those that are not reached stay. No bytes may be filled
    /// anywhere, and make no call.
    pub fn fill_from<S: Source>(&mut self, at: u32, n: u32, input: &mut S) -> Filled
        requires covered { IsTrue (covers (regions_of self.old) Right.Write at n) }
        requires ready { IsReady self.old at n }
        ensures fills { Fills result (regions_of self.old) (regions_of self.new) at n (S.left input.old) (S.left input.new) }
        ensures kept { StaysReady self.old self.new }
        ensures failed { (count : ℕ) → result ≡ Filled.Failed count → Rose (S.fault_count input.old) (S.fault_count input.new) }
        ensures counted { S.fault_count input.old ≤ S.fault_count input.new }
        ensures untouched { n ≡ 0 → input.new ≡ input.old }
        ensures nothing { n ≡ 0 → result ≡ Filled.Read 0 }
    {
        fill_in(self.regions.as_mut_slice(), at, n, input)
    }
}
