//! What stands in lists of a unit file.

ghost use Rattle.std.specs.Prelude.{◌≡◌, ℕ, ◌++◌, ◌-◌, ◌^◌, List, length, min, OnOk};
ghost use Rattle.fat_code.specs.declared.fault.Version.{Version};
ghost use Rattle.fat_code.specs.declared.fault.Version.TheVariants.{Two};
ghost use Rattle.unit_file.specs.Reading.{Reads};
ghost use Rattle.unit_file.specs.Spelling.{number as number_bytes, list_of};

use crate::number::{Found, put_count, put_number, read_number};
use fat_code::{CheckNo, Version};
use fsc_base::NoMemory;
use std::alloc::Global;

/// An item of a list of a unit file.
pub(crate) trait Spelled: Drop {
    /// Its bytes in a file of a version.
    ghost spelled: { Version → Self → List ℕ };

    /// The item whose bytes stand at an offset of a file, and the offset behind them.
    fn read(alloc: Global, version: Version, file: &[u8], at: usize) -> Result<Found<Self>, CheckNo>
        ensures { Reads (spelled version) file.now at result };

    /// Writes its bytes of version 2.
    fn put(&self, out: &mut Vec<u8>) -> Result<(), NoMemory>
        ensures { OnOk result (out.new.items ≡ out.old.items ++ spelled Two self.now) };

    /// How many bytes these are; 2^64 - 1 where there are more.
    fn count(&self) -> u64
        ensures { result ≡ min (length (spelled Two self.now)) (2 ^ 64 - 1) };
}

/// A list: its count and its items.
pub(crate) fn read_list<T: Spelled>(
    alloc: Global,
    version: Version,
    file: &[u8],
    at: usize,
) -> Result<Found<Vec<T>>, CheckNo>
    ensures { Reads (λ items. list_of (T.spelled version) items.items) file.now at result }
{
    let count = read_number(file, at)?;
    let mut items = Vec::new(alloc);
    let mut behind = count.behind;
    for _item in 0..count.value {
        let found: Found<T> = T::read(alloc, version, file, behind)?;
        behind = found.behind;
        items.push(found.value)?;
    }
    Ok(Found {
        value: items,
        behind,
    })
}

/// Writes a list.
pub(crate) fn put_list<T: Spelled>(out: &mut Vec<u8>, items: &[T]) -> Result<(), NoMemory>
    ensures { OnOk result (out.new.items ≡ out.old.items ++ list_of (T.spelled Two) items.now) }
{
    put_count(out, items.len())?;
    for item in items {
        item.put(out)?;
    }
    Ok(())
}

/// How many bytes a list takes.
pub(crate) fn count_list<T: Spelled>(items: &[T]) -> u64
    ensures { result ≡ min (length (list_of (T.spelled Two) items.now)) (2 ^ 64 - 1) }
{
    let mut sum = 4u64;
    for item in items {
        sum = sum.saturating_add(item.count());
    }
    sum
}

impl Spelled for u32 {
    ghost spelled = { λ version number. number_bytes number };

    fn read(
        _alloc: Global,
        _version: Version,
        file: &[u8],
        at: usize,
    ) -> Result<Found<u32>, CheckNo> {
        read_number(file, at)
    }

    fn put(&self, out: &mut Vec<u8>) -> Result<(), NoMemory> {
        put_number(out, *self)
    }

    #[tactic(auto, using(crate::proofs::Bytes::lengths))]
    fn count(&self) -> u64 {
        4
    }
}
