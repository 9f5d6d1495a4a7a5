//! Pages of memory, and tables of them.

ghost use Rattle.std.specs.Prelude.{◌≡◌, ◌+◌, ◌<◌, ◌≤◌, ℕ, [], length, set, slice_index_or, IfOk};
ghost use Rattle.guest_mem.specs.Guest.{overwritten};
ghost use Rattle.guest_mem.specs.Pages.{IsTable, KeepsPage, KeepsTable, blanks, zeros};

use fsc_base::NoMemory;
use std::alloc::Global;
use std::marker::Model;

/// How many bytes a page holds.
pub(crate) const PAGE_BYTES: usize = 4096;

/// How many pages a table holds.
pub(crate) const TABLE_PAGES: usize = 1024;

/// The bytes of a page, or nothing where it was not made yet. Contracts see it as its bytes.
#[derive(Debug, Drop)]
pub(crate) struct Page {
    bytes: Vec<u8>,
}

impl Model for Page {
    ghost use Rattle.std.specs.Prelude.{List, ℕ};

    ghost Value = { List ℕ };

    ghost view = { λ p. p.bytes.items };
}

impl Page {
    /// A page that was not made yet.
    fn unmade(alloc: Global) -> Page
        ensures { result ≡ [] }
    {
        Page {
            bytes: Vec::new(alloc),
        }
    }

    /// A page of so many zeros. Refused only for want of memory.
    #[tactic(auto, unfolding(crate::specs::Pages::zeros))]
    fn of_zeros(alloc: Global, size: usize) -> Result<Page, NoMemory>
        ensures { IfOk result (λ page. page ≡ zeros size) }
    {
        let mut bytes = Vec::with_capacity(alloc, size)?;
        bytes.resize(size, 0)?;
        Ok(Page { bytes })
    }

    /// Its bytes, none where it was not made.
    #[inline]
    pub(crate) fn bytes(&self) -> &[u8]
        ensures { result.now ≡ self.now }
    {
        self.bytes.as_slice()
    }

    /// Makes it, with zeros, where it was not made. Refused only for want of memory; then nothing changes.
    fn make(&mut self, alloc: Global) -> Result<(), NoMemory>
        ensures made { IfOk result (λ _. 0 < length self.new) }
        ensures kept { KeepsPage self.old self.new }
    {
        if self.bytes.is_empty() {
            *self = Page::of_zeros(alloc, PAGE_BYTES)?;
        }
        Ok(())
    }

    /// Puts these bytes at an offset of it, where it has as many.
    #[inline]
    fn write(&mut self, offset: usize, bytes: &[u8])
        requires { offset + length bytes.now ≤ length self.old }
        ensures { self.new ≡ overwritten self.old offset bytes.now }
    {
        self.bytes.as_mut_slice()[offset..offset + bytes.len()].copy_from_slice(bytes);
    }
}

/// The pages of a table, or nothing where it was not made yet. Contracts see it as the list of its pages.
#[derive(Debug, Drop)]
pub(crate) struct Table {
    pages: Vec<Page>,
}

impl Model for Table {
    ghost use Rattle.std.specs.Prelude.{List, ℕ};

    ghost Value = { List (List ℕ) };

    ghost view = { λ t. t.pages.items };
}

impl Table {
    /// A table that was not made yet.
    pub(crate) fn unmade(alloc: Global) -> Table
        ensures { result ≡ [] }
    {
        Table {
            pages: Vec::new(alloc),
        }
    }

    /// A table of so many pages that were not made yet. Refused only for want of memory.
    #[tactic(auto, unfolding(crate::specs::Pages::blanks))]
    fn of_unmade(alloc: Global, count: usize) -> Result<Table, NoMemory>
        ensures { IfOk result (λ table. table ≡ blanks count) }
    {
        let mut pages = Vec::with_capacity(alloc, count)?;
        for _ in 0..count {
            pages.push(Page::unmade(alloc))?;
        }
        Ok(Table { pages })
    }

    /// Its pages, none where it was not made.
    #[inline]
    pub(crate) fn pages(&self) -> &[Page]
        ensures { result.now ≡ self.now }
    {
        self.pages.as_slice()
    }

    /// Makes the page at an index, and the table before it, where they were not made. Refused only for want of memory. No
    /// byte changes, and each page that was made stays.
    pub(crate) fn make(&mut self, alloc: Global, index: usize) -> Result<(), NoMemory>
        requires index { index < 1024 }
        requires whole { IsTable self.old }
        ensures made { IfOk result (λ _. 0 < length (slice_index_or self.new index [])) }
        ensures kept { KeepsTable self.old self.new }
    {
        self.make_table(alloc)?;
        self.pages[index].make(alloc)
    }

    /// Makes the table, with pages that were not made, where it was not made. Refused only for want of memory; then nothing
    /// changes.
    fn make_table(&mut self, alloc: Global) -> Result<(), NoMemory>
        requires { IsTable self.old }
        ensures made { IfOk result (λ _. length self.new ≡ 1024) }
        ensures same { (k : ℕ) → slice_index_or self.new k [] ≡ slice_index_or self.old k [] }
        ensures whole { IsTable self.new }
    {
        if self.pages.is_empty() {
            *self = Table::of_unmade(alloc, TABLE_PAGES)?;
        }
        Ok(())
    }

    /// Puts these bytes at an offset of a page, where the page has as many.
    #[inline]
    pub(crate) fn write(&mut self, index: usize, offset: usize, bytes: &[u8])
        requires index { index < length self.old }
        requires fits { offset + length bytes.now ≤ length (slice_index_or self.old index []) }
        ensures { self.new ≡ set self.old index (overwritten (slice_index_or self.old index []) offset bytes.now) }
    {
        self.pages[index].write(offset, bytes);
    }
}
