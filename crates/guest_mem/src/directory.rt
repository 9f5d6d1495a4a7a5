//! The pages of a region.

ghost use Rattle.std.specs.Prelude.{◌≡◌, ◌+◌, ◌*◌, ◌/◌, ◌%◌, ◌^◌, ◌<◌, ◌≤◌, length, IfOk, IsOk, IsTrue};
ghost use Rattle.guest_mem.specs.Pages.{AreMade, Keeps, Writes, blanks, is_made, page_at};

use crate::page::{PAGE_BYTES, TABLE_PAGES, Table};
use fsc_base::NoMemory;
use std::alloc::Global;
use std::marker::Model;

/// How many bytes the pages of a table hold.
const TABLE_BYTES: usize = PAGE_BYTES * TABLE_PAGES;

/// Tables of pages, each made when it is first needed. Contracts see it as the list of its tables.
#[derive(Debug, Drop)]
pub(crate) struct Directory {
    tables: Vec<Table>,
}

impl Model for Directory {
    ghost use Rattle.std.specs.Prelude.{List, ℕ};
    ghost use Rattle.guest_mem.specs.Pages.{IsDirectory};

    ghost Value = { List (List (List ℕ)) };

    ghost view = { λ d. d.tables.items };

    ghost invariant = { λ d. IsDirectory d.tables.items };
}

impl Directory {
    /// A directory for this many bytes, with no page. Refused only for want of memory.
    #[tactic(auto, unfolding(crate::specs::Pages::blanks))]
    pub(crate) fn new(alloc: Global, bytes: usize) -> Result<Directory, NoMemory>
        ensures { IfOk result (λ directory. directory ≡ blanks (bytes / 4194304 + 1)) }
    {
        let count = bytes / TABLE_BYTES + 1;
        let mut tables = Vec::with_capacity(alloc, count)?;
        for _ in 0..count {
            tables.push(Table::unmade(alloc))?;
        }
        Ok(Directory { tables })
    }

    /// The bytes of the page that has a place, none where it was not made.
    #[inline]
    pub(crate) fn page(&self, place: usize) -> &[u8]
        requires { place / 4194304 < length self.now }
        ensures page { result.now ≡ page_at self.now place }
        ensures whole { 0 < length result.now → length result.now ≡ 4096 }
    {
        let pages = self.tables[place / TABLE_BYTES].pages();
        if pages.is_empty() {
            return &[];
        }
        pages[place / PAGE_BYTES % TABLE_PAGES].bytes()
    }

    /// Makes the page that has a place, where it was not made. Refused only for want of memory, and never where it was
    /// made. No byte changes, and each page that was made stays.
    #[inline]
    pub(crate) fn make(&mut self, alloc: Global, place: usize) -> Result<(), NoMemory>
        requires { place / 4194304 < length self.old }
        ensures kept { Keeps self.old self.new }
        ensures made { IfOk result (λ _. IsTrue (is_made self.new place)) }
        ensures ready { IsTrue (is_made self.old place) → IsOk result }
    {
        if self.page(place).is_empty() {
            self.make_missing(alloc, place)
        } else {
            Ok(())
        }
    }

    /// Makes the page that has a place, and its table, where they were not made. Refused only for want of memory. No byte
    /// changes, and each page that was made stays.
    fn make_missing(&mut self, alloc: Global, place: usize) -> Result<(), NoMemory>
        requires { place / 4194304 < length self.old }
        ensures kept { Keeps self.old self.new }
        ensures made { IfOk result (λ _. IsTrue (is_made self.new place)) }
    {
        self.tables[place / TABLE_BYTES].make(alloc, place / PAGE_BYTES % TABLE_PAGES)
    }

    /// Makes the pages of so many places from one on. Refused only for want of memory. No byte changes, and each page that
    /// was made stays.
    pub(crate) fn make_all(&mut self, alloc: Global, place: usize, n: usize) -> Result<(), NoMemory>
        requires inside { place + n ≤ 4194304 * length self.old }
        requires fits { place + n < 2 ^ 63 }
        ensures kept { Keeps self.old self.new }
        ensures made { IfOk result (λ _. AreMade self.new place n) }
    {
        for page in place / PAGE_BYTES..(place + n).div_ceil(PAGE_BYTES) {
            self.make(alloc, page * PAGE_BYTES)?;
        }
        Ok(())
    }

    /// Puts these bytes at a place, where its page was made and has as many from there on.
    #[inline]
    pub(crate) fn write(&mut self, place: usize, bytes: &[u8])
        requires made { IsTrue (is_made self.old place) }
        requires fits { place % 4096 + length bytes.now ≤ 4096 }
        ensures { Writes self.old self.new place bytes.now }
    {
        let index = place / PAGE_BYTES % TABLE_PAGES;
        self.tables[place / TABLE_BYTES].write(index, place % PAGE_BYTES, bytes);
    }

    /// Puts these bytes at a place and behind it, where the pages were made.
    pub(crate) fn put(&mut self, place: usize, bytes: &[u8])
        requires made { AreMade self.old place (length bytes.now) }
        requires fits { place + length bytes.now < 2 ^ 63 }
        ensures { Writes self.old self.new place bytes.now }
    {
        let mut done = 0;
        while done < bytes.len() {
            let from = place + done;
            let n = (PAGE_BYTES - from % PAGE_BYTES).min(bytes.len() - done);
            self.write(from, &bytes[done..done + n]);
            done += n;
        }
    }
}
