//! Bytes by name, in the names' order.

ghost use Rattle.std.specs.Prelude.{◌≡◌, OnOk, OnErr};
ghost use Rattle.std.specs.Option.{option_map};
ghost use Rattle.std.specs.FinMap as map;
ghost use Rattle.fsc_outside.specs.FileMap.{file_of};

use fsc_base::{Bytes, NoMemory};
use std::alloc::Global;
use std::collections::BTreeMap;
use std::marker::Model;

/// The bytes of files by their names. A look-up reads as many names as the tree is deep. Contracts see it as a
/// `FileMap` of `specs/`.
#[derive(Debug, Drop)]
pub struct FileTable {
    entries: BTreeMap<Vec<u8>, Bytes>,
}

impl Model for FileTable {
    ghost use Rattle.std.specs.FinMap as map;
    ghost use Rattle.fsc_outside.specs.FileMap.{FileMap, file_map_code};
    ghost use Rattle.fsc_outside.specs.Table.{named};

    ghost Value = { FileMap };

    ghost coded = { file_map_code };

    ghost view = { λ t. map.from_entries (named t.entries.entries) };
}

impl FileTable {
    /// A table with no file. It takes no memory.
    pub fn new(alloc: Global) -> FileTable
        ensures { result ≡ map.empty }
    {
        FileTable {
            entries: BTreeMap::new(alloc),
        }
    }

    /// The bytes of a file, where there is one.
    pub fn get(&self, name: &[u8]) -> Option<&[u8]>
        ensures { option_map (λ bytes. bytes.now) result ≡ file_of self.now name.now }
    {
        match self.entries.get(name) {
            Some(bytes) => Some(bytes.as_slice()),
            None => None,
        }
    }

    /// Makes a copy of the bytes the file of that name. Refused for want of memory, and then nothing is changed.
    pub fn put(&mut self, alloc: Global, name: &[u8], bytes: &[u8]) -> Result<(), NoMemory>
        ensures ok { OnOk result (self.new ≡ map.insert self.old name.now bytes.now) }
        ensures err { OnErr result (self.new ≡ self.old) }
    {
        let key = Vec::from_slice(alloc, name)?;
        let value = Bytes::from_slice(alloc, bytes)?;
        self.entries.insert(key, value)?;
        Ok(())
    }
}
