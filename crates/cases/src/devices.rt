//! The devices of a call: files, a sink and a disk in memory, of which one call may fail; files and sink may move one byte at a time.

use crash_disk::{Disk, DiskFailed, MemDisk};
use enc_outside::{Failed, Got, MemShelf, MemSink, Shelf, Sink};
use std::alloc::{AllocError, Global};
use std::collections::BTreeMap;

/// How the devices of a call behave.
#[derive(Clone, Copy, Debug)]
pub struct Manner {
    /// Which call of the file store fails, from 1, or 0.
    pub failing_store: u64,
    /// Which call of the sink fails, from 1, or 0.
    pub failing_sink: u64,
    /// Which call of the disk fails, from 1, or 0.
    pub failing_disk: u64,
    /// Whether each call moves one byte.
    pub is_slow: bool,
}

impl Manner {
    /// No call fails, and each moves all that there is.
    pub const GOOD: Manner = Manner {
        failing_store: 0,
        failing_sink: 0,
        failing_disk: 0,
        is_slow: false,
    };
}

/// A file store in memory that counts its reads.
#[derive(Drop)]
pub struct Store {
    inner: MemShelf,
    is_slow: bool,
    reads: u64,
}

impl Store {
    /// A store of these files.
    pub fn of(
        alloc: Global,
        files: &BTreeMap<String, Vec<u8>>,
        manner: Manner,
    ) -> Result<Store, AllocError> {
        let mut inner = MemShelf::make(alloc);
        for (name, content) in files.iter() {
            inner.place(name.as_str(), content.as_slice())?;
        }
        inner.fail_at(manner.failing_store);
        Ok(Store {
            inner,
            is_slow: manner.is_slow,
            reads: 0,
        })
    }

    /// The content of a file.
    pub fn file(&self, name: &str) -> Option<&[u8]> {
        self.inner.file(name)
    }

    /// How often it was read.
    pub fn reads(&self) -> u64 {
        self.reads
    }
}

impl Shelf for Store {
    ghost files = { λ s. ⟦<MemShelf as Shelf>⟧.files s.inner };

    ghost read_faults = { λ s. ⟦<MemShelf as Shelf>⟧.read_faults s.inner };

    ghost write_faults = { λ s. ⟦<MemShelf as Shelf>⟧.write_faults s.inner };

    fn read_at(&mut self, name: &str, at: u64, into: &mut [u8]) -> Result<Got, Failed> {
        self.reads = self.reads.saturating_add(1);
        if self.is_slow {
            self.inner.read_at(name, at, &mut into[..1])
        } else {
            self.inner.read_at(name, at, into)
        }
    }

    fn make(&mut self, name: &str) -> Result<(), Failed> {
        self.inner.make(name)
    }

    fn append(&mut self, name: &str, bytes: &[u8]) -> Result<usize, Failed> {
        if self.is_slow {
            self.inner.append(name, &bytes[..1])
        } else {
            self.inner.append(name, bytes)
        }
    }
}

/// An output sink in memory.
#[derive(Drop)]
pub struct Paper {
    inner: MemSink,
    is_slow: bool,
}

impl Paper {
    /// A sink without bytes.
    pub fn make(alloc: Global, manner: Manner) -> Paper {
        let mut inner = MemSink::make(alloc);
        inner.fail_at(manner.failing_sink);
        Paper {
            inner,
            is_slow: manner.is_slow,
        }
    }

    /// What was written.
    pub fn bytes(&self) -> &[u8] {
        self.inner.bytes()
    }
}

impl Sink for Paper {
    ghost written = { λ s. ⟦<MemSink as Sink>⟧.written s.inner };

    ghost faults = { λ s. ⟦<MemSink as Sink>⟧.faults s.inner };

    fn put(&mut self, bytes: &[u8]) -> Result<usize, Failed> {
        if self.is_slow {
            self.inner.put(&bytes[..1])
        } else {
            self.inner.put(bytes)
        }
    }
}

/// The calls that lay the bytes of a journal on a disk: a write and a sync.
const LAYING_CALLS: u64 = 2;

/// A disk with these bytes, all of them kept.
pub fn disk_of(alloc: Global, bytes: &[u8], manner: Manner) -> Result<MemDisk, DiskFailed> {
    let mut disk = MemDisk::make(alloc);
    let mut failing = manner.failing_disk;
    if !bytes.is_empty() {
        disk.write_at(0, bytes)?;
        disk.sync()?;
        if failing > 0 {
            failing = failing.saturating_add(LAYING_CALLS);
        }
    }
    disk.fail_at(failing);
    Ok(disk)
}
