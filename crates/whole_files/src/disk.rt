//! The real file store.

ghost use Rattle.std.specs.Prelude.{◌≡◌, ◌≤◌, None, IfOk, length};
ghost use Rattle.enc_outside.specs.Count.{Rose};

use enc_outside::{Failed, Got, Shelf};
use std::fs::{File, OpenOptions};
use std::io::{ErrorKind, Write};
use std::os::unix::fs::FileExt;
use std::rt::Files;
use std::{fs, io};

/// A file store over the file system. It tells contracts nothing of the files' content.
#[derive(Drop)]
pub struct DiskShelf<'a, R: Files<File = File>> {
    rt: &'a R,
    read_faults: u64,
    write_faults: u64,
}

impl<'a, R: Files<File = File>> DiskShelf<'a, R> {
    /// The files that the program may reach by name. No call of theirs has failed.
    pub fn new(rt: &'a R) -> DiskShelf<'a, R>
        ensures read_faults { result.read_faults ≡ 0 }
        ensures write_faults { result.write_faults ≡ 0 }
    {
        DiskShelf {
            rt,
            read_faults: 0,
            write_faults: 0,
        }
    }

    /// Counts a read that failed.
    fn failed_to_read(&mut self) -> Failed
        ensures no_fall { self.old.read_faults ≤ self.new.read_faults }
        ensures rise { Rose self.old.read_faults self.new.read_faults }
        ensures others { self.new.write_faults ≡ self.old.write_faults }
    {
        self.read_faults = self.read_faults.saturating_add(1);
        Failed
    }

    /// Counts a write that failed.
    fn failed_to_write(&mut self) -> Failed
        ensures no_fall { self.old.write_faults ≤ self.new.write_faults }
        ensures rise { Rose self.old.write_faults self.new.write_faults }
        ensures others { self.new.read_faults ≡ self.old.read_faults }
    {
        self.write_faults = self.write_faults.saturating_add(1);
        Failed
    }
}

/// Reads bytes of a file from a place on.
fn read_file_at<R: Files<File = File>>(
    rt: &R,
    name: &str,
    at: u64,
    into: &mut [u8],
) -> io::Result<usize>
    ensures { IfOk result (λ n. n ≤ length into.new) }
{
    fs::open(rt, name)?.read_at(into, at)
}

/// Appends some of the bytes to a file.
fn append_some<R: Files<File = File>>(rt: &R, name: &str, bytes: &[u8]) -> io::Result<usize>
    ensures { IfOk result (λ n. n ≤ length bytes.now) }
{
    let mut options = OpenOptions::new();
    options.append(true);
    let mut file = options.open(rt, name)?;
    file.write(bytes)
}

impl<R: Files<File = File>> Shelf for DiskShelf<'_, R> {
    ghost files = { λ _. None };

    ghost read_faults = { λ s. s.read_faults };

    ghost write_faults = { λ s. s.write_faults };

    fn read_at(&mut self, name: &str, at: u64, into: &mut [u8]) -> Result<Got, Failed> {
        match read_file_at(self.rt, name, at, into) {
            Ok(0) => Ok(Got::End),
            Ok(n) => Ok(Got::Bytes(n)),
            Err(error) if error.kind() == ErrorKind::NotFound => Ok(Got::Absent),
            Err(_) => Err(self.failed_to_read()),
        }
    }

    fn make(&mut self, name: &str) -> Result<(), Failed> {
        if fs::create(self.rt, name).is_ok() {
            return Ok(());
        }
        Err(self.failed_to_write())
    }

    fn append(&mut self, name: &str, bytes: &[u8]) -> Result<usize, Failed> {
        match append_some(self.rt, name, bytes) {
            Ok(n) if n > 0 => Ok(n),
            _ => Err(self.failed_to_write()),
        }
    }
}
