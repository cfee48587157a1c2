//! The real disk of a journal.

ghost use Rattle.std.specs.Prelude.{◌≡◌, ◌≤◌, None};
ghost use Rattle.enc_outside.specs.Count.{Rose};

use crash_disk::{Disk, DiskFailed};
use std::fs::{File, OpenOptions};
use std::io;
use std::os::unix::fs::FileExt;
use std::rt::Files;

/// A disk over a file of the file system. The file is opened, and made where it isn't there, at the first call. It tells contracts nothing of its
/// bytes.
#[derive(Drop)]
pub struct FileDisk<'a, R: Files<File = File>> {
    rt: &'a R,
    name: &'a str,
    file: Option<File>,
    faults: u64,
}

/// Opens a file to read and write it, and makes it where it isn't there. The folder's entry of it is kept, too, once it is open.
fn open_or_make<R: Files<File = File>>(rt: &R, name: &str) -> io::Result<File> {
    let mut options = OpenOptions::new();
    options.read(true);
    options.write(true);
    options.create(true);
    let file = options.open(rt, name)?;
    File::open(rt, folder_of(name))?.sync_all()?;
    Ok(file)
}

/// The folder that a file stands in.
fn folder_of(name: &str) -> &str {
    match name.rsplit_once('/') {
        Some(("", _)) => "/",
        Some((folder, _)) => folder,
        None => ".",
    }
}

impl<'a, R: Files<File = File>> FileDisk<'a, R> {
    /// The disk over the file of this name. No call of it has failed.
    pub fn new(rt: &'a R, name: &'a str) -> FileDisk<'a, R>
        ensures { result.faults ≡ 0 }
    {
        FileDisk {
            rt,
            name,
            file: None,
            faults: 0,
        }
    }

    /// Counts a call that failed.
    fn failed(&mut self) -> DiskFailed
        ensures no_fall { self.old.faults ≤ self.new.faults }
        ensures rise { Rose self.old.faults self.new.faults }
    {
        self.faults = self.faults.saturating_add(1);
        DiskFailed
    }

    /// The file, opened. A call that fails lets go of it, and the next one opens it again.
    fn take_file(&mut self) -> io::Result<File>
        ensures { self.new.faults ≡ self.old.faults }
    {
        match self.file.take() {
            Some(file) => Ok(file),
            None => open_or_make(self.rt, self.name),
        }
    }

    /// How many bytes the file has.
    fn measure(&mut self) -> io::Result<u64>
        ensures { self.new.faults ≡ self.old.faults }
    {
        let file = self.take_file()?;
        let length = file.metadata()?.len();
        self.file = Some(file);
        Ok(length)
    }

    /// Reads bytes from a place on.
    fn read(&mut self, at: u64, into: &mut [u8]) -> io::Result<()>
        ensures { self.new.faults ≡ self.old.faults }
    {
        let file = self.take_file()?;
        file.read_exact_at(into, at)?;
        self.file = Some(file);
        Ok(())
    }

    /// Writes bytes from a place on.
    fn write(&mut self, at: u64, bytes: &[u8]) -> io::Result<()>
        ensures { self.new.faults ≡ self.old.faults }
    {
        let file = self.take_file()?;
        file.write_all_at(bytes, at)?;
        self.file = Some(file);
        Ok(())
    }

    /// Has all that was written last.
    fn keep(&mut self) -> io::Result<()>
        ensures { self.new.faults ≡ self.old.faults }
    {
        let file = self.take_file()?;
        file.sync_all()?;
        self.file = Some(file);
        Ok(())
    }
}

impl<R: Files<File = File>> Disk for FileDisk<'_, R> {
    ghost content = { λ _. None };

    ghost images = { λ _ _. Unit {0} };

    ghost moment = { λ _. 0 };

    ghost left_since = { λ _ _ _. Unit {0} };

    ghost faults = { λ d. d.faults };

    ghost reads_an_image = { λ _. tt };

    ghost counts_now = { λ _ _ _ _ _. tt };

    ghost only_now = { λ _ _ _. tt };

    fn length(&mut self) -> Result<u64, DiskFailed> {
        match self.measure() {
            Ok(length) => Ok(length),
            Err(_) => Err(self.failed()),
        }
    }

    fn read_at(&mut self, at: u64, into: &mut [u8]) -> Result<(), DiskFailed> {
        match self.read(at, into) {
            Ok(()) => Ok(()),
            Err(_) => Err(self.failed()),
        }
    }

    fn write_at(&mut self, at: u64, bytes: &[u8]) -> Result<(), DiskFailed> {
        match self.write(at, bytes) {
            Ok(()) => Ok(()),
            Err(_) => Err(self.failed()),
        }
    }

    fn sync(&mut self) -> Result<(), DiskFailed> {
        match self.keep() {
            Ok(()) => Ok(()),
            Err(_) => Err(self.failed()),
        }
    }
}
