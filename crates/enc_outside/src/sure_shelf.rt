//! A file store in memory of which no call fails.

ghost use Rattle.std.specs.Prelude.{◌≡◌, Some, IsOk};
ghost use Rattle.std.specs.Option.{option_copied};
ghost use Rattle.enc_outside.specs.MemShelf.{mem_files};
ghost use Rattle.enc_outside.specs.SureShelf.{held_files, told_files};

use crate::mem_shelf::{MemShelf, append_file, put_file, read_content};
use crate::shelf::{Failed, Got, Shelf};
use std::alloc::Global;
use std::collections::BTreeMap;

/// A file store in memory of which no call fails. It tells its files to contracts until memory was refused, and nothing
/// from then on.
#[derive(Drop)]
pub struct SureShelf {
    alloc: Global,
    files: BTreeMap<String, Vec<u8>>,
    told: bool,
}

impl SureShelf {
    /// The store with the files of another.
    pub fn make(inner: MemShelf) -> SureShelf
        ensures { told_files result ≡ Some (mem_files inner) }
    {
        let (alloc, files) = inner.into_files();
        SureShelf {
            alloc,
            files,
            told: true,
        }
    }

    /// The content of a file.
    pub fn file(&self, name: &str) -> Option<&[u8]>
        ensures { option_copied result ≡ held_files self.now name.now }
    {
        match self.files.get(name) {
            Some(content) => Some(content.as_slice()),
            None => None,
        }
    }
}

impl Shelf for SureShelf {
    ghost use Rattle.std.specs.Prelude.{◌≡◌, ◌<◌, [], IfOk, IfSome, IsOk, IsSome, OnErr, OnOk, length, take};
    ghost use Rattle.enc_outside.specs.Count.{Counts};
    ghost use Rattle.enc_outside.specs.Files.{AppendsTo, MayEmpty, SameFiles, StaysUntold, Told, Writes};
    ghost use Rattle.enc_outside.specs.Shelf.{FitsGot, TellsFile};
    ghost use Rattle.enc_outside.specs.Sink.{Took};
    ghost use Rattle.enc_outside.specs.SureShelf.{told_files};

    ghost files = { told_files };

    ghost read_faults = { λ _. 0 };

    ghost write_faults = { λ _. 0 };

    fn read_at(&mut self, name: &str, at: u64, into: &mut [u8]) -> Result<Got, Failed>
        requires { 0 < length into.old }
        ensures sure { IsOk result }
        ensures told { IfOk result (λ got. IfSome (told_files self.old) (λ files. TellsFile (files name.now) at into.new got)) }
        ensures fits { IfOk result (FitsGot into.new) }
        ensures files { told_files self.new ≡ told_files self.old }
        ensures read_faults { Counts 0 0 result }
    {
        match self.files.get(name) {
            Some(content) => Ok(read_content(content, at as usize, into)),
            None => Ok(Got::Absent),
        }
    }

    fn make(&mut self, name: &str) -> Result<(), Failed>
        ensures sure { IsOk result }
        ensures ok { OnOk result (Told (Writes name.now []) (told_files self.old) (told_files self.new)) }
        ensures err { OnErr result (Told (MayEmpty name.now) (told_files self.old) (told_files self.new)) }
        ensures untold { StaysUntold (told_files self.old) (told_files self.new) }
        ensures write_faults { Counts 0 0 result }
    {
        let made = put_file(self.alloc, &mut self.files, name, Vec::new(self.alloc));
        self.told = self.told && made.is_ok();
        Ok(())
    }

    fn append(&mut self, name: &str, bytes: &[u8]) -> Result<usize, Failed>
        requires some { 0 < length bytes.now }
        requires there { IfSome (told_files self.old) (λ files. IsSome (files name.now)) }
        ensures sure { IsOk result }
        ensures took { IfOk result (Took bytes.now) }
        ensures ok { IfOk result (λ n. Told (AppendsTo name.now (take n bytes.now)) (told_files self.old) (told_files self.new)) }
        ensures err { OnErr result (Told SameFiles (told_files self.old) (told_files self.new)) }
        ensures untold { StaysUntold (told_files self.old) (told_files self.new) }
        ensures write_faults { Counts 0 0 result }
    {
        let appended = append_file(&mut self.files, name, bytes);
        self.told = self.told && appended.is_ok();
        Ok(bytes.len())
    }
}
