//! A file store in memory.

ghost use Rattle.std.specs.Prelude.{◌≡◌, ◌+◌, ◌<◌, [], Some, None, length, take, IsSome, IfOk, OnOk, OnErr};
ghost use Rattle.enc_outside.specs.Files.{Writes, AppendsTo, SameFiles};
ghost use Rattle.enc_outside.specs.MemFiles.{files_of};
ghost use Rattle.enc_outside.specs.Shelf.{TellsFile, FitsGot};

use crate::calls::Calls;
use crate::shelf::{Failed, Got, Shelf};
use std::alloc::{AllocError, Global};
use std::collections::BTreeMap;

/// Puts a content under a name, in place of what stood there. An `Err` changes nothing.
pub(crate) fn put_file(
    alloc: Global,
    files: &mut BTreeMap<String, Vec<u8>>,
    name: &str,
    content: Vec<u8>,
) -> Result<(), AllocError>
    ensures ok { OnOk result (Writes name.now content.items (files_of files.old) (files_of files.new)) }
    ensures err { OnErr result (SameFiles (files_of files.old) (files_of files.new)) }
{
    let name = String::from_str(alloc, name)?;
    files.insert(name, content)?;
    Ok(())
}

/// Appends bytes to a file that is there. An `Err` changes nothing.
pub(crate) fn append_file(
    files: &mut BTreeMap<String, Vec<u8>>,
    name: &str,
    bytes: &[u8],
) -> Result<(), AllocError>
    ensures ok { OnOk result (AppendsTo name.now bytes.now (files_of files.old) (files_of files.new)) }
    ensures err { OnErr result (SameFiles (files_of files.old) (files_of files.new)) }
{
    match files.get_mut(name) {
        Some(file) => {
            file.extend_from_slice(bytes)?;
            Ok(())
        }
        None => Ok(()),
    }
}

/// Reads bytes of a content from a place on.
pub(crate) fn read_content(content: &[u8], at: usize, into: &mut [u8]) -> Got
    requires { 0 < length into.old }
    ensures told { TellsFile (Some content.now) at into.new result }
    ensures fits { FitsGot into.new result }
{
    if content.len() <= at {
        return Got::End;
    }
    let n = into.len().min(content.len() - at);
    into[..n].copy_from_slice(&content[at..at + n]);
    Got::Bytes(n)
}

/// A file store in memory, of which one call fails.
#[derive(Drop)]
pub struct MemShelf {
    alloc: Global,
    files: BTreeMap<String, Vec<u8>>,
    calls: Calls,
    read_faults: u64,
    write_faults: u64,
}

impl MemShelf {
    ghost use Rattle.std.specs.Prelude.{◌≡◌, None, OnOk, OnErr};
    ghost use Rattle.std.specs.Option.{option_copied};
    ghost use Rattle.enc_outside.specs.Files.{Writes, SameFiles};
    ghost use Rattle.enc_outside.specs.Calls.{next_of};
    ghost use Rattle.enc_outside.specs.MemShelf.{mem_files, failed_reads, failed_writes};

    /// A store without files, of which no call fails.
    pub fn make(alloc: Global) -> MemShelf
        ensures files { (name : _) → mem_files result name ≡ None }
        ensures calls { next_of result.calls ≡ 1 }
        ensures failing { result.calls.failing ≡ 0 }
        ensures read_faults { failed_reads result ≡ 0 }
        ensures write_faults { failed_writes result ≡ 0 }
    {
        MemShelf {
            alloc,
            files: BTreeMap::new(alloc),
            calls: Calls {
                done: 0,
                failing: 0,
            },
            read_faults: 0,
            write_faults: 0,
        }
    }

    /// Puts a file into the store, in place of one of the same name.
    ///
    /// An `Err` means out of memory, and changes nothing.
    pub fn place(&mut self, name: &str, bytes: &[u8]) -> Result<(), AllocError>
        ensures ok { OnOk result (Writes name.now bytes.now (mem_files self.old) (mem_files self.new)) }
        ensures err { OnErr result (SameFiles (mem_files self.old) (mem_files self.new)) }
        ensures calls { self.new.calls ≡ self.old.calls }
        ensures read_faults { failed_reads self.new ≡ failed_reads self.old }
        ensures write_faults { failed_writes self.new ≡ failed_writes self.old }
    {
        let content = Vec::from_slice(self.alloc, bytes)?;
        put_file(self.alloc, &mut self.files, name, content)
    }

    /// Has one call fail, by its number from 1 over all calls as a file store; 0 fails none.
    pub fn fail_at(&mut self, call: u64)
        ensures files { mem_files self.new ≡ mem_files self.old }
        ensures calls { next_of self.new.calls ≡ next_of self.old.calls }
        ensures failing { self.new.calls.failing ≡ call }
        ensures read_faults { failed_reads self.new ≡ failed_reads self.old }
        ensures write_faults { failed_writes self.new ≡ failed_writes self.old }
    {
        self.calls.failing = call;
    }

    /// The content of a file.
    pub fn file(&self, name: &str) -> Option<&[u8]>
        ensures { option_copied result ≡ mem_files self.now name.now }
    {
        match self.files.get(name) {
            Some(content) => Some(content.as_slice()),
            None => None,
        }
    }

    /// Its files, without taking memory.
    pub(crate) fn into_files(self) -> (Global, BTreeMap<String, Vec<u8>>)
        ensures { files_of result.1 ≡ mem_files self }
    {
        (self.alloc, self.files)
    }
}

impl Shelf for MemShelf {
    ghost use Rattle.std.specs.Prelude.{◌≡◌, Some, None, [], take};
    ghost use Rattle.std.specs.Prelude.{◌<◌, ◌↔◌, IfOk, OnOk, OnErr, IsErr, IsSome, length};
    ghost use Rattle.enc_outside.specs.Calls.{IsFailing, IsNext};
    ghost use Rattle.enc_outside.specs.Count.{Counts};
    ghost use Rattle.enc_outside.specs.Files.{Writes, AppendsTo, SameFiles};
    ghost use Rattle.enc_outside.specs.MemShelf.{mem_files};
    ghost use Rattle.enc_outside.specs.Shelf.{TellsFile, FitsGot};
    ghost use Rattle.enc_outside.specs.Sink.{Took};

    ghost files = { λ s. Some (mem_files s) };

    ghost read_faults = { λ s. s.read_faults };

    ghost write_faults = { λ s. s.write_faults };

    /// It fails at the call that was set, and at no other.
    fn read_at(&mut self, name: &str, at: u64, into: &mut [u8]) -> Result<Got, Failed>
        requires { 0 < length into.old }
        ensures told { IfOk result (TellsFile (mem_files self.old name.now) at into.new) }
        ensures fits { IfOk result (FitsGot into.new) }
        ensures files { mem_files self.new ≡ mem_files self.old }
        ensures read_faults { Counts self.old.read_faults self.new.read_faults result }
        ensures write_faults { self.new.write_faults ≡ self.old.write_faults }
        ensures set { IsErr result ↔ IsFailing self.old.calls }
        ensures next { IsNext self.old.calls self.new.calls }
    {
        if self.calls.count() {
            self.read_faults = self.read_faults.saturating_add(1);
            return Err(Failed);
        }
        match self.files.get(name) {
            Some(content) => Ok(read_content(content, at as usize, into)),
            None => Ok(Got::Absent),
        }
    }

    /// It fails at the call that was set, and where memory was refused.
    fn make(&mut self, name: &str) -> Result<(), Failed>
        ensures ok { OnOk result (Writes name.now [] (mem_files self.old) (mem_files self.new)) }
        ensures err { OnErr result (SameFiles (mem_files self.old) (mem_files self.new)) }
        ensures read_faults { self.new.read_faults ≡ self.old.read_faults }
        ensures write_faults { Counts self.old.write_faults self.new.write_faults result }
        ensures set { IsFailing self.old.calls → IsErr result }
        ensures next { IsNext self.old.calls self.new.calls }
    {
        if !self.calls.count()
            && put_file(self.alloc, &mut self.files, name, Vec::new(self.alloc)).is_ok()
        {
            return Ok(());
        }
        self.write_faults = self.write_faults.saturating_add(1);
        Err(Failed)
    }

    /// It fails at the call that was set, and where memory was refused.
    fn append(&mut self, name: &str, bytes: &[u8]) -> Result<usize, Failed>
        requires some { 0 < length bytes.now }
        requires there { IsSome (mem_files self.old name.now) }
        ensures took { IfOk result (Took bytes.now) }
        ensures ok { IfOk result (λ n. AppendsTo name.now (take n bytes.now) (mem_files self.old) (mem_files self.new)) }
        ensures err { OnErr result (SameFiles (mem_files self.old) (mem_files self.new)) }
        ensures read_faults { self.new.read_faults ≡ self.old.read_faults }
        ensures write_faults { Counts self.old.write_faults self.new.write_faults result }
        ensures set { IsFailing self.old.calls → IsErr result }
        ensures next { IsNext self.old.calls self.new.calls }
    {
        if !self.calls.count() && append_file(&mut self.files, name, bytes).is_ok() {
            return Ok(bytes.len());
        }
        self.write_faults = self.write_faults.saturating_add(1);
        Err(Failed)
    }
}
