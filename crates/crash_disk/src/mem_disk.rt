//! A disk in memory.

ghost use Rattle.std.specs.Prelude.{◌≡◌, ◌≤◌, ◌∷◌, IfOk, OnErr, OnOk, length, true};
ghost use Rattle.crash_disk.specs.Calls.{AreKept, filled_by, is_within, newest_first, read_by};
ghost use Rattle.crash_disk.specs.Disk.{overlaid};

use crate::disk::{Disk, DiskFailed};
use std::alloc::{AllocError, Global};

/// A call that was made.
#[derive(Debug, Drop)]
enum Call {
    /// It changed nothing.
    Idle,
    Wrote { at: usize, bytes: Vec<u8> },
    Synced,
}

/// A disk in memory that keeps each of its calls, so that it can tell what a crash after any of them may have left, and of which one
/// call fails.
#[derive(Drop)]
pub struct MemDisk {
    alloc: Global,
    bytes: Vec<u8>,
    calls: Vec<Call>,
    failing: u64,
    faults: u64,
    ghost kept: { AreKept bytes.items (newest_first calls.items) },
}

/// Bytes at a place of others, over what is there.
fn overlay(alloc: Global, old: &[u8], at: usize, bytes: &[u8]) -> Result<Vec<u8>, AllocError>
    requires { at ≤ length old.now }
    ensures { IfOk result (λ new. new.items ≡ overlaid at bytes.now old.now) }
{
    let (front, behind) = old.split_at(at);
    let mut new = Vec::from_slice(alloc, front)?;
    new.extend_from_slice(bytes)?;
    if bytes.len() < behind.len() {
        new.extend_from_slice(&behind[bytes.len()..])?;
    }
    Ok(new)
}

/// Keeps a call. An `Err` changes nothing.
fn keep(calls: &mut Vec<Call>, call: Call) -> Result<(), AllocError>
    ensures ok { OnOk result (newest_first calls.new.items ≡ call ∷ newest_first calls.old.items) }
    ensures err { OnErr result (calls.new.items ≡ calls.old.items) }
{
    calls.push(call)?;
    Ok(())
}

/// What a read gives, and what a crash leaves, after a call.
fn replay(
    alloc: Global,
    call: &Call,
    fill: u8,
    bytes: &mut Vec<u8>,
    image: &mut Vec<u8>,
) -> Result<(), AllocError>
    requires bytes { is_within call.now bytes.old.items ≡ true }
    requires image { is_within call.now image.old.items ≡ true }
    ensures bytes { OnOk result (bytes.new.items ≡ read_by call.now bytes.old.items) }
    ensures image { OnOk result (image.new.items ≡ filled_by fill call.now bytes.old.items image.old.items) }
{
    match call {
        Call::Idle => {}
        Call::Wrote { at, bytes: written } => {
            let filling = vec![in alloc; fill; written.len()]?;
            *bytes = overlay(alloc, bytes, *at, written)?;
            *image = overlay(alloc, image, *at, &filling)?;
        }
        Call::Synced => *image = Vec::from_slice(alloc, bytes)?,
    }
    Ok(())
}

impl MemDisk {
    ghost use Rattle.std.specs.Prelude.{◌≡◌, ◌+◌, ◌≤◌, ◌↔◌, [], ◌∷◌, IfOk, IsErr, IsTrue, OnErr, OnOk, length};
    ghost use Rattle.enc_outside.specs.Count.{Counts, Rose};
    ghost use Rattle.crash_disk.specs.Calls.{IsImage};
    ghost use Rattle.crash_disk.specs.MemDisk.{IsFailing, IsIdle, IsSame, IsWritten, calls_up_to, failed_calls, failing_call, mem_bytes, mem_calls};
    ghost use Rattle.crash_disk.specs.MemDisk.{next_call, picked_image};

    /// A disk without bytes, of which no call fails.
    pub fn make(alloc: Global) -> MemDisk
        ensures bytes { mem_bytes result ≡ [] }
        ensures calls { mem_calls result ≡ [] }
        ensures failing { failing_call result ≡ 0 }
        ensures faults { failed_calls result ≡ 0 }
    {
        MemDisk {
            alloc,
            bytes: Vec::new(alloc),
            calls: Vec::new(alloc),
            failing: 0,
            faults: 0,
        }
    }

    /// Has one call fail, by its number from 1 over all calls as a disk; 0 fails none.
    pub fn fail_at(&mut self, call: u64)
        ensures bytes { mem_bytes self.new ≡ mem_bytes self.old }
        ensures calls { mem_calls self.new ≡ mem_calls self.old }
        ensures failing { failing_call self.new ≡ call }
        ensures faults { failed_calls self.new ≡ failed_calls self.old }
    {
        self.failing = call;
    }

    /// The bytes that a read gives.
    pub fn bytes(&self) -> &[u8]
        ensures { result.now ≡ mem_bytes self.now }
    {
        &self.bytes
    }

    /// How many calls were made.
    pub fn calls(&self) -> u64
        ensures { result + 1 ≡ next_call self.now }
    {
        self.calls.len() as u64
    }

    /// What a crash after so many calls may have left, or after all where there were fewer: for an even `pick` all that was written, for
    /// an odd one the ranges that weren't synced are filled with its low byte.
    ///
    /// An `Err` means out of memory.
    pub fn image(&self, alloc: Global, call: u64, pick: u64) -> Result<Vec<u8>, AllocError>
        ensures picked { IfOk result (λ image. image.items ≡ picked_image pick (calls_up_to call self.now)) }
        ensures left { IfOk result (λ image. IsImage (calls_up_to call self.now) image.items) }
    {
        let count = self.calls.len().min(call as usize);
        let fill = (pick % 256) as u8;
        let mut bytes = Vec::new(alloc);
        let mut image = Vec::new(alloc);
        for call in &self.calls[..count] {
            replay(alloc, call, fill, &mut bytes, &mut image)?;
        }
        Ok(if pick % 2 == 0 { bytes } else { image })
    }

    /// Whether the next call is to fail.
    fn is_failing(&self) -> bool
        ensures { IsTrue result ↔ IsFailing self.now }
    {
        self.failing > 0 && self.failing - 1 == self.calls.len() as u64
    }

    /// Counts a call that failed.
    fn fail(&mut self) -> DiskFailed
        ensures idle { IsIdle self.old self.new }
        ensures failing { failing_call self.new ≡ failing_call self.old }
        ensures no_fall { failed_calls self.old ≤ failed_calls self.new }
        ensures rise { Rose (failed_calls self.old) (failed_calls self.new) }
    {
        let _counted = keep(&mut self.calls, Call::Idle);
        self.faults = self.faults.saturating_add(1);
        DiskFailed
    }

    /// Counts a call that changes nothing.
    fn pass(&mut self) -> Result<(), DiskFailed>
        ensures idle { IsIdle self.old self.new }
        ensures faults { Counts (failed_calls self.old) (failed_calls self.new) result }
        ensures set { IsFailing self.old → IsErr result }
        ensures failing { failing_call self.new ≡ failing_call self.old }
        ensures calls { OnOk result (mem_calls self.new ≡ Call.Idle ∷ mem_calls self.old) }
    {
        if self.is_failing() {
            return Err(self.fail());
        }
        match keep(&mut self.calls, Call::Idle) {
            Ok(()) => Ok(()),
            Err(_) => Err(self.fail()),
        }
    }

    /// Writes bytes and keeps that. An `Err` means out of memory, and changes nothing.
    fn write(&mut self, at: usize, bytes: &[u8]) -> Result<(), AllocError>
        requires { at ≤ length (mem_bytes self.old) }
        ensures ok { OnOk result (IsWritten at bytes.now self.old self.new) }
        ensures err { OnErr result (IsSame self.old self.new) }
        ensures failing { failing_call self.new ≡ failing_call self.old }
    {
        let next = overlay(self.alloc, &self.bytes, at, bytes)?;
        let written = Vec::from_slice(self.alloc, bytes)?;
        keep(&mut self.calls, Call::Wrote { at, bytes: written })?;
        self.bytes = next;
        Ok(())
    }
}

impl Disk for MemDisk {
    ghost use Rattle.std.specs.Prelude.{◌≡◌, ◌+◌, ◌<◌, ◌≤◌, ◌∷◌, IfOk, IsErr, OnErr, OnOk, Some, length, slice_range};
    ghost use Rattle.enc_outside.specs.Count.{Counts};
    ghost use Rattle.crash_disk.specs.Calls.{Goes, IsImage, LeftSince, newest_first};
    ghost use Rattle.crash_disk.specs.Disk.{Follows, NoMore, Only, Torn};
    ghost use Rattle.crash_disk.specs.MemDisk.{failed_calls, failing_call, image_is_left, kept_is_image, left_is_image, mem_bytes, mem_calls};
    ghost use Rattle.crash_disk.specs.MemDisk.{IsFailing, IsIdle, IsPassed, IsWritten};

    ghost content = { λ disk. Some (mem_bytes disk) };

    ghost images = { λ disk. IsImage (mem_calls disk) };

    ghost moment = { λ disk. length (mem_calls disk) };

    ghost left_since = { λ disk. LeftSince (mem_calls disk) };

    ghost faults = { λ disk. failed_calls disk };

    ghost reads_an_image = { λ disk. kept_is_image (mem_bytes disk) (mem_calls disk) disk.kept };

    ghost counts_now = { λ disk t image le is. image_is_left (mem_calls disk) t image le is };

    ghost only_now = { λ disk image left. left_is_image (mem_calls disk) image left };

    /// It fails at the call that was set, and where memory was refused.
    fn length(&mut self) -> Result<u64, DiskFailed>
        ensures length { IfOk result (λ n. n ≡ length (mem_bytes self.old)) }
        ensures passed { IsPassed self.old self.new result }
    {
        self.pass()?;
        Ok(self.bytes.len() as u64)
    }

    /// It fails at the call that was set, and where memory was refused.
    fn read_at(&mut self, at: u64, into: &mut [u8]) -> Result<(), DiskFailed>
        requires { at + length into.old ≤ length (mem_bytes self.old) }
        ensures filled { OnOk result (into.new ≡ slice_range (mem_bytes self.old) at (at + length into.old)) }
        ensures passed { IsPassed self.old self.new result }
    {
        self.pass()?;
        let at = at as usize;
        into.copy_from_slice(&self.bytes[at..at + into.len()]);
        Ok(())
    }

    /// It fails at the call that was set, and where memory was refused.
    fn write_at(&mut self, at: u64, bytes: &[u8]) -> Result<(), DiskFailed>
        requires some { 0 < length bytes.now }
        requires within { at ≤ length (mem_bytes self.old) }
        ensures written { OnOk result (IsWritten at bytes.now self.old self.new) }
        ensures others { Torn at (length bytes.now) (mem_bytes self.old) (mem_bytes self.new) }
        ensures crash { Follows (Torn at (length bytes.now)) (IsImage (mem_calls self.old)) (IsImage (mem_calls self.new)) }
        ensures time { Goes (mem_calls self.old) (mem_calls self.new) }
        ensures faults { Counts (failed_calls self.old) (failed_calls self.new) result }
        ensures set { IsFailing self.old → IsErr result }
        ensures failing { failing_call self.new ≡ failing_call self.old }
        ensures err { OnErr result (IsIdle self.old self.new) }
    {
        if self.is_failing() {
            return Err(self.fail());
        }
        match self.write(at as usize, bytes) {
            Ok(()) => Ok(()),
            Err(_) => Err(self.fail()),
        }
    }

    /// It fails at the call that was set, and where memory was refused.
    fn sync(&mut self) -> Result<(), DiskFailed>
        ensures durable { OnOk result (Only (mem_bytes self.old) (IsImage (mem_calls self.new))) }
        ensures same { mem_bytes self.new ≡ mem_bytes self.old }
        ensures crash { NoMore (IsImage (mem_calls self.old)) (IsImage (mem_calls self.new)) }
        ensures time { Goes (mem_calls self.old) (mem_calls self.new) }
        ensures faults { Counts (failed_calls self.old) (failed_calls self.new) result }
        ensures set { IsFailing self.old → IsErr result }
        ensures failing { failing_call self.new ≡ failing_call self.old }
        ensures calls { OnOk result (mem_calls self.new ≡ Call.Synced ∷ mem_calls self.old) }
        ensures err { OnErr result (IsIdle self.old self.new) }
    {
        if self.is_failing() {
            return Err(self.fail());
        }
        match keep(&mut self.calls, Call::Synced) {
            Ok(()) => Ok(()),
            Err(_) => Err(self.fail()),
        }
    }
}
