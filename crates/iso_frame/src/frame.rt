//! A record frame.

ghost use Rattle.std.specs.Prelude.{◌≡◌, ◌+◌, ◌<◌, ◌≤◌, length, MatchResult, slice_get};
ghost use Rattle.std.specs.Option.{option_map};
ghost use Rattle.frame_spec.specs.RecordFrame.{Field, FrameView, RecordFrame};
ghost use Rattle.frame_spec.specs.FrameFaults.{HasFrameFault};
ghost use Rattle.frame_spec.specs.FrameDecision.{frame_at};

use crate::leader::{Leader, entry_of, read_directory, read_leader, tag_at, tag_of};
use frame_spec::{FrameFault, one_answer};
use std::marker::Model;

/// A record frame: how many bytes the record takes, and its fields, each a tag of four bytes and the field's bytes with
/// its terminator (ISO/IEC 8211).
#[derive(Drop)]
pub struct Frame<'a> {
    bytes: &'a [u8],
    at: usize,
    leader: Leader,
    count: usize,
}

impl<'a> Model for Frame<'a> {
    ghost use Rattle.frame_spec.specs.RecordFrame.{FrameView, fields_at};
    ghost use Rattle.iso_frame.specs.Numbers.{IsRead};

    ghost Value = { FrameView };

    ghost view = { λ f. record { length = f.leader.length; fields = fields_at f.bytes.now f.at } };

    ghost invariant = { λ f. IsRead f.bytes.now f.at f.leader f.count };
}

/// The record at a place from 0, where `first` says that it is the first of its file, the data descriptive record.
///
/// The first failing test gives the fault: the bytes of the leader, the leader, the bytes of the record, the directory.
/// It takes no memory.
pub fn next_record(bytes: &[u8], at: usize, first: bool) -> Result<Frame<'_>, FrameFault>
    requires { at ≤ length bytes.now }
    // The record stands there, or this is its fault.
    ensures stands { MatchResult result (RecordFrame bytes.now at first) (HasFrameFault bytes.now at first) }
    // The tests of the parts find the same.
    ensures exact { result ≡ frame_at bytes.now at first }
{
    let found = record_of(bytes, at, first);
    one_answer();
    found
}

/// The record that stands at a place, or the fault that it has.
fn record_of(bytes: &[u8], at: usize, first: bool) -> Result<Frame<'_>, FrameFault>
    requires { at ≤ length bytes.now }
    ensures { MatchResult result (RecordFrame bytes.now at first) (HasFrameFault bytes.now at first) }
{
    let left = bytes.len() - at;
    if left < 24 {
        return Err(FrameFault::Short);
    }
    let Some(leader) = read_leader(bytes, at, first) else {
        return Err(FrameFault::BadLeader);
    };
    if left < leader.length {
        return Err(FrameFault::Short);
    }
    let Some(count) = read_directory(bytes, at, leader) else {
        return Err(FrameFault::BadDirectory);
    };
    Ok(Frame {
        bytes,
        at,
        leader,
        count,
    })
}

impl Frame<'_> {
    /// How many bytes the record takes.
    pub fn length(&self) -> usize
        ensures { result ≡ self.now.length }
    {
        self.leader.length
    }

    /// How many fields the record has.
    pub fn count(&self) -> usize
        ensures { result ≡ length self.now.fields }
    {
        self.count
    }

    /// The tag of the field at a place from 0 of the directory. The numbers of its entry aren't read once more.
    pub fn tag(&self, k: usize) -> [u8; 4]
        requires { k < length self.now.fields }
        ensures { option_map (λ (f : Field). f.tag) (slice_get self.now.fields k) ≡ Some result }
    {
        tag_of(self.bytes, self.at, self.leader, self.count, k)
    }

    /// The tag and the bytes of the field at a place from 0 of the directory.
    pub fn field(&self, k: usize) -> ([u8; 4], &[u8])
        requires { k < length self.now.fields }
        ensures { slice_get self.now.fields k ≡ Some (record { tag = result.0; bytes = result.1.now }) }
    {
        let entry = entry_of(self.bytes, self.at, self.leader, self.count, k);
        let tag = tag_at(self.bytes, entry.place);
        let from = self.at + self.leader.base + entry.position;
        (tag, &self.bytes[from..from + entry.length])
    }
}
