//! The leader of a record and its directory.

ghost use Rattle.std.specs.Prelude.{◌≡◌, ◌+◌, ◌*◌, ◌^◌, ◌<◌, ◌≤◌, length, IfSome, MatchOption};
ghost use Rattle.frame_spec.specs.RecordFrame.{AreDigits, decimal_value, IsLeader, IsDirectory, entry_size_at, count_at, length_at, length_text, position_text};
ghost use Rattle.frame_spec.specs.RecordFrame.{field_length, field_position, field_tag, entry_place, bytes_at};
ghost use Rattle.iso_frame.specs.Numbers.{AreNumbers, IsRead};

/// How long a leader is (ISO/IEC 8211), the length and the base address in it, and a field's tag in the directory.
const LEADER: usize = 24;

const NUMBER: usize = 5;

const TAG: usize = 4;

/// The number that digits write, if they are digits.
fn decimal(digits: &[u8]) -> Option<usize>
    requires { length digits.now ≤ 9 }
    ensures value { MatchOption result (AreDigits digits.now → ⊥)
        (λ n. AreDigits digits.now × (n ≡ decimal_value digits.now)) }
    ensures bound { MatchOption result (⊥ → ⊥) (λ n. n < 10 ^ 9) }
{
    let mut number = 0;
    for digit in digits {
        if !digit.is_ascii_digit() {
            return None;
        }
        number = number * 10 + (*digit - b'0') as usize;
    }
    Some(number)
}

/// Where the parts of a leader stand: its identifier, the base address of the fields, and the entry map, which has the sizes of a field's
/// length, of its position and of its tag.
const IDENTIFIER: usize = 6;

const BASE_ADDRESS: usize = 12;

const LENGTH_SIZE: usize = 20;

const POSITION_SIZE: usize = 21;

const TAG_SIZE: usize = 23;

/// What a leader says.
#[derive(Clone, Copy)]
pub struct Leader {
    pub length: usize,
    pub base: usize,
    pub length_size: usize,
    pub position_size: usize,
}

/// What the leader at a place says, if it is one.
pub fn read_leader(bytes: &[u8], at: usize, first: bool) -> Option<Leader>
    requires { at + 24 ≤ length bytes.now }
    ensures { MatchOption result (IsLeader bytes.now at first → ⊥)
        (λ l. IsLeader bytes.now at first × AreNumbers bytes.now at l) }
{
    let length = decimal(&bytes[at..at + NUMBER])?;
    let kind = if first { b'L' } else { b'D' };
    let base = decimal(&bytes[at + BASE_ADDRESS..at + BASE_ADDRESS + NUMBER])?;
    let length_size = bytes[at + LENGTH_SIZE];
    let position_size = bytes[at + POSITION_SIZE];
    if bytes[at + IDENTIFIER] != kind
        || !(b'1'..=b'9').contains(&length_size)
        || !(b'1'..=b'9').contains(&position_size)
        || bytes[at + TAG_SIZE] != b'4'
        || base < LEADER_AND_TERMINATOR
        || length < base
    {
        return None;
    }
    Some(Leader {
        length,
        base,
        length_size: (length_size - b'0') as usize,
        position_size: (position_size - b'0') as usize,
    })
}

/// The length of the record at a place, if there are as many bytes as a leader has and it is written in digits. Nothing else is looked at.
pub fn told_length(bytes: &[u8], at: usize) -> Option<usize>
    ensures { IfSome result (λ n. n ≡ length_at bytes.now at) }
{
    if bytes.len() < LEADER || at > bytes.len() - LEADER {
        return None;
    }
    decimal(&bytes[at..at + NUMBER])
}

/// What an entry of the directory says.
#[derive(Clone, Copy)]
pub struct Entry {
    pub place: usize,
    pub length: usize,
    pub position: usize,
}

/// Entry k of the directory, if its numbers are digits.
pub fn read_entry(bytes: &[u8], at: usize, leader: Leader, k: usize) -> Option<Entry>
    requires numbers { AreNumbers bytes.now at leader }
    requires there { at + 24 + k * entry_size_at bytes.now at + entry_size_at bytes.now at ≤ length bytes.now }
    ensures digits { MatchOption result
        (AreDigits (length_text bytes.now at k) → AreDigits (position_text bytes.now at k) → ⊥)
        (λ e. AreDigits (length_text bytes.now at k) × AreDigits (position_text bytes.now at k)) }
    ensures value { MatchOption result (⊥ → ⊥) (λ e. (e.place ≡ at + 24 + k * entry_size_at bytes.now at)
        × (e.length ≡ field_length bytes.now at k) × (e.position ≡ field_position bytes.now at k)) }
    ensures bound { MatchOption result (⊥ → ⊥) (λ e. (e.length < 10 ^ 9) × (e.position < 10 ^ 9)) }
{
    let size = TAG + leader.length_size + leader.position_size;
    let place = at + LEADER + k * size;
    let text = place + TAG;
    let length = decimal(&bytes[text..text + leader.length_size])?;
    let text = text + leader.length_size;
    let position = decimal(&bytes[text..text + leader.position_size])?;
    Some(Entry {
        place,
        length,
        position,
    })
}

/// What a directory ends with.
const FIELD_TERMINATOR: u8 = 0x1e;

/// A leader and the terminator of a directory without entries.
const LEADER_AND_TERMINATOR: usize = 25;

/// How many entries the directory of a record has, if it is one.
pub fn read_directory(bytes: &[u8], at: usize, leader: Leader) -> Option<usize>
    requires numbers { AreNumbers bytes.now at leader }
    requires fits { at + leader.length ≤ length bytes.now }
    ensures { MatchOption result (IsDirectory bytes.now at → ⊥)
        (λ n. IsDirectory bytes.now at × (n ≡ count_at bytes.now at)) }
{
    if bytes[at + leader.base - 1] != FIELD_TERMINATOR {
        return None;
    }
    let size = TAG + leader.length_size + leader.position_size;
    let room = leader.base - LEADER_AND_TERMINATOR;
    if room % size != 0 {
        return None;
    }
    let count = room / size;
    for k in 0..count {
        let entry = read_entry(bytes, at, leader, k)?;
        if entry.length == 0 || leader.base + entry.position + entry.length > leader.length {
            return None;
        }
    }
    Some(count)
}

/// Entry k of the directory of a record that was read.
pub fn entry_of(bytes: &[u8], at: usize, leader: Leader, count: usize, k: usize) -> Entry
    requires read { IsRead bytes.now at leader count }
    requires below { k < count }
    ensures place { result.place ≡ entry_place bytes.now at k }
    ensures length { result.length ≡ field_length bytes.now at k }
    ensures position { result.position ≡ field_position bytes.now at k }
    ensures tag_fits { result.place + 4 ≤ length bytes.now }
    ensures within { at + leader.base + result.position + result.length ≤ length bytes.now }
{
    read_entry(bytes, at, leader, k).unwrap()
}

/// The four bytes at a place.
pub fn tag_at(bytes: &[u8], place: usize) -> [u8; 4]
    requires { place + 4 ≤ length bytes.now }
    ensures { result ≡ bytes_at bytes.now place 4 }
{
    [
        bytes[place],
        bytes[place + 1],
        bytes[place + 2],
        bytes[place + 3],
    ]
}

/// The tag of entry k of the directory of a record that was read.
pub fn tag_of(bytes: &[u8], at: usize, leader: Leader, count: usize, k: usize) -> [u8; 4]
    requires read { IsRead bytes.now at leader count }
    requires below { k < count }
    ensures { result ≡ field_tag bytes.now at k }
{
    let size = TAG + leader.length_size + leader.position_size;
    tag_at(bytes, at + LEADER + k * size)
}
