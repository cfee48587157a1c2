//! What a crash leaves of the journal that a call keeps.

use super::calls::{joined, words};
use super::square;
use crash_disk::{Disk, MemDisk};
use enc_outside::{MemShelf, MemSink};
use enc_top::Status;
use keep_run::run_keep;
use std::alloc::Global;
use std::test::Fail;
use std::thread::Threads;

/// Three commits.
const SCRIPT: &[u8] =
    b"add vi 1 1 d=100,100,52\ncommit\ndel fe 2\ncommit\nadd vi 2 1 d=200,200,52\ncommit\n";

/// How what an empty script puts begins behind none, one, two and all of them.
const BEGINNINGS: [&[u8]; 4] = [
    b"kept 0\nsession 1\ncell vi 0 vc 4 ve 4 fe 2\n",
    b"kept 1\nsession 1\ncell vi 1 vc 4 ve 4 fe 2\n",
    b"kept 2\nsession 1\ncell vi 1 vc 4 ve 4 fe 1\n",
    b"kept 3\nsession 1\ncell vi 2 vc 4 ve 4 fe 1\n",
];

/// The calls of the disk that open an empty journal.
const OPENING: u64 = 5;

/// The calls of the disk that keep a commit.
const KEEPING: u64 = 4;

/// What `keep` puts of the square, a script and a disk.
fn kept<R: Threads + Sync>(
    rt: &R,
    alloc: Global,
    script: &[u8],
    disk: &mut MemDisk,
) -> Result<(Status, Vec<u8>), Fail> {
    let mut shelf = MemShelf::make(alloc);
    shelf.place("CELL", &joined(alloc, &square::ROWS)?)?;
    shelf.place("S", script)?;
    let mut out = MemSink::make(alloc);
    let words = words(alloc, "keep CELL OUT JOURNAL S")?;
    let status = run_keep(rt, alloc, &words, &mut shelf, &mut out, disk);
    Ok((status, Vec::from_slice(alloc, out.bytes())?))
}

/// How many of the commits a text that was put is behind.
fn count_in(text: &[u8]) -> Option<usize> {
    BEGINNINGS
        .iter()
        .position(|beginning| text.starts_with(beginning))
}

#[test]
fn each_image_opens_with_all_that_was_acknowledged(rt: HostRuntime) -> Result<(), Fail> {
    let alloc = rt.alloc();
    let mut disk = MemDisk::make(alloc);
    let (status, _text) = kept(&rt, alloc, SCRIPT, &mut disk)?;
    assert!(rt; matches!(status, Status::Done));
    let calls = disk.calls();
    assert_eq!(rt; calls, OPENING + 3 * KEEPING);
    for call in 0..calls + 1 {
        let acknowledged = call.saturating_sub(OPENING) / KEEPING;
        for pick in 0..10 {
            let image = disk.image(alloc, call, pick)?;
            let mut left = MemDisk::make(alloc);
            if !image.is_empty() {
                assert!(rt; left.write_at(0, &image).is_ok());
            }
            let (status, text) = kept(&rt, alloc, b"", &mut left)?;
            assert!(rt; matches!(status, Status::Done));
            let count = count_in(&text).ok_or(
                "the text is behind a beginning of the commits",
            )? as u64;
            assert!(rt; acknowledged <= count && count <= acknowledged + 1);
        }
    }
    Ok(())
}
