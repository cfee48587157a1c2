//! The real file store, and the real disk of a journal.

use crash_disk::{Disk, DiskFailed};
use enc_outside::{Got, Shelf};
use std::test::Fail;
use std::{env, fs, process};
use whole_files::{DiskShelf, FileDisk};

/// A name in the temporary folder that no other process takes.
fn own_name(rt: &HostRuntime, kind: &str) -> Result<String, Fail> {
    let folder = env::temp_dir(rt)?;
    let folder = folder.to_str().ok_or("its name is UTF-8")?;
    let number = process::id(rt.process());
    Ok(format!(in rt.alloc(); "{folder}/enc_cell_{kind}_{number}")?)
}

#[test]
fn a_real_file_keeps_what_was_appended(rt: HostRuntime) -> Result<(), Fail> {
    let name = own_name(&rt, "shelf")?;
    let name = name.as_str();
    let mut shelf = DiskShelf::new(&rt);
    let mut into = [0u8; 4];
    assert_eq!(rt; shelf.read_at(name, 0, &mut into), Ok(Got::Absent));
    assert_eq!(rt; shelf.make(name), Ok(()));
    assert_eq!(rt; shelf.read_at(name, 0, &mut into), Ok(Got::End));
    assert_eq!(rt; shelf.append(name, b"abc"), Ok(3));
    assert_eq!(rt; shelf.append(name, b"de"), Ok(2));
    assert_eq!(rt; shelf.read_at(name, 0, &mut into), Ok(Got::Bytes(4)));
    assert_eq!(rt; into, *b"abcd");
    assert_eq!(rt; shelf.read_at(name, 3, &mut into), Ok(Got::Bytes(2)));
    assert_eq!(rt; into, *b"decd");
    assert_eq!(rt; shelf.read_at(name, 5, &mut into), Ok(Got::End));
    assert_eq!(rt; shelf.make(name), Ok(()));
    assert_eq!(rt; shelf.read_at(name, 0, &mut into), Ok(Got::End));
    fs::remove_file(&rt, name)?;
    Ok(())
}

#[test]
fn a_real_disk_keeps_what_was_written(rt: HostRuntime) -> Result<(), Fail> {
    let name = own_name(&rt, "journal")?;
    let name = name.as_str();
    let mut disk = FileDisk::new(&rt, name);
    assert_eq!(rt; disk.length(), Ok(0));
    assert_eq!(rt; disk.write_at(0, b"abc"), Ok(()));
    assert_eq!(rt; disk.write_at(2, b"de"), Ok(()));
    assert_eq!(rt; disk.sync(), Ok(()));
    let mut again = FileDisk::new(&rt, name);
    let mut into = [0u8; 4];
    assert_eq!(rt; again.length(), Ok(4));
    assert_eq!(rt; again.read_at(0, &mut into), Ok(()));
    assert_eq!(rt; into, *b"abde");
    assert_eq!(rt; again.read_at(1, &mut into), Err(DiskFailed));
    fs::remove_file(&rt, name)?;
    Ok(())
}
