//! Lines of statuses that no case brings about.

use enc_top::{Status, print_status};
use std::test::Fail;

#[test]
fn statuses_that_no_case_gives_have_their_lines(rt: HostRuntime) -> Result<(), Fail> {
    for (status, line) in &[
        (Status::NoMemory, "enc_cell: no memory\n"),
        (Status::Stuck(1, 2), "enc_cell: stuck desk 1 serial 2\n"),
        (
            Status::BadJournal(4_294_967_296),
            "enc_cell: bad journal place 4294967296\n",
        ),
        (Status::DiskFault, "enc_cell: disk fault\n"),
        (
            Status::JournalFull(950_001),
            "enc_cell: journal full 950001\n",
        ),
    ] {
        let mut out = Vec::new(rt.alloc());
        print_status(rt.alloc(), status, &mut out)?;
        assert_eq!(rt; out.as_slice(), line.as_bytes());
    }
    Ok(())
}
