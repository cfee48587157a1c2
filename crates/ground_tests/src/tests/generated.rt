//! Generated cells and scripts.

ghost use Rattle.std.specs.Prelude.{◌≤◌};

use cell_make::{make_cell, make_scripts};
use cell_spec::Edit;
use cell_write::write_cell;
use s57_types::{Kind, Rec, RecName, Vector};
use std::process::Abort;
use std::test::Fail;
use text_spec::Command;

/// How many nodes, edges and features a generated cell has, and how many bytes its file.
fn sizes_of(rt: HostRuntime, n: u32) -> Result<[usize; 4], Fail>
    requires some { 1 ≤ n }
    requires few { n ≤ 100 }
{
    let cell = make_cell(rt.alloc(), n)?;
    let file = write_cell(rt.alloc(), &cell)?;
    Ok([cell.vc.len(), cell.ve.len(), cell.fe.len(), file.len()])
}

#[test]
fn cells_have_their_sizes(rt: HostRuntime) -> Result<(), Fail> {
    assert_eq!(rt; sizes_of(rt, 1)?, [4, 4, 2, 2_616]);
    assert_eq!(rt; sizes_of(rt, 100)?, [10_201, 20_200, 10_001, 3_454_558]);
    Ok(())
}

/// Checks that the node 4 is set at its new position, without anything beside it.
fn check_moved(rt: &impl Abort, node: &Vector) {
    let name = RecName {
        kind: Kind::Vc,
        id: 4,
    };
    let beside = [node.attrs.len(), node.ends.len(), node.deep.len()];
    assert_eq!(rt; (node.name, node.rver), (name, 2));
    assert_eq!(rt; beside, [0; 3]);
    assert_eq!(rt; node.plane.as_slice(), [(40_001, 1)].as_slice());
}

/// Whether a command deletes the area 4.
fn deletes_area(command: &Command) -> bool {
    let area = RecName {
        kind: Kind::Fe,
        id: 4,
    };
    matches!(command, Command::Push(Edit::Del(name)) if *name == area)
}

/// Checks the commands of the first round.
fn check_round(rt: &impl Abort, commands: &[Command]) {
    assert_eq!(rt; commands.len(), 30);
    assert!(rt; matches!(commands[0], Command::View));
    if let Command::Push(Edit::Set(Rec::V(node))) = &commands[1] {
        check_moved(rt, node);
    } else {
        assert!(rt; false, "no node is set");
    }
    assert!(rt; matches!(commands[2], Command::Commit));
    assert!(rt; deletes_area(&commands[4]));
}

#[test]
fn rounds_move_and_delete(rt: HostRuntime) -> Result<(), Fail> {
    let scripts = make_scripts(rt.alloc(), 2, 3)?;
    assert_eq!(rt; scripts.len(), 3);
    check_round(&rt, scripts[0].commands());
    Ok(())
}
