//! Edit sets and the faults of their form.

ghost use Rattle.std.specs.Prelude.{◌<◌, ◌^◌, length};

use cell_spec::Edit;
use edit_sets::{EditSet, FormFault, FormRefusal};
use s57_types::{
    Attr, Attrs, Deep, Duplicate, Ends, HeadEdit, Kind, Level, Plane, Rec, RecName, Text, Unfit,
    Vector,
};
use std::alloc::{AllocError, Global};
use std::process::Abort;
use std::test::Fail;

fn name(id: u32) -> RecName {
    RecName { kind: Kind::Vc, id }
}

fn node(alloc: Global, id: u32, attrs: Attrs) -> Rec {
    Rec::V(Vector {
        name: name(id),
        rver: 1,
        attrs,
        ends: Ends::make(alloc),
        plane: Plane::make(alloc),
        deep: Deep::make(alloc),
    })
}

/// An attribute whose text holds a terminator.
fn unfit_attributes(alloc: Global) -> Result<Attrs, AllocError> {
    let mut attrs = Attrs::make(alloc);
    attrs.push(Attr {
        code: 87,
        value: Text::of_vec(b"\x1F".to_vec(alloc)?),
    })?;
    Ok(attrs)
}

/// Values of a head, with this date of its update.
fn head_edit(alloc: Global, uadt: [u8; 8]) -> Edit {
    Edit::Head(HeadEdit {
        edtn: Text::make(alloc),
        updn: Text::make(alloc),
        uadt,
        isdt: [48; 8],
        aall: Level::Zero,
        comt: Text::make(alloc),
    })
}

/// The fault of these edits and guards, if they have one.
fn fault(alloc: Global, edits: &[Edit], guards: &[RecName]) -> Option<FormFault> {
    if edits.len() > 9_999 || guards.len() > 9_999 {
        return None;
    }
    match EditSet::make(alloc, edits, guards, 0) {
        Err(FormRefusal::Fault(fault)) => Some(fault),
        _ => None,
    }
}

/// The name of the edit that a set finds by a name, and whether it leaves a record.
fn found(set: &EditSet, name: RecName) -> Option<(RecName, bool)> {
    let edit = set.find(name)?;
    Some((edit.name(), edit.record().is_some()))
}

/// A deletion, an edit of the head, an addition and a deletion.
fn four_edits(alloc: Global) -> [Edit; 4] {
    [
        Edit::Del(name(7)),
        head_edit(alloc, [48; 8]),
        Edit::Add(node(alloc, 1, Attrs::make(alloc))),
        Edit::Del(name(3)),
    ]
}

/// Checks that a set finds each of these edits by its name.
fn check_found(rt: &impl Abort, set: &EditSet, edits: &[Edit]) {
    for edit in edits {
        let has_record = edit.record().is_some();
        assert_eq!(rt; found(set, edit.name()), Some((edit.name(), has_record)));
    }
}

#[test]
fn a_set_has_its_edits_and_finds_them_by_name(rt: HostRuntime) -> Result<(), Fail> {
    let edits = four_edits(rt.alloc());
    // (the copy outlives the set)
    let twin = EditSet::make(rt.alloc(), &edits, &[], 2)?.copy(rt.alloc())?;
    assert_eq!(rt; (twin.nall(), twin.edits().len()), (2, 4));
    check_found(&rt, &twin, &edits);
    assert_eq!(rt;
        [found(&twin, name(2)), found(&twin, name(9))],
        [None, None]
    );
    Ok(())
}

/// Checks a set of deletions of the records 7 and 3 with these guards: of the head and of the records 5, 3 and 5.
fn check_guards(rt: &impl Abort, twin: &EditSet, guards: [RecName; 4]) {
    let [head, five, three, _] = guards;
    let seven = name(7);
    assert_eq!(rt; twin.guards(), guards.as_slice());
    assert_eq!(rt; twin.names(), [three, seven].as_slice());
    assert_eq!(rt; twin.claims(), [three, five, seven, head].as_slice());
    assert!(rt; twin.find(five).is_none());
}

#[test]
fn guards_stand_beside_the_edits(rt: HostRuntime) -> Result<(), Fail> {
    let edits = [Edit::Del(name(7)), Edit::Del(name(3))];
    let guards = [RecName::of_head(), name(5), name(3), name(5)];
    let twin = EditSet::make(rt.alloc(), &edits, &guards, 0)?.copy(rt.alloc())?;
    check_guards(&rt, &twin, guards);
    Ok(())
}

/// The fault of deletions of these records, and of one edit behind them that sets a record with a text that doesn't fit.
fn fault_with_unfit(alloc: Global, deleted: &[u32]) -> Result<Option<FormFault>, AllocError> {
    let mut edits = Vec::new(alloc);
    for id in deleted {
        edits.push(Edit::Del(name(*id)))?;
    }
    let unfit = node(alloc, 1, unfit_attributes(alloc)?);
    edits.push(Edit::Set(unfit))?;
    Ok(fault(alloc, &edits, &[]))
}

#[test]
fn a_name_is_looked_at_before_its_record(rt: HostRuntime) -> Result<(), Fail> {
    let alloc = rt.alloc();
    assert_eq!(rt; fault_with_unfit(alloc, &[1])?, Some(FormFault::Twice(2)));
    assert_eq!(rt;
        fault_with_unfit(alloc, &[])?,
        Some(FormFault::Unfit(1, Unfit::BadText))
    );
    Ok(())
}

/// The fault of two deletions of one record with these guards.
fn fault_of_two(alloc: Global, guards: &[RecName]) -> Option<FormFault> {
    fault(alloc, &[Edit::Del(name(1)), Edit::Del(name(1))], guards)
}

/// Checks a set of one edit with as many guards as a set may have, all of one record.
fn check_most_guards(rt: &impl Abort, alloc: Global, guards: &[RecName]) -> Result<(), FormRefusal>
    requires { length guards.now < 2 ^ 32 }
{
    let set = EditSet::make(alloc, &[Edit::Del(name(2))], guards, 0)?;
    assert_eq!(rt; set.guards().len(), 4_096);
    assert_eq!(rt; set.claims(), [name(1), name(2)].as_slice());
    Ok(())
}

#[test]
fn the_numbers_are_looked_at_before_the_edits(rt: HostRuntime) -> Result<(), Fail> {
    let alloc = rt.alloc();
    let guards = vec![in alloc; name(1); 4_097]?;
    let most = guards.split_at(4_096).0;
    let faults = [
        fault(alloc, &[], &guards),
        fault_of_two(alloc, &guards),
        fault_of_two(alloc, most),
    ];
    let answers = [
        Some(FormFault::Empty),
        Some(FormFault::TooManyGuards(4_097)),
        Some(FormFault::Twice(2)),
    ];
    assert_eq!(rt; faults, answers);
    check_most_guards(&rt, alloc, most)?;
    Ok(())
}

#[test]
fn a_head_is_edited_once_and_its_texts_hold_no_control_byte(rt: HostRuntime) -> Result<(), Fail> {
    let alloc = rt.alloc();
    let good = [48; 8];
    assert_eq!(rt; fault(alloc, &[head_edit(alloc, good)], &[]), None);
    let twice = [head_edit(alloc, good), head_edit(alloc, good)];
    assert_eq!(rt; fault(alloc, &twice, &[]), Some(FormFault::Twice(2)));
    for byte in [0x1E, 0x1F] {
        let edits = [
            Edit::Del(name(1)),
            head_edit(alloc, [48, 48, 48, 48, 48, 48, 48, byte]),
        ];
        assert_eq!(rt;
            fault(alloc, &edits, &[]),
            Some(FormFault::Unfit(2, Unfit::BadText))
        );
    }
    Ok(())
}
