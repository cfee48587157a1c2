//! Areas of Group 1.

use check_words::is_group1_area;
use s57_types::{Attrs, Feature, Items, Kind, Lnam, Partners, RecName};
use std::alloc::Global;
use std::test::Fail;

fn feature(alloc: Global, prim: u8, objl: u16) -> Feature {
    Feature {
        name: RecName {
            kind: Kind::Fe,
            id: 1,
        },
        prim,
        grup: 1,
        objl,
        rver: 1,
        foid: Lnam {
            agen: 550,
            fidn: 1,
            fids: 1,
        },
        attf: Attrs::make(alloc),
        natf: Attrs::make(alloc),
        partners: Partners::make(alloc),
        places: Items::make(alloc),
    }
}

#[test]
fn areas_of_seven_classes_are_of_group_1(rt: HostRuntime) -> Result<(), Fail> {
    let alloc = rt.alloc();
    for objl in [42, 46, 57, 65, 71, 95, 154] {
        assert!(rt; is_group1_area(&feature(alloc, 3, objl)));
    }
    // A line, a feature without geometry, a depth contour's class and M_COVR.
    for (prim, objl) in [(2, 42), (255, 71), (3, 43), (3, 302)] {
        assert!(rt; !is_group1_area(&feature(alloc, prim, objl)));
    }
    Ok(())
}
