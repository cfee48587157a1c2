//! Vector and feature records, and the head where it stands for an answer to its name.

ghost use Rattle.std.specs.Prelude.{◌≡◌, IfOk};

use crate::head::{BoxedHead, Head};
use crate::items::{Attrs, Deep, Ends, Partners, Places, Plane, Text};
use crate::name::{Lnam, RecName};
use std::alloc::{AllocError, Global};

/// An attribute of ATTF, NATF or ATTV (S-57 Part 3, 7.6.3, 7.6.4 and 7.7.1.2): its code ATTL and its value ATVL.
#[derive(Debug, Drop)]
pub struct Attr {
    pub code: u16,
    pub value: Text,
}

/// A vector record pointer, one row of VRPT (S-57 Part 3, 7.7.1.4): the record pointed to, and the orientation,
/// usage, topology and masking indicators.
#[derive(Clone, Copy, Debug, PartialEq, Eq)]
pub struct End {
    pub to: RecName,
    pub ornt: u8,
    pub usag: u8,
    pub topi: u8,
    pub mask: u8,
}

/// A spatial pointer, one row of FSPT (S-57 Part 3, 7.6.8): the record pointed to, and the orientation, usage and
/// masking indicators.
#[derive(Clone, Copy, Debug, PartialEq, Eq)]
pub struct Spot {
    pub to: RecName,
    pub ornt: u8,
    pub usag: u8,
    pub mask: u8,
}

/// A feature pointer, one row of FFPT (S-57 Part 3, 7.6.6): the feature object pointed to, the relationship
/// indicator and a comment.
#[derive(Debug, Drop)]
pub struct Partner {
    pub to: Lnam,
    pub rind: u8,
    pub comt: Text,
}

/// A vector record (S-57 Part 3, 7.7.1): its name, its version, its attributes (ATTV), its pointers (VRPT), its 2-D
/// coordinates (SG2D) and its soundings (SG3D).
#[derive(Debug)]
pub struct Vector {
    pub name: RecName,
    pub rver: u16,
    pub attrs: Attrs,
    pub ends: Ends,
    pub plane: Plane,
    pub deep: Deep,
}

impl Drop for Vector {
    fn drop(self) {
        let Vector {
            name: _,
            rver: _,
            attrs: _,
            ends: _,
            plane: _,
            deep: _,
        } = self;
    }
}

/// A feature record (S-57 Part 3, 7.6): its name, geometric primitive, group, object class and version, its
/// identifier (FOID), its attributes (ATTF) and national attributes (NATF), its pointers to features (FFPT) and to
/// vector records (FSPT).
#[derive(Debug)]
pub struct Feature {
    pub name: RecName,
    pub prim: u8,
    pub grup: u8,
    pub objl: u16,
    pub rver: u16,
    pub foid: Lnam,
    pub attf: Attrs,
    pub natf: Attrs,
    pub partners: Partners,
    pub places: Places,
}

impl Drop for Feature {
    fn drop(self) {
        let Feature {
            name: _,
            prim: _,
            grup: _,
            objl: _,
            rver: _,
            foid: _,
            attf: _,
            natf: _,
            partners: _,
            places: _,
        } = self;
    }
}

/// What has a name: a vector record, a feature record, or the head of a cell, which is none of the cell's records.
#[derive(Debug, Drop)]
pub enum Rec {
    V(Vector),
    F(Feature),
    H(BoxedHead),
}

impl Rec {
    ghost use Rattle.s57_types.specs.RecordNames.{name_of};
    ghost use Rattle.s57_types.specs.declared.record.Rec.TheVariants.{H};

    /// The head as the answer to its name.
    ///
    /// An `Err` means out of memory.
    pub fn of_head(alloc: Global, head: Head) -> Result<Rec, AllocError>
        ensures { IfOk result (λ rec. rec ≡ H head) }
    {
        Ok(Rec::H(BoxedHead::make(alloc, head)?))
    }

    /// The name of the record or of the head.
    pub fn name(&self) -> RecName
        ensures { result ≡ name_of self.now }
    {
        match self {
            Rec::V(vector) => vector.name,
            Rec::F(feature) => feature.name,
            Rec::H(_) => RecName::of_head(),
        }
    }
}
