//! Copies of values that own memory.

ghost use Rattle.std.specs.Prelude.{◌≡◌, IfOk};

use crate::cell::Cell;
use crate::head::{BoxedHead, Head, HeadEdit};
use crate::items::Items;
use crate::record::{Attr, Feature, Partner, Rec, Vector};
use std::alloc::{AllocError, Global};

/// A value that can be made twice. An `Err` means out of memory.
pub trait Duplicate {
    /// A second value, equal to this one.
    fn copy(&self, alloc: Global) -> Result<Self, AllocError>
    where
        Self: Sized,
        ensures { IfOk result (λ twin. twin ≡ self.now) };
}

impl<T: Copy> Duplicate for T {
    fn copy(&self, _alloc: Global) -> Result<T, AllocError> {
        Ok(*self)
    }
}

impl<T: Duplicate + Drop> Duplicate for Items<T> {
    fn copy(&self, alloc: Global) -> Result<Items<T>, AllocError> {
        Items::copy_of(alloc, self.as_slice())
    }
}

impl Duplicate for Attr {
    fn copy(&self, alloc: Global) -> Result<Attr, AllocError> {
        Ok(Attr {
            code: self.code,
            value: self.value.copy(alloc)?,
        })
    }
}

impl Duplicate for Partner {
    fn copy(&self, alloc: Global) -> Result<Partner, AllocError> {
        Ok(Partner {
            to: self.to,
            rind: self.rind,
            comt: self.comt.copy(alloc)?,
        })
    }
}

impl Duplicate for Vector {
    fn copy(&self, alloc: Global) -> Result<Vector, AllocError> {
        Ok(Vector {
            name: self.name,
            rver: self.rver,
            attrs: self.attrs.copy(alloc)?,
            ends: self.ends.copy(alloc)?,
            plane: self.plane.copy(alloc)?,
            deep: self.deep.copy(alloc)?,
        })
    }
}

impl Duplicate for Feature {
    fn copy(&self, alloc: Global) -> Result<Feature, AllocError> {
        Ok(Feature {
            name: self.name,
            prim: self.prim,
            grup: self.grup,
            objl: self.objl,
            rver: self.rver,
            foid: self.foid,
            attf: self.attf.copy(alloc)?,
            natf: self.natf.copy(alloc)?,
            partners: self.partners.copy(alloc)?,
            places: self.places.copy(alloc)?,
        })
    }
}

impl Duplicate for Rec {
    fn copy(&self, alloc: Global) -> Result<Rec, AllocError> {
        match self {
            Rec::V(vector) => Ok(Rec::V(vector.copy(alloc)?)),
            Rec::F(feature) => Ok(Rec::F(feature.copy(alloc)?)),
            Rec::H(head) => Ok(Rec::H(head.copy(alloc)?)),
        }
    }
}

impl Duplicate for Head {
    fn copy(&self, alloc: Global) -> Result<Head, AllocError> {
        Ok(Head {
            dsid_rcid: self.dsid_rcid,
            intu: self.intu,
            dsnm: self.dsnm.copy(alloc)?,
            edtn: self.edtn.copy(alloc)?,
            updn: self.updn.copy(alloc)?,
            uadt: self.uadt,
            isdt: self.isdt,
            sted: self.sted,
            prsp: self.prsp,
            psdn: self.psdn.copy(alloc)?,
            pred: self.pred.copy(alloc)?,
            prof: self.prof,
            agen: self.agen,
            dsid_comt: self.dsid_comt.copy(alloc)?,
            aall: self.aall,
            nall: self.nall,
            dspm_rcid: self.dspm_rcid,
            hdat: self.hdat,
            vdat: self.vdat,
            sdat: self.sdat,
            cscl: self.cscl,
            duni: self.duni,
            huni: self.huni,
            puni: self.puni,
            coun: self.coun,
            comf: self.comf,
            somf: self.somf,
            dspm_comt: self.dspm_comt.copy(alloc)?,
        })
    }
}

impl Duplicate for BoxedHead {
    fn copy(&self, alloc: Global) -> Result<BoxedHead, AllocError> {
        let head: &Head = self;
        BoxedHead::make(alloc, head.copy(alloc)?)
    }
}

impl Duplicate for HeadEdit {
    fn copy(&self, alloc: Global) -> Result<HeadEdit, AllocError> {
        Ok(HeadEdit {
            edtn: self.edtn.copy(alloc)?,
            updn: self.updn.copy(alloc)?,
            uadt: self.uadt,
            isdt: self.isdt,
            aall: self.aall,
            comt: self.comt.copy(alloc)?,
        })
    }
}

impl Duplicate for Cell {
    fn copy(&self, alloc: Global) -> Result<Cell, AllocError> {
        Ok(Cell {
            head: self.head.copy(alloc)?,
            vi: self.vi.copy(alloc)?,
            vc: self.vc.copy(alloc)?,
            ve: self.ve.copy(alloc)?,
            fe: self.fe.copy(alloc)?,
        })
    }
}
