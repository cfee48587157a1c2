//! What the fields of the head records and the identifier fields hold.

use crate::items::Text;
use crate::name::RecName;

/// The data set identification field DSID (S-57 Part 3, 7.3.1.1). RCNM isn't kept, since it is 10.
#[derive(Debug)]
pub struct Dsid {
    pub rcid: u32,
    pub expp: u8,
    pub intu: u8,
    pub dsnm: Text,
    pub edtn: Text,
    pub updn: Text,
    pub uadt: [u8; 8],
    pub isdt: [u8; 8],
    pub sted: [u8; 4],
    pub prsp: u8,
    pub psdn: Text,
    pub pred: Text,
    pub prof: u8,
    pub agen: u16,
    pub comt: Text,
}

impl Drop for Dsid {
    fn drop(self) {
        drop(self.into_texts());
    }
}

impl Dsid {
    ghost use Rattle.std.specs.Prelude.{◌≡◌};

    /// Its texts: DSNM, EDTN, UPDN, PSDN, PRED and COMT. It takes no memory.
    pub fn into_texts(self) -> (Text, Text, Text, Text, Text, Text)
        ensures { result ≡ (self.dsnm, self.edtn, self.updn, self.psdn, self.pred, self.comt) }
    {
        let Dsid {
            rcid: _,
            expp: _,
            intu: _,
            dsnm,
            edtn,
            updn,
            uadt: _uadt,
            isdt: _isdt,
            sted: _sted,
            prsp: _,
            psdn,
            pred,
            prof: _,
            agen: _,
            comt,
        } = self;
        (dsnm, edtn, updn, psdn, pred, comt)
    }
}

/// The data set structure information field DSSI (S-57 Part 3, 7.3.1.2). The counts are NOMR, NOCR, NOGR, NOLR,
/// NOIN, NOCN, NOED and NOFA.
#[derive(Clone, Copy, Debug, PartialEq, Eq)]
pub struct Dssi {
    pub dstr: u8,
    pub aall: u8,
    pub nall: u8,
    pub counts: [u32; 8],
}

/// The data set parameter field DSPM (S-57 Part 3, 7.3.2.1). RCNM isn't kept, since it is 20.
#[derive(Debug)]
pub struct Dspm {
    pub rcid: u32,
    pub hdat: u8,
    pub vdat: u8,
    pub sdat: u8,
    pub cscl: u32,
    pub duni: u8,
    pub huni: u8,
    pub puni: u8,
    pub coun: u8,
    pub comf: u32,
    pub somf: u32,
    pub comt: Text,
}

impl Drop for Dspm {
    fn drop(self) {
        drop(self.into_comment());
    }
}

impl Dspm {
    ghost use Rattle.std.specs.Prelude.{◌≡◌};

    /// Its comment COMT. It takes no memory.
    pub fn into_comment(self) -> Text
        ensures { result ≡ self.comt }
    {
        let Dspm {
            rcid: _,
            hdat: _,
            vdat: _,
            sdat: _,
            cscl: _,
            duni: _,
            huni: _,
            puni: _,
            coun: _,
            comf: _,
            somf: _,
            comt,
        } = self;
        comt
    }
}

/// The feature record identifier field FRID (S-57 Part 3, 7.6.1). RCNM isn't kept, since it is 100.
#[derive(Clone, Copy, Debug, PartialEq, Eq)]
pub struct Frid {
    pub rcid: u32,
    pub prim: u8,
    pub grup: u8,
    pub objl: u16,
    pub rver: u16,
    pub ruin: u8,
}

/// The vector record identifier field VRID (S-57 Part 3, 7.7.1.1).
#[derive(Clone, Copy, Debug, PartialEq, Eq)]
pub struct Vrid {
    pub name: RecName,
    pub rver: u16,
    pub ruin: u8,
}
