//! The head of a cell, and its new values in an edit.

ghost use Rattle.std.specs.Prelude.{◌≡◌, IfOk};

use crate::duplicate::Duplicate;
use crate::items::Text;
use std::alloc::{AllocError, Global};
use std::marker::Model;
use std::ops::Deref;

/// What the two head records of a cell say (S-57 Part 3, 7.3): the data set identification (DSID), the
/// attribute levels of the data set structure information (DSSI) and the data set parameters (DSPM).
#[derive(Debug)]
pub struct Head {
    pub dsid_rcid: u32,
    pub intu: u8,
    pub dsnm: Text,
    pub edtn: Text,
    pub updn: Text,
    pub uadt: [u8; 8],
    pub isdt: [u8; 8],
    pub sted: [u8; 4],
    pub prsp: u8,
    pub psdn: Text,
    pub pred: Text,
    pub prof: u8,
    pub agen: u16,
    pub dsid_comt: Text,
    pub aall: u8,
    pub nall: u8,
    pub dspm_rcid: u32,
    pub hdat: u8,
    pub vdat: u8,
    pub sdat: u8,
    pub cscl: u32,
    pub duni: u8,
    pub huni: u8,
    pub puni: u8,
    pub coun: u8,
    pub comf: u32,
    pub somf: u32,
    pub dspm_comt: Text,
}

impl Drop for Head {
    fn drop(self) {
        let Head {
            dsid_rcid: _,
            intu: _,
            dsnm: _,
            edtn: _,
            updn: _,
            uadt: _uadt,
            isdt: _isdt,
            sted: _sted,
            prsp: _,
            psdn: _,
            pred: _,
            prof: _,
            agen: _,
            dsid_comt: _,
            aall: _,
            nall: _,
            dspm_rcid: _,
            hdat: _,
            vdat: _,
            sdat: _,
            cscl: _,
            duni: _,
            huni: _,
            puni: _,
            coun: _,
            comf: _,
            somf: _,
            dspm_comt: _,
        } = self;
    }
}

impl Head {
    ghost use Rattle.s57_types.specs.Heads.{edited_head};

    /// The head with the six values of an edit. All else stays.
    ///
    /// An `Err` means out of memory.
    pub fn edited(&self, alloc: Global, edit: &HeadEdit) -> Result<Head, AllocError>
        ensures { IfOk result (λ head. head ≡ edited_head edit.now self.now) }
    {
        let (uadt, isdt) = (edit.uadt, edit.isdt);
        let mut head = self.copy(alloc)?;
        head.edtn = edit.edtn.copy(alloc)?;
        head.updn = edit.updn.copy(alloc)?;
        head.uadt = uadt;
        head.isdt = isdt;
        head.aall = edit.aall.number();
        head.dsid_comt = edit.comt.copy(alloc)?;
        Ok(head)
    }
}

/// A head on the heap, so that a record which may be a head takes no more room than its other sorts need. Contracts see it as the head.
#[derive(Debug, Drop)]
pub struct BoxedHead {
    head: Box<Head>,
}

impl Model for BoxedHead {
    ghost use Rattle.s57_types.specs.declared.head.Head.{Head};

    ghost Value = { Head };

    ghost view = { λ boxed. boxed.head.value };
}

impl BoxedHead {
    /// The head, moved to the heap.
    ///
    /// An `Err` means out of memory.
    pub(crate) fn make(alloc: Global, head: Head) -> Result<BoxedHead, AllocError>
        ensures { IfOk result (λ boxed. boxed ≡ head) }
    {
        Ok(BoxedHead {
            head: Box::new(alloc, head)?,
        })
    }
}

impl Deref for BoxedHead {
    type Target = Head;

    fn deref(&self) -> &Head
        ensures { result.now ≡ self.now }
    {
        &self.head
    }
}

/// The lexical level of general texts (S-57 Part 3, 2.4).
#[derive(Clone, Copy, Debug, PartialEq, Eq)]
pub enum Level {
    /// ASCII.
    Zero,
    /// ISO 8859, part 1, Latin alphabet 1.
    One,
}

impl Level {
    ghost use Rattle.s57_types.specs.Heads.{level_number};

    /// The level as AALL has it.
    pub fn number(self) -> u8
        ensures { result ≡ level_number self }
    {
        match self {
            Level::Zero => 0,
            Level::One => 1,
        }
    }
}

/// New values of a head (S-57 Part 3, 7.3.1): the edition and update number EDTN and UPDN, the dates UADT and ISDT, the level AALL of general
/// texts, and the comment COMT of the data set identification.
#[derive(Debug)]
pub struct HeadEdit {
    pub edtn: Text,
    pub updn: Text,
    pub uadt: [u8; 8],
    pub isdt: [u8; 8],
    pub aall: Level,
    pub comt: Text,
}

impl Drop for HeadEdit {
    fn drop(self) {
        let HeadEdit {
            edtn: _,
            updn: _,
            uadt: _uadt,
            isdt: _isdt,
            aall: _,
            comt: _,
        } = self;
    }
}
