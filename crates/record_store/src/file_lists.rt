//! The records of a cell in file order.

ghost use Rattle.std.specs.Prelude.{◌≡◌, ◌+◌, IfOk, OnOk};
ghost use Rattle.std.specs.Ordering.{nat_cmp};
ghost use Rattle.std.specs.declared.cmp.Ordering.TheVariants.{Less};
ghost use Rattle.row_spec.specs.Rows.{EachKeyIs, IsAscending, with_row, without_key};
ghost use Rattle.s57_types.specs.declared.name.Kind.{Kind as SpecKind};
ghost use Rattle.record_store.specs.Lists.{no_lists, rows_of, with_rows};

use s57_types::{Kind, Rec};
use shared_table::{Shared, SharedTable};
use std::alloc::{AllocError, Global};

/// The records of one kind, each at a number that rises in file order.
pub(crate) type FileList = SharedTable<u64, Shared<Rec>>;

/// The records of each kind.
#[derive(Drop)]
pub(crate) struct FileLists {
    pub(crate) vi: FileList,
    pub(crate) vc: FileList,
    pub(crate) ve: FileList,
    pub(crate) fe: FileList,
}

impl FileLists {
    /// Lists with no record.
    pub(crate) fn make() -> FileLists
        ensures { result ≡ no_lists }
    {
        FileLists {
            vi: SharedTable::make(),
            vc: SharedTable::make(),
            ve: SharedTable::make(),
            fe: SharedTable::make(),
        }
    }

    /// The same lists, which share what they hold.
    pub(crate) fn share(&self) -> Result<FileLists, AllocError>
        ensures { IfOk result (λ lists. lists ≡ self.now) }
    {
        Ok(FileLists {
            vi: self.vi.share()?,
            vc: self.vc.share()?,
            ve: self.ve.share()?,
            fe: self.fe.share()?,
        })
    }

    /// Puts a record of a kind at a number.
    pub(crate) fn put(
        &mut self,
        alloc: Global,
        kind: Kind,
        place: u64,
        rec: Shared<Rec>,
    ) -> Result<(), AllocError>
        ensures { OnOk result (self.new ≡ with_rows kind (with_row nat_cmp (rows_of kind self.old) place rec) self.old) }
    {
        match kind {
            Kind::Vi => self.vi.put(alloc, place, rec),
            Kind::Vc => self.vc.put(alloc, place, rec),
            Kind::Ve => self.ve.put(alloc, place, rec),
            Kind::Fe => self.fe.put(alloc, place, rec),
            Kind::Head => Ok(()),
        }
    }

    /// Takes the record of a kind at a number out.
    pub(crate) fn take(&mut self, alloc: Global, kind: Kind, place: u64) -> Result<(), AllocError>
        ensures { OnOk result (self.new ≡ with_rows kind (without_key nat_cmp (rows_of kind self.old) place) self.old) }
    {
        match kind {
            Kind::Vi => self.vi.take(alloc, &place),
            Kind::Vc => self.vc.take(alloc, &place),
            Kind::Ve => self.ve.take(alloc, &place),
            Kind::Fe => self.fe.take(alloc, &place),
            Kind::Head => Ok(()),
        }
    }

    /// A number behind those of a kind's records. An `Err` says that there is none.
    pub(crate) fn next_place(&self, kind: Kind) -> Result<u64, AllocError>
        ensures { IfOk result (λ place. EachKeyIs nat_cmp Less place (rows_of kind self.now)) }
    {
        match kind {
            Kind::Vi => place_behind(&self.vi),
            Kind::Vc => place_behind(&self.vc),
            Kind::Ve => place_behind(&self.ve),
            Kind::Fe => place_behind(&self.fe),
            Kind::Head => Ok(0),
        }
    }

    /// The lists ascend.
    pub(crate) fn known(&self)
        ensures { (k : SpecKind) → IsAscending nat_cmp (rows_of k self.now) }
    {
        let _vi = self.vi.len();
        let _vc = self.vc.len();
        let _ve = self.ve.len();
        let _fe = self.fe.len();
    }
}

// A number behind those of a list.
fn place_behind(list: &FileList) -> Result<u64, AllocError>
    ensures { IfOk result (λ place. EachKeyIs nat_cmp Less place list.now) }
{
    let count = list.len();
    if count == 0 {
        return Ok(0);
    }
    let (last, _) = list.row(count - 1);
    if *last == u64::MAX {
        return Err(AllocError);
    }
    Ok(*last + 1)
}
