//! The findings of subjects, with how many there are.

ghost use Rattle.std.specs.Prelude.{◌≡◌, ◌+◌, ◌≤◌, ◌<◌, ◌^◌, IfOk, OnErr, OnOk, length, true};
ghost use Rattle.cell_spec.specs.Names.{subject_order};
ghost use Rattle.row_spec.specs.Rows.{IsAscending, value_of, without_key};
ghost use Rattle.cell_bench.specs.Verdicts.{count_at, total_of, with_findings};

use crate::table::{FindingRow, FindingTable};
use cell_spec::{Findings, Subject, orders_are_by_parts};
use shared_table::{Shared, SharedTable};
use std::alloc::{AllocError, Global};
use std::marker::Model;

/// The findings of each subject that has some, with how many they are in all. They are seen as rows in ascending order of the
/// subjects. A copy shares them.
pub(crate) struct Verdicts {
    table: FindingTable,
    count: u32,
}

impl Drop for Verdicts {
    fn drop(self) {
        let Verdicts { table: _, count: _ } = self;
    }
}

impl Model for Verdicts {
    ghost use Rattle.std.specs.Prelude.{◌≡◌, List};
    ghost use Rattle.cell_spec.specs.declared.finding.Finding.{Finding};
    ghost use Rattle.cell_spec.specs.declared.key.Subject.{Subject};
    ghost use Rattle.cell_bench.specs.Verdicts.{total_of};

    ghost Value = { List (Subject × List Finding) };

    ghost view = { λ v. v.table };

    ghost invariant = { λ v. v.count ≡ total_of v.table };
}

impl Verdicts {
    /// The findings of these rows, which are so many.
    pub(crate) fn of_rows(
        alloc: Global,
        rows: Vec<FindingRow>,
        count: u32,
    ) -> Result<Verdicts, AllocError>
        requires ascending { IsAscending subject_order rows.items }
        requires count { count ≡ total_of rows.items }
        ensures { IfOk result (λ verdicts. verdicts ≡ rows.items) }
    {
        orders_are_by_parts();
        let table = SharedTable::from_ascending(alloc, rows)?;
        Ok(Verdicts { table, count })
    }

    /// The same findings, shared. An `Err` says that they can't be counted any more.
    pub(crate) fn share(&self) -> Result<Verdicts, AllocError>
        ensures { IfOk result (λ verdicts. verdicts ≡ self.now) }
    {
        Ok(Verdicts {
            table: self.table.share()?,
            count: self.count,
        })
    }

    /// The rows as a table.
    pub(crate) fn table(&self) -> &FindingTable
        ensures { result.now ≡ self.now }
    {
        &self.table
    }

    /// How many findings there are.
    pub(crate) fn count(&self) -> u32
        ensures { result ≡ total_of self.now }
    {
        self.count
    }

    // How many findings a subject has.
    fn count_of(&self, subject: &Subject) -> usize
        ensures { result ≡ count_at (value_of subject_order self.now subject.now) }
    {
        orders_are_by_parts();
        match self.table.get(subject) {
            Some(found) => found.len(),
            None => 0,
        }
    }

    /// Whether a subject has no row, so that nothing goes where it has no findings any more.
    pub(crate) fn lacks(&self, subject: &Subject) -> bool
        ensures { result ≡ true → without_key subject_order self.now subject.now ≡ self.now }
    {
        orders_are_by_parts();
        self.table.get(subject).is_none()
    }

    /// Puts these findings of a subject in place of those that it has. An `Err` is out of memory, and changes nothing.
    pub(crate) fn put(
        &mut self,
        alloc: Global,
        subject: Subject,
        found: Findings,
    ) -> Result<(), AllocError>
        requires room { total_of self.old + length found < 2 ^ 32 }
        ensures ok { OnOk result (self.new ≡ with_findings self.old subject found) }
        ensures within { total_of self.new ≤ total_of self.old + length found }
        ensures err { OnErr result (self.new ≡ self.old) }
    {
        if found.is_empty() && self.lacks(&subject) {
            return Ok(());
        }
        let had = self.count_of(&subject) as u32;
        let has = found.len() as u32;
        put_found(alloc, &mut self.table, subject, found)?;
        self.count = self.count + has - had;
        Ok(())
    }
}

// Puts these findings of a subject in place of its row, which goes where there are none.
fn put_found(
    alloc: Global,
    table: &mut FindingTable,
    subject: Subject,
    found: Findings,
) -> Result<(), AllocError>
    ensures ok { OnOk result (table.new ≡ with_findings table.old subject found) }
    ensures err { OnErr result (table.new ≡ table.old) }
    ensures ascending { IsAscending subject_order table.old }
{
    orders_are_by_parts();
    // (That a table's rows ascend is known where they are counted.)
    let _rows = table.len();
    if found.is_empty() {
        return table.take(alloc, &subject);
    }
    let found = Shared::make(alloc, found)?;
    table.put(alloc, subject, found)
}
