//! The findings of a cell.

ghost use Rattle.std.specs.Prelude.{◌≤◌, ◌++◌, All, IsTrue, MatchResult, filter, length, map};
ghost use Rattle.std.specs.List.{flat_map};
ghost use Rattle.std.specs.List.Sorted.{IsStrictlySortedBy};
ghost use Rattle.s57_types.specs.declared.name.RecName.{RecName as SpecRecName};
ghost use Rattle.cell_spec.specs.Names.{name_order};
ghost use Rattle.cell_spec.specs.Writable.{IsWritable};
ghost use Rattle.cell_spec.specs.declared.key.Subject.{Subject as SpecSubject};
ghost use Rattle.cell_spec.specs.declared.key.Subject.TheVariants.{Ident as SubjectIdent, Rec as SubjectRec, Side as SubjectSide};
ghost use Rattle.rule_spec.specs.Findings.{is_subject};
ghost use Rattle.rule_spec.specs.Records.{is_chain_part};
ghost use Rattle.cell_findings.specs.AllFindings.{IsAllOf, IsFindingRefusal};
ghost use Rattle.cell_findings.specs.Gathered.{Gathers, IsGathered, IsOver};
ghost use Rattle.cell_findings.specs.Judged.{is_part_name, judged_subjects, part_pairs, subject_findings};

use crate::list::{Findings, SubjectFinding};
use crate::names::{edge_names, identities_in, names_in, part_names};
use crate::refusal::LoadRefusal;
use crate::search::Search;
use chain_topo::{ListLook, Steps};
use s57_types::{Cell, Lnam, RecName};
use std::alloc::Global;
use std::sync::ledger::Ledger;

impl<'a, 'b> Search<'a, 'b> {
    /// Appends the findings about records, then those about the sides of edges.
    fn push_records_and_sides(
        &self,
        gathered: &mut Vec<SubjectFinding>,
        names: &[RecName],
        edges: &[RecName],
    ) -> Result<(), LoadRefusal>
        requires { length gathered.old.items ≤ self.now.limit }
        ensures { Gathers self.now.limit gathered.old.items
            (flat_map (subject_findings self.now.look.now) (map SubjectRec names.now ++ map SubjectSide edges.now)) gathered.new.items result }
    {
        self.push_records(gathered, names)?;
        self.push_sides(gathered, edges)
    }

    /// Appends the findings about each two connected nodes or edges among some records, then those about identifiers.
    fn push_pairs_and_identities<L: Ledger>(
        &self,
        gathered: &mut Vec<SubjectFinding>,
        names: &[RecName],
        identities: &[Lnam],
        steps: &mut Steps<L>,
    ) -> Result<(), LoadRefusal>
        requires parts { All (λ (n : SpecRecName). IsTrue (is_chain_part self.now.look.now n)) (filter is_part_name names.now) }
        requires subjects { All (λ (s : SpecSubject). IsTrue (is_subject self.now.look.now s)) (part_pairs names.now) }
        requires ascending { IsStrictlySortedBy name_order names.now }
        requires within { length gathered.old.items ≤ self.now.limit }
        ensures { Gathers self.now.limit gathered.old.items
            (flat_map (subject_findings self.now.look.now) (part_pairs names.now ++ map SubjectIdent identities.now)) gathered.new.items result }
    {
        let parts = part_names(self.alloc, names)?;
        self.push_pairs(gathered, &parts, steps)?;
        self.push_identities(gathered, identities)
    }
}

/// The findings about a cell's judged subjects.
fn gather<L: Ledger>(
    alloc: Global,
    cell: &Cell,
    limit: usize,
    steps: &mut Steps<L>,
) -> Result<Vec<SubjectFinding>, LoadRefusal>
    requires writable { IsWritable cell.now }
    ensures { MatchResult result
        (λ found. IsGathered limit (flat_map (subject_findings cell.now) (judged_subjects cell.now)) found.items)
        (IsOver limit (flat_map (subject_findings cell.now) (judged_subjects cell.now))) }
{
    let look = ListLook::make(alloc, cell)?;
    let names = names_in(alloc, cell)?;
    let identities = identities_in(alloc, cell)?;
    let names = names.as_slice();
    let edges = edge_names(alloc, names)?;
    let search = Search {
        alloc,
        look: &look,
        limit,
    };
    let mut gathered = Vec::new(alloc);
    search.push_records_and_sides(&mut gathered, names, &edges)?;
    search.push_pairs_and_identities(&mut gathered, names, &identities, steps)?;
    Ok(gathered)
}

/// All findings of a writable cell about its records, the sides of its edges, each two connected nodes or edges, and the
/// identifiers of its features, ascending by subject, kind and numbers, where there are at most `limit`. Counting stops at
/// the first subject that goes over it.
///
/// An `Err` means that there are more, or out of memory.
pub fn find_all<L: Ledger>(
    alloc: Global,
    cell: &Cell,
    limit: usize,
    steps: &mut Steps<L>,
) -> Result<Findings, LoadRefusal>
    requires writable { IsWritable cell.now }
    ensures { MatchResult result (IsAllOf cell.now limit) (IsFindingRefusal cell.now limit) }
{
    let findings = gather(alloc, cell, limit, steps)?;
    Ok(Findings::of_vec(findings))
}
