//! The check of a record.

ghost use Rattle.std.specs.Prelude.{◌≡◌, ◌+◌, ◌*◌, ◌≤◌, IfOk, None, Some, length, true};
ghost use Rattle.s57_types.specs.{declared.cell.Cell.{Cell as SpecCell}, declared.head.Head.{Head as SpecHead}, declared.record.Rec.TheVariants.{F, H, V}};
ghost use Rattle.cell_spec.specs.{declared.key.Subject.TheVariants.{Rec as SubjectRec}, Lookup.{lookup_record}};
ghost use Rattle.rule_spec.specs.{Findings.{findings_of_subject}, Reads.{read_set}, Records.{is_edge_name}};
ghost use Rattle.near_records.specs.Near.{IsNear};
ghost use Rattle.check_record.specs.RecordRow.{IsRecordRow};

use crate::asked::Asked;
use crate::reads::{feature_reads, named_keys, vector_reads};
use crate::vector::vector_findings;
use cell_spec::{Findings, Key, Keys, Row, Subject, ascending_keys};
use chain_topo::{Look, Steps};
use check_feature::feature_findings;
use near_records::{NearRecords, gather, gather_beside};
use s57_types::{Feature, Items, Kind, Rec, RecName, Vector};
use std::alloc::{AllocError, Global};
use std::sync::ledger::Ledger;

impl<'a, B: Look> Asked<'a, B> {
    /// What the cell answers to the read set of an edge. The findings about a node ask for nothing.
    fn near_vector<L: Ledger>(
        &self,
        vector: &Vector,
        reads: &[Key],
        steps: &mut Steps<L>,
    ) -> Result<NearRecords<'a>, AllocError>
        ensures near { is_edge_name vector.now.name ≡ true → IfOk result (λ near. IsNear (B.cell self.now.look.now) reads.now near) }
        ensures steps { steps.new ≤ steps.old + length reads.now }
    {
        match vector.name.kind {
            Kind::Ve => gather(self.alloc, self.look, reads, steps),
            _ => gather(self.alloc, self.look, &[], steps),
        }
    }

    /// The row of a vector record.
    fn vector<L: Ledger>(&self, vector: &Vector, steps: &mut Steps<L>) -> Result<Row, AllocError>
        requires { lookup_record (B.cell self.now.look.now) self.now.name ≡ Some (V vector.now) }
        ensures row { IfOk result (IsRecordRow (B.cell self.now.look.now) self.now.name) }
        ensures steps { steps.new + 1 ≤ steps.old + 4 * length (read_set (B.cell self.now.look.now) (SubjectRec self.now.name)) }
    {
        let reads = vector_reads(self.alloc, self.name, vector)?;
        let near = self.near_vector(vector, reads.as_slice(), steps)?;
        let findings = vector_findings(self.alloc, &near, vector)?;
        Ok(Row {
            subject: Subject::Rec(self.name),
            findings: Items::of_vec(findings),
            reads,
        })
    }

    /// The read set of a feature, and what the cell answers to it. What the feature names is looked up once for both.
    fn near_feature<L: Ledger>(
        &self,
        feature: &Feature,
        steps: &mut Steps<L>,
    ) -> Result<(Keys, NearRecords<'a>), AllocError>
        requires { lookup_record (B.cell self.now.look.now) self.now.name ≡ Some (F feature.now) }
        ensures reads { IfOk result (λ found. found.0 ≡ read_set (B.cell self.now.look.now) (SubjectRec self.now.name)) }
        ensures near { IfOk result (λ found. IsNear (B.cell self.now.look.now) found.0 found.1) }
        ensures steps { steps.new + 1 ≤ steps.old + 4 * length (read_set (B.cell self.now.look.now) (SubjectRec self.now.name)) }
    {
        let names = named_keys(self.alloc, self.name, feature)?;
        let named = names.as_slice();
        let known = gather(self.alloc, self.look, named, steps)?;
        let reads = feature_reads(self.alloc, feature, named, &known)?;
        let near = gather_beside(self.alloc, self.look, reads.as_slice(), &known, steps)?;
        Ok((reads, near))
    }

    /// The row of a feature.
    fn feature<L: Ledger>(&self, feature: &Feature, steps: &mut Steps<L>) -> Result<Row, AllocError>
        requires { lookup_record (B.cell self.now.look.now) self.now.name ≡ Some (F feature.now) }
        ensures row { IfOk result (IsRecordRow (B.cell self.now.look.now) self.now.name) }
        ensures steps { steps.new + 1 ≤ steps.old + 4 * length (read_set (B.cell self.now.look.now) (SubjectRec self.now.name)) }
    {
        let (reads, near) = self.near_feature(feature, steps)?;
        let findings = feature_findings(self.alloc, &near, feature)?;
        Ok(Row {
            subject: Subject::Rec(self.name),
            findings: Items::of_vec(findings),
            reads,
        })
    }
}

/// The row of a name that no record has, or that is the head's: its read set is the name.
fn bare_row(alloc: Global, name: RecName) -> Result<Row, AllocError>
    ensures absent { (c : SpecCell) → lookup_record c name ≡ None → IfOk result (IsRecordRow c name) }
    ensures head { (c : SpecCell) (h : SpecHead) → lookup_record c name ≡ Some (H h) → IfOk result (IsRecordRow c name) }
{
    let keys = vec![in alloc; Key::Name(name)]?;
    Ok(Row {
        subject: Subject::Rec(name),
        findings: Findings::make(alloc),
        reads: ascending_keys(keys),
    })
}

/// The findings about a record, ascending by kind and numbers, and its read set. About a node or an edge the kinds are
/// BadShape, EndCount, DanglingEnd, Stacked, SelfMeet and NodePointer; about a feature PrimRefs, DanglingRef, BadCodes,
/// OpenRing, MixedRing, OuterCount, WrongTurn, DanglingFeature, WrongGroup and BadLevel. The head's name and a name that no
/// record has give no finding, and their read set is the name.
///
/// It makes at most four look-ups for each key of the read set. An `Err` means out of memory.
pub fn verdict_rec<B: Look, L: Ledger>(
    alloc: Global,
    look: &B,
    name: RecName,
    steps: &mut Steps<L>,
) -> Result<Row, AllocError>
    ensures subject { IfOk result (λ row. row.subject ≡ SubjectRec name) }
    ensures findings { IfOk result (λ row. row.findings ≡ findings_of_subject (B.cell look.now) (SubjectRec name)) }
    ensures reads { IfOk result (λ row. row.reads ≡ read_set (B.cell look.now) (SubjectRec name)) }
    ensures steps { steps.new ≤ steps.old + 4 * length (read_set (B.cell look.now) (SubjectRec name)) }
{
    let asked = Asked { alloc, look, name };
    match look.get(name, steps) {
        Some(Rec::V(vector)) => asked.vector(vector, steps),
        Some(Rec::F(feature)) => asked.feature(feature, steps),
        Some(Rec::H(_)) | None => bare_row(alloc, name),
    }
}
