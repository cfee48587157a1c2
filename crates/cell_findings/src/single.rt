//! Findings that are gathered about records, sides of edges and identifiers.

ghost use Rattle.std.specs.Prelude.{◌≤◌, length, map};
ghost use Rattle.std.specs.List.{flat_map};
ghost use Rattle.cell_spec.specs.declared.key.Subject.TheVariants.{Ident as SubjectIdent, Rec as SubjectRec, Side as SubjectSide};
ghost use Rattle.cell_findings.specs.Gathered.{Gathers};
ghost use Rattle.cell_findings.specs.Judged.{subject_findings};

use crate::gather::push_found;
use crate::list::SubjectFinding;
use crate::refusal::LoadRefusal;
use crate::search::Search;
use cell_spec::Subject;
use check_group1::{findings_of_ident, findings_of_side};
use check_record::findings_of_rec;
use s57_types::{Lnam, RecName};

impl<'a, 'b> Search<'a, 'b> {
    fn push_record(
        &self,
        gathered: &mut Vec<SubjectFinding>,
        name: RecName,
    ) -> Result<(), LoadRefusal>
        ensures { Gathers self.now.limit gathered.old.items (subject_findings self.now.look.now (SubjectRec name)) gathered.new.items result }
    {
        let found = findings_of_rec(self.alloc, self.look, name)?;
        push_found(gathered, Subject::Rec(name), &found, self.limit)
    }

    /// Appends the findings about records.
    pub(crate) fn push_records(
        &self,
        gathered: &mut Vec<SubjectFinding>,
        names: &[RecName],
    ) -> Result<(), LoadRefusal>
        requires { length gathered.old.items ≤ self.now.limit }
        ensures { Gathers self.now.limit gathered.old.items (flat_map (subject_findings self.now.look.now) (map SubjectRec names.now))
            gathered.new.items result }
    {
        for name in names {
            self.push_record(gathered, *name)?;
        }
        Ok(())
    }

    fn push_side(
        &self,
        gathered: &mut Vec<SubjectFinding>,
        edge: RecName,
    ) -> Result<(), LoadRefusal>
        ensures { Gathers self.now.limit gathered.old.items (subject_findings self.now.look.now (SubjectSide edge)) gathered.new.items result }
    {
        let found = findings_of_side(self.alloc, self.look, edge)?;
        push_found(gathered, Subject::Side(edge), &found, self.limit)
    }

    /// Appends the findings about the sides of edges.
    pub(crate) fn push_sides(
        &self,
        gathered: &mut Vec<SubjectFinding>,
        edges: &[RecName],
    ) -> Result<(), LoadRefusal>
        requires { length gathered.old.items ≤ self.now.limit }
        ensures { Gathers self.now.limit gathered.old.items (flat_map (subject_findings self.now.look.now) (map SubjectSide edges.now))
            gathered.new.items result }
    {
        for edge in edges {
            self.push_side(gathered, *edge)?;
        }
        Ok(())
    }

    fn push_identity(
        &self,
        gathered: &mut Vec<SubjectFinding>,
        identity: Lnam,
    ) -> Result<(), LoadRefusal>
        ensures { Gathers self.now.limit gathered.old.items (subject_findings self.now.look.now (SubjectIdent identity)) gathered.new.items result }
    {
        let found = findings_of_ident(self.alloc, self.look, identity)?;
        push_found(
            gathered,
            Subject::Ident(identity),
            found.as_slice(),
            self.limit,
        )
    }

    /// Appends the findings about identifiers.
    pub(crate) fn push_identities(
        &self,
        gathered: &mut Vec<SubjectFinding>,
        identities: &[Lnam],
    ) -> Result<(), LoadRefusal>
        requires { length gathered.old.items ≤ self.now.limit }
        ensures { Gathers self.now.limit gathered.old.items (flat_map (subject_findings self.now.look.now) (map SubjectIdent identities.now))
            gathered.new.items result }
    {
        for identity in identities {
            self.push_identity(gathered, *identity)?;
        }
        Ok(())
    }
}
