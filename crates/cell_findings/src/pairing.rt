//! Findings that are gathered about each two connected nodes or edges.

ghost use Rattle.std.specs.Prelude.{◌≡◌, ◌≤◌, All, IfOk, IfSome, IsTrue, length, map};
ghost use Rattle.std.specs.List.{flat_map};
ghost use Rattle.std.specs.List.Sorted.{IsStrictlySortedBy};
ghost use Rattle.s57_types.specs.declared.name.RecName.{RecName as SpecRecName};
ghost use Rattle.cell_spec.specs.Names.{name_order};
ghost use Rattle.cell_spec.specs.declared.key.Subject.{Subject as SpecSubject};
ghost use Rattle.cell_spec.specs.declared.key.Subject.TheVariants.{Pair as SubjectPair};
ghost use Rattle.rule_spec.specs.Findings.{findings_of_subject, is_subject};
ghost use Rattle.rule_spec.specs.Records.{is_chain_part};
ghost use Rattle.box_tree.specs.Leaves.{IsNear};
ghost use Rattle.cell_findings.specs.Gathered.{Gathers};
ghost use Rattle.cell_findings.specs.Judged.{pairs_among, subject_findings};
ghost use Rattle.cell_findings.specs.Near.{AreNearSubjects, leaf_findings, names_above, names_near as spec_names_near};
ghost use Rattle.cell_findings.specs.Parts.{AreParts};

use crate::gather::push_found;
use crate::list::SubjectFinding;
use crate::part::{PlacedParts, parts_of};
use crate::refusal::LoadRefusal;
use crate::search::Search;
use box_tree::{BoxTree, Leaf};
use cell_spec::{Finding, Names, Subject, ascending_names};
use chain_topo::Steps;
use check_pairs::{ChainPart, pair_findings};
use check_words::is_below;
use finding_laws::apart_pairs_are_clean;
use s57_types::RecName;
use std::alloc::{AllocError, Global};
use std::sync::ledger::Ledger;

/// How many names there is room for at first: about as many as meet a box in a chart, so that a list mostly is made once.
const LIKELY_NEAR: usize = 16;

/// How many leaves, one after the other, ask the tree together.
const TOGETHER: usize = 8;

/// How many may meet the box around these, so that each looks at them and not at the tree.
const MOST_NEAR: usize = 64;

/// The names above a leaf's own among some leaves whose boxes meet its box.
fn names_among(alloc: Global, near: &[Leaf], leaf: Leaf) -> Result<Vec<RecName>, AllocError>
    ensures { IfOk result (λ names. names.items ≡ names_above leaf near.now) }
{
    let mut names = Vec::with_capacity(alloc, LIKELY_NEAR)?;
    for other in near {
        if other.meets(leaf.around) && is_below(leaf.name, other.name) {
            names.push(other.name)?;
        }
    }
    Ok(names)
}

/// The names above a leaf's own whose boxes meet its box, in the tree's order.
fn names_in_tree(alloc: Global, tree: &BoxTree, leaf: Leaf) -> Result<Vec<RecName>, AllocError>
    ensures { IfOk result (λ names. names.items ≡ names_above leaf tree.now) }
{
    let mut names = Vec::with_capacity(alloc, LIKELY_NEAR)?;
    tree.push_meeting(&mut names, leaf.around)?;
    names.retain(|name| is_below(leaf.name, *name));
    Ok(names)
}

/// The names above a leaf's own whose boxes meet its box, ascending. They are sought among leaves near it, if these are told.
fn names_near(
    alloc: Global,
    tree: &BoxTree,
    near: Option<&[Leaf]>,
    leaf: Leaf,
) -> Result<Names, AllocError>
    requires { IfSome near (λ leaves. IsNear tree.now leaves.now leaf) }
    ensures { IfOk result (λ names. names ≡ spec_names_near leaf tree.now) }
{
    let names = match near {
        Some(leaves) => names_among(alloc, leaves, leaf)?,
        None => names_in_tree(alloc, tree, leaf)?,
    };
    Ok(ascending_names(names))
}

impl<'a, 'b> Search<'a, 'b> {
    /// The findings about two connected nodes or edges. One that isn't among the parts is looked up.
    fn found_of_pair<L: Ledger>(
        &self,
        placed: &PlacedParts,
        pair: (RecName, RecName),
        steps: &mut Steps<L>,
    ) -> Result<Vec<Finding>, AllocError>
        requires subject { IsTrue (is_subject self.now.look.now (SubjectPair pair.0 pair.1)) }
        requires parts { AreParts self.now.look.now placed.now }
        ensures { IfOk result (λ findings. findings.items ≡ findings_of_subject self.now.look.now (SubjectPair pair.0 pair.1)) }
    {
        if let Some(first) = placed.part(pair.0) {
            if let Some(second) = placed.part(pair.1) {
                return pair_findings(self.alloc, first, second);
            }
        }
        let first = ChainPart::find(self.alloc, self.look, pair.0, steps)?;
        let second = ChainPart::find(self.alloc, self.look, pair.1, steps)?;
        pair_findings(self.alloc, &first, &second)
    }

    fn push_pair<L: Ledger>(
        &self,
        gathered: &mut Vec<SubjectFinding>,
        placed: &PlacedParts,
        pair: (RecName, RecName),
        steps: &mut Steps<L>,
    ) -> Result<(), LoadRefusal>
        requires subject { IsTrue (is_subject self.now.look.now (SubjectPair pair.0 pair.1)) }
        requires parts { AreParts self.now.look.now placed.now }
        ensures { Gathers self.now.limit gathered.old.items (subject_findings self.now.look.now (SubjectPair pair.0 pair.1))
            gathered.new.items result }
    {
        let findings = self.found_of_pair(placed, pair, steps)?;
        push_found(
            gathered,
            Subject::Pair(pair.0, pair.1),
            &findings,
            self.limit,
        )
    }

    /// Appends the findings about the pairs of one with others.
    fn push_pairs_with<L: Ledger>(
        &self,
        gathered: &mut Vec<SubjectFinding>,
        placed: &PlacedParts,
        name: RecName,
        others: &[RecName],
        steps: &mut Steps<L>,
    ) -> Result<(), LoadRefusal>
        requires parts { AreParts self.now.look.now placed.now }
        requires subjects { All (λ (other : SpecRecName). IsTrue (is_subject self.now.look.now (SubjectPair name other))) others.now }
        requires within { length gathered.old.items ≤ self.now.limit }
        ensures { Gathers self.now.limit gathered.old.items (flat_map (subject_findings self.now.look.now) (map (SubjectPair name) others.now))
            gathered.new.items result }
    {
        for other in others {
            self.push_pair(gathered, placed, (name, *other), steps)?;
        }
        Ok(())
    }

    /// Appends the findings about the pairs of a leaf with those above it whose boxes meet its box.
    fn push_pairs_of<L: Ledger>(
        &self,
        gathered: &mut Vec<SubjectFinding>,
        placed: &PlacedParts,
        tree: &BoxTree,
        near: Option<&[Leaf]>,
        leaf: Leaf,
        steps: &mut Steps<L>,
    ) -> Result<(), LoadRefusal>
        requires parts { AreParts self.now.look.now placed.now }
        requires near { IfSome near (λ leaves. IsNear tree.now leaves.now leaf) }
        requires subjects { AreNearSubjects self.now.look.now tree.now leaf }
        requires within { length gathered.old.items ≤ self.now.limit }
        ensures { Gathers self.now.limit gathered.old.items (leaf_findings self.now.look.now tree.now leaf) gathered.new.items result }
    {
        let others = names_near(self.alloc, tree, near, leaf)?;
        let others = others.as_slice();
        self.push_pairs_with(gathered, placed, leaf.name, others, steps)
    }

    /// Appends the findings about the pairs of a few leaves, of which each looks at those that are near all of them.
    fn push_pairs_together<L: Ledger>(
        &self,
        tree: &BoxTree,
        leaves: &[Leaf],
        placed: &PlacedParts,
        steps: &mut Steps<L>,
        gathered: &mut Vec<SubjectFinding>,
    ) -> Result<(), LoadRefusal>
        requires within { length gathered.old.items ≤ self.now.limit }
        requires subjects { All (AreNearSubjects self.now.look.now tree.now) leaves.now }
        requires parts { AreParts self.now.look.now placed.now }
        ensures { Gathers self.now.limit gathered.old.items (flat_map (leaf_findings self.now.look.now tree.now) leaves.now)
            gathered.new.items result }
    {
        let near = tree.few_near(self.alloc, leaves, MOST_NEAR)?;
        let near = near.as_deref();
        for leaf in leaves {
            self.push_pairs_of(gathered, placed, tree, near, *leaf, steps)?;
        }
        Ok(())
    }

    /// Appends the findings about the pairs of leaves, each with those above it whose boxes meet its box.
    pub(crate) fn push_near_pairs<L: Ledger>(
        &self,
        gathered: &mut Vec<SubjectFinding>,
        placed: &PlacedParts,
        leaves: &[Leaf],
        tree: &BoxTree,
        steps: &mut Steps<L>,
    ) -> Result<(), LoadRefusal>
        requires parts { AreParts self.now.look.now placed.now }
        requires subjects { All (AreNearSubjects self.now.look.now tree.now) leaves.now }
        requires within { length gathered.old.items ≤ self.now.limit }
        ensures { Gathers self.now.limit gathered.old.items (flat_map (leaf_findings self.now.look.now tree.now) leaves.now)
            gathered.new.items result }
    {
        let mut rest = leaves;
        while !rest.is_empty() {
            let (together, behind) = rest.split_at(TOGETHER.min(rest.len()));
            self.push_pairs_together(tree, together, placed, steps, gathered)?;
            rest = behind;
        }
        Ok(())
    }

    /// Appends the findings about each two of some connected nodes and edges, whose names ascend. Two whose boxes are disjoint
    /// have none, and aren't looked at.
    pub(crate) fn push_pairs<L: Ledger>(
        &self,
        gathered: &mut Vec<SubjectFinding>,
        names: &[RecName],
        steps: &mut Steps<L>,
    ) -> Result<(), LoadRefusal>
        requires parts { All (λ (n : SpecRecName). IsTrue (is_chain_part self.now.look.now n)) names.now }
        requires subjects { All (λ (s : SpecSubject). IsTrue (is_subject self.now.look.now s)) (pairs_among names.now) }
        requires ascending { IsStrictlySortedBy name_order names.now }
        requires within { length gathered.old.items ≤ self.now.limit }
        ensures { Gathers self.now.limit gathered.old.items (flat_map (subject_findings self.now.look.now) (pairs_among names.now))
            gathered.new.items result }
    {
        apart_pairs_are_clean();
        let placed = parts_of(self.alloc, self.look, names, steps)?;
        let tree = placed.tree(self.alloc)?;
        let leaves = placed.leaves.as_slice();
        self.push_near_pairs(gathered, &placed, leaves, &tree, steps)
    }
}
