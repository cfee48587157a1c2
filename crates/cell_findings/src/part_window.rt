//! Connected nodes and edges of a few names.

ghost use Rattle.std.specs.Prelude.{◌≡◌, ◌++◌, All, IfOk, IsTrue, OnOk};
ghost use Rattle.s57_types.specs.declared.cell.Cell.{Cell as SpecCell};
ghost use Rattle.s57_types.specs.declared.name.RecName.{RecName as SpecRecName};
ghost use Rattle.check_pairs.specs.Parts.{IsPart};
ghost use Rattle.rule_spec.specs.Records.{is_chain_part};
ghost use Rattle.cell_findings.specs.Near.{leaves_at};
ghost use Rattle.cell_findings.specs.Parts.{IsWindowOf};

use box_tree::Leaf;
use chain_topo::{ListLook, Steps};
use check_pairs::ChainPart;
use s57_types::RecName;
use std::alloc::{AllocError, Global};
use std::sync::ledger::Ledger;

/// Connected nodes and edges of a cell in the order of their names, and the boxes around those that have a point.
pub(crate) struct PartWindow<'a> {
    pub(crate) parts: Vec<ChainPart<'a>>,
    pub(crate) leaves: Vec<Leaf>,
}

impl<'a> Drop for PartWindow<'a> {
    fn drop(self) {
        let PartWindow {
            parts: _,
            leaves: _,
        } = self;
    }
}

fn push_leaf(leaves: &mut Vec<Leaf>, part: &ChainPart) -> Result<(), AllocError>
    ensures { OnOk result ((c : SpecCell) → IsPart c part.now → leaves.new.items ≡ leaves.old.items ++ leaves_at c part.now.name) }
{
    if let Some(around) = part.extent() {
        leaves.push(Leaf {
            name: part.name(),
            around,
        })?;
    }
    Ok(())
}

impl<'a> PartWindow<'a> {
    /// Appends the connected node or the edge of a name, which is looked up, and the box around it.
    fn push<L: Ledger>(
        &mut self,
        alloc: Global,
        look: &'a ListLook,
        name: RecName,
        steps: &mut Steps<L>,
    ) -> Result<(), AllocError>
        requires named { IsTrue (is_chain_part look.now name) }
        requires parts { All (IsPart look.now) self.old.parts.items }
        ensures parts { OnOk result (All (IsPart look.now) self.new.parts.items) }
        ensures leaves { OnOk result (self.new.leaves.items ≡ self.old.leaves.items ++ leaves_at look.now name) }
    {
        let part = ChainPart::find(alloc, look, name, steps)?;
        push_leaf(&mut self.leaves, &part)?;
        self.parts.push(part)?;
        Ok(())
    }

    /// The connected nodes and edges of some names, each looked up once, with the least box around the points of each.
    ///
    /// An `Err` means out of memory.
    pub(crate) fn find<L: Ledger>(
        alloc: Global,
        look: &'a ListLook,
        names: &[RecName],
        steps: &mut Steps<L>,
    ) -> Result<PartWindow<'a>, AllocError>
        requires { All (λ (n : SpecRecName). IsTrue (is_chain_part look.now n)) names.now }
        ensures { IfOk result (IsWindowOf look.now names.now) }
    {
        let mut window = PartWindow {
            parts: Vec::with_capacity(alloc, names.len())?,
            leaves: Vec::with_capacity(alloc, names.len())?,
        };
        for name in names {
            window.push(alloc, look, *name, steps)?;
        }
        Ok(window)
    }

    /// Whether the first name is this one or below it.
    pub(crate) fn begins_by(&self, name: RecName) -> bool {
        match self.parts.first() {
            Some(part) => part.name() <= name,
            None => false,
        }
    }
}
