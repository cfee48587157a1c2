//! Leaves in halves, each two of which have a box around them.

ghost use Rattle.std.specs.Prelude.{◌≡◌, ◌++◌, IfOk, IsTrue, OnOk};
ghost use Rattle.box_tree.specs.Leaves.{leaves_meeting, names_meeting};
ghost use Rattle.box_tree.specs.Nodes.{AreHeld, leaves_of};

use crate::leaf::{Leaf, box_with, push_leaves, push_names};
use geometry_spec::Box4;
use line_boxes::are_disjoint;
use s57_types::RecName;
use std::alloc::{AllocError, Global};

/// How many leaves are looked at one by one.
const FEW: usize = 8;

/// Leaves in their order: a few, or two halves, each behind the box around it, so that a half whose box doesn't meet isn't gone into.
#[derive(Drop)]
pub(crate) enum Node {
    Few(Vec<Leaf>),
    Halves(Box4, Box<Node>, Box4, Box<Node>),
}

impl Node {
    /// Leaves in this order.
    pub(crate) fn of_leaves(alloc: Global, leaves: &[Leaf]) -> Result<Node, AllocError>
        ensures leaves { IfOk result (λ node. leaves_of node ≡ leaves.now) }
        ensures held { IfOk result (λ node. AreHeld node) }
    {
        if leaves.len() <= FEW {
            return Ok(Node::Few(leaves.to_vec(alloc)?));
        }
        let (front, back) = leaves.split_at(leaves.len() / 2);
        let front_box = box_with(front[0].around, front);
        let back_box = box_with(back[0].around, back);
        let front = Box::new(alloc, Node::of_leaves(alloc, front)?)?;
        let back = Box::new(alloc, Node::of_leaves(alloc, back)?)?;
        Ok(Node::Halves(front_box, front, back_box, back))
    }

    /// Appends the names of those leaves whose boxes meet a box.
    pub(crate) fn push_meeting(
        &self,
        out: &mut Vec<RecName>,
        around: Box4,
    ) -> Result<(), AllocError>
        requires { AreHeld self.now }
        ensures { OnOk result (out.new.items ≡ out.old.items ++ names_meeting around (leaves_of self.now)) }
    {
        match self {
            Node::Few(leaves) => push_names(out, around, leaves),
            Node::Halves(front_box, front, back_box, back) => {
                if !are_disjoint(around, *front_box) {
                    front.push_meeting(out, around)?;
                }
                if !are_disjoint(around, *back_box) {
                    back.push_meeting(out, around)?;
                }
                Ok(())
            }
        }
    }

    /// Appends those leaves whose boxes meet a box, until there are more than `most` of them: whether all are there.
    pub(crate) fn push_few(
        &self,
        out: &mut Vec<Leaf>,
        around: Box4,
        most: usize,
    ) -> Result<bool, AllocError>
        requires { AreHeld self.now }
        ensures { IfOk result (λ all. IsTrue all → out.new.items ≡ out.old.items ++ leaves_meeting around (leaves_of self.now)) }
    {
        match self {
            Node::Few(leaves) => {
                push_leaves(out, around, leaves)?;
                Ok(out.len() <= most)
            }
            Node::Halves(front_box, front, back_box, back) => {
                let front_too = are_disjoint(around, *front_box)
                    || front.push_few(out, around, most)?;
                if !front_too {
                    return Ok(false);
                }
                if are_disjoint(around, *back_box) {
                    return Ok(true);
                }
                let back_too = back.push_few(out, around, most)?;
                Ok(back_too)
            }
        }
    }
}
