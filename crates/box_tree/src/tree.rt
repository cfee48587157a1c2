//! A tree of boxes.

ghost use Rattle.std.specs.Prelude.{◌≡◌, ◌++◌, All, IfOk, IfSome, IsPermutation, OnOk};
ghost use Rattle.box_tree.specs.Leaves.{IsNear, names_meeting};

use crate::leaf::{Leaf, box_with};
use crate::node::Node;
use crate::order::place_on_curve;
use geometry_spec::Box4;
use s57_types::RecName;
use std::alloc::{AllocError, Global};
use std::marker::Model;

/// A tree of boxes around what has names, which contracts see as its leaves in some order.
pub struct BoxTree {
    root: Node,
}

impl Drop for BoxTree {
    fn drop(self) {
        let BoxTree { root: _ } = self;
    }
}

impl Model for BoxTree {
    ghost use Rattle.std.specs.Prelude.{List};
    ghost use Rattle.box_tree.specs.declared.leaf.Leaf.{Leaf};
    ghost use Rattle.box_tree.specs.Nodes.{AreHeld, leaves_of};

    ghost Value = { List Leaf };

    ghost view = { λ tree. leaves_of tree.root };

    ghost invariant = { λ tree. AreHeld tree.root };
}

impl BoxTree {
    /// The tree of these leaves, in whatever order they are given.
    ///
    /// An `Err` is out of memory.
    pub fn make(alloc: Global, mut leaves: Vec<Leaf>) -> Result<BoxTree, AllocError>
        ensures { IfOk result (λ tree. IsPermutation leaves.items tree) }
    {
        leaves.sort_by_cached_key(|leaf| place_on_curve(leaf.around))?;
        Ok(BoxTree {
            root: Node::of_leaves(alloc, &leaves)?,
        })
    }

    /// Appends the names of those leaves whose boxes have a point in common with a box, in the tree's order.
    ///
    /// An `Err` is out of memory.
    pub fn push_meeting(&self, out: &mut Vec<RecName>, around: Box4) -> Result<(), AllocError>
        ensures { OnOk result (out.new.items ≡ out.old.items ++ names_meeting around self.now) }
    {
        self.root.push_meeting(out, around)
    }

    /// Leaves among which are all that meet one of these, if at most `most` meet the box around these.
    ///
    /// An `Err` is out of memory.
    pub fn few_near(
        &self,
        alloc: Global,
        leaves: &[Leaf],
        most: usize,
    ) -> Result<Option<Vec<Leaf>>, AllocError>
        ensures { IfOk result (λ few. IfSome few (λ near. All (IsNear self.now near.items) leaves.now)) }
    {
        let [first, ..] = leaves else {
            return Ok(None);
        };
        let around = box_with(first.around, leaves);
        let mut near = Vec::with_capacity(alloc, most)?;
        let all = self.root.push_few(&mut near, around, most)?;
        if !all {
            return Ok(None);
        }
        Ok(Some(near))
    }
}
