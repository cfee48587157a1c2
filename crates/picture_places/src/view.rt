//! The part of a cell that is shown.

use chain_topo::ListLook;
use geometry_spec::Box4;
use std::alloc::Global;

/// The part of a cell that lies in a box: what is drawn of it, and where marks are held.
#[derive(Drop)]
pub struct View<'a, 'b> {
    pub alloc: Global,
    pub look: &'a ListLook<'b>,
    pub around: Box4,
}
