//! A search for the findings of a cell.

use chain_topo::ListLook;
use std::alloc::Global;

/// Where findings are looked for, and how many there may be.
#[derive(Drop)]
pub(crate) struct Search<'a, 'b> {
    pub(crate) alloc: Global,
    pub(crate) look: &'a ListLook<'b>,
    pub(crate) limit: usize,
}
