//! What is asked of a cell about a record.

use chain_topo::Look;
use s57_types::RecName;
use std::alloc::Global;

/// A name whose record is judged, and where it was looked up.
#[derive(Drop)]
pub(crate) struct Asked<'a, B: Look> {
    pub(crate) alloc: Global,
    pub(crate) look: &'a B,
    pub(crate) name: RecName,
}
