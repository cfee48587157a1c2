//! A cell.

ghost use Rattle.std.specs.Prelude.{◌≡◌};

use crate::head::Head;
use crate::items::Recs;

/// A chart cell: its head, its isolated nodes, connected nodes, edges and features, each list in file order.
#[derive(Debug)]
pub struct Cell {
    pub head: Head,
    pub vi: Recs,
    pub vc: Recs,
    pub ve: Recs,
    pub fe: Recs,
}

impl Cell {
    /// Its head, its isolated nodes, its connected nodes, its edges and its features.
    pub fn into_parts(self) -> (Head, Recs, Recs, Recs, Recs)
        ensures head { result.0 ≡ self.head }
        ensures vi { result.1 ≡ self.vi }
        ensures vc { result.2 ≡ self.vc }
        ensures ve { result.3 ≡ self.ve }
        ensures fe { result.4 ≡ self.fe }
    {
        let Cell {
            head,
            vi,
            vc,
            ve,
            fe,
        } = self;
        (head, vi, vc, ve, fe)
    }
}

impl Drop for Cell {
    fn drop(self) {
        let Cell {
            head: _,
            vi: _,
            vc: _,
            ve: _,
            fe: _,
        } = self;
    }
}
