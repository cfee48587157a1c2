//! What a picture is made of.

use picture_places::{PagePoint, Strokes};
use s57_types::{RecName, Text};

/// How high a row of the list is, in page units.
pub const ROW_HEIGHT: u32 = 200;

/// How far below the page's top the list begins.
pub const LIST_TOP: u32 = 12_290;

/// How many findings are marked by their numbers. Where there are more, each is a dot.
pub const MARK_LIMIT: u32 = 500;

/// How a record is drawn.
#[derive(Clone, Copy, Debug, PartialEq, Eq)]
pub enum Class {
    /// An area of Group 1, filled.
    Group1,
    /// An area of coverage, filled.
    Coverage,
    /// An edge, a line.
    Edge,
    /// A connected node, a dot.
    Node,
    /// An isolated node, a square.
    Isolated,
    /// Soundings, small dots.
    Sounding,
}

/// A record as it is drawn.
#[derive(Debug)]
pub struct Figure {
    pub class: Class,
    pub name: RecName,
    pub strokes: Strokes,
}

impl Drop for Figure {
    fn drop(self) {
        let Figure {
            class: _,
            name: _,
            strokes: _,
        } = self;
    }
}

/// The mark of a finding: its number, its line in a report, where it is, and where the number stands.
#[derive(Debug)]
pub struct Mark {
    pub number: u32,
    pub line: Text,
    pub strokes: Strokes,
    pub anchor: PagePoint,
    pub label: PagePoint,
}

impl Drop for Mark {
    fn drop(self) {
        let Mark {
            number: _,
            line: _,
            strokes: _,
            anchor: _,
            label: _,
        } = self;
    }
}

/// A row of the list: the number of a finding, its line in a report, and how far below the page's top it stands.
#[derive(Debug, Drop)]
pub struct Row {
    pub number: u32,
    pub line: Text,
    pub below: u64,
}
