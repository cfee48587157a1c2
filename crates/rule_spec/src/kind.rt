//! The rules' kinds of finding: the number of each, the name that reports print, and how many of a finding's numbers they print.
//! This project's own numbers and names.

ghost use Rattle.std.specs.Prelude.{◌≡◌, ◌≤◌};
ghost use Rattle.rule_spec.specs.Kinds.{kind_name as name_of_kind, number_count as count_of_kind};

pub const BAD_SHAPE: u8 = 1;

pub const END_COUNT: u8 = 2;

pub const DANGLING_END: u8 = 3;

pub const STACKED: u8 = 4;

pub const SELF_MEET: u8 = 5;

pub const NODE_POINTER: u8 = 6;

pub const CROSS: u8 = 7;

pub const TOUCH: u8 = 8;

pub const COINCIDE: u8 = 9;

pub const SAME_PLACE: u8 = 10;

pub const NODE_ON_EDGE: u8 = 11;

pub const PRIM_REFS: u8 = 12;

pub const DANGLING_REF: u8 = 13;

pub const BAD_CODES: u8 = 14;

pub const OPEN_RING: u8 = 15;

pub const MIXED_RING: u8 = 16;

pub const OUTER_COUNT: u8 = 17;

pub const WRONG_TURN: u8 = 18;

pub const DANGLING_FEATURE: u8 = 19;

pub const WRONG_GROUP: u8 = 20;

pub const ORPHAN: u8 = 21;

pub const SIDE_OVERLAP: u8 = 22;

pub const SIDE_UNBALANCED: u8 = 23;

pub const FALSE_TRUNCATION: u8 = 24;

pub const TWICE_FOID: u8 = 25;

pub const BAD_LEVEL: u8 = 26;

/// The printed name of a kind of finding; of a number that is no kind's the empty text.
pub fn kind_name(kind: u8) -> &'static str
    ensures { result.now ≡ name_of_kind kind }
{
    match kind {
        BAD_SHAPE => "BadShape",
        END_COUNT => "EndCount",
        DANGLING_END => "DanglingEnd",
        STACKED => "Stacked",
        SELF_MEET => "SelfMeet",
        NODE_POINTER => "NodePointer",
        CROSS => "Cross",
        TOUCH => "Touch",
        COINCIDE => "Coincide",
        SAME_PLACE => "SamePlace",
        NODE_ON_EDGE => "NodeOnEdge",
        PRIM_REFS => "PrimRefs",
        DANGLING_REF => "DanglingRef",
        BAD_CODES => "BadCodes",
        OPEN_RING => "OpenRing",
        MIXED_RING => "MixedRing",
        OUTER_COUNT => "OuterCount",
        WRONG_TURN => "WrongTurn",
        DANGLING_FEATURE => "DanglingFeature",
        WRONG_GROUP => "WrongGroup",
        ORPHAN => "Orphan",
        SIDE_OVERLAP => "SideOverlap",
        SIDE_UNBALANCED => "SideUnbalanced",
        FALSE_TRUNCATION => "FalseTruncation",
        TWICE_FOID => "TwiceFoid",
        BAD_LEVEL => "BadLevel",
        _ => "",
    }
}

/// How many of a finding's four numbers are printed for a kind; 0 of a number that is no kind's.
pub fn number_count(kind: u8) -> usize
    ensures same { result ≡ count_of_kind kind }
    ensures within { result ≤ 4 }
{
    match kind {
        END_COUNT => 3,
        DANGLING_END => 1,
        STACKED => 1,
        SELF_MEET => 2,
        CROSS => 2,
        TOUCH => 2,
        COINCIDE => 2,
        NODE_ON_EDGE => 1,
        DANGLING_REF => 1,
        BAD_CODES => 1,
        OPEN_RING => 1,
        MIXED_RING => 1,
        OUTER_COUNT => 1,
        WRONG_TURN => 1,
        DANGLING_FEATURE => 1,
        SIDE_OVERLAP => 4,
        SIDE_UNBALANCED => 4,
        FALSE_TRUNCATION => 2,
        TWICE_FOID => 1,
        BAD_LEVEL => 1,
        _ => 0,
    }
}
