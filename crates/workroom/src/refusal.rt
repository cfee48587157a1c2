//! Why a workroom answers nothing.

/// Why there is no new desk.
#[derive(Clone, Copy, Debug, PartialEq, Eq)]
pub enum DeskRefusal {
    /// There are as many desks as there may be.
    NoDesk,
    /// Out of memory.
    NoMemory,
}

/// Why a desk gets no answer.
#[derive(Clone, Copy, Debug, PartialEq, Eq)]
pub enum RoomRefusal {
    /// The log has as many entries as it may have; nothing was entered.
    LogFull,
    /// Out of memory. Where `entered` is true the answer stands in the log, and the desk's copy of the cell didn't come up to it; the
    /// desk's next view goes on from there. Where it is false nothing was entered.
    NoMemory { entered: bool },
}
