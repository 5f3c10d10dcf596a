//! What the store keeps of a process.
use rows::Place;
use table::Sizes;

// Not an Option of an ending: null is a status that other processes read, one of three that the step table names.
/// How the latest transaction of a process stands.
#[derive(Clone, Copy, PartialEq, Eq, Debug)]
pub enum Status {
    Null,
    Committed,
    Aborted,
}

/// The latest transaction of a process: its status, the sizes of its sets, and where it stands.
#[derive(Clone, Copy, PartialEq, Eq, Debug)]
pub struct Process {
    pub status: Status,
    pub sizes: Sizes,
    pub place: Place,
}

impl Process {
    /// A process that never began.
    pub const FRESH: Process = Process {
        status: Status::Null,
        sizes: Sizes {
            reads: 0,
            writes: 0,
        },
        place: Place::Closed,
    };
}
