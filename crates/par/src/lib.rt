// PAR's statuses and answers, and the records that a file holds. What they mean stands in specs/, with the paper's figures.
#![tactic(auto)]

ghost use Rattle.std.specs.Prelude.{◌≡◌, ◌<◌};
ghost use Rattle.par.specs.Status.{opposite as opposed, higher, tried, status_byte, status_of};

// A notice set, one bit for each recipient, recipient 0 the lowest.
pub type Notices = u16;

// How an expression stands after an event.
#[derive(Clone, Copy, PartialEq, Eq)]
pub enum Status {
    Waiting,
    Success,
    Failure,
}

// What one event is answered with: the notices to send, the lines of the status rules that were used, and the status.
#[derive(Clone, Copy, PartialEq, Eq)]
pub struct Answer {
    pub notices: Notices,
    pub lines: u64,
    pub status: Status,
}

// A record of an expression file: its construct and its body. Parts are numbers of earlier records.
#[derive(Clone, Copy, PartialEq, Eq, PartialOrd, Ord)]
pub enum Node {
    Silent,
    Event(u8),
    Not(usize),
    Either(usize, usize),
    Then(usize, usize),
    Repeat(usize),
    Notify(usize, Notices),
    Try(usize, usize),
}

impl Status {
    // Success and failure exchanged.
    pub fn opposite(self) -> Status
        ensures { result ≡ opposed self }
    {
        match self {
            Status::Waiting => Status::Waiting,
            Status::Success => Status::Failure,
            Status::Failure => Status::Success,
        }
    }
}

// The byte that stands for a status in an answer record.
impl From<Status> for u8 {
    fn from(s: Status) -> u8
        ensures { result ≡ status_byte s }
    {
        s as u8 // its place among the variants
    }
}

// The status that a byte stands for; one that stands for none counts as failure.
impl From<u8> for Status {
    #[tactic(auto, unfolding(crate::specs::Status::status_of))]
    fn from(byte: u8) -> Status
        ensures { result ≡ status_of byte }
    {
        match byte {
            0 => Status::Waiting,
            1 => Status::Success,
            _ => Status::Failure,
        }
    }
}

// Rows by the first part's status, columns by the second's: waiting, success, failure. A status is an index by its place among the variants.
const EITHER: [[Status; 3]; 3] = [
    [Status::Waiting, Status::Success, Status::Waiting],
    [Status::Success, Status::Success, Status::Success],
    [Status::Waiting, Status::Success, Status::Failure],
];

const TRY: [[Status; 3]; 3] = [
    [Status::Waiting, Status::Failure, Status::Waiting],
    [Status::Success, Status::Success, Status::Success],
    [Status::Failure, Status::Failure, Status::Failure],
];

// The status of `either x, y` from those of x and y. A table for each construct, as document 01 names them.
pub fn either_status(x: Status, y: Status) -> Status
    ensures { result ≡ higher x y }
{
    EITHER[x as usize][y as usize]
}

// The status of `try x unless y` from those of x and y.
pub fn try_status(x: Status, y: Status) -> Status
    ensures { result ≡ tried x y }
{
    TRY[x as usize][y as usize]
}
