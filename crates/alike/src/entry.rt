// An answer as the list for one event holds it, in 8 bytes where a `Part` takes 24: the list stands on the stack.
ghost use Rattle.std.specs.Prelude.{◌≡◌};
ghost use Rattle.alike.specs.List.{entry_of, part};

use crate::plans::Part;
use par::{Notices, Status};

// The remainder's record number fits in 16 bits: a file has at most 1,024 records.
#[derive(Clone, Copy)]
pub struct Entry {
    pub notices: Notices,
    pub status: Status,
    pub remains: Option<u16>,
}

// The entry of an answer. It stands for the answer where the remainder's number fits, as every record's does; of any other it has the lowest 16 bits.
impl From<Part> for Entry {
    fn from(p: Part) -> Entry
        ensures { result ≡ entry_of p }
    {
        Entry {
            notices: p.notices,
            status: p.status,
            remains: p.remains.map(|r| (r % 65536) as u16),
        }
    }
}

// The answer that an entry stands for.
impl From<Entry> for Part {
    fn from(entry: Entry) -> Part
        ensures { result ≡ part entry }
    {
        Part {
            notices: entry.notices,
            status: entry.status,
            remains: entry.remains.map(usize::from),
        }
    }
}
