// A record in the lent bytes: its fields in place, its kind and length, what it says, and what stands at a place of a file.
#![tactic(auto)]

pub mod refusal; // refusal.rt: why something is refused, with its number

ghost use Rattle.std.specs.Prelude.{◌≡◌, ◌+◌, get_or};
ghost use Rattle.records.specs.Fields.{word_at};
ghost use Rattle.records.specs.Kinds.{kind_of, length_in, most_of};
ghost use Rattle.records.specs.Constructs.{node_at, earlier_in};
ghost use Rattle.records.specs.Next.{next_at};

use par::Node;
pub use refusal::{Refusal, number};

// What a file holds.
#[derive(Clone, Copy)]
pub enum Contents {
    Expressions,
    Pairs,
}

// Which file's list a kind stands in, with the length of its records: a case for each sort of row in document 01's table.
#[derive(Clone, Copy)]
pub enum Kind {
    Construct(u16),
    Pair(u16),
    Reserved,
}

// What stands at a place of a file: with a record, and with one that is passed over, where the next begins. No kind is passed over today; the
// definitions `turn_by` and `Sound`, which say what a file means, have the case.
#[derive(Clone, Copy)]
pub enum Next {
    End,
    Passed(usize),
    Record(usize),
}

// ---- fields, little-endian, taken from the file

// The byte `k` places after `p`, 0 past the end.
pub fn byte_at(s: &[u8], p: usize, k: usize) -> u8
    ensures { result ≡ get_or s.now (p + k) 0 }
{
    match p.checked_add(k) {
        Some(i) => s.get(i).copied().unwrap_or(0),
        None => 0,
    }
}

// The number of the two bytes `k` places after `p`.
#[tactic(auto, unfolding(crate::specs::Fields::word_at))]
pub fn word_at(s: &[u8], p: usize, k: u8) -> u16
    ensures { result ≡ word_at s.now p k }
{
    let low = byte_at(s, p, usize::from(k));
    let high = byte_at(s, p, usize::from(k) + 1);
    u16::from_le_bytes([low, high])
}

// The same as a record's number.
pub fn part_at(s: &[u8], p: usize, k: u8) -> usize
    ensures { result ≡ word_at s.now p k }
{
    usize::from(word_at(s, p, k))
}

// ---- kinds and lengths

// Document 01's table of kinds, with the pair kind; the ranges between are reserved.
impl From<u16> for Kind {
    #[tactic(auto, using(crate::proofs::KindTable::kind_reserved), unfolding(crate::specs::Kinds::kind_of))]
    fn from(kind: u16) -> Kind
        ensures { result ≡ kind_of kind }
    {
        match kind {
            0 => Kind::Reserved,
            1 => Kind::Construct(4),
            2 => Kind::Construct(5),
            3 => Kind::Construct(6),
            4 => Kind::Construct(8),
            5 => Kind::Construct(8),
            6 => Kind::Construct(6),
            7 => Kind::Construct(8),
            8 => Kind::Construct(8),
            9..=15 => Kind::Reserved,
            16 => Kind::Pair(8),
            17..=65535 => Kind::Reserved,
        }
    }
}

impl Contents {
    // The length of a record of this kind, where the kind is in the file's list.
    pub fn length_of(self, kind: Kind) -> Option<u16>
        ensures { result ≡ length_in self kind }
    {
        match (self, kind) {
            (Contents::Expressions, Kind::Construct(length)) => Some(length),
            (Contents::Pairs, Kind::Pair(length)) => Some(length),
            _ => None,
        }
    }

    // How many records such a file may hold.
    pub fn most(self) -> usize
        ensures { result ≡ most_of self }
    {
        match self {
            Contents::Expressions => 1024,
            Contents::Pairs => 256,
        }
    }
}

// ---- what a record of an expression file says

// The construct and body of the record at `p`; silent for a kind that is no construct. A look-up by halving reads a record at each step, so it is
// inlined there.
#[inline(always)]
#[tactic(auto, using(crate::proofs::Constructs::node_silent), unfolding(crate::specs::Constructs::node_at, crate::specs::Constructs::node_of))]
pub fn node_at(s: &[u8], p: usize) -> Node
    ensures { result ≡ node_at s.now p }
{
    match word_at(s, p, 2) {
        2 => Node::Event(byte_at(s, p, 4)),
        3 => Node::Not(part_at(s, p, 4)),
        4 => Node::Either(part_at(s, p, 4), part_at(s, p, 6)),
        5 => Node::Then(part_at(s, p, 4), part_at(s, p, 6)),
        6 => Node::Repeat(part_at(s, p, 4)),
        7 => Node::Notify(part_at(s, p, 4), word_at(s, p, 6)),
        8 => Node::Try(part_at(s, p, 4), part_at(s, p, 6)),
        _ => Node::Silent,
    }
}

// Whether the parts that a record names are among the first `count` records.
pub fn earlier(node: Node, count: usize) -> bool
    ensures { result ≡ earlier_in count node }
{
    match node {
        Node::Silent | Node::Event(_) => true,
        Node::Not(x) | Node::Repeat(x) | Node::Notify(x, _) => x < count,
        Node::Either(x, y) | Node::Then(x, y) | Node::Try(x, y) => x < count && y < count,
    }
}

// ---- one record at a place

// What stands at `pos`, where `count` records stand before it: 7, 2 (header), 3, 4, 2 (whole), in this order.
#[tactic(auto, unfolding(crate::specs::Next::next_at))]
pub fn next_record(s: &[u8], contents: Contents, pos: usize, count: usize) -> Result<Next, Refusal>
    ensures { result ≡ next_at s.now contents pos count }
{
    let n = s.len();
    if n <= pos {
        return Ok(Next::End);
    }
    if contents.most() <= count {
        return Err(Refusal::TooManyRecords);
    }
    let left = n - pos;
    if left < 4 {
        return Err(Refusal::CutShort);
    }
    let Some(want) = contents.length_of(Kind::from(word_at(s, pos, 2))) else {
        return Err(Refusal::UnknownKind);
    };
    if word_at(s, pos, 0) != want {
        return Err(Refusal::WrongLength);
    }
    let length = usize::from(want);
    if left < length {
        return Err(Refusal::CutShort);
    }
    Ok(Next::Record(pos + length))
}
