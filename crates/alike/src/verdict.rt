// The first fault of a proposal: pairs in file order, events ascending, 10 before 11 before 12 before 13. Events come outermost, so that each
// list is filled once; of the faults found, that of the lowest pair is kept, and of one pair that at the first event.
ghost use Rattle.std.specs.Prelude.{ℕ, ◌≡◌, ◌+◌, ◌≤◌, ◌<◌, false, length, get_or};
ghost use Rattle.records.specs.Refusals.{number};
ghost use Rattle.alike.specs.Tables.{expressions, left_in, right_in, Within};
ghost use Rattle.alike.specs.Settled.{ListedRow, Standing, PartFault, RowPart, Scanned, Named, Quiet};
ghost use Rattle.alike.specs.Verdict.{first_fault};
ghost use Rattle.alike.specs.Outcome.{outcome_of};

use crate::entry::Entry;
use crate::list;
use crate::pair::Pair;
use crate::plans::Part;
use crate::tables::{Pairs, Records};
use par::{Node, Status};
use records::Refusal;

// A fault, and the pair that has it.
#[derive(Clone, Copy)]
pub struct Fault {
    pub refusal: Refusal,
    pub pair: usize,
}

// The first closing condition that two answers fail, if they fail one.
fn fault_between(pairs: &Pairs, p: Part, q: Part) -> Result<(), Refusal>
    ensures { PartFault (ListedRow (left_in pairs.now.listed.now) (right_in pairs.now.listed.now) (length pairs.now.listed.now)) p q (number result) }
{
    if p.notices != q.notices {
        return Err(Refusal::NoticesDiffer);
    }
    if p.status != q.status {
        return Err(Refusal::StatusesDiffer);
    }
    let left = p.remains.ok_or(Refusal::RemainderNotInFile)?;
    let right = q.remains.ok_or(Refusal::RemainderNotInFile)?;
    if left != right && !pairs.lists(Pair { left, right }) {
        return Err(Refusal::RemaindersNotListed);
    }
    Ok(())
}

// The best fault, one event's list further: the first fault among the pairs before its own, if there is one.
fn scan(pairs: &Pairs, parts: &[Entry], best: Option<Fault>) -> Option<Fault>
    requires before { (outcome_of best (length pairs.now.listed.now)).pair ≤ length pairs.now.listed.now }
    requires within { Within (length parts.now) pairs.now.listed.now }
    ensures { Scanned (RowPart parts.now pairs.now.listed.now) (outcome_of best (length pairs.now.listed.now))
        (outcome_of result (length pairs.now.listed.now)) }
{
    let end = best.map_or(pairs.listed.len(), |fault| fault.pair);
    for (i, pair) in pairs.listed[..end].iter().enumerate() {
        if let Err(refusal) = fault_between(
            pairs,
            Part::from(parts[pair.left]),
            Part::from(parts[pair.right]),
        ) {
            return Some(Fault { refusal, pair: i });
        }
    }
    best
}

// Which events a record names.
fn named_events(nodes: &[Node]) -> [bool; 256]
    ensures { (a : ℕ) → a < 256 → Named nodes.now (length nodes.now) a (get_or result a false) }
{
    let mut named = [false; 256];
    for node in nodes {
        if let Node::Event(event) = node {
            named[usize::from(*event)] = true;
        }
    }
    named
}

// The best fault on the events up to this one, from that on the events before it. Events that no record names are answered alike, so that
// one of them is enough: this one is passed over where it is such (not `known`) and one has come before (`quiet`).
fn at_event(
    records: &Records,
    pairs: &Pairs,
    event: u8,
    known: bool,
    quiet: bool,
    parts: &mut [Entry],
    best: Option<Fault>,
) -> Option<Fault>
    requires room { length records.now.nodes.now ≤ length parts.old }
    requires within { Within (length records.now.nodes.now) pairs.now.listed.now }
    requires named { Named records.now.nodes.now (length records.now.nodes.now) event known }
    requires passed { Quiet records.now.nodes.now event quiet }
    requires standing { Standing records.now.nodes.now pairs.now.listed.now event (outcome_of best (length pairs.now.listed.now)) }
    ensures { Standing records.now.nodes.now pairs.now.listed.now (event + 1) (outcome_of result (length pairs.now.listed.now)) }
{
    if quiet && !known {
        return best;
    }
    list::fill(records, event, parts);
    scan(pairs, parts, best)
}

// The first fault over all pairs and all events. It is settled where no pair comes before the best: that is the first pair's, or there are no pairs.
// That the pairs name records that are there stays a clause: it ties two values, which `settle` alone makes.
pub fn first_fault(records: &Records, pairs: &Pairs) -> Option<Fault>
    requires { Within (length records.now.nodes.now) pairs.now.listed.now }
    ensures { outcome_of result (length pairs.now.listed.now) ≡ first_fault (expressions records.now.nodes.now) (length records.now.nodes.now)
        (left_in pairs.now.listed.now) (right_in pairs.now.listed.now) (length pairs.now.listed.now) }
{
    let mut parts = [Entry {
        notices: 0,
        status: Status::Waiting,
        remains: None,
    }; 1024];
    let named = named_events(records.nodes);
    let mut best: Option<Fault> = None;
    let mut quiet = false;
    for event in 0..=u8::MAX {
        if best.map_or(pairs.listed.len(), |fault| fault.pair) == 0 {
            return best;
        }
        let known = named[usize::from(event)];
        best = at_event(records, pairs, event, known, quiet, &mut parts, best);
        quiet |= !known;
    }
    best
}
