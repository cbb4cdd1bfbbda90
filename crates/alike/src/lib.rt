// The judge of a proposal that two rules behave alike: its refusal, and the faulty record shown in place.
#![tactic(auto)]

pub mod pair; // pair.rt: a pair of record numbers
pub mod tables; // tables.rt: the records and the pairs, and the look-up in them
pub mod plans; // plans.rt: one record's answer from its parts' answers
pub mod entry; // entry.rt: an answer as a list holds it
pub mod list; // list.rt: one event's list, an answer for each record
pub mod verdict; // verdict.rt: the first fault among pairs and events

ghost use Rattle.std.specs.Prelude.{◌≡◌, ◌≤◌, drop, length};
ghost use Rattle.records.specs.Refusals.{number};
ghost use Rattle.files.specs.Reading.{reading_pairs};
ghost use Rattle.alike.specs.Tables.{expressions, left_at, right_at};
ghost use Rattle.alike.specs.Verdict.{first_fault, judged, shown_of};
ghost use Rattle.alike.specs.Outcome.{outcome_of};
ghost use Rattle.alike.specs.Told.{told};
ghost use Rattle.alike.specs.Ready.{Recorded};

use files::Reading;
use pair::Pair;
use par::Node;
use records::{Contents, Refusal};
use tables::{Pairs, Records};
use verdict::Fault;

// What the proposal comes to, the file that holds the faulty record, and its place there; on acceptance the pair file and its end.
#[derive(Clone, Copy)]
pub struct Judged {
    pub outcome: Result<(), Refusal>,
    pub shown_in: Contents,
    pub place: usize,
}

// Reads the expression file: on acceptance `nodes` gets its records, and `index` their numbers by rising kind and body. Not inlined: so the places
// take no stack while `verdict::first_fault` holds its list. The tables are arrays: the engine takes no memory from the heap.
#[inline(never)]
fn read_records(file: &[u8], nodes: &mut [Node], index: &mut [usize]) -> Reading
    requires { (1024 ≤ length nodes.old) × (1024 ≤ length index.old) }
    ensures { Recorded file.now result nodes.old nodes.new index.old index.new }
{
    let mut at = [0usize; 1024];
    let reading = files::read_expressions(file, &mut at, index);
    if reading.outcome.is_ok() {
        tables::decode(file, &at[..reading.count], nodes);
    }
    reading
}

// The first closing condition that fails, the records in hand, and the pair file read over them without fault and the places of its pairs in hand.
// File and places go apart, as `files::node_of` says. Not inlined, as above: so its tables take no stack while the expression file is read.
#[inline(never)]
fn settle(records: &Records, pairs: &[u8], places: &[usize]) -> Option<Fault>
    requires read { (reading_pairs pairs.now (length records.now.nodes.now)).number ≡ 0 }
    requires at { places.now ≡ (reading_pairs pairs.now (length records.now.nodes.now)).places }
    ensures { outcome_of result (length places.now) ≡ first_fault (expressions records.now.nodes.now) (length records.now.nodes.now)
        (left_at pairs.now places.now) (right_at pairs.now places.now) (length places.now) }
{
    let mut listed = [Pair { left: 0, right: 0 }; 256];
    let listed = &mut listed[..places.len()];
    tables::split(pairs, places, listed);
    let mut index = [0usize; 256];
    let entries = tables::sort(listed, &mut index);
    let pairs = Pairs {
        listed,
        index: &index[..entries],
    };
    verdict::first_fault(records, &pairs)
}

// The verdict: the expression file's fault, then the pair file's, then the first closing condition that fails.
pub fn verdict_of(expressions: &[u8], pairs: &[u8]) -> Judged
    ensures { told result ≡ judged expressions.now pairs.now }
{
    let mut nodes = [Node::Silent; 1024];
    let mut index = [0usize; 1024];
    let reading = read_records(expressions, &mut nodes, &mut index);
    if let Err(refusal) = reading.outcome {
        return Judged {
            outcome: Err(refusal),
            shown_in: Contents::Expressions,
            place: reading.place,
        };
    }
    let mut places = [0usize; 256];
    let listing = files::read_pairs(pairs, reading.count, &mut places);
    if let Err(refusal) = listing.outcome {
        return Judged {
            outcome: Err(refusal),
            shown_in: Contents::Pairs,
            place: listing.place,
        };
    }
    let records = Records {
        nodes: &nodes[..reading.count],
        index: &index[..reading.count],
    };
    let fault = settle(&records, pairs, &places[..listing.count]);
    match fault {
        Some(Fault { refusal, pair }) => Judged {
            outcome: Err(refusal),
            shown_in: Contents::Pairs,
            place: places[pair],
        },
        None => Judged {
            outcome: Ok(()),
            shown_in: Contents::Pairs,
            place: pairs.len(),
        },
    }
}

// Whether a proposal is accepted.
pub fn judge(expressions: &[u8], pairs: &[u8]) -> Result<(), Refusal>
    ensures { number result ≡ (judged expressions.now pairs.now).number }
{
    verdict_of(expressions, pairs).outcome
}

// What is left of `s` from `place` on: nothing where the place is past the end.
fn tail(s: &[u8], place: usize) -> &[u8]
    ensures { result.now ≡ drop place s.now }
{
    &s[place.min(s.len())..]
}

// The faulty record in place: the tail of the file that holds it, from its first byte; on acceptance the empty tail of the pair file.
pub fn shown<'a>(expressions: &'a [u8], pairs: &'a [u8]) -> &'a [u8]
    ensures { result.now ≡ shown_of expressions.now pairs.now }
{
    let judged = verdict_of(expressions, pairs);
    match judged.shown_in {
        Contents::Expressions => tail(expressions, judged.place),
        Contents::Pairs => tail(pairs, judged.place),
    }
}
