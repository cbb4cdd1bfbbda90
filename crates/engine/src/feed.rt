// The whole feed: an answer record for each event. A word for each byte, the event nodes that have it, makes an event that meets nothing a look-up.
ghost use Rattle.std.specs.Prelude.{◌≡◌, ◌+◌, ◌*◌, ◌≤◌, ◌<◌, length, get_or, leb};
ghost use mathlib.Core.List.{replicate};
ghost use Rattle.std.proofs.lemmas.List.Edits.{sets as sets_at};
ghost use Rattle.par.specs.Status.{status_byte};
ghost use Rattle.records.specs.Refusals.{number};
ghost use Rattle.play.specs.Mirror.Masks.{both};
ghost use Rattle.play.specs.Mirror.Step.{stepped_by};
ghost use Rattle.engine.specs.Feed.{answer_record, written, Fed};
ghost use Rattle.engine.specs.Mirror.Feed.{record_of, entered, Table, fed_from, plays_on};

use par::{Notices, Status};
use play::{Rule, masks};
use records::Refusal;

// Enters node r, which is the number n, at its event, if it is an event node. The two numbers are plain, as in `play::masks`.
#[tactic(auto, unfolding(crate::specs::Mirror::Feed::entered, play::specs::Mirror::Masks::with))]
fn enter(table: &mut [u64; 256], n: u16, leaves: u64, r: usize)
    requires { r < 64 }
    ensures { table.new ≡ entered leaves n r table.old }
{
    if masks::has(leaves, r) {
        table[usize::from(n / 256)] |= masks::one(r);
    }
}

// For each byte, the event nodes that have it.
fn fill(rule: &Rule, table: &mut [u64; 256])
    requires { table.old ≡ replicate 256 0 }
    ensures { Table rule.now.nodes.now rule.now.leaves table.new }
{
    for (r, n) in rule.nodes.iter().enumerate() {
        enter(table, *n, rule.leaves, r);
    }
}

// The event nodes in play that have this event.
#[tactic(auto, unfolding(play::specs::Mirror::Masks::both))]
fn met_in(table: &[u64; 256], active: u64, event: u8) -> u64
    ensures { result ≡ both active (get_or table.now event 0) }
{
    active & table[usize::from(event)]
}

// Writes one answer record at the front of `out`: length 7, kind 32, the notice set, the status byte.
fn put_record(out: &mut [u8], notices: Notices, status: Status)
    requires { 7 ≤ length out.old }
    ensures { out.new ≡ sets_at out.old 0 (answer_record notices (status_byte status)) }
{
    // Seven stores: a copy of a fixed array takes five times as long on the stack, 6.2 ns an event and not 1.3.
    let [low, high] = notices.to_le_bytes();
    out[0] = 7;
    out[1] = 0;
    out[2] = 32;
    out[3] = 0;
    out[4] = low;
    out[5] = high;
    out[6] = u8::from(status);
}

// Answers an event at the front of `out`, where `met` are the event nodes in play that have it; the nodes in play afterwards.
#[tactic(auto, unfolding(play::specs::Mirror::Step::stepped_by))]
fn answer(rule: &Rule, met: u64, active: u64, out: &mut [u8]) -> u64
    requires { 7 ≤ length out.old }
    ensures { (result
        ≡ (stepped_by rule.now.nodes.now rule.now.gain.now rule.now.repeats rule.now.root met active).active)
        × (out.new
        ≡ sets_at out.old 0
        (record_of (stepped_by rule.now.nodes.now rule.now.gain.now rule.now.repeats rule.now.root met active))) }
{
    if met == 0 {
        put_record(out, 0, Status::Waiting);
        return active;
    }
    let moved = play::went(rule, met, active);
    put_record(out, crate::narrow(moved.notices), moved.status);
    moved.active
}

// The player: answers events from `place` on, where there is room, by the table of the rule; the nodes in play afterwards.
fn play(
    rule: &Rule,
    table: &[u64; 256],
    active: u64,
    events: &[u8],
    answers: &mut [u8],
    place: usize,
) -> u64
    requires { Table rule.now.nodes.now rule.now.leaves table.now × (place + 7 * length events.now ≤ length answers.old) }
    ensures { (result
        ≡ plays_on rule.now.nodes.now rule.now.gain.now rule.now.leaves rule.now.repeats rule.now.root active events.now)
        × (answers.new
        ≡ sets_at answers.old place
        (fed_from rule.now.nodes.now rule.now.gain.now rule.now.leaves rule.now.repeats rule.now.root active events.now)) }
{
    let mut playing = active;
    let mut at = place; // the answers' part from here on is lent, again for each event, as document 01 names it
    for event in events {
        let met = met_in(table, playing, *event);
        playing = answer(rule, met, playing, &mut answers[at..]);
        at += 7;
    }
    playing
}

// Answers events from `place` on, where there is room, with the nodes `active` in play at first; the nodes in play afterwards.
pub fn feed(rule: &Rule, active: u64, events: &[u8], answers: &mut [u8], place: usize) -> u64
    requires { place + 7 * length events.now ≤ length answers.old }
    ensures { (result
        ≡ plays_on rule.now.nodes.now rule.now.gain.now rule.now.leaves rule.now.repeats rule.now.root active events.now)
        × (answers.new
        ≡ sets_at answers.old place
        (fed_from rule.now.nodes.now rule.now.gain.now rule.now.leaves rule.now.repeats rule.now.root active events.now)) }
{
    let mut table = [0u64; 256];
    fill(rule, &mut table);
    play(rule, &table, active, events, answers, place)
}

// Whether the answers to `n` events have room behind `place` in a buffer of `len` bytes.
fn has_room(len: usize, place: usize, n: usize) -> bool
    ensures { result ≡ leb (place + 7 * n) len }
{
    place <= len && n <= (len - place) / 7
}

// Answers a whole feed: each event yields a record, from `place` on. How many bytes were written; refused, no byte changes.
pub fn run(rule: &[u8], events: &[u8], answers: &mut [u8], place: usize) -> Result<usize, Refusal>
    ensures { Fed rule.now events.now place answers.old (number result) (written result) answers.new }
{
    let ready = ready::ready_of(rule)?;
    if !has_room(answers.len(), place, events.len()) {
        return Err(Refusal::NoRoom);
    }
    feed(&ready.rule(), ready.fresh, events, answers, place);
    Ok(7 * events.len())
}
