// Running a rule: the whole feed at once, or event by event on a desk.
#![tactic(auto)]

pub mod feed; // feed.rt: the whole feed

ghost use Rattle.std.specs.Prelude.{◌≡◌, ◌%◌, eqb, IfOk};
ghost use Rattle.records.specs.Refusals.{number};
ghost use Rattle.files.specs.Rule.{rule_number};
ghost use Rattle.engine.specs.Reply.{said};
ghost use Rattle.engine.specs.History.{Call.opening, Call.stepping, Back.numbered, Back.replied, ByTheBook};
ghost use Rattle.engine.specs.Cost.{WithinRule};
ghost use Rattle.engine.specs.Mirror.Desk.{empty_desk, fresh_desk, opened_of, narrowed, answer_of, stepped_of};

pub use feed::run;
use par::{Answer, Notices};
use play::{Rule, State};
use ready::Ready;
use records::Refusal;

// A place for one rule that takes its events one by one. Made by `empty`, changed by `open` and `step` alone. A mark, 0 for no and any other byte for
// yes; the rule's nodes and what a step needs beside them, which stay from one opening to the next; and the two words that a step moves on: the nodes
// in play, and the repeats under way. A rule with no node in play has completed. The fields are those of the C interface.
#[repr(C)]
#[derive(Clone, Copy)]
pub struct Desk {
    is_open: u8,
    root: usize,
    leaves: u64,
    repeats: u64,
    active: u64,
    going: u64,
    nodes: [u16; 64],
    gain: [u64; 64],
}

// What a step of a whole desk by value gives back.
#[derive(Clone, Copy)]
pub struct Moved {
    pub desk: Desk,
    pub reply: Result<Answer, Refusal>,
}

// What an opening by value gives back.
#[derive(Clone, Copy)]
pub struct Begun {
    pub desk: Desk,
    pub outcome: Result<(), Refusal>,
}

impl Desk {
    // Whether no rule is open: the mark is 0, and no other byte.
    fn is_closed(&self) -> bool
        ensures { result ≡ eqb self.now.is_open 0 }
    {
        self.is_open == 0
    }

    // The rule that it holds. On any bytes the root is the number of a node.
    fn rule(&self) -> Rule<'_>
        ensures nodes { result.nodes.now ≡ self.now.nodes }
        ensures gain { result.gain.now ≡ self.now.gain }
        ensures leaves { result.leaves ≡ self.now.leaves }
        ensures repeats { result.repeats ≡ self.now.repeats }
        ensures root { result.root ≡ self.now.root % 64 }
    {
        Rule {
            nodes: &self.nodes,
            gain: &self.gain,
            leaves: self.leaves,
            repeats: self.repeats,
            root: self.root % 64,
        }
    }
}

// A desk with no rule open.
#[tactic(auto, unfolding(crate::specs::Mirror::Desk::empty_desk))]
pub fn empty() -> Desk
    ensures { result ≡ empty_desk }
{
    Desk {
        is_open: 0,
        root: 0,
        leaves: 0,
        repeats: 0,
        active: 0,
        going: 0,
        nodes: [0; 64],
        gain: [0; 64],
    }
}

// The work of `open` and `opened`: a desk with the rule, fresh. Refused with the file's refusal, then 8, there is none, and the caller's own stays.
#[tactic(auto, unfolding(crate::specs::Mirror::Desk::fresh_desk))]
pub fn fresh(rule: &[u8]) -> Result<Desk, Refusal>
    ensures refused { number result ≡ rule_number rule.now }
    ensures fresh { IfOk result (λ d. d ≡ fresh_desk rule.now) }
{
    let Ready {
        root,
        leaves,
        repeats,
        fresh,
        nodes,
        gain,
    } = ready::ready_of(rule)?;
    Ok(Desk {
        is_open: 1,
        root,
        leaves,
        repeats,
        active: fresh,
        going: 0,
        nodes,
        gain,
    })
}

// An opening by value, for whoever holds the desk itself: the rule, fresh, or the same desk where the file is refused.
pub fn opened(d: Desk, rule: &[u8]) -> Begun
    ensures outcome { number result.outcome ≡ (opened_of d rule.now).number }
    ensures desk { result.desk ≡ (opened_of d rule.now).desk }
{
    match fresh(rule) {
        Ok(desk) => Begun {
            desk,
            outcome: Ok(()),
        },
        Err(refusal) => Begun {
            desk: d,
            outcome: Err(refusal),
        },
    }
}

// A notice set as wide as a record holds it.
pub fn narrow(sent: u64) -> Notices
    ensures { result ≡ narrowed sent }
{
    (sent % 65536) as Notices // cut to its width: no `From` narrows
}

// What a step is answered with. No `From` can be written here: both structs are other crates'.
fn answer_of(moved: play::Moved) -> Answer
    ensures { result ≡ answer_of moved }
{
    Answer {
        notices: narrow(moved.notices),
        lines: moved.lines,
        status: moved.status,
    }
}

// A whole step by value, for whoever holds the desk itself.
pub fn stepped(d: Desk, event: u8) -> Moved
    ensures { result ≡ stepped_of d event }
{
    let mut next = d;
    let reply = step(&mut next, event);
    Moved { desk: next, reply }
}

// Opens a rule on a desk, fresh, also where one is open. Refused with the file's refusal, then 8, the desk is as it was. On a desk made empty and changed
// by openings and steps alone, what then remains is the rule of the file.
pub fn open(d: &mut Desk, rule: &[u8]) -> Result<(), Refusal>
    ensures { (number result ≡ (opened_of d.old rule.now).number)
        × (d.new ≡ (opened_of d.old rule.now).desk)
        × ByTheBook d.old (opening rule.now) (numbered (number result)) d.new }
{
    *d = fresh(rule)?;
    Ok(())
}

// Moves an open desk on by one event. Refused where no rule is open: then the desk is as it was. On a desk made empty, whatever openings and steps went
// before, reply and remainder are what the figures give for the rule accepted last after the events since, in at most as many lines as it has nodes.
pub fn step(d: &mut Desk, event: u8) -> Result<Answer, Refusal>
    ensures { (result ≡ (stepped_of d.old event).reply)
        × (d.new ≡ (stepped_of d.old event).desk)
        × ByTheBook d.old (stepping event) (replied result) d.new
        × WithinRule d.old (said result).lines }
{
    if d.is_closed() {
        return Err(Refusal::NoRuleOpen);
    }
    let state = State {
        active: d.active,
        going: d.going,
    };
    let moved = play::step(&d.rule(), state, event);
    d.active = moved.active;
    d.going = moved.going;
    Ok(answer_of(moved))
}
