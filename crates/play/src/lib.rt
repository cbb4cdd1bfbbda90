// One event on a rule whose nodes are written out, each right behind its last part. What changes is two words: the nodes in play, and the repeats
// under way. Only what completes costs time.
#![tactic(auto)]

pub mod masks; // masks.rt: sets of nodes
pub mod span; // span.rt: the nodes of one node
pub mod kinds; // kinds.rt: what a node does with its parts
pub mod ways; // ways.rt: which way a node takes an event
pub mod ends; // ends.rt: what a node makes of its parts' statuses
pub mod moves; // moves.rt: one event downwards from a node

ghost use Rattle.std.specs.Prelude.{◌≡◌, ◌<◌};
ghost use Rattle.play.specs.Mirror.Step.{comes, rested as resting, moved_by, stepped};

use ends::Words;
use moves::Arrival;
use par::Status;
use span::Span;

// A rule: its nodes, what each gains, which of them are events and which are repeats, and the last of them.
#[derive(Clone, Copy)]
pub struct Rule<'a> {
    pub nodes: &'a [u16; 64],
    pub gain: &'a [u64; 64],
    pub leaves: u64,
    pub repeats: u64,
    pub root: usize,
    ghost root_in_range: { root < 64 },
}

// How far a rule has come: the nodes in play, and the repeats among them that are under way in their bodies. A rule with none in play has completed.
#[derive(Clone, Copy)]
pub struct State {
    pub active: u64,
    pub going: u64,
}

// What one event gives, and the state that it leaves, as two words: the desk holds them so, and the definitions read each by itself.
#[derive(Clone, Copy)]
pub struct Moved {
    pub status: Status,
    pub notices: u64,
    pub lines: u64,
    pub active: u64,
    pub going: u64,
}

// The event nodes in play that have this event.
pub fn met_of(nodes: &[u16; 64], leaves: u64, active: u64, event: u8) -> u64
    ensures { result ≡ comes nodes.now leaves event active 64 }
{
    let mut left = active & leaves;
    let mut met = 0u64;
    // No iterator of the library goes over the bits of a word, and no `From` leads from its count of bits to an index.
    while left != 0 {
        let r = left.trailing_zeros() as usize;
        if nodes[r] / 256 == u16::from(event) {
            met |= masks::one(r);
        }
        left &= left - 1;
    }
    met
}

// No event in play came: nothing completes, and every repeat in play is under way.
#[tactic(auto, unfolding(crate::specs::Mirror::Masks::both))]
fn rested(repeats: u64, active: u64) -> Moved
    ensures { result ≡ resting repeats active }
{
    Moved {
        status: Status::Waiting,
        notices: 0,
        lines: if active == 0 {
            1
        } else {
            u64::from(active.count_ones())
        },
        active,
        going: active & repeats,
    }
}

// The event nodes `met` have the event.
#[tactic(auto, unfolding(crate::specs::Mirror::Step::moved_by, crate::specs::Mirror::Masks::both))]
pub fn went(rule: &Rule, met: u64, active: u64) -> Moved
    ensures { result ≡ moved_by rule.now.nodes.now rule.now.gain.now rule.now.repeats rule.now.root met active }
{
    let mut words = Words {
        active,
        going: active & rule.repeats,
        counted: active,
        notices: 0,
    };
    let whole = Span {
        first: 0,
        last: rule.root,
    };
    let arrival = Arrival {
        nodes: rule.nodes,
        gain: rule.gain,
        met,
    };
    let status = moves::down(&arrival, &mut words, whole);
    Moved {
        status,
        notices: words.notices,
        lines: u64::from(words.counted.count_ones()),
        active: words.active,
        going: words.going & words.active,
    }
}

// One event on a rule.
#[tactic(auto, unfolding(crate::specs::Mirror::Step::stepped, crate::specs::Mirror::Step::stepped_by))]
pub fn step(rule: &Rule, state: State, event: u8) -> Moved
    ensures { result ≡ stepped rule.now.nodes.now rule.now.gain.now rule.now.leaves rule.now.repeats rule.now.root event state.active }
{
    let active = state.active;
    let met = met_of(rule.nodes, rule.leaves, active, event);
    if met == 0 {
        return rested(rule.repeats, active);
    }
    went(rule, met, active)
}
