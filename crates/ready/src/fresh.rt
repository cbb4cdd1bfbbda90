// A rule before its first event: which of its nodes are in play, and what each gains when its part succeeds. Node numbers are plain, as in
// `play::masks`.
ghost use Rattle.std.specs.Prelude.{◌≡◌, ◌-◌, ◌/◌, ◌<◌};
ghost use Rattle.play.specs.Mirror.Nodes.{kind_number};
ghost use Rattle.ready.specs.Mirror.Fresh.{fresh_from, gain_from, marked as marked_by, earlier as earlier_of, AlikeAfresh, Prepares};

use play::kinds::Kind;
use play::masks;

// The nodes in play before the first event, the event nodes, and the repeats.
#[derive(Clone, Copy)]
pub struct Start {
    pub fresh: u64,
    pub leaves: u64,
    pub repeats: u64,
}

// What an earlier node has afresh.
#[tactic(auto, using(play::proofs::Tests::tests), unfolding(crate::specs::Mirror::Fresh::earlier))]
fn earlier(fresh: &[u64; 64], x: usize, r: usize) -> u64
    requires { r < 64 }
    ensures { result ≡ earlier_of fresh.now x r }
{
    if x < r { fresh[x] } else { 0 }
}

// What the last part of node r has: the node before it.
#[tactic(auto, unfolding(crate::specs::Mirror::Fresh::earlier))]
fn last(fresh: &[u64; 64], r: usize) -> u64
    requires { r < 64 }
    ensures { result ≡ earlier_of fresh.now (r - 1) r }
{
    if r == 0 { 0 } else { earlier(fresh, r - 1, r) }
}

// What the first part of node r has, which is the number n, as the desk of the C interface holds it: its kind, and 256 times that part.
fn first(fresh: &[u64; 64], n: u16, r: usize) -> u64
    requires { r < 64 }
    ensures { result ≡ earlier_of fresh.now (n / 256) r }
{
    earlier(fresh, usize::from(n / 256), r)
}

// The kind that a node with this number of a kind is made ready as. Above 8 it is no construct's: its node has its first part in play, as a not has.
#[tactic(auto, using(crate::proofs::Numbers::alike_known, crate::proofs::Numbers::alike_above))]
fn kind_afresh(number: u16) -> Kind
    ensures { AlikeAfresh number (kind_number result) }
{
    if 8 < number {
        Kind::Not
    } else {
        Kind::from(number)
    }
}

// Either and try have both parts in play, any other the first.
#[tactic(auto, unfolding(crate::specs::Mirror::Fresh::fresh_from, play::specs::Mirror::Masks::with))]
fn fresh_of(kind: Kind, r: usize, first: u64, last: u64) -> u64
    requires { r < 64 }
    ensures { result ≡ fresh_from (kind_number kind) r first last }
{
    match kind {
        Kind::Silent | Kind::Event => masks::one(r),
        Kind::Either | Kind::Try => first | last | masks::one(r),
        Kind::Not | Kind::Then | Kind::Repeat | Kind::Notify => first | masks::one(r),
    }
}

// A notify gains its set, a then and a repeat what their last part has afresh.
#[tactic(auto, unfolding(crate::specs::Mirror::Fresh::gain_from))]
fn gain_of(kind: Kind, set: u64, last: u64) -> u64
    ensures { result ≡ gain_from (kind_number kind) set last }
{
    match kind {
        Kind::Notify => set,
        _ => last,
    }
}

// The event nodes and the repeats, with node r if it is one.
#[tactic(auto, unfolding(crate::specs::Mirror::Fresh::marked, play::specs::Mirror::Masks::with))]
fn marked(kind: Kind, r: usize, leaves: u64, repeats: u64) -> (u64, u64)
    requires { r < 64 }
    ensures leaves { result.0 ≡ marked_by (kind_number kind) 2 r leaves }
    ensures repeats { result.1 ≡ marked_by (kind_number kind) 6 r repeats }
{
    match kind {
        Kind::Event => (leaves | masks::one(r), repeats),
        Kind::Repeat => (leaves, repeats | masks::one(r)),
        _ => (leaves, repeats),
    }
}

// Prepares the nodes up to root. What they gain is, before, the notice set of each notify.
pub fn prepare(nodes: &[u16; 64], gain: &mut [u64; 64], root: usize) -> Start
    requires { root < 64 }
    ensures { Prepares nodes.now gain.old root result gain.new }
{
    let mut fresh = [0u64; 64];
    let mut leaves = 0u64;
    let mut repeats = 0u64;
    // by number: a node is made ready from those before it, and both tables are written at it; over `nodes[..=root]` the proof did not close
    for r in 0..root + 1 {
        let n = nodes[r];
        let kind = kind_afresh(n % 256);
        let y = last(&fresh, r);
        let x = first(&fresh, n, r);
        gain[r] = gain_of(kind, gain[r], y);
        fresh[r] = fresh_of(kind, r, x, y);
        (leaves, repeats) = marked(kind, r, leaves, repeats);
    }
    Start {
        fresh: fresh[root],
        leaves,
        repeats,
    }
}
