// A set of nodes is a word; node r is in it where bit r is set. A node's number stays a plain number with its bound as a clause: it is an index into
// arrays of 64 and a bit's place in a word, and a type of its own would be unwrapped at each of them.
ghost use Rattle.std.specs.Prelude.{◌≡◌, ◌<◌};
ghost use Rattle.play.specs.Mirror.Masks.{bit, one as single, less, below as under};

// Node r alone.
#[tactic(auto, unfolding(crate::specs::Mirror::Masks::one))]
pub fn one(r: usize) -> u64
    requires { r < 64 }
    ensures { result ≡ single r }
{
    1u64 << r
}

// The nodes below r.
#[tactic(auto, unfolding(crate::specs::Mirror::Masks::below))]
pub fn below(r: usize) -> u64
    requires { r < 64 }
    ensures { result ≡ under r }
{
    (1u64 << r) - 1
}

// Those of a that are not in b.
#[tactic(auto, using(crate::proofs::Shifts::and_rest))]
pub fn without(a: u64, b: u64) -> u64
    ensures { result ≡ less a b }
{
    a & !b
}

// Whether node r is in a.
#[tactic(auto, unfolding(crate::specs::Mirror::Masks::bit))]
pub fn has(a: u64, r: usize) -> bool
    requires { r < 64 }
    ensures { result ≡ bit a r }
{
    (a >> r) % 2 == 1
}
