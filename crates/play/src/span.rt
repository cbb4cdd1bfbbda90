// The nodes of one node: they stand side by side, from the first of its parts to itself.
ghost use Rattle.std.specs.Prelude.{◌≡◌, ◌+◌, ◌-◌, ◌≤◌, ◌<◌};
ghost use Rattle.play.specs.Mirror.Masks.{span as spanned, clear as cleared, hit};

use crate::masks;

// The nodes first .. last.
#[derive(Clone, Copy)]
pub struct Span {
    pub first: usize,
    pub last: usize,
    ghost ordered: { first ≤ last },
    ghost in_range: { last < 64 },
}

impl Span {
    // As a set.
    #[tactic(auto, using(crate::proofs::Shifts::top_fits), unfolding(crate::specs::Mirror::Masks::span))]
    pub fn nodes(self) -> u64
        ensures { result ≡ spanned self.first self.last }
    {
        let top = masks::below(self.last) + masks::one(self.last);
        masks::without(top, masks::below(self.first))
    }

    // Those of a outside it.
    #[tactic(auto, unfolding(crate::specs::Mirror::Masks::clear))]
    pub fn clear(self, a: u64) -> u64
        ensures { result ≡ cleared a self.first self.last }
    {
        masks::without(a, self.nodes())
    }

    // Whether any of t stands in it.
    #[tactic(auto, unfolding(crate::specs::Mirror::Masks::hit, crate::specs::Mirror::Masks::both))]
    pub fn meets(self, t: u64) -> bool
        ensures { result ≡ hit t self.first self.last }
    {
        t & self.nodes() != 0
    }

    // The first part of its last node, where that part's own last node is x.
    pub fn first_part(self, x: usize) -> Span
        requires { (self.first ≤ x) × (x < self.last) }
        ensures first { result.first ≡ self.first }
        ensures last { result.last ≡ x }
    {
        Span {
            first: self.first,
            last: x,
        }
    }

    // The second part, right after the first.
    pub fn second_part(self, x: usize) -> Span
        requires { x + 1 < self.last }
        ensures first { result.first ≡ x + 1 }
        ensures last { result.last ≡ self.last - 1 }
    {
        Span {
            first: x + 1,
            last: self.last - 1,
        }
    }
}
