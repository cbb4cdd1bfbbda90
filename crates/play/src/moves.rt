// One event on the nodes of a rule, downwards from its root.
ghost use Rattle.std.specs.Prelude.{◌≡◌, ◌<◌, ℕ};
ghost use Rattle.play.specs.Mirror.Down.{made, down};

use crate::ends::{self, Words};
use crate::kinds::Kind;
use crate::span::Span;
use crate::ways::Route;
use crate::{masks, ways};
use par::Status;

// An event that comes to a rule: the rule's nodes, what each gains, and the event nodes in play that have the event. It goes down by reference: so a
// level takes 80 bytes of stack, and 96 where the rule and those nodes are arguments of their own.
#[derive(Clone, Copy)]
pub struct Arrival<'a> {
    pub nodes: &'a [u16; 64],
    pub gain: &'a [u64; 64],
    pub met: u64,
}

// One event on the last node of the span: its status. Some of the event nodes met stand in the span. Where that node is the span's only one, it is one
// of them.
pub fn down(arrival: &Arrival, words: &mut Words, span: Span) -> Status
    ensures { (f : ℕ) → span.last < f → made result words.new ≡ down arrival.now.nodes.now arrival.now.gain.now arrival.now.met f span.first span.last words.old }
{
    let r = span.last;
    if span.first == r {
        words.active = masks::without(words.active, masks::one(r));
        return Status::Success;
    }
    let n = arrival.nodes[r]; // as the desk of the C interface holds it
    let kind = Kind::from(n % 256);
    let x = usize::from(n / 256);
    match ways::route_of(n % 256, words.active, arrival.met, span, x) {
        Route::Silent => Status::Waiting,
        Route::First => down(arrival, words, span.first_part(x)),
        Route::Second => down(arrival, words, span.second_part(x)),
        Route::One => {
            let s = down(arrival, words, span.first_part(x));
            ends::one_end(words, kind, arrival.gain[r], span, s)
        }
        Route::Both => {
            let s = down(arrival, words, span.first_part(x));
            let t = down(arrival, words, span.second_part(x));
            ends::both_end(words, kind, span, x, s, t)
        }
        Route::Left => {
            let s = down(arrival, words, span.first_part(x));
            ends::both_end(words, kind, span, x, s, Status::Waiting)
        }
        Route::Right => {
            let t = down(arrival, words, span.second_part(x));
            ends::both_end(words, kind, span, x, Status::Waiting, t)
        }
    }
}
