// What a node makes of its parts' statuses: its own, and the words afterwards.
ghost use Rattle.std.specs.Prelude.{◌≡◌, ◌+◌, ◌<◌, cond};
ghost use Rattle.play.specs.Mirror.Nodes.{kind_number};
ghost use Rattle.play.specs.Mirror.Down.{made, one_end, both_end};
ghost use Rattle.par.specs.Status.{higher, tried};

use crate::kinds::Kind;
use crate::masks;
use crate::span::Span;
use par::Status;

// What a step changes: the nodes in play, the repeats under way, the nodes whose lines count, and the notices.
#[derive(Clone, Copy)]
pub struct Words {
    pub active: u64,
    pub going: u64,
    pub counted: u64,
    pub notices: u64,
}

// The last node of a span, with one part that steps, whose status is s. Where it succeeds a then goes on with its second part, and a repeat has its body
// anew.
#[tactic(auto, unfolding(crate::specs::Mirror::Down::one_end, crate::specs::Mirror::Down::one_status, crate::specs::Mirror::Down::one_active, crate::specs::Mirror::Down::one_going, crate::specs::Mirror::Down::one_sent, crate::specs::Mirror::Masks::with, par::specs::Expr::join))]
pub fn one_end(words: &mut Words, kind: Kind, gain: u64, span: Span, s: Status) -> Status
    ensures { made result words.new ≡ one_end (kind_number kind) gain span.first span.last (made s words.old) }
{
    match (s, kind) {
        (Status::Waiting, _) => Status::Waiting,
        (Status::Success, Kind::Then) => {
            words.active = masks::without(words.active, masks::one(span.last)) | gain;
            Status::Waiting
        }
        (Status::Success, Kind::Repeat) => {
            words.active |= gain;
            words.going = span.clear(words.going);
            Status::Waiting
        }
        (Status::Success, Kind::Notify) => {
            words.active = span.clear(words.active);
            words.notices |= gain;
            Status::Success
        }
        (Status::Failure, Kind::Not) => {
            words.active = span.clear(words.active);
            Status::Success
        }
        (Status::Success, Kind::Not) | (Status::Failure, _) => {
            words.active = span.clear(words.active);
            Status::Failure
        }
        (Status::Success, _) => {
            words.active = span.clear(words.active);
            Status::Waiting
        }
    }
}

// The status of an either, or else of a try, whose parts' statuses are s and t. Not inlined: the two tables would take 16 bytes of stack on each level,
// as would the kind in place of a bool.
#[inline(never)]
fn both_status(either: bool, s: Status, t: Status) -> Status
    ensures { result ≡ cond either (higher s t) (tried s t) }
{
    if either {
        par::either_status(s, t)
    } else {
        par::try_status(s, t)
    }
}

// An either or a try, the last node of a span, whose first part is x, and whose parts' statuses are s and t. Where it waits and a part has completed it
// leaves itself. A try whose first part completed leaves the second's lines out.
#[tactic(auto, unfolding(crate::specs::Mirror::Down::both_end, crate::specs::Mirror::Down::both_status, crate::specs::Mirror::Down::left_active, crate::specs::Mirror::Down::both_active, crate::specs::Mirror::Down::both_counted, crate::specs::Mirror::Down::try_counted))]
pub fn both_end(words: &mut Words, kind: Kind, span: Span, x: usize, s: Status, t: Status) -> Status
    requires { x + 1 < span.last }
    ensures { made result words.new ≡ both_end (kind_number kind) span.first x span.last s (made t words.old) }
{
    let either = kind == Kind::Either;
    let status = both_status(either, s, t);
    words.active = match (status, s, t) {
        (Status::Waiting, Status::Waiting, Status::Waiting) => words.active,
        (Status::Waiting, _, _) => masks::without(words.active, masks::one(span.last)),
        (Status::Success | Status::Failure, _, _) => span.clear(words.active),
    };
    if !either && s != Status::Waiting {
        words.counted = span.second_part(x).clear(words.counted);
    }
    status
}
