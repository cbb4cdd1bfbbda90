// Which way a node takes an event.
ghost use Rattle.std.specs.Prelude.{◌≡◌, ◌+◌, ◌-◌, ◌≤◌, ◌<◌};
ghost use Rattle.play.specs.Mirror.Masks.{bit, hit};
ghost use Rattle.play.specs.Mirror.Nodes.{kind_number};
ghost use Rattle.play.specs.Mirror.Down.{pair_route, route_of, Placed};

use crate::kinds::Kind;
use crate::masks;
use crate::span::Span;

// How a node with parts takes an event, a case for each way: as silent, by its first part inside itself, by the one part that is left of it, or by those of
// its two parts that hold an event that came.
#[derive(Clone, Copy)]
pub enum Route {
    Silent,
    One,
    First,
    Second,
    Both,
    Left,
    Right,
}

// A node with two parts, in their places.
#[tactic(auto, unfolding(crate::specs::Mirror::Down::pair_route))]
fn pair_of(kind: Kind, active: u64, met: u64, span: Span, x: usize) -> Route
    requires { (span.first ≤ x) × (x + 1 < span.last) }
    ensures placed { Placed span.first x span.last result }
    ensures way { result ≡ pair_route (kind_number kind) (bit active span.last) (hit met span.first x) (hit met (x + 1) (span.last - 1)) }
{
    match (masks::has(active, span.last), kind) {
        (true, Kind::Then) => Route::One,
        (true, _) if !span.first_part(x).meets(met) => Route::Right,
        (true, _) if span.second_part(x).meets(met) => Route::Both,
        (true, _) => Route::Left,
        (false, _) if span.first_part(x).meets(met) => Route::First,
        (false, _) => Route::Second,
    }
}

// A node whose parts do not stand in their places is taken as silent: no rule that was written out holds one.
#[tactic(auto, unfolding(crate::specs::Mirror::Down::route_of))]
fn route_by(kind: Kind, active: u64, met: u64, span: Span, x: usize) -> Route
    ensures placed { Placed span.first x span.last result }
    ensures way { result ≡ route_of (kind_number kind) active met span.first x span.last }
{
    if x < span.first || span.last <= x {
        return Route::Silent;
    }
    match kind {
        Kind::Not | Kind::Repeat | Kind::Notify => Route::One,
        Kind::Either | Kind::Then | Kind::Try if x + 1 < span.last => {
            pair_of(kind, active, met, span, x)
        }
        _ => Route::Silent,
    }
}

// Its kind comes as a number, any whatever: one that is no kind's is silent.
#[tactic(auto, using(crate::proofs::Routes::route_known))]
pub fn route_of(number: u16, active: u64, met: u64, span: Span, x: usize) -> Route
    ensures placed { Placed span.first x span.last result }
    ensures way { result ≡ route_of number active met span.first x span.last }
{
    route_by(Kind::from(number), active, met, span, x)
}
