// One record's answer to an event, from its parts' answers: notices, status, and where the remainder is to be looked for.
ghost use Rattle.std.specs.Prelude.{◌≡◌, eqb};
ghost use Rattle.alike.specs.Plans.{plan_silent, plan_event, plan_not, plan_next, plan_notify, plan_either, plan_try, rest_either, rest_try};

use par::{Node, Notices, Status};

// One answer: notices, status, and the remainder's record number where the remainder is in the file.
#[derive(Clone, Copy)]
pub struct Part {
    pub notices: Notices,
    pub status: Status,
    pub remains: Option<usize>,
}

// The remainder, three cases: silent, the record of that number, or a record to be looked up.
#[derive(Clone, Copy)]
pub enum Rest {
    Still,
    Old(usize),
    New(Node),
}

// An answer whose remainder is still to be looked for, which a `Part`'s is not; none where a part of the remainder is not in the file, so that it isn't
// either.
#[derive(Clone, Copy)]
pub struct Plan {
    pub notices: Notices,
    pub status: Status,
    pub rest: Option<Rest>,
}

pub fn plan_silent() -> Plan
    ensures { result ≡ plan_silent }
{
    Plan {
        notices: 0,
        status: Status::Waiting,
        rest: Some(Rest::Still),
    }
}

// Record r, which is the event b.
pub fn plan_event(r: usize, b: usize, event: u8) -> Plan
    ensures { result ≡ plan_event r (eqb b event) }
{
    let (status, rest) = if b == usize::from(event) {
        (Status::Success, Rest::Still)
    } else {
        (Status::Waiting, Rest::Old(r))
    };
    Plan {
        notices: 0,
        status,
        rest: Some(rest),
    }
}

#[tactic(auto, unfolding(crate::specs::Plans::plan_not))]
pub fn plan_not(p: Part) -> Plan
    ensures { result ≡ plan_not p }
{
    let rest = match p.status {
        Status::Waiting => p.remains.map(|x| Rest::New(Node::Not(x))),
        Status::Success | Status::Failure => Some(Rest::Still),
    };
    Plan {
        notices: p.notices,
        status: p.status.opposite(),
        rest,
    }
}

// `x then y` and, where y is the record's own number, `repeat x`.
#[tactic(auto, unfolding(crate::specs::Plans::plan_next))]
pub fn plan_next(p: Part, y: usize) -> Plan
    ensures { result ≡ plan_next p y }
{
    let (status, rest) = match p.status {
        Status::Waiting => (
            Status::Waiting,
            p.remains.map(|x| Rest::New(Node::Then(x, y))),
        ),
        Status::Success => (Status::Waiting, Some(Rest::Old(y))),
        Status::Failure => (Status::Failure, Some(Rest::Still)),
    };
    Plan {
        notices: p.notices,
        status,
        rest,
    }
}

#[tactic(auto, unfolding(crate::specs::Plans::plan_notify, par::specs::Expr::join))]
pub fn plan_notify(p: Part, set: Notices) -> Plan
    ensures { result ≡ plan_notify p set }
{
    let (notices, rest) = match p.status {
        Status::Waiting => (
            p.notices,
            p.remains.map(|x| Rest::New(Node::Notify(x, set))),
        ),
        Status::Success => (p.notices | set, Some(Rest::Still)),
        Status::Failure => (p.notices, Some(Rest::Still)),
    };
    Plan {
        notices,
        status: p.status,
        rest,
    }
}

// Figure 4's rows for either; those for try, below, differ.
fn either_rest(p: Part, q: Part) -> Option<Rest>
    ensures { result ≡ rest_either p.status q.status p.remains q.remains }
{
    match (p.status, q.status) {
        (Status::Waiting, Status::Waiting) => Some(Rest::New(Node::Either(p.remains?, q.remains?))),
        (Status::Waiting, Status::Failure) => p.remains.map(Rest::Old),
        (Status::Failure, Status::Waiting) => q.remains.map(Rest::Old),
        _ => Some(Rest::Still),
    }
}

#[tactic(auto, unfolding(crate::specs::Plans::plan_either, par::specs::Expr::join))]
pub fn plan_either(p: Part, q: Part) -> Plan
    ensures { result ≡ plan_either p q }
{
    Plan {
        notices: p.notices | q.notices,
        status: par::either_status(p.status, q.status),
        rest: either_rest(p, q),
    }
}

fn try_rest(p: Part, q: Part) -> Option<Rest>
    ensures { result ≡ rest_try p.status q.status p.remains q.remains }
{
    match (p.status, q.status) {
        (Status::Waiting, Status::Waiting) => Some(Rest::New(Node::Try(p.remains?, q.remains?))),
        (Status::Waiting, Status::Failure) => p.remains.map(Rest::Old),
        _ => Some(Rest::Still),
    }
}

#[tactic(auto, unfolding(crate::specs::Plans::plan_try, par::specs::Expr::join))]
pub fn plan_try(p: Part, q: Part) -> Plan
    ensures { result ≡ plan_try p q }
{
    Plan {
        notices: p.notices | q.notices,
        status: par::try_status(p.status, q.status),
        rest: try_rest(p, q),
    }
}
