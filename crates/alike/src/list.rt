// The list for one event: an answer for each record of the file, filled once from the first record on, each entry from entries before it.
ghost use Rattle.std.specs.Prelude.{◌≡◌, ◌≤◌, ◌<◌, length};
ghost use Rattle.par.specs.Records.{Parts};
ghost use Rattle.alike.specs.Tables.{expressions};
ghost use Rattle.alike.specs.Plans.{plan_of};
ghost use Rattle.alike.specs.List.{part_of, RestAt, Filled};

use crate::entry::Entry;
use crate::plans::{self, Part, Plan, Rest};
use crate::tables::Records;
use par::Node;

// What record r answers, from entries before it.
fn plan_at(node: Node, r: usize, event: u8, parts: &[Entry]) -> Plan
    requires { Parts (λ p. p < length parts.now) node }
    ensures { result ≡ plan_of (part_of parts.now) event r node }
{
    match node {
        Node::Silent => plans::plan_silent(),
        Node::Event(b) => plans::plan_event(r, usize::from(b), event),
        Node::Not(x) => plans::plan_not(Part::from(parts[x])),
        Node::Either(x, y) => plans::plan_either(Part::from(parts[x]), Part::from(parts[y])),
        Node::Then(x, y) => plans::plan_next(Part::from(parts[x]), y),
        Node::Repeat(x) => plans::plan_next(Part::from(parts[x]), r),
        Node::Notify(x, set) => plans::plan_notify(Part::from(parts[x]), set),
        Node::Try(x, y) => plans::plan_try(Part::from(parts[x]), Part::from(parts[y])),
    }
}

// Where the remainder of record r stands; `still` is the number of the record silent. Most records remain themselves, and need no look-up.
#[tactic(auto, using(crate::proofs::Looking::looked_itself))]
fn place_rest(
    records: &Records,
    still: Option<usize>,
    r: usize,
    rest: Option<Rest>,
) -> Option<usize>
    requires { r < length records.now.nodes.now }
    ensures { RestAt records.now.nodes.now still rest result }
{
    match rest? {
        Rest::Still => still,
        Rest::Old(p) => Some(p),
        Rest::New(node) if node == records.nodes[r] => Some(r),
        Rest::New(node) => records.find(node),
    }
}

// Fills the list for one event: entry r is what the figures give for record r.
pub fn fill(records: &Records, event: u8, parts: &mut [Entry])
    requires { length records.now.nodes.now ≤ length parts.old }
    ensures { Filled (expressions records.now.nodes.now) (length records.now.nodes.now) event parts.new (length records.now.nodes.now) }
{
    let still = records.find(Node::Silent);
    for (r, node) in records.nodes.iter().enumerate() {
        let plan = plan_at(*node, r, event, parts);
        parts[r] = Entry::from(Part {
            notices: plan.notices,
            status: plan.status,
            remains: place_rest(records, still, r, plan.rest),
        });
    }
}
