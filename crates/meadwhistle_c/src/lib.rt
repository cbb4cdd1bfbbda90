// The exports: each calls the function of its name in the library `meadwhistle`, and has its clauses. C needs both: a static library's functions can be
// called from C alone, and their contracts are proved of a library's.
#![tactic(auto)]

ghost use Rattle.std.specs.Prelude.{◌≡◌};
ghost use Rattle.engine.specs.Feed.{Fed};
ghost use Rattle.engine.specs.History.{Call.opening, Back.numbered, ByTheBook};
ghost use Rattle.engine.specs.Cost.{WithinRule};
ghost use Rattle.engine.specs.Mirror.Desk.{empty_desk, opened_of, stepped_of};
ghost use Rattle.alike.specs.Verdict.{judged};
ghost use Rattle.printout.specs.Text.{text as text_of};
ghost use Rattle.printout.specs.Printed.{PrintedAs};
ghost use Rattle.meadwhistle.specs.Flat.{flat_reply, FlatByTheBook};
ghost use Rattle.meadwhistle.specs.Part.{part_of};

use engine::Desk;
use meadwhistle::{FlatReply, Part, Ran};

#[unsafe(no_mangle)]
pub extern "C" fn meadwhistle_run(
    rule: &[u8],
    events: &[u8],
    answers: &mut [u8],
    place: usize,
) -> Ran
    ensures { Fed rule.now events.now place answers.old result.number result.written answers.new }
{
    meadwhistle::meadwhistle_run(rule, events, answers, place)
}

#[unsafe(no_mangle)]
pub extern "C" fn meadwhistle_desk_empty() -> Desk
    ensures { result ≡ empty_desk }
{
    meadwhistle::meadwhistle_desk_empty()
}

#[unsafe(no_mangle)]
pub extern "C" fn meadwhistle_desk_open(d: &mut Desk, rule: &[u8]) -> u8
    ensures { (result ≡ (opened_of d.old rule.now).number)
        × (d.new ≡ (opened_of d.old rule.now).desk)
        × ByTheBook d.old (opening rule.now) (numbered result) d.new }
{
    meadwhistle::meadwhistle_desk_open(d, rule)
}

#[unsafe(no_mangle)]
pub extern "C" fn meadwhistle_desk_step(d: &mut Desk, event: u8) -> FlatReply
    ensures { (result ≡ flat_reply (stepped_of d.old event).reply)
        × (d.new ≡ (stepped_of d.old event).desk)
        × FlatByTheBook d.old event result d.new
        × WithinRule d.old result.lines }
{
    meadwhistle::meadwhistle_desk_step(d, event)
}

#[unsafe(no_mangle)]
pub extern "C" fn meadwhistle_judge(expressions: &[u8], pairs: &[u8]) -> u8
    ensures { result ≡ (judged expressions.now pairs.now).number }
{
    meadwhistle::meadwhistle_judge(expressions, pairs)
}

#[unsafe(no_mangle)]
pub extern "C" fn meadwhistle_shown(expressions: &[u8], pairs: &[u8]) -> Part
    ensures { result ≡ part_of (judged expressions.now pairs.now) }
{
    meadwhistle::meadwhistle_shown(expressions, pairs)
}

#[unsafe(no_mangle)]
pub extern "C" fn meadwhistle_print(input: &[u8], output: &mut [u8]) -> usize
    ensures { PrintedAs (text_of input.now) output.old result output.new }
{
    meadwhistle::meadwhistle_print(input, output)
}
