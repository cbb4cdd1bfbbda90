// What other languages call, as functions of this library: slices cross as a pointer and a length, statuses as their byte, structs by value.
// The crate `meadwhistle_c` exports each under its name.
#![tactic(auto)]

ghost use Rattle.std.specs.Prelude.{◌≡◌};
ghost use Rattle.records.specs.Refusals.{number};
ghost use Rattle.engine.specs.Feed.{Fed, written};
ghost use Rattle.engine.specs.History.{Call.opening, Back.numbered, ByTheBook};
ghost use Rattle.engine.specs.Cost.{WithinRule};
ghost use Rattle.engine.specs.Mirror.Desk.{empty_desk, opened_of, stepped_of};
ghost use Rattle.alike.specs.Verdict.{judged};
ghost use Rattle.alike.specs.Told.{told};
ghost use Rattle.printout.specs.Text.{text as text_of};
ghost use Rattle.printout.specs.Printed.{PrintedAs};
ghost use Rattle.meadwhistle.specs.Flat.{flat_reply, FlatByTheBook};
ghost use Rattle.meadwhistle.specs.Part.{part_of};

use alike::Judged;
use engine::Desk;
use par::{Answer, Status};
use records::{Contents, Refusal};

// What a whole feed came to, as C reads it: the number, and how many bytes were written.
#[repr(C)]
#[derive(Clone, Copy)]
pub struct Ran {
    pub number: u8,
    pub written: usize,
}

impl From<Result<usize, Refusal>> for Ran {
    fn from(outcome: Result<usize, Refusal>) -> Ran
        ensures { (result.number ≡ number outcome) × (result.written ≡ written outcome) }
    {
        match outcome {
            Ok(written) => Ran { number: 0, written },
            Err(refusal) => Ran {
                number: u8::from(refusal),
                written: 0,
            },
        }
    }
}

// A reply in numbers, as C reads it: the number, the status byte, the notices, the lines.
#[repr(C)]
#[derive(Clone, Copy)]
pub struct FlatReply {
    pub number: u8,
    pub status: u8,
    pub notices: u16,
    pub lines: u64,
}

// Where the part that is shown begins: file 0 is the expressions, 1 the pairs. It runs from `place` to that file's end.
#[repr(C)]
#[derive(Clone, Copy)]
pub struct Part {
    pub file: u8,
    pub place: usize,
}

// What a refused step says beside its number.
const NO_ANSWER: Answer = Answer {
    notices: 0,
    lines: 0,
    status: Status::Waiting,
};

impl From<Result<Answer, Refusal>> for FlatReply {
    fn from(reply: Result<Answer, Refusal>) -> FlatReply
        ensures { result ≡ flat_reply reply }
    {
        let (number, answer) = match reply {
            Ok(answer) => (0, answer),
            Err(refusal) => (u8::from(refusal), NO_ANSWER),
        };
        FlatReply {
            number,
            status: u8::from(answer.status),
            notices: answer.notices,
            lines: answer.lines,
        }
    }
}

impl From<Judged> for Part {
    fn from(judged: Judged) -> Part
        ensures { result ≡ part_of (told judged) }
    {
        // the numbers of the header; they stand for the files here and in the program `worked` alone
        let file = match judged.shown_in {
            Contents::Expressions => 0,
            Contents::Pairs => 1,
        };
        Part {
            file,
            place: judged.place,
        }
    }
}

// Answers a whole feed.
pub fn meadwhistle_run(rule: &[u8], events: &[u8], answers: &mut [u8], place: usize) -> Ran
    ensures { Fed rule.now events.now place answers.old result.number result.written answers.new }
{
    Ran::from(engine::run(rule, events, answers, place))
}

// A desk with no rule open.
pub fn meadwhistle_desk_empty() -> Desk
    ensures { result ≡ empty_desk }
{
    engine::empty()
}

// Opens a rule on a desk, fresh; refused, the desk is as it was.
pub fn meadwhistle_desk_open(d: &mut Desk, rule: &[u8]) -> u8
    ensures { (result ≡ (opened_of d.old rule.now).number)
        × (d.new ≡ (opened_of d.old rule.now).desk)
        × ByTheBook d.old (opening rule.now) (numbered result) d.new }
{
    records::number(engine::open(d, rule))
}

// Moves an open desk on by one event; refused, the desk is as it was. On a desk made empty, whatever openings and steps went before, reply and remainder
// are what the figures give for the rule accepted last after the events since, in at most as many lines as it has nodes.
pub fn meadwhistle_desk_step(d: &mut Desk, event: u8) -> FlatReply
    ensures { (result ≡ flat_reply (stepped_of d.old event).reply)
        × (d.new ≡ (stepped_of d.old event).desk)
        × FlatByTheBook d.old event result d.new
        × WithinRule d.old result.lines }
{
    FlatReply::from(engine::step(d, event))
}

// The number of a proposal: 0 where it is accepted.
pub fn meadwhistle_judge(expressions: &[u8], pairs: &[u8]) -> u8
    ensures { result ≡ (judged expressions.now pairs.now).number }
{
    records::number(alike::judge(expressions, pairs))
}

// The faulty record of the same proposal; where it is accepted, the empty part at the pairs' end.
pub fn meadwhistle_shown(expressions: &[u8], pairs: &[u8]) -> Part
    ensures { result ≡ part_of (judged expressions.now pairs.now) }
{
    Part::from(alike::verdict_of(expressions, pairs))
}

// The printer's text for an input, at the front of `output` where it fits; where it does not, no byte changes. Returns the text's length.
pub fn meadwhistle_print(input: &[u8], output: &mut [u8]) -> usize
    ensures { PrintedAs (text_of input.now) output.old result output.new }
{
    printout::print(input, output)
}
