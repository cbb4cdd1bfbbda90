// Answers stored cases. A case is a byte of kind and what belongs to it: 1, or any other byte, a rule, its events, the room of a buffer and a place
// in it, for a run; 2 calls on a desk that begins empty; 3 an expression file and a pair file, a proposal.
// A number is four bytes, little-endian; a string is its length and then its bytes.
#![tactic(auto)]

ghost use Rattle.std.specs.Prelude.{◌≡◌, ◌-◌, ◌≤◌, ◌<◌, length, IfSome};
ghost use Rattle.std.specs.Iterator.{at_most};
ghost use Rattle.records.specs.Refusals.{number};
ghost use Rattle.engine.specs.Feed.{written};
ghost use Rattle.engine.specs.Reply.{said};

use par::{Answer, Status};
use records::{Contents, Refusal};
use std::io::{BufWriter, Read, Write};
use std::{fmt, io};

// The most of standard input that is read.
const INPUT_LIMIT: u64 = 524288;

// The number stored at the input's front, and what comes behind it; none where the input is shorter.
fn first_number(input: &[u8]) -> Option<(usize, &[u8])>
    ensures { IfSome result (λ read. length read.1.now < length input.now) }
{
    let (number, rest) = input.split_first_chunk::<4>()?;
    let number = u32::from_le_bytes(*number) as usize; // no `From` leads from 32 bits to an index
    Some((number, rest))
}

// The string stored at the input's front, and what comes behind it; cut short where the input ends.
fn first_string(input: &[u8]) -> (&[u8], &[u8])
    ensures { length result.1.now ≤ length input.now - 1 }
{
    match first_number(input) {
        Some((size, rest)) => rest.split_at(size.min(rest.len())),
        None => (&[], &[]),
    }
}

enum Case<'a> {
    Run {
        rule: &'a [u8],
        events: &'a [u8],
        room: usize,
        place: usize,
    },
    Desk {
        calls: &'a [u8],
    },
    Proposal {
        expressions: &'a [u8],
        pairs: &'a [u8],
    },
}

// The cases stored in a file; a run that is cut short is none.
#[derive(Drop)]
struct Cases<'a>(&'a [u8]);

impl<'a> Iterator for Cases<'a> {
    type Item = Case<'a>;

    ghost remaining = { λ s. at_most (length s.0.now) };

    fn next(&mut self) -> Option<Case<'a>> {
        let (kind, rest) = self.0.split_first()?;
        let (case, rest) = match *kind {
            2 => {
                let (calls, rest) = first_string(rest);
                (Case::Desk { calls }, rest)
            }
            3 => {
                let (expressions, rest) = first_string(rest);
                let (pairs, rest) = first_string(rest);
                (Case::Proposal { expressions, pairs }, rest)
            }
            _ => {
                let (rule, rest) = first_string(rest);
                let (events, rest) = first_string(rest);
                let (room, rest) = first_number(rest)?;
                let (place, rest) = first_number(rest)?;
                let run = Case::Run {
                    rule,
                    events,
                    room,
                    place,
                };
                (run, rest)
            }
        };
        self.0 = rest;
        Some(case)
    }
}

enum Call<'a> {
    Open(&'a [u8]),
    Step(u8),
}

// The calls stored in a desk's case: 0 and a rule file opens it, any other byte and an event moves it on. An event that is cut off is 0.
#[derive(Drop)]
struct Calls<'a>(&'a [u8]);

impl<'a> Iterator for Calls<'a> {
    type Item = Call<'a>;

    ghost remaining = { λ s. at_most (length s.0.now) };

    fn next(&mut self) -> Option<Call<'a>> {
        let (call, rest) = match self.0 {
            [] => return None,
            [0, rest @ ..] => {
                let (rule, rest) = first_string(rest);
                (Call::Open(rule), rest)
            }
            [_, event, rest @ ..] => (Call::Step(*event), rest),
            [_, rest @ ..] => (Call::Step(0), rest),
        };
        self.0 = rest;
        Some(call)
    }
}

// Bytes in hexadecimal.
#[derive(Drop)]
struct Hex<'a>(&'a [u8]);

impl fmt::Display for Hex<'_> {
    fn fmt<W: fmt::Write>(&self, f: &mut fmt::Formatter<W>) -> fmt::Result {
        for byte in self.0 {
            write!(f, "{byte:02x}")?;
        }
        Ok(())
    }
}

// What a run says: its number, and how many bytes it wrote, none where it is refused.
fn ran(outcome: Result<usize, Refusal>) -> (u8, usize)
    ensures number { result.0 ≡ number outcome }
    ensures written { result.1 ≡ written outcome }
{
    match outcome {
        Ok(written) => (0, written),
        Err(refusal) => (u8::from(refusal), 0),
    }
}

// Runs a feed into the front of a buffer, as far as the room goes, and prints all of that. Every byte there is the same before the run, so that what
// it changes is seen.
fn print_run(
    out: &mut impl Write,
    rule: &[u8],
    events: &[u8],
    room: usize,
    place: usize,
) -> io::Result<()> {
    let mut buffer = [165u8; 4096];
    if buffer.len() < room {
        return Ok(());
    }
    let part = &mut buffer[..room];
    let (number, written) = ran(engine::run(rule, events, part, place));
    writeln!(out, "run {number} {written} {}", Hex(part))
}

// What a step says: its number and the answer; where it is refused, none, waiting and 0.
fn said(reply: Result<Answer, Refusal>) -> (u8, Answer)
    ensures number { result.0 ≡ number reply }
    ensures answer { result.1 ≡ said reply }
{
    match reply {
        Ok(answer) => (0, answer),
        Err(refusal) => (
            u8::from(refusal),
            Answer {
                notices: 0,
                lines: 0,
                status: Status::Waiting,
            },
        ),
    }
}

// Prints a step's number, notices, status byte and lines.
fn print_reply(out: &mut impl Write, reply: Result<Answer, Refusal>) -> io::Result<()> {
    let (number, answer) = said(reply);
    writeln!(
        out,
        "step {number} {} {} {}",
        answer.notices,
        u8::from(answer.status),
        answer.lines
    )
}

fn print_desk(out: &mut impl Write, calls: &[u8]) -> io::Result<()> {
    let mut desk = engine::empty();
    for call in Calls(calls) {
        match call {
            Call::Open(rule) => {
                let number = records::number(engine::open(&mut desk, rule));
                writeln!(out, "open {number}")?;
            }
            Call::Step(event) => print_reply(out, engine::step(&mut desk, event))?,
        }
    }
    Ok(())
}

// The verdict, and where the shown part begins: 0 in the expressions, 1 in the pairs, and the place there.
fn print_verdict(out: &mut impl Write, expressions: &[u8], pairs: &[u8]) -> io::Result<()> {
    let verdict = alike::verdict_of(expressions, pairs);
    // as the C interface has it, which this program does not use
    let file = match verdict.shown_in {
        Contents::Expressions => 0,
        Contents::Pairs => 1,
    };
    writeln!(
        out,
        "judge {} {file} {}",
        records::number(verdict.outcome),
        verdict.place
    )
}

fn print_all(out: &mut impl Write, input: &[u8]) -> io::Result<()> {
    for case in Cases(input) {
        match case {
            Case::Run {
                rule,
                events,
                room,
                place,
            } => print_run(out, rule, events, room, place)?,
            Case::Desk { calls } => print_desk(out, calls)?,
            Case::Proposal { expressions, pairs } => print_verdict(out, expressions, pairs)?,
        }
    }
    Ok(())
}

fn main(rt: HostRuntime) -> io::Result<()> {
    let alloc = rt.alloc();
    let mut input = Vec::new(alloc);
    rt.stdin().take(INPUT_LIMIT).read_to_end(&mut input)?;
    let mut out = BufWriter::new(alloc, io::writer(&rt))?;
    print_all(&mut out, &input)?;
    out.flush()
}
