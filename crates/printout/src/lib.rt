// The printer's text: `rule ` and the size, then a line for each event; or only `refused ` and the number.
#![tactic(auto)]

pub mod text; // text.rt: words, numbers and lines

ghost use Rattle.std.specs.Prelude.{◌≡◌, List, ◌*◌, ◌<◌, ◌≤◌, length, drop};
ghost use Rattle.par.specs.declared.Answer.{Answer};
ghost use Rattle.engine.specs.Feed.{answer_bytes};
ghost use Rattle.engine.specs.Mirror.Feed.{fed_from};
ghost use Rattle.printout.specs.Text.{text as text_of};
ghost use Rattle.printout.specs.Printed.{PrintedAs};
ghost use Rattle.printout.specs.Mirror.Lines.{lines_of, rule_text_of};

use par::{Notices, Status};
use play::Rule;
use records::Refusal;

// Prints a line for each event, from the answer records that stand at the output's end. A line is longer than a record, so none is overwritten
// before it is read; as lines and records share the output, no iterator over its parts can give both.
fn put_lines(events: &[u8], output: &mut [u8])
    requires { (length output.old ≡ 16 * length events.now) × (length events.now ≤ 8192) }
    ensures { (rs : List Answer) → length rs ≡ length events.now
        → drop (9 * length events.now) output.old ≡ answer_bytes rs
        → output.new ≡ lines_of events.now rs }
{
    let n = events.len();
    for (i, event) in events.iter().enumerate() {
        let from = 9 * n + 7 * i;
        let notices = Notices::from_le_bytes([output[from + 4], output[from + 5]]);
        let status = Status::from(output[from + 6]);
        text::put_line(&mut output[16 * i..], *event, notices, status);
    }
}

// Prints the answers of a rule, with the nodes `fresh` in play at first, where they fit; how long the text is. The records of the answers go where
// the lines end.
fn put_rule(rule: &Rule, fresh: u64, events: &[u8], output: &mut [u8]) -> usize
    requires { length events.now ≤ 8192 }
    ensures { (rs : List Answer) → length rs ≡ length events.now
        → fed_from rule.now.nodes.now rule.now.gain.now rule.now.leaves rule.now.repeats rule.now.root fresh events.now ≡ answer_bytes rs
        → PrintedAs (rule_text_of rule.now.root events.now rs) output.old result output.new }
{
    let size = (rule.root + 1) as u8; // at most 64: no `From` narrows
    let head = 6 + text::decimal_length(size);
    let n = head + 16 * events.len();
    if output.len() < n {
        return n;
    }
    text::put_word(output, 0, b"rule ");
    text::put_decimal(output, 5, size);
    let place = head + 9 * events.len();
    engine::feed::feed(rule, fresh, events, output, place);
    put_lines(events, &mut output[head..n]);
    n
}

// The text for an input: two bytes of length, a rule file of that length, then the events. It is written at the front of `output` where it
// fits; where it does not, no byte changes. Returns the text's length. A refusal is printed where it is found: to hand it on, the rule would have to be
// handed on with it, 700 bytes by value.
pub fn print(input: &[u8], output: &mut [u8]) -> usize
    ensures { PrintedAs (text_of input.now) output.old result output.new }
{
    if 8192 < input.len() {
        return text::put_refusal(output, u8::from(Refusal::InputTooLong));
    }
    if input.len() < 2 {
        return text::put_refusal(output, u8::from(Refusal::CutShort));
    }
    let size = records::part_at(input, 0, 0);
    if input.len() - 2 < size {
        return text::put_refusal(output, u8::from(Refusal::CutShort));
    }
    let start = 2 + size;
    match ready::ready_of(&input[2..start]) {
        Ok(ready) => put_rule(&ready.rule(), ready.fresh, &input[start..], output),
        Err(refusal) => text::put_refusal(output, u8::from(refusal)),
    }
}
