// Reads stored files and prints what each reading found: for each case an expression file, then a pair file over its records.
// A stored file is four bytes of length, little-endian, and then its bytes.
#![tactic(auto)]

ghost use Rattle.std.specs.Prelude.{◌≡◌, ◌-◌, ◌≤◌, length};
ghost use Rattle.std.specs.Result.{result_unwrap_or};
ghost use Rattle.records.specs.Refusals.{number};

use records::Refusal;
use std::io;
use std::io::{BufWriter, Read, Write};

// The most of standard input that is read.
const INPUT_LIMIT: u64 = 524288;

// The file stored at the input's front, and what comes behind it; cut short where the input ends. The program `worked` reads its strings so too, and
// its `main` is as this one; a crate for both would be longer than the two.
fn first_file(input: &[u8]) -> (&[u8], &[u8])
    ensures { length result.1.now ≤ length input.now - 1 }
{
    let Some((size, rest)) = input.split_first_chunk::<4>() else {
        return (&[], &[]);
    };
    let size = u32::from_le_bytes(*size) as usize; // no `From` leads from 32 bits to an index
    rest.split_at(size.min(rest.len()))
}

// What a rule's reading says beside its place and count: its number, and the rule's size, 0 where it is refused.
fn told(size: Result<u8, Refusal>) -> (u8, u8)
    ensures number { result.0 ≡ number size }
    ensures size { result.1 ≡ result_unwrap_or size 0 }
{
    match size {
        Ok(size) => (0, size),
        Err(refusal) => (u8::from(refusal), 0),
    }
}

// Prints one case's readings: number, place, count, and of a rule its size.
fn print_case(out: &mut impl Write, expressions: &[u8], pairs: &[u8]) -> io::Result<()> {
    let rule = files::rule_of(expressions);
    let (number, size) = told(rule.size);
    writeln!(out, "rule {number} {} {} {size}", rule.place, rule.count)?;
    if rule.size.is_ok() {
        let reading = files::pairs_of(pairs, rule.count);
        writeln!(
            out,
            "pairs {} {} {}",
            records::number(reading.outcome),
            reading.place,
            reading.count
        )?;
    }
    Ok(())
}

fn print_all(out: &mut impl Write, input: &[u8]) -> io::Result<()> {
    let mut rest = input; // an iterator over two files at a time would be longer than the loop
    while !rest.is_empty() {
        let (expressions, behind) = first_file(rest);
        let (pairs, behind) = first_file(behind);
        print_case(out, expressions, pairs)?;
        rest = behind;
    }
    Ok(())
}

fn main(rt: HostRuntime) -> io::Result<()> {
    let alloc = rt.alloc();
    let mut input = Vec::new(alloc);
    rt.stdin().take(INPUT_LIMIT).read_to_end(&mut input)?;
    let mut out = BufWriter::new(alloc, io::writer(&rt))?;
    print_all(&mut out, &input)?;
    out.flush()
}
