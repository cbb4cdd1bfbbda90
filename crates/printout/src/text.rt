// Words, numbers and lines of the printer's text, written into the output. `write!` to a `&mut [u8]` would promise nothing of the bytes.
ghost use Rattle.std.specs.Prelude.{◌≡◌, ◌+◌, ◌*◌, ◌<◌, ◌≤◌, length};
ghost use Rattle.std.proofs.lemmas.List.Edits.{sets};
ghost use Rattle.printout.specs.Text.{hex_digit, decimal_length, decimal, status_word, line, refused_text};
ghost use Rattle.printout.specs.Printed.{PrintedAs};

use par::{Notices, Status};

// A hexadecimal digit, lower-case.
fn hex_digit(n: u8) -> u8
    requires { n < 16 }
    ensures { result ≡ hex_digit n }
{
    b"0123456789abcdef"[usize::from(n)]
}

// Writes a word from a place on.
pub fn put_word(out: &mut [u8], at: usize, word: &[u8])
    requires { at + length word.now ≤ length out.old }
    ensures { out.new ≡ sets out.old at word.now }
{
    out[at..at + word.len()].copy_from_slice(word);
}

// How many decimal digits a number below 100 has.
pub fn decimal_length(n: u8) -> usize
    ensures { result ≡ decimal_length n }
{
    if n < 10 { 1 } else { 2 }
}

// Writes a number below 100 in decimal, and a line feed.
pub fn put_decimal(out: &mut [u8], at: usize, n: u8)
    requires { (n < 100) × (at + decimal_length n < length out.old) }
    ensures { out.new ≡ sets out.old at (decimal n) }
{
    if n < 10 {
        put_word(out, at, &[b'0' + n, b'\n']);
    } else {
        put_word(out, at, &[b'0' + n / 10, b'0' + n % 10, b'\n']);
    }
}

// The word of a status.
fn status_word(status: Status) -> &'static [u8; 7]
    ensures { result.now ≡ status_word status }
{
    match status {
        Status::Waiting => b"waiting",
        Status::Success => b"success",
        Status::Failure => b"failure",
    }
}

// Writes a line at the front: the event, the notice set, the status, single spaces between.
pub fn put_line(out: &mut [u8], event: u8, notices: Notices, status: Status)
    requires { 16 ≤ length out.old }
    ensures { out.new ≡ sets out.old 0 (line event notices status) }
{
    let [low, high] = notices.to_le_bytes();
    let numbers = [
        hex_digit(event / 16),
        hex_digit(event % 16),
        b' ',
        hex_digit(high / 16),
        hex_digit(high % 16),
        hex_digit(low / 16),
        hex_digit(low % 16),
        b' ',
    ];
    put_word(out, 0, &numbers);
    put_word(out, 8, status_word(status));
    out[15] = b'\n';
}

// Prints a refusal, where it fits; how long it is.
pub fn put_refusal(output: &mut [u8], number: u8) -> usize
    requires { number < 100 }
    ensures { PrintedAs (refused_text number) output.old result output.new }
{
    let n = 9 + decimal_length(number);
    if output.len() < n {
        return n;
    }
    put_word(output, 0, b"refused ");
    put_decimal(output, 8, number);
    n
}
