// Prints the text for standard input. One byte more than 8,192 is read, so that 17 is known; no text is longer than the output.
#![tactic(auto)]

use std::io;
use std::io::{Read, Write};

// The most of standard input that is read.
const INPUT_LIMIT: u64 = 8193;

fn main(rt: HostRuntime) -> io::Result<()> {
    let alloc = rt.alloc();
    let mut input = Vec::new(alloc);
    rt.stdin().take(INPUT_LIMIT).read_to_end(&mut input)?;
    let mut output = vec![in alloc; 0u8; 140000]?;
    let written = printout::print(&input, &mut output);
    rt.stdout().write_all(&output[..written])
}
