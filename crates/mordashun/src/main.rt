// Reads image, book and log from standard input, and prints what the run answers. It decides nothing: the
// text is the library's, and so is how input is read to its end.
#![tactic(auto)]

use std::io;
use std::io::Write;

// A byte more than an input may have, so that a longer one shows.
const INPUT: usize = text::INPUT + 1;

fn main(rt: HostRuntime) -> io::Result<()> {
    let mut input = [0u8; INPUT];
    let mut image = [0u8; 1355];
    let mut room = [0u8; 65536];
    let mut out = [0u8; lines::TEXT];
    let n = text::fill(&mut rt.stdin(), &mut input)?;
    let end = text::text(&input[..n], &mut image, &mut room, &mut out);
    rt.stdout().write_all(&out[..end])
}
