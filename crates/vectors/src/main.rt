// Runs cases M, N and O and the inputs of an independent implementation: for each file that an argument names
// it prints the name and what the program says of the file's bytes. What must be printed stands in `stdout`.
#![tactic(auto)]

use std::io::{Read, Write};
use std::rt::Files;
use std::{env, fs, io};

// A byte more than an input may have, so that a longer one shows.
const INPUT: usize = text::INPUT + 1;

fn print_answer(rt: &impl Print, input: &[u8]) -> io::Result<()> {
    let mut image = [0u8; 1355];
    let mut room = [0u8; 65536];
    let mut out = [0u8; lines::TEXT];
    let end = text::text(input, &mut image, &mut room, &mut out);
    io::writer(rt).write_all(&out[..end])
}

fn print_answer_on(rt: &impl Print, file: &mut impl Read) -> io::Result<()> {
    let mut input = [0u8; INPUT];
    let n = text::fill(file, &mut input)?;
    print_answer(rt, &input[..n])
}

// A file that cannot be opened is named on standard error, and the others still run.
fn run_file(rt: &(impl Files + Print + Eprint), path: &str) -> io::Result<()> {
    match fs::open(rt, path) {
        Ok(mut file) => {
            println!(rt; "{path}")?;
            print_answer_on(rt, &mut file)
        }
        Err(e) => eprintln!(rt; "{path}: {e}"),
    }
}

fn main(rt: HostRuntime) -> io::Result<()> {
    for path in env::args(&rt)?.skip(1) {
        run_file(&rt, path.as_str())?;
    }
    Ok(())
}
