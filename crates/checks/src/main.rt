// Runs the book check and the rule finder on the books of cases E, F and G of document 01, on a book with a byte
// cut off and on an output of 15 bytes. For each it prints the answer, all of the output, which held 99 before,
// and the bytes of rules 1, 2 and 3.
#![tactic(auto)]

ghost use Rattle.std.specs.Prelude.{◌≡◌, length};

use engine::Refusal;
use std::io;

// Each byte as a number, and the end of the line.
fn print_bytes(rt: &impl Print, bytes: &[u8]) -> io::Result<()> {
    for byte in bytes {
        print!(rt; " {byte}")?;
    }
    println!(rt)
}

fn print_answer(rt: &impl Print, answer: Result<usize, Refusal>) -> io::Result<()> {
    match answer {
        Err(r) => println!(rt; " refused {}", numbers::refusal(r)),
        Ok(n) => println!(rt; " rules {n}"),
    }
}

fn print_rule(rt: &impl Print, book: &[u8], k: usize) -> io::Result<()> {
    print!(rt; "rule {k}:")?;
    print_bytes(rt, engine::rule(book, k))
}

fn show(rt: &impl Print, book: &[u8], out: &mut [u8]) -> io::Result<()> {
    let answer = engine::check(book, out);
    print_answer(rt, answer)?;
    print!(rt; "output:")?;
    print_bytes(rt, out)?;
    print_rule(rt, book, 1)?;
    print_rule(rt, book, 2)?;
    print_rule(rt, book, 3)
}

// The same without the book's last byte.
fn show_cut(rt: &impl Print, book: &[u8], out: &mut [u8]) -> io::Result<()> {
    if book.len() == 0 {
        return Ok(());
    }
    show(rt, &book[0..book.len() - 1], out)
}

// Three rules, of which rule 2 precedes those of a mask.
fn three(mask: u8) -> [u8; 35]
    ensures { 35 ≡ length result }
{
    [
        0, 0, 0, 31, 1, 0, 100, 3, 1, 0, 1, 0, 0, 0, 0, 1, 0, 1, 0, 1, 0, 0, 0, 0, 1, 0, 1, 0, 1,
        0, 0, mask, 0, 1, 0,
    ]
}

// 2 precedes 0.
fn case_e(rt: &impl Print) -> io::Result<()> {
    let book = three(1);
    let mut out = [99u8; 16];
    print!(rt; "E")?;
    show(rt, &book, &mut out)
}

// 2 precedes 1.
fn case_f(rt: &impl Print) -> io::Result<()> {
    let book = three(2);
    let mut out = [99u8; 16];
    print!(rt; "F")?;
    show(rt, &book, &mut out)
}

// 0 precedes 1 and 1 precedes 0.
fn case_g(rt: &impl Print) -> io::Result<()> {
    let book = [
        0u8, 0, 0, 22, 1, 0, 100, 2, 1, 0, 1, 0, 0, 2, 0, 1, 0, 1, 0, 1, 0, 0, 1, 0, 1, 0,
    ];
    let mut out = [99u8; 16];
    print!(rt; "G")?;
    show(rt, &book, &mut out)
}

fn last_byte_cut_off(rt: &impl Print) -> io::Result<()> {
    let book = three(1);
    let mut out = [99u8; 16];
    print!(rt; "E, last byte cut off")?;
    show_cut(rt, &book, &mut out)
}

fn output_of_15(rt: &impl Print) -> io::Result<()> {
    let book = three(1);
    let mut out = [99u8; 15];
    print!(rt; "E, output of 15 bytes")?;
    show(rt, &book, &mut out)
}

fn main(rt: HostRuntime) -> io::Result<()> {
    case_e(&rt)?;
    case_f(&rt)?;
    case_g(&rt)?;
    last_byte_cut_off(&rt)?;
    output_of_15(&rt)
}
