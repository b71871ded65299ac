// The program's text, from the bytes of its standard input: everything that the program decides; and how those bytes are read.
#![tactic(auto)]

ghost use Rattle.std.specs.Prelude.{◌≡◌, ◌+◌, ◌≤◌, ◌<◌, length, take, Ok, IfOk};
ghost use Rattle.std.specs.Io.{ReadsAtMost};
ghost use Rattle.std.specs.Io.KnownBytes.{Consumes, IsAtEnd};
ghost use Rattle.meaning.specs.EntryPoints.{first_part};
ghost use Rattle.text.specs.Tells.{Telling, PutsLines};
ghost use Rattle.text.specs.Texts.{Texts};

use engine::Refusal;
use processing::Ended;
use std::io;
use std::io::Read;

// An input has at most 16,384 bytes.
pub const INPUT: usize = 16384;

// Reads until the bytes that are lent are full or the input ends, and answers how many it read. Of the library, `read_exact` refuses an
// input that ends before, `read_to_end` needs a heap, and `io::copy` does not say that what it copied fits.
pub fn fill<R: Read>(from: &mut R, to: &mut [u8]) -> io::Result<usize>
    ensures bound { ReadsAtMost result to.new }
    ensures bytes { IfOk result (λ n. Consumes (R.remaining from.old) (R.remaining from.new) (take n to.new)) }
    ensures end { IfOk result (λ n. n < length to.new → IsAtEnd (R.remaining from.new)) }
{
    let mut done = 0;
    while done < to.len() {
        let n = from.read(&mut to[done..])?;
        if n == 0 {
            return Ok(done);
        }
        done += n;
    }
    Ok(done)
}

// Where the part at the front ends: after as many bytes as its length counts, or with all that is left.
fn part_end(s: &[u8]) -> usize
    ensures value { result ≡ first_part s.now }
    ensures upper_bound { result ≤ length s.now }
{
    if s.len() < 4 {
        return s.len();
    }
    let told = words::word32(s, 0) as usize;
    if s.len() - 4 < told {
        return s.len();
    }
    4 + told
}

// The lines of a well-formed image that a run wrote, and of the outcome and count that it answered. What is required rules out an image that
// cannot be read, and 0 stands where the type wants an answer.
fn put_ran(out: &mut [u8], ended: Ended, image: &[u8]) -> usize
    requires in_bounds { 16384 ≤ length out.old }
    requires telling { Telling image.now (Ok ended) }
    ensures { PutsLines out.old out.new image.now (Ok ended) result }
{
    let n = part_end(image);
    let s = &image[0..n];
    match image::judge(s) {
        Some(head) => lines::put_run(
            out,
            numbers::outcome(ended.outcome),
            numbers::reason(ended.outcome),
            ended.count,
            s,
            head.next,
            head.count,
        ),
        None => 0,
    }
}

// The lines of an answer, with the image that a run wrote.
fn put_answer(out: &mut [u8], answer: Result<Ended, Refusal>, image: &[u8]) -> usize
    requires in_bounds { 16384 ≤ length out.old }
    requires telling { Telling image.now answer }
    ensures { PutsLines out.old out.new image.now answer result }
{
    match answer {
        Err(r) => lines::put_refused(out, numbers::refusal(r)),
        Ok(ended) => put_ran(out, ended, image),
    }
}

// What is printed for an input, at the front of the output, and how long it is. A run's output and its working
// room are lent: they are what the run leaves, or as they were where the input is too long.
pub fn text(input: &[u8], image: &mut [u8], room: &mut [u8], out: &mut [u8]) -> usize
    requires in_bounds { 1355 ≤ length image.old }
    requires in_bounds_2 { 65536 ≤ length room.old }
    requires in_bounds_3 { 16384 ≤ length out.old }
    ensures { Texts input.now image.old image.new room.old room.new
        out.old out.new result }
{
    if INPUT < input.len() {
        return lines::put_refused(out, numbers::INPUT_TOO_LONG);
    }
    let a = part_end(input);
    let more = &input[a..];
    let b = part_end(more);
    let answer = engine::run(&input[0..a], &more[0..b], &more[b..], image, room);
    put_answer(out, answer, image)
}
