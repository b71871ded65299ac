// The entry points. Each judges what it is given for itself and ends: none has a `requires`. A refused call
// changes nothing that it was lent.
#![tactic(auto)]

ghost use Rattle.std.specs.Prelude.{◌≡◌, ◌≤◌, length, take};
ghost use Rattle.meaning.specs.Base.{in_front_of};
ghost use Rattle.meaning.specs.EntryPoints.{judge_book};
ghost use Rattle.engine.specs.Answers.{Checks, Gives, Runs, rule_count_in};

use processing::Ended;
use transaction::ReadOff;

// The refusals, in the order in which they are tried.
#[derive(Clone, Copy)]
pub enum Refusal {
    Output,
    Room,
    Image,
    Book,
    Cycle,
    Log,
}

// A book check is lent an output of at least 16 bytes.
pub const CHECK: usize = 16;

// The first n numbers at the front of the output, one byte each.
fn put_numbers(out: &mut [u8], rules: [u8; 16], n: usize)
    requires n_bound { n ≤ 16 }
    requires n_in_bounds { n ≤ length out.old }
    ensures { out.new ≡ in_front_of (take n rules) out.old }
{
    out[..n].copy_from_slice(&rules[..n]);
}

// A run. A refusal and nothing changed; or the outcome and the number of considerations, the image at the
// front of the output, later bytes untouched, and the first 65,536 bytes of working room zero.
pub fn run(
    image: &[u8],
    book: &[u8],
    log: &[u8],
    out: &mut [u8],
    room: &mut [u8],
) -> Result<Ended, Refusal>
    ensures { Runs image.now book.now log.now out.old out.new
        room.old room.new result }
{
    if out.len() < transaction::OUTPUT {
        return Err(Refusal::Output);
    }
    if room.len() < transaction::ROOM {
        return Err(Refusal::Room);
    }
    let head = image::judge(image).ok_or(Refusal::Image)?;
    let frame = book::judge(book).ok_or(Refusal::Book)?;
    let plan = plan::plan_of(book, frame.count);
    if plan.order.is_none() {
        return Err(Refusal::Cycle);
    }
    let operations = transaction_log::judge(log).ok_or(Refusal::Log)?;
    let a = ReadOff {
        image: head,
        book: frame,
        plan,
        operations,
    };
    Ok(transaction::transact(image, book, log, a, out, room))
}

// Refusal 1, 4 or 5 and nothing written; or the rule count, and the rules' numbers in total order at the
// front of the output, inactive rules included, later bytes untouched.
pub fn check(book: &[u8], out: &mut [u8]) -> Result<usize, Refusal>
    ensures { Checks book.now out.old out.new result }
{
    if out.len() < CHECK {
        return Err(Refusal::Output);
    }
    let frame = book::judge(book).ok_or(Refusal::Book)?;
    let plan = plan::plan_of(book, frame.count);
    let rules = plan.order.ok_or(Refusal::Cycle)?;
    put_numbers(out, rules, frame.count);
    Ok(frame.count)
}

// How many rules a book has that gets neither refusal 4 nor 5.
pub fn rule_count(book: &[u8]) -> Option<usize>
    ensures { result ≡ rule_count_in (judge_book book.now) }
{
    let frame = book::judge(book)?;
    let plan = plan::plan_of(book, frame.count);
    let _rules = plan.order?;
    Some(frame.count)
}

// The bytes of rule k as a part of the caller's book: empty if the book has refusal 4 or 5 or there is no
// rule k. A part in every case, as document 01 has it, so no `Option`.
pub fn rule(book: &[u8], k: usize) -> &[u8]
    ensures { Gives book.now k result.now }
{
    match rule_count(book) {
        Some(n) => book::rule_bytes(book, n, k),
        None => &book[..0],
    }
}
