// The entry points for C and Rust: those of `engine`, each answer told as one word. A slice is passed as a
// pointer and a length. include/mordashun.h declares these functions, and says what a caller owes.
//
// Bits of the word, with document 01's numbers:
//
//   0..7    refusal: 0 none, 1 output too short, 2 working room too short, 3 image malformed,
//           4 book malformed, 5 precedes has a cycle, 6 log malformed
//   8..15   outcome: 0 commit, 1 rolled back by a rule, 2 step limit, 3 failed operation
//   16..23  reason: 0 unless the outcome is 3; 1 no such row, 2 full, 3 handles used up, 4 sum out of range
//   24..31  always 0
//   32..63  of a run the number of considerations, 0..1,000; of a book check the rule count, 0..16
//
// Where the refusal is not 0, all other bits are.
//
// The place of a rule in the caller's book is one word too, 0 if there is none:
//
//   0..31   how many bytes
//   32..63  where the first stands
#![tactic(auto)]

ghost use Rattle.std.specs.Prelude.{◌≡◌, ◌+◌, ◌*◌, ◌≤◌, ◌<◌, length};
ghost use Rattle.meaning.specs.Covers.{most_steps, most_rules};
ghost use Rattle.meaning.specs.EntryPoints as EntryPoints;
ghost use Rattle.meaning.specs.EntryPoints.{refusal_number, rule_count};
ghost use Rattle.processing.specs.Endings.{outcome_meant};
ghost use Rattle.engine.specs.Answers.{refusal_meant};
ghost use Rattle.mordashun_c.specs.Answered.{answer_word, check_word, RunAnswered, CheckAnswered};
ghost use Rattle.mordashun_c.specs.Places.{RuleAnswered, word_among};

use engine::Refusal;
use processing::Outcome;

// What one of an outcome, of a reason and of a count is worth in the word.
const OUTCOME: u64 = 256;

const REASON: u64 = 65536;

const COUNT: u64 = 4294967296;

// What one of a start is worth in the word of a place.
const START: u64 = 4294967296;

// C is told one word, so no rule is 0 and no `Option`.
const NOWHERE: u64 = 0;

// The word of a refusal: its number, and every other bit 0.
fn refused(r: Refusal) -> u64
    ensures { result ≡ refusal_number (refusal_meant r) }
{
    numbers::refusal(r) as u64
}

// The word of a run that was not refused.
fn ran(outcome: Outcome, count: usize) -> u64
    requires { count ≤ most_steps }
    ensures { result ≡ answer_word (EntryPoints.ran (outcome_meant outcome) count) }
{
    let number = numbers::outcome(outcome) as u64;
    let reason = numbers::reason(outcome) as u64;
    number * OUTCOME + reason * REASON + count as u64 * COUNT
}

// The word of a book check that was not refused.
fn rules(count: usize) -> u64
    requires { count ≤ most_rules }
    ensures { result ≡ check_word (rule_count count) }
{
    count as u64 * COUNT
}

// A run: the word of its answer. The output and the working room are left as the specification says; a
// refused run leaves both as they were.
#[unsafe(no_mangle)]
pub extern "C" fn mordashun_run(
    image: &[u8],
    book: &[u8],
    log: &[u8],
    out: &mut [u8],
    room: &mut [u8],
) -> u64
    ensures { RunAnswered image.now book.now log.now out.old out.new
        room.old room.new result }
{
    match engine::run(image, book, log, out, room) {
        Err(r) => refused(r),
        Ok(ended) => ran(ended.outcome, ended.count),
    }
}

// A book check: the word of its answer, and the rules' numbers in total order at the front of the output.
#[unsafe(no_mangle)]
pub extern "C" fn mordashun_check(book: &[u8], out: &mut [u8]) -> u64
    ensures { CheckAnswered book.now out.old out.new result }
{
    match engine::check(book, out) {
        Err(r) => refused(r),
        Ok(count) => rules(count),
    }
}

// The word of a place: start and size fit their bits.
fn place(start: usize, size: usize) -> u64
    requires start_bound { start < 4294967296 }
    requires size_bound { size < 4294967296 }
    ensures { result ≡ start * 4294967296 + size }
{
    start as u64 * START + size as u64
}

// The place of rule k of a well-formed book of n rules. No such book has more than 5,480 bytes, so start and size
// fit their bits.
fn place_in(book: &[u8], n: usize, k: usize) -> u64
    requires n_bound { n ≤ 16 }
    requires book_len_bound { length book.now ≤ 5480 }
    ensures { result ≡ word_among book.now n k }
{
    match book::rule_span(book, n, k) {
        Some((start, end)) => place(start, end - start),
        None => NOWHERE,
    }
}

// The bytes of rule k as a part of the caller's book: the word of their place, 0 if the book has refusal 4 or 5
// or there is no rule k.
#[unsafe(no_mangle)]
pub extern "C" fn mordashun_rule(book: &[u8], k: usize) -> u64
    ensures { RuleAnswered book.now k result }
{
    match engine::rule_count(book) {
        Some(n) => place_in(book, n, k),
        None => NOWHERE,
    }
}
