// The lines that the program prints, at the front of bytes that the caller lends. A text is put part by part: each function puts its part
// at a place, and answers the place after it. A number has at most 10 bytes, so the line of a row has at most 70 and the first line 55.
// Not by `write!` to a slice or a `Cursor`: it promises its text only where it answers Ok, and no clause that it does where the text fits.
#![tactic(auto)]

ghost use Rattle.std.specs.Prelude.{◌≡◌, [], ◌∷◌, ◌++◌, map, ◌+◌, ◌*◌, ◌≤◌, length};
ghost use Rattle.meaning.specs.Base.{ascii};
ghost use Rattle.meaning.specs.Values.{signed};
ghost use Rattle.meaning.specs.ByteLayouts as ByteLayouts;
ghost use Rattle.meaning.specs.EntryPoints.{line, decimal, spaced, row_lines};
ghost use Rattle.words.specs.Words.{readable};
ghost use Rattle.image.specs.Images.{WellFormed, row_meant, first_row};
ghost use Rattle.lines.specs.Text.{Puts, PutsRun, PutsAt, RowsStand, row_line};

use itoa::{Buffer, Integer};

// Any answer has fewer bytes: 64 rows, six numbers each.
pub const TEXT: usize = 16384;

fn put_bytes(out: &mut [u8], at: usize, s: &[u8]) -> usize
    requires { at + length s.now ≤ length out.old }
    ensures { PutsAt out.old out.new at (length s.now) s.now result }
{
    let end = at + s.len();
    out[at..end].copy_from_slice(s);
    end
}

// A number.
fn put_number<I: Integer>(out: &mut [u8], at: usize, n: I) -> usize
    requires { at + I.MAX_STR_LEN ≤ length out.old }
    ensures { PutsAt out.old out.new at I.MAX_STR_LEN (I.text n) result }
{
    let mut buffer = Buffer::new();
    put_bytes(out, at, buffer.format(n).as_bytes())
}

// Numbers, a space in front of each.
fn put_numbers<I: Integer>(out: &mut [u8], at: usize, numbers: &[I]) -> usize
    requires { at + length numbers.now * (1 + I.MAX_STR_LEN) ≤ length out.old }
    ensures { PutsAt out.old out.new at (length numbers.now * (1 + I.MAX_STR_LEN))
        (spaced (map I.text numbers.now)) result }
{
    let mut here = at;
    for n in numbers {
        here = put_bytes(out, here, b" ");
        here = put_number(out, here, *n);
    }
    here
}

// The value that a word stands for.
#[tactic(auto, using(crate::proofs::Numbers::as_value))]
fn value(w: u32) -> i32
    ensures { result ≡ signed w }
{
    w.cast_signed()
}

// The line of a row.
fn put_row(out: &mut [u8], at: usize, r: image::Row) -> usize
    requires at_in_bounds { at + 70 ≤ length out.old }
    requires table_bound { r.table ≤ 3 }
    ensures { PutsAt out.old out.new at 70 (row_line (row_meant r)) result }
{
    let handle = put_number(out, at, r.handle);
    let table = put_numbers(out, handle, &[r.table as u32]);
    let values = put_numbers(
        out,
        table,
        &[value(r.v0), value(r.v1), value(r.v2), value(r.v3)],
    );
    put_bytes(out, values, b"\n")
}

// A line for each row of an image.
fn put_rows(out: &mut [u8], at: usize, image: &[u8], rows: usize) -> usize
    requires at_in_bounds { at + 4480 ≤ length out.old }
    requires rows_stand { RowsStand image.now rows }
    ensures { PutsAt out.old out.new at 4480
        (row_lines (readable rows ByteLayouts.row image.now first_row)) result }
{
    let mut here = at;
    let mut from = image::FIRST;
    for _ in 0..rows {
        here = put_row(out, here, image::row_at(image, from));
        from += image::ROW;
    }
    here
}

// The first line of a run.
fn put_head(
    out: &mut [u8],
    outcome: usize,
    reason: usize,
    count: usize,
    next: u32,
    rows: usize,
) -> usize
    requires in_bounds { 55 ≤ length out.old }
    requires outcome_bound { (outcome ≤ 4294967295) × (reason ≤ 4294967295) × (count ≤ 4294967295) × (rows ≤ 4294967295) }
    ensures { PutsAt out.old out.new 0 55
        (line (decimal outcome) (map decimal (reason ∷ count ∷ next ∷ rows ∷ []))) result }
{
    let first = put_number(out, 0, outcome as u32);
    let all = put_numbers(
        out,
        first,
        &[reason as u32, count as u32, next, rows as u32],
    );
    put_bytes(out, all, b"\n")
}

// `refused N`
pub fn put_refused(out: &mut [u8], n: usize) -> usize
    requires in_bounds { 16384 ≤ length out.old }
    requires n_bound { n ≤ 4294967295 }
    ensures { Puts out.old out.new (line (ascii "refused") (decimal n ∷ [])) result }
{
    let word = put_bytes(out, 0, b"refused");
    let number = put_numbers(out, word, &[n as u32]);
    put_bytes(out, number, b"\n")
}

// Outcome, reason, considerations, next handle, row count; then a line for each row of a well-formed image.
pub fn put_run(
    out: &mut [u8],
    outcome: usize,
    reason: usize,
    count: usize,
    image: &[u8],
    next: u32,
    rows: usize,
) -> usize
    requires in_bounds { 16384 ≤ length out.old }
    requires outcome_bound { (outcome ≤ 4294967295) × (reason ≤ 4294967295) × (count ≤ 4294967295) }
    requires well_formed { WellFormed image.now next rows }
    ensures { PutsRun out.old out.new image.now outcome reason count result }
{
    let here = put_head(out, outcome, reason, count, next, rows);
    put_rows(out, here, image, rows)
}
