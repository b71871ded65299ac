// What is worked out for rows before one changes: the values of expressions over the chosen rows, and
// values that stand in the log or the book.
#![tactic(auto)]

ghost use Rattle.std.specs.Prelude.{◌≡◌, ◌≤◌, ◌<◌, get_or, None};
ghost use Rattle.std.specs.Int.Count.{ones};
ghost use Rattle.meaning.specs.Reading.{many};
ghost use Rattle.meaning.specs.Values.{signed};
ghost use Rattle.meaning.specs.ByteLayouts.{value, expression};
ghost use Rattle.meaning.specs.Processing.Queries as Queries;
ghost use Rattle.meaning.specs.Processing.Actions.{updated_row};
ghost use Rattle.words.specs.Words.{low32_at, end_of, readable, sum_meant};
ghost use Rattle.fields.specs.Fields.{values_at};
ghost use Rattle.slots.specs.Slots.{table_at, Stands};
ghost use Rattle.slots.specs.Slots as Slots;
ghost use Rattle.terms.specs.Terms.{expression_meant};
ghost use Rattle.room.specs.Room.{CHOSEN, ROWS, Laid, row_meant};
ghost use Rattle.working.specs.Working.{with_cell, AsChosen, RowWorked, WorkedOut, WorkedValues};

use rows::Reason;
use slots::Slot;
use terms::Expression;

// By hand: the contract names the definition, which a derived `Default` would not.
fn blank() -> Slot
    ensures { result ≡ Slots.blank }
{
    Slot {
        handle: 0,
        kind: 0,
        mask: 0,
        table: 0,
        v0: 0,
        v1: 0,
        v2: 0,
        v3: 0,
    }
}

// A row with a value in a column; past the last column nothing changes, as in the specification.
fn with_cell(e: Slot, column: usize, v: u32) -> Slot
    ensures { row_meant result ≡ with_cell (row_meant e) column (signed v) }
{
    match column {
        0 => Slot { v0: v, ..e },
        1 => Slot { v1: v, ..e },
        2 => Slot { v2: v, ..e },
        3 => Slot { v3: v, ..e },
        _ => e,
    }
}

// A row with a value for each set bit of a mask, lowest first, read one after another.
pub fn with_values(s: &[u8], at: usize, mask: usize, e: Slot) -> Slot
    requires mask_bound { mask ≤ 15 }
    requires fact { end_of (many (ones mask) value s.now at) ≡ None → ⊥ }
    ensures { row_meant result ≡ updated_row mask (values_at s.now (ones mask) at) (row_meant e) }
{
    let mut row = e;
    let mut here = at;
    for c in 0..4 {
        if words::has_bit(mask, c) {
            row = with_cell(row, c, words::word32(s, here));
            here += 4;
        }
    }
    row
}

// The value of an expression over chosen row i, unless its sum leaves 32 bits.
fn work_out(room: &[u8], x: Expression, i: usize) -> Option<u32>
    requires stands { Stands CHOSEN ROWS room.now }
    requires i_bound { i < low32_at room.now CHOSEN }
    ensures { sum_meant result
        ≡ Queries.work_out (row_meant (get_or (table_at room.now CHOSEN) i Slots.blank)) (expression_meant x) }
{
    match x {
        Expression::Constant(v) => Some(v),
        Expression::Column(column) => Some(room::CHOSEN.value_at(room, i, column)),
        Expression::Sum { column, constant } => {
            words::plus(room::CHOSEN.value_at(room, i, column), constant)
        }
    }
}

// Worked row i, which is chosen row i so far, gets the value of an expression over the chosen row for
// each set bit of a mask, lowest first.
fn work_out_row(
    room: &mut [u8],
    book: &[u8],
    at: usize,
    mask: usize,
    i: usize,
) -> Result<(), Reason>
    requires as_chosen { AsChosen room.old i }
    requires mask_bound { mask ≤ 15 }
    ensures { RowWorked room.old room.new (readable (ones mask) expression book.now at) mask i result }
{
    let mut here = at;
    for c in 0..4 {
        if words::has_bit(mask, c) {
            let Some((expression, next)) = terms::expression_at(book, here) else {
                return Ok(());
            };
            let v = work_out(room, expression, i).ok_or(Reason::SumOutOfRange)?;
            room::WORKED.put_value(room, i, c, v);
            here = next;
        }
    }
    Ok(())
}

// Works out the expressions over every chosen row, unless a sum leaves 32 bits.
pub fn work_out_all(room: &mut [u8], book: &[u8], at: usize, mask: usize) -> Result<(), Reason>
    requires laid { Laid room.old }
    requires mask_bound { mask ≤ 15 }
    ensures { WorkedOut room.old room.new (readable (ones mask) expression book.now at) mask result }
{
    room::WORKED.empty(room);
    for i in 0..room::CHOSEN.size(room) {
        room::WORKED.push_from(room, room::CHOSEN, i);
        work_out_row(room, book, at, mask, i)?;
    }
    Ok(())
}

// One row of values, read one after another, is what was worked out.
pub fn work_out_values(room: &mut [u8], s: &[u8], at: usize)
    requires laid { Laid room.old }
    requires fact { end_of (many 4 value s.now at) ≡ None → ⊥ }
    ensures { WorkedValues room.old room.new (values_at s.now 4 at) }
{
    room::WORKED.empty(room);
    room::WORKED.push(room, with_values(s, at, 15, blank()));
}
