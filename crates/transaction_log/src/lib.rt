// The log: judged exactly, and its operations read one after another.
#![tactic(auto)]

ghost use Rattle.std.specs.Prelude.{◌≡◌};
ghost use Rattle.meaning.specs.Reading.{read_all};
ghost use Rattle.meaning.specs.Covers.{LogOperation};
ghost use Rattle.meaning.specs.ByteLayouts as ByteLayouts;
ghost use Rattle.transaction_log.specs.Log.{operation_or, log_or};

use words::Layout;

// An operation, its values where they stand.
#[derive(Clone, Copy)]
pub enum Operation {
    Insert {
        table: usize,
        values: usize,
    },
    Delete {
        handle: u32,
    },
    Update {
        handle: u32,
        mask: usize,
        values: usize,
    },
}

// At most 256 operations, which stand after the operation count.
pub const OPERATIONS: usize = 256;

pub const FIRST: usize = 7;

// As an insertion of `book`, but an operation: three lines over a type of its own.
#[tactic(auto, using(fields::proofs::Laws::values_in_a_row), unfolding(meaning::specs::ByteLayouts::insertion, meaning::specs::ByteLayouts::table))]
fn insertion(s: &[u8], at: usize) -> Option<(Operation, usize)>
    ensures { operation_or s.now result ≡ ByteLayouts.insertion s.now at }
{
    let (table, values) = words::byte_within(s, at, 0, 3)?;
    let next = fields::values_end(s, values, 4)?;
    Some((Operation::Insert { table, values }, next))
}

#[tactic(auto, unfolding(meaning::specs::ByteLayouts::deletion))]
fn deletion(s: &[u8], at: usize) -> Option<(Operation, usize)>
    ensures { operation_or s.now result ≡ ByteLayouts.deletion s.now at }
{
    let (handle, next) = words::number32(s, at)?;
    Some((Operation::Delete { handle }, next))
}

#[tactic(auto, using(fields::proofs::Laws::values_in_a_row), unfolding(meaning::specs::ByteLayouts::change, meaning::specs::ByteLayouts::mask))]
fn change(s: &[u8], at: usize) -> Option<(Operation, usize)>
    ensures { operation_or s.now result ≡ ByteLayouts.change s.now at }
{
    let (handle, after) = words::number32(s, at)?;
    let (mask, values) = words::byte_within(s, after, 1, 15)?;
    let next = fields::values_end(s, values, usize::count_ones(mask) as usize)?;
    Some((
        Operation::Update {
            handle,
            mask,
            values,
        },
        next,
    ))
}

// The operation at a place, by document 01's number.
#[tactic(auto, unfolding(meaning::specs::ByteLayouts::operation, meaning::specs::ByteLayouts::operation_of, meaning::specs::Reading::byte))]
pub fn operation_at(s: &[u8], at: usize) -> Option<(Operation, usize)>
    ensures { operation_or s.now result ≡ ByteLayouts.operation s.now at }
{
    let (kind, next) = words::byte_within(s, at, 0, 255)?;
    match kind {
        1 => insertion(s, next),
        2 => deletion(s, next),
        3 => change(s, next),
        _ => None,
    }
}

#[derive(Clone, Copy)]
struct Operations;

impl Layout for Operations {
    ghost Value = { LogOperation };

    ghost layout = { λ _. ByteLayouts.operation };

    fn end(&self, s: &[u8], at: usize) -> Option<usize> {
        Some(operation_at(s, at)?.1)
    }
}

// How many operations the log has, where it is well formed.
pub fn judge(s: &[u8]) -> Option<usize>
    ensures { log_or s.now result ≡ read_all ByteLayouts.log s.now }
{
    if !fields::well_framed(s) {
        return None;
    }
    let (count, first) = words::number16(s, fields::FIELDS)?;
    if OPERATIONS < count {
        return None;
    }
    if words::many_end(&Operations, s, first, count)? != s.len() {
        return None;
    }
    Some(count)
}
