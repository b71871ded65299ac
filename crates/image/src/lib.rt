// The image: judged exactly, its rows read, and its head and its rows as bytes.
#![tactic(auto)]

ghost use Rattle.std.specs.Prelude.{◌≡◌, ◌+◌, ◌*◌, ◌≤◌, ◌<◌, length};
ghost use Rattle.meaning.specs.Base.{in_front_of};
ghost use Rattle.meaning.specs.Reading.{many, read_all};
ghost use Rattle.meaning.specs.ByteLayouts as ByteLayouts;
ghost use Rattle.meaning.specs.ByteLayouts.{row_bytes};
ghost use Rattle.image.specs.Images.{row_meant, row_or, image_or, Told, rise_in, head_bytes};

// A row, its values as words in two's complement.
#[derive(Clone, Copy)]
pub struct Row {
    pub handle: u32,
    pub table: usize,
    pub v0: u32,
    pub v1: u32,
    pub v2: u32,
    pub v3: u32,
}

// What a well-formed image has beside its rows: the next handle, and how many rows there are.
#[derive(Clone, Copy)]
pub struct Head {
    pub next: u32,
    pub count: usize,
}

// At most 64 rows of 21 bytes, which stand after the row count.
pub const ROWS: usize = 64;

pub const ROW: usize = 21;

pub const FIRST: usize = 11;

// The row at a place.
pub fn row_at(s: &[u8], at: usize) -> Row
    requires { at + 21 ≤ length s.now }
    ensures { ByteLayouts.row s.now at ≡ row_or result (at + 21) }
{
    Row {
        handle: words::word32(s, at),
        table: words::byte(s, at + 4),
        v0: words::word32(s, at + 5),
        v1: words::word32(s, at + 9),
        v2: words::word32(s, at + 13),
        v3: words::word32(s, at + 17),
    }
}

// Whether n rows stand at a place, their handles rising from above `low` to below `high`.
fn rows_rise(s: &[u8], at: usize, n: usize, low: u32, high: u32) -> bool
    ensures { result ≡ rise_in low high (many n ByteLayouts.row s.now at) }
{
    let mut here = at;
    let mut last = low;
    for _ in 0..n {
        if !words::has(s, here, ROW) {
            return false;
        }
        let r = row_at(s, here);
        if 3 < r.table {
            return false;
        }
        if r.handle <= last {
            return false;
        }
        if high <= r.handle {
            return false;
        }
        last = r.handle;
        here += ROW;
    }
    true
}

// The head of an image, where it is well formed.
pub fn judge(s: &[u8]) -> Option<Head>
    ensures result_value { image_or s.now result ≡ read_all ByteLayouts.image s.now }
    ensures told { Told s.now result }
{
    if !fields::well_framed(s) {
        return None;
    }
    let (next, after) = words::number32(s, fields::FIELDS)?;
    if next < 1 {
        return None;
    }
    let (count, first) = words::number16(s, after)?;
    if ROWS < count {
        return None;
    }
    if s.len() != first + count * ROW {
        return None;
    }
    if !rows_rise(s, first, count, 0, next) {
        return None;
    }
    Some(Head { next, count })
}

// A row at the front of a part of the output that starts at its place.
pub fn put_row(part: &mut [u8], r: Row)
    requires in_bounds { 21 ≤ length part.old }
    requires table_bound { r.table < 256 }
    ensures { part.new ≡ in_front_of (row_bytes (row_meant r)) part.old }
{
    words::put32(part, 0, r.handle);
    part[4] = words::low_byte(r.table);
    words::put32(part, 5, r.v0);
    words::put32(part, 9, r.v1);
    words::put32(part, 13, r.v2);
    words::put32(part, 17, r.v3);
}

// What stands before the rows: length, version, next handle, row count.
pub fn put_head(out: &mut [u8], next: u32, count: usize)
    requires in_bounds { 11 ≤ length out.old }
    requires count_bound { count ≤ 64 }
    ensures { out.new ≡ in_front_of (head_bytes (7 + 21 * count) next count) out.old }
{
    words::put32(out, 0, (7 + 21 * count) as u32);
    out[4] = 1;
    words::put32(out, 5, next);
    words::put16(out, 9, count);
}
