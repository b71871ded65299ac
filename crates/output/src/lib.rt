// An image at the front of the output: from the live rows, or byte for byte.
#![tactic(auto)]

ghost use Rattle.std.specs.Prelude.{◌≡◌, ◌+◌, ◌≤◌, ◌<◌, length};
ghost use Rattle.meaning.specs.Base.{in_front_of};
ghost use Rattle.words.specs.Words.{low32_at};
ghost use Rattle.slots.specs.Slots.{Stands};
ghost use Rattle.room.specs.Room.{LIVE, ROWS};
ghost use Rattle.output.specs.Outputs.{LiveRow, PutsImage};

use image::Row;

// The live row i, as a row of an image. Both types are of crates below, so this is no `impl From`.
fn live_row(room: &[u8], i: usize) -> Row
    requires stands { Stands LIVE ROWS room.now }
    requires i_bound { i < low32_at room.now LIVE }
    ensures { LiveRow room.now i result }
{
    let e = room::LIVE.slot_at(room, i);
    Row {
        handle: e.handle,
        table: words::wide(e.table),
        v0: e.v0,
        v1: e.v1,
        v2: e.v2,
        v3: e.v3,
    }
}

// The image that stands in the room, each row written through a part that starts at its place.
pub fn put_image(out: &mut [u8], room: &[u8])
    requires stands { Stands LIVE ROWS room.now }
    requires in_bounds { 1355 ≤ length out.old }
    ensures { PutsImage room.now out.old out.new }
{
    let n = room::LIVE.size(room);
    image::put_head(out, words::low32(room, room::NEXT), n);
    let mut here = image::FIRST;
    for i in 0..n {
        image::put_row(&mut out[here..], live_row(room, i));
        here += image::ROW;
    }
}

// Bytes at the front of an output.
pub fn put_bytes(out: &mut [u8], s: &[u8])
    requires { length s.now ≤ length out.old }
    ensures { out.new ≡ in_front_of s.now out.old }
{
    out[..s.len()].copy_from_slice(s);
}
