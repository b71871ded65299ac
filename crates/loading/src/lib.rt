// The working room at the start of a run: every table empty but the live rows, which are the start image's.
#![tactic(auto)]

ghost use Rattle.std.specs.Prelude.{◌+◌, ◌≤◌, ◌<◌, length};
ghost use Rattle.words.specs.Words.{low32_at};
ghost use Rattle.slots.specs.Slots.{Stands};
ghost use Rattle.image.specs.Images.{WellFormed};
ghost use Rattle.room.specs.Room.{LIVE, END, ROWS};
ghost use Rattle.loading.specs.Loads.{Loads};
ghost use Rattle.loading.specs.Steps.{NoneWaits, Emptied, RowLoaded};

use image::Head;
use slots::Slot;

// Nothing waits for any rule.
fn empty_waits(room: &mut [u8])
    requires { END ≤ length room.old }
    ensures { NoneWaits room.old room.new }
{
    for k in 0..room::RULES {
        room::wait(k).empty(room);
    }
}

// Every table stands, and is empty.
fn empty_all(room: &mut [u8])
    requires { END ≤ length room.old }
    ensures { Emptied room.old room.new }
{
    room::LIVE.empty(room);
    transition::empty_tables(room);
    room::CHOSEN.empty(room);
    room::WORKED.empty(room);
    empty_waits(room);
    room::STRETCH.empty(room);
}

// The row of an image at a place joins the live rows. Both types are of crates below, so this is no `impl From`.
fn load_row(room: &mut [u8], s: &[u8], at: usize)
    requires stands { Stands LIVE ROWS room.old }
    requires room_bound { low32_at room.old LIVE < ROWS }
    requires at_in_bounds { at + 21 ≤ length s.now }
    ensures { RowLoaded s.now at room.old room.new }
{
    let r = image::row_at(s, at);
    room::LIVE.push(
        room,
        Slot {
            handle: r.handle,
            kind: 0,
            mask: 0,
            table: (r.table % 256) as u8,
            v0: r.v0,
            v1: r.v1,
            v2: r.v2,
            v3: r.v3,
        },
    );
}

// A well-formed image with this head.
pub fn load(room: &mut [u8], s: &[u8], head: Head)
    requires in_bounds { END ≤ length room.old }
    requires well_formed { WellFormed s.now head.next head.count }
    ensures { Loads s.now room.old room.new }
{
    words::put_low32(room, room::NEXT, head.next);
    empty_all(room);
    let mut here = image::FIRST;
    for _ in 0..head.count {
        load_row(room, s, here);
        here += image::ROW;
    }
}
