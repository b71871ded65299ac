// The live rows, and the row operations on them: each is made on the rows and joins what was done since the
// last joining.
#![tactic(auto)]

ghost use Rattle.std.specs.Prelude.{◌≡◌, ◌≤◌, ◌<◌, length};
ghost use Rattle.words.specs.Words.{low32_at};
ghost use Rattle.slots.specs.Slots.{table_at, Sorted, find_in};
ghost use Rattle.room.specs.Room.{NEXT, LIVE, Laid};
ghost use Rattle.room.specs.Joins.{as_effect, Joinable};
ghost use Rattle.rows.specs.Rows.{space_for, inserted_slot, row_of, Inserted, CanJoin, Deleted, Updated};

use slots::Slot;

// Why an operation fails, in the order of document 01's numbers.
#[derive(Clone, Copy)]
pub enum Reason {
    NoSuchRow,
    Full,
    HandlesUsedUp,
    SumOutOfRange,
}

// The last handle that an image may have as its next.
pub const LAST: u32 = 4294967295;

pub fn next(room: &[u8]) -> u32
    requires { Laid room.now }
    ensures { result ≡ low32_at room.now NEXT }
{
    words::low32(room, room::NEXT)
}

// Whether n rows more have room, and handles.
pub fn space_for(room: &[u8], n: usize) -> Result<(), Reason>
    requires laid { Laid room.now }
    requires n_bound { n ≤ 64 }
    ensures { result ≡ space_for (length (table_at room.now LIVE)) (low32_at room.now NEXT) n }
{
    if room::ROWS < room::LIVE.size(room) + n {
        return Err(Reason::Full);
    }
    let left = LAST - next(room);
    if (left as usize) < n {
        return Err(Reason::HandlesUsedUp);
    }
    Ok(())
}

fn row_of(handle: u32, table: u8, e: Slot) -> Slot
    ensures { result ≡ row_of handle table e }
{
    Slot {
        handle,
        kind: 0,
        mask: 0,
        table,
        ..e
    }
}

// A row with the next handle, which then rises by one.
pub fn insert_row(room: &mut [u8], table: u8, e: Slot)
    requires room_len_bound { length (table_at room.old LIVE) < 64 }
    requires room_bound { low32_at room.old NEXT < 4294967295 }
    requires joinable { Joinable room.old (as_effect 1 0 (inserted_slot room.old table e)) }
    ensures { Inserted room.old room.new table e }
{
    let handle = next(room);
    let new = row_of(handle, table, e);
    room::LIVE.push(room, new);
    words::put_low32(room, room::NEXT, handle + 1);
    effects::join(room, 0, effects::as_effect(effects::INSERTED, 0, new));
}

// The row with a handle goes.
pub fn delete_row(room: &mut [u8], handle: u32) -> Result<(), Reason>
    requires laid { Laid room.old }
    requires sorted { Sorted (table_at room.old LIVE) }
    requires can_join { CanJoin room.old 2 0 (find_in handle (table_at room.old LIVE)) }
    ensures { Deleted room.old room.new (find_in handle (table_at room.old LIVE)) result }
{
    let Some(i) = room::LIVE.find(room, handle) else {
        return Err(Reason::NoSuchRow);
    };
    let old = room::LIVE.slot_at(room, i);
    room::LIVE.remove_at(room, i);
    effects::join(room, 0, effects::as_effect(effects::DELETED, 0, old));
    Ok(())
}

// A row in the place of the one with its handle; a near place is the first to try.
pub fn update_row(room: &mut [u8], near: usize, mask: u8, new: Slot) -> Result<(), Reason>
    requires laid { Laid room.old }
    requires sorted { Sorted (table_at room.old LIVE) }
    requires can_join { CanJoin room.old 3 mask (find_in new.handle (table_at room.old LIVE)) }
    ensures { Updated room.old room.new mask new (find_in new.handle (table_at room.old LIVE)) result }
{
    let Some(i) = room::LIVE.find_near(room, near, new.handle) else {
        return Err(Reason::NoSuchRow);
    };
    let old = room::LIVE.slot_at(room, i);
    room::LIVE.put_at(room, i, new);
    effects::join(room, near, effects::as_effect(effects::UPDATED, mask, old));
    Ok(())
}
