// Tables of fixed-size slots in a room of bytes that the caller lends, each with its size at its head.
// Only these functions look at the room's bytes; everything above speaks of the lists that the tables
// hold, and of frames that say what stays.
#![tactic(auto)]

ghost use Rattle.std.specs.Prelude.{◌≡◌, [], ◌++◌, ◌∷◌, ◌+◌, ◌*◌, ◌/◌, ◌%◌, ◌≤◌, ◌<◌, length, get_or, set, take, drop, replicate};
ghost use Rattle.words.specs.Words.{low32_at};
ghost use Rattle.slots.specs.Slots.{slot_at, table_at, table_bytes, slot_value, with_value, with_kind, with_marks, Stands, Holds};
ghost use Rattle.slots.specs.Slots.{Stored, MovedUp, MovedDown, Copied, Sorted, insert_at, remove_at, place_in, hit, find_in, blank};

// A row, an effect on a row, or a row operation: what each field means is the table's owner's to say.
#[derive(Clone, Copy)]
pub struct Slot {
    pub handle: u32,
    pub kind: u8,
    pub mask: u8,
    pub table: u8,
    pub v0: u32,
    pub v1: u32,
    pub v2: u32,
    pub v3: u32,
}

// The bytes of a slot, and of a table's size before its slots.
pub const SLOT: usize = 24;

pub const HEAD: usize = 4;

fn joined(kind: u8, mask: u8, table: u8) -> u32
    ensures { (result / 16777216 % 256 ≡ kind) × (result / 65536 % 256 ≡ mask) × (result / 256 % 256 ≡ table) }
{
    kind as u32 * 16777216 + mask as u32 * 65536 + table as u32 * 256
}

#[tactic(auto, unfolding(crate::specs::Slots::slot_at))]
fn load(room: &[u8], at: usize) -> Slot
    requires { at + 24 ≤ length room.now }
    ensures { result ≡ slot_at room.now at }
{
    let w = words::low32(room, at + 4);
    Slot {
        handle: words::low32(room, at),
        kind: (w / 16777216 % 256) as u8,
        mask: (w / 65536 % 256) as u8,
        table: (w / 256 % 256) as u8,
        v0: words::low32(room, at + 8),
        v1: words::low32(room, at + 12),
        v2: words::low32(room, at + 16),
        v3: words::low32(room, at + 20),
    }
}

fn store(room: &mut [u8], at: usize, e: Slot)
    requires { at + 24 ≤ length room.old }
    ensures { Stored room.old room.new at e }
{
    words::put_low32(room, at, e.handle);
    words::put_low32(room, at + 4, joined(e.kind, e.mask, e.table));
    words::put_low32(room, at + 8, e.v0);
    words::put_low32(room, at + 12, e.v1);
    words::put_low32(room, at + 16, e.v2);
    words::put_low32(room, at + 20, e.v3);
}

// The 24 bytes of a slot at another place, with other marks: kind, mask and table in one word.
fn copy(room: &mut [u8], from: usize, to: usize, marks: u32)
    requires from_in_bounds { from + 24 ≤ length room.old }
    requires to_in_bounds { to + 24 ≤ length room.old }
    ensures { Stored room.old room.new to (with_marks (slot_at room.old from) marks) }
{
    let handle = words::low32(room, from);
    let v0 = words::low32(room, from + 8);
    let v1 = words::low32(room, from + 12);
    let v2 = words::low32(room, from + 16);
    let v3 = words::low32(room, from + 20);
    words::put_low32(room, to, handle);
    words::put_low32(room, to + 4, marks);
    words::put_low32(room, to + 8, v0);
    words::put_low32(room, to + 12, v1);
    words::put_low32(room, to + 16, v2);
    words::put_low32(room, to + 20, v3);
}

// The n bytes from a place on move up by a slot.
fn move_up(room: &mut [u8], at: usize, n: usize)
    requires { at + n + 24 ≤ length room.old }
    ensures { MovedUp room.old room.new at n }
{
    room.copy_within(at..at + n, at + SLOT);
}

// The n bytes from a slot after a place on move down by a slot.
fn move_down(room: &mut [u8], at: usize, n: usize)
    requires { at + n + 24 ≤ length room.old }
    ensures { MovedDown room.old room.new at n }
{
    room.copy_within(at + SLOT..at + SLOT + n, at);
}

// The n bytes from a place on once more, at a place after them all.
fn copy_bytes(room: &mut [u8], from: usize, to: usize, n: usize)
    requires n_bound { from + n ≤ to }
    requires n_in_bounds { to + n ≤ length room.old }
    ensures { Copied room.old room.new from to n }
{
    room.copy_within(from..from + n, to);
}

// A table with room for `MOST` slots: its size at its base, and after it its slots. That it stands in a room (`Stands`) is a fact about both,
// and so a clause: a value that held the room too would keep it from the other tables.
#[derive(Clone, Copy)]
pub struct Table<const MOST: usize> {
    pub base: usize,
}

#[tactic(auto, unfolding(crate::specs::Slots::table_bytes))]
impl<const MOST: usize> Table<MOST> {
    // Where the slot i stands.
    fn at(self, i: usize) -> usize
        requires { self.base + 4 + 24 * i < 18446744073709551616 }
        ensures { result ≡ self.entry.base + 4 + 24 * i }
    {
        self.base + HEAD + SLOT * i
    }

    // How many slots the table has.
    pub fn size(self, room: &[u8]) -> usize
        requires { self.base + 4 ≤ length room.now }
        ensures { result ≡ low32_at room.now self.entry.base }
    {
        words::low32(room, self.base) as usize
    }

    // The slot i.
    pub fn slot_at(self, room: &[u8], i: usize) -> Slot
        requires stands { Stands self.base MOST room.now }
        requires i_bound { i < low32_at room.now self.base }
        ensures { result ≡ get_or (table_at room.now self.entry.base) i blank }
    {
        load(room, self.at(i))
    }

    // The handle of the slot i, without the rest of it.
    pub fn handle_at(self, room: &[u8], i: usize) -> u32
        requires stands { Stands self.base MOST room.now }
        requires i_bound { i < low32_at room.now self.base }
        ensures { result ≡ (get_or (table_at room.now self.entry.base) i blank).handle }
    {
        words::low32(room, self.at(i))
    }

    // The same for its kind. This, its mask and its table differ in a divisor, but each promises a field of its own.
    pub fn kind_at(self, room: &[u8], i: usize) -> usize
        requires stands { Stands self.base MOST room.now }
        requires i_bound { i < low32_at room.now self.base }
        ensures { result ≡ (get_or (table_at room.now self.entry.base) i blank).kind }
    {
        (words::low32(room, self.at(i) + 4) / 16777216 % 256) as usize
    }

    // The same for its mask.
    pub fn mask_at(self, room: &[u8], i: usize) -> usize
        requires stands { Stands self.base MOST room.now }
        requires i_bound { i < low32_at room.now self.base }
        ensures { result ≡ (get_or (table_at room.now self.entry.base) i blank).mask }
    {
        (words::low32(room, self.at(i) + 4) / 65536 % 256) as usize
    }

    // The same for its value in a column; past the last column it is 0.
    pub fn value_at(self, room: &[u8], i: usize, column: usize) -> u32
        requires stands { Stands self.base MOST room.now }
        requires i_bound { i < low32_at room.now self.base }
        ensures { result ≡ slot_value (get_or (table_at room.now self.entry.base) i blank) column }
    {
        if 4 <= column {
            return 0;
        }
        words::low32(room, self.at(i) + 8 + 4 * column)
    }

    // The same for its field `table`.
    pub fn table_at(self, room: &[u8], i: usize) -> usize
        requires stands { Stands self.base MOST room.now }
        requires i_bound { i < low32_at room.now self.base }
        ensures { result ≡ (get_or (table_at room.now self.entry.base) i blank).table }
    {
        (words::low32(room, self.at(i) + 4) / 256 % 256) as usize
    }

    // How many slots at the front of a table by rising handle have a handle below another: by halving. What is searched is bytes, and no
    // slice of slots that a method of the library could search.
    pub fn place(self, room: &[u8], handle: u32) -> usize
        requires stands { Stands self.base MOST room.now }
        requires sorted { Sorted (table_at room.now self.base) }
        ensures { result ≡ place_in handle (table_at room.now self.entry.base) }
    {
        let mut lo = 0;
        let mut hi = self.size(room);
        while lo < hi {
            let mid = lo + (hi - lo) / 2;
            if self.handle_at(room, mid) < handle {
                lo = mid + 1;
            } else {
                hi = mid;
            }
        }
        lo
    }

    // Whether the slot at a place of the table has a handle.
    pub fn is_at(self, room: &[u8], i: usize, handle: u32) -> bool
        requires { Stands self.base MOST room.now }
        ensures { result ≡ hit handle i (table_at room.now self.entry.base) }
    {
        i < self.size(room) && self.handle_at(room, i) == handle
    }

    // Where the slot with a handle is in a table by rising handle.
    pub fn find(self, room: &[u8], handle: u32) -> Option<usize>
        requires stands { Stands self.base MOST room.now }
        requires sorted { Sorted (table_at room.now self.base) }
        ensures { result ≡ find_in handle (table_at room.now self.entry.base) }
    {
        let i = self.place(room, handle);
        if self.is_at(room, i, handle) {
            Some(i)
        } else {
            None
        }
    }

    // The same as `place`, looked for in another way: nothing is searched where it is the near one, or at the end.
    pub fn place_near(self, room: &[u8], near: usize, handle: u32) -> usize
        requires stands { Stands self.base MOST room.now }
        requires sorted { Sorted (table_at room.now self.base) }
        ensures { result ≡ place_in handle (table_at room.now self.entry.base) }
    {
        if self.is_at(room, near, handle) {
            return near;
        }
        let n = self.size(room);
        if n == 0 {
            return 0;
        }
        if self.handle_at(room, n - 1) < handle {
            return n;
        }
        self.place(room, handle)
    }

    // The same as `find`, looked for in another way: a near place is tried first.
    pub fn find_near(self, room: &[u8], near: usize, handle: u32) -> Option<usize>
        requires stands { Stands self.base MOST room.now }
        requires sorted { Sorted (table_at room.now self.base) }
        ensures { result ≡ find_in handle (table_at room.now self.entry.base) }
    {
        if self.is_at(room, near, handle) {
            return Some(near);
        }
        self.find(room, handle)
    }

    // A slot in the place of another.
    pub fn put_at(self, room: &mut [u8], i: usize, e: Slot)
        requires stands { Stands self.base MOST room.old }
        requires i_bound { i < low32_at room.old self.base }
        ensures { Holds self.entry.base MOST room.old room.new (set (table_at room.old self.entry.base) i e) }
    {
        store(room, self.at(i), e);
    }

    // A slot more at a place; those from there on move up.
    pub fn insert_at(self, room: &mut [u8], i: usize, e: Slot)
        requires stands { Stands self.base MOST room.old }
        requires base_bound { low32_at room.old self.base < MOST }
        requires most_bound { MOST < 4294967296 }
        requires i_bound { i ≤ low32_at room.old self.base }
        ensures { Holds self.entry.base MOST room.old room.new (insert_at i e (table_at room.old self.entry.base)) }
    {
        let n = self.size(room);
        let at = self.at(i);
        move_up(room, at, SLOT * (n - i));
        store(room, at, e);
        words::put_low32(room, self.base, (n + 1) as u32);
    }

    // The slot at a place goes; those after it move down.
    pub fn remove_at(self, room: &mut [u8], i: usize)
        requires stands { Stands self.base MOST room.old }
        requires i_bound { i < low32_at room.old self.base }
        ensures { Holds self.entry.base MOST room.old room.new (remove_at i (table_at room.old self.entry.base)) }
    {
        let n = self.size(room);
        move_down(room, self.at(i), SLOT * (n - 1 - i));
        words::put_low32(room, self.base, (n - 1) as u32);
    }

    // A slot more at the end.
    pub fn push(self, room: &mut [u8], e: Slot)
        requires stands { Stands self.base MOST room.old }
        requires base_bound { low32_at room.old self.base < MOST }
        requires most_bound { MOST < 4294967296 }
        ensures { Holds self.entry.base MOST room.old room.new (table_at room.old self.entry.base ++ (e ∷ [])) }
    {
        let end = self.size(room);
        store(room, self.at(end), e);
        words::put_low32(room, self.base, (end + 1) as u32);
    }

    // Another value in a column 0..3 of the slot i.
    pub fn put_value(self, room: &mut [u8], i: usize, column: usize, v: u32)
        requires stands { Stands self.base MOST room.old }
        requires i_bound { i < low32_at room.old self.base }
        requires column_bound { column < 4 }
        ensures { Holds self.entry.base MOST room.old room.new
            (set (table_at room.old self.entry.base) i (with_value (get_or (table_at room.old self.entry.base) i blank) column v)) }
    {
        words::put_low32(room, self.at(i) + 8 + 4 * column, v);
    }

    // The slot i of another table once more, at the end of this one.
    pub fn push_from<const HELD: usize>(self, room: &mut [u8], from: Table<HELD>, i: usize)
        requires stands { Stands self.base MOST room.old }
        requires base_bound { low32_at room.old self.base < MOST }
        requires most_bound { MOST < 4294967296 }
        requires stands_2 { Stands from.base HELD room.old }
        requires i_bound { i < low32_at room.old from.base }
        ensures { Holds self.entry.base MOST room.old room.new
            (table_at room.old self.entry.base ++ (get_or (table_at room.old from.entry.base) i blank ∷ [])) }
    {
        let end = self.size(room);
        let at = from.at(i);
        let marks = words::low32(room, at + 4);
        copy(room, at, self.at(end), marks);
        words::put_low32(room, self.base, (end + 1) as u32);
    }

    // The same, with the slot's place in the other table as its kind: both copy, and differ in the word that they write beside it.
    pub fn push_place<const HELD: usize>(self, room: &mut [u8], from: Table<HELD>, i: usize)
        requires stands { Stands self.base MOST room.old }
        requires base_bound { low32_at room.old self.base < MOST }
        requires most_bound { MOST < 4294967296 }
        requires stands_2 { Stands from.base HELD room.old }
        requires i_bound { i < low32_at room.old from.base }
        ensures { Holds self.entry.base MOST room.old room.new
            (table_at room.old self.entry.base ++ (with_kind (get_or (table_at room.old from.entry.base) i blank) (i % 256) ∷ [])) }
    {
        let end = self.size(room);
        let at = from.at(i);
        let marks = words::low32(room, at + 4) % 16777216 + (i % 256) as u32 * 16777216;
        copy(room, at, self.at(end), marks);
        words::put_low32(room, self.base, (end + 1) as u32);
    }

    // The table keeps its slots before a place; after them stand those of another table, which lies below it.
    pub fn put_tail<const HELD: usize>(self, room: &mut [u8], first: usize, from: Table<HELD>)
        requires stands { Stands self.base MOST room.old }
        requires most_bound { MOST < 4294967296 }
        requires stands_2 { Stands from.base HELD room.old }
        requires held_bound { from.base + table_bytes HELD ≤ self.base }
        requires first_bound { first ≤ low32_at room.old self.base }
        requires from_bound { first + low32_at room.old from.base ≤ MOST }
        ensures { Holds self.entry.base MOST room.old room.new
            (take first (table_at room.old self.entry.base) ++ table_at room.old from.entry.base) }
    {
        let n = from.size(room);
        copy_bytes(room, from.at(0), self.at(first), SLOT * n);
        words::put_low32(room, self.base, (first + n) as u32);
    }

    // The table has no slot any more.
    pub fn empty(self, room: &mut [u8])
        requires { self.base + table_bytes MOST ≤ length room.old }
        ensures { Holds self.entry.base MOST room.old room.new [] }
    {
        words::put_low32(room, self.base, 0);
    }
}

// The first n bytes are zero.
pub fn clear(room: &mut [u8], n: usize)
    requires { n ≤ length room.old }
    ensures { room.new ≡ replicate n 0 ++ drop n room.old }
{
    room[..n].fill(0);
}
