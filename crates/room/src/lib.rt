// The map of the working room: what stands where. Every table has its size at its head, and slots after it.
#![tactic(auto)]

ghost use Rattle.std.specs.Prelude.{◌≡◌, ◌<◌};
ghost use Rattle.room.specs.Room.{wait_at};

use slots::Table;

// How many slots a table of rows has room for, and one of what waits.
pub const ROWS: usize = 64;

pub const ENTRIES: usize = 128;

// A table of rows, and a table of effects: of what waits, and of what was done.
pub type RowTable = Table<ROWS>;

pub type EffectTable = Table<ENTRIES>;

// The next handle.
pub const NEXT: usize = 0;

// The live rows, by rising handle.
pub const LIVE: RowTable = Table { base: 4 };

// The four transition tables of the rule that is considered.
pub const INSERTED: RowTable = Table { base: 1544 };

pub const DELETED: RowTable = Table { base: 3084 };

pub const NEW: RowTable = Table { base: 4624 };

pub const OLD: RowTable = Table { base: 6164 };

// The rows that an action chose, and what it worked out for each.
pub const CHOSEN: RowTable = Table { base: 7704 };

pub const WORKED: RowTable = Table { base: 9244 };

// Where a table of what waits is woven: over both of these, which nobody reads between actions.
pub const SPARE: EffectTable = Table { base: 7704 };

// What waits for each rule: sixteen tables, one after another.
pub const WAITS: usize = 10784;

pub const WAIT: usize = 3076;

// What was done since it was last joined to what waits.
pub const STRETCH: EffectTable = Table { base: 60000 };

// The rules of a book, at most.
pub const RULES: usize = 16;

// What waits for rule k.
pub fn wait(k: usize) -> EffectTable
    requires { k < 16 }
    ensures { result.base ≡ wait_at k }
{
    Table {
        base: WAITS + WAIT * k,
    }
}

// What a rule looks out for: its table, its triggers, its columns.
#[derive(Clone, Copy)]
pub struct Watch {
    pub table: usize,
    pub triggers: usize,
    pub columns: usize,
}
