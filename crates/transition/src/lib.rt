// The transition tables of a consideration: the rule's own table, its columns, whole rows, values as of
// then; and what waited for the rule is emptied, whatever its condition will say.
#![tactic(auto)]

ghost use Rattle.std.specs.Prelude.{◌≡◌, ◌≤◌, ◌<◌, length};
ghost use Rattle.meaning.specs.Processing.TransitionTables.{live_row};
ghost use Rattle.words.specs.Words.{low32_at};
ghost use Rattle.slots.specs.Slots.{table_at, Stands, Sorted};
ghost use Rattle.room.specs.Room.{LIVE, END, ENTRIES, Laid, watch_rule, live_rows};
ghost use Rattle.room.specs.Drawn.{drawn_for, Few, Drew};
ghost use Rattle.transition.specs.Shown.{slot_in, own_in, RoomFor, Added, LiveRises, RoomForAll, Shown, AllBare};

use room::{EffectTable, RowTable, Watch};
use slots::Table;

// The live row with a handle, if it is of the rule's own table, joins a transition table. The answer is the place after it, the first
// to try for the next handle.
fn draw_live(room: &mut [u8], shown: RowTable, near: usize, rule: Watch, handle: u32) -> usize
    requires live_rises { LiveRises room.old }
    requires room_for { RoomFor shown.base room.old (live_row (watch_rule rule) (live_rows room.old) handle) }
    ensures { Added shown.base room.old room.new (live_row (watch_rule rule) (live_rows room.old) handle) }
{
    let Some(i) = room::LIVE.find_near(room, near, handle) else {
        return near;
    };
    draw_held(room, shown, rule, room::LIVE, i);
    i + 1
}

// The row that slot i of a table holds, if it is of the rule's own table, joins a transition table.
fn draw_held<const MOST: usize>(
    room: &mut [u8],
    shown: RowTable,
    rule: Watch,
    from: Table<MOST>,
    i: usize,
)
    requires stands { Stands from.base MOST room.old }
    requires i_bound { i < low32_at room.old from.base }
    requires room_for { RoomFor shown.base room.old (own_in (watch_rule rule) room.old from.base i) }
    ensures { Added shown.base room.old room.new (own_in (watch_rule rule) room.old from.entry.base i) }
{
    if from.table_at(room, i) == rule.table {
        shown.push_from(room, from, i);
    }
}

// What an updated row shows, if a column that the rule looks at was named: its values now, and those of before.
fn draw_updated(room: &mut [u8], near: usize, rule: Watch, wait: EffectTable, i: usize) -> usize
    requires stands { Stands wait.base ENTRIES room.old }
    requires i_bound { i < low32_at room.old wait.base }
    requires i_value { (slot_in room.old wait.base i).kind ≡ 3 }
    requires live_rises { LiveRises room.old }
    requires room_for_all { RoomForAll (watch_rule rule) (slot_in room.old wait.base i) room.old }
    ensures { Shown (watch_rule rule) (slot_in room.old wait.base i) room.old room.new }
{
    if !words::meet(wait.mask_at(room, i), rule.columns) {
        return near;
    }
    let handle = wait.handle_at(room, i);
    draw_held(room, room::OLD, rule, wait, i);
    draw_live(room, room::NEW, near, rule, handle)
}

// What effect i of a table of what waits shows in the transition tables: by the numbers of its kind, of which `effects` has the names.
fn draw_one(room: &mut [u8], near: usize, rule: Watch, wait: EffectTable, i: usize) -> usize
    requires stands { Stands wait.base ENTRIES room.old }
    requires i_bound { i < low32_at room.old wait.base }
    requires live_rises { LiveRises room.old }
    requires room_for_all { RoomForAll (watch_rule rule) (slot_in room.old wait.base i) room.old }
    ensures { Shown (watch_rule rule) (slot_in room.old wait.base i) room.old room.new }
{
    match wait.kind_at(room, i) {
        1 => {
            let handle = wait.handle_at(room, i);
            draw_live(room, room::INSERTED, near, rule, handle)
        }
        2 => {
            draw_held(room, room::DELETED, rule, wait, i);
            near
        }
        3 => draw_updated(room, near, rule, wait, i),
        _ => near,
    }
}

// The four transition tables have no row any more.
pub fn empty_tables(room: &mut [u8])
    requires { END ≤ length room.old }
    ensures { AllBare room.old room.new }
{
    room::INSERTED.empty(room);
    room::DELETED.empty(room);
    room::NEW.empty(room);
    room::OLD.empty(room);
}

// What waits for rule k becomes its transition tables, and is emptied.
pub fn draw(room: &mut [u8], k: usize, rule: Watch)
    requires laid { Laid room.old }
    requires k_bound { k < 16 }
    requires sorted { Sorted (table_at room.old LIVE) }
    requires few { Few (drawn_for room.old k (watch_rule rule)) }
    ensures { Drew room.old room.new k (watch_rule rule) }
{
    empty_tables(room);
    let wait = room::wait(k);
    let mut near = 0;
    for i in 0..wait.size(room) {
        near = draw_one(room, near, rule, wait, i);
    }
    wait.empty(room);
}
