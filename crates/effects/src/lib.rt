// What waits for the rules: net effects kept by rising handle, joined through one constant table of kinds. An operation joins
// what was done since the last joining, and all of that joins what waits for each rule in one pass; and whether it triggers a rule.
#![tactic(auto)]

ghost use Rattle.std.specs.Prelude.{◌≡◌, true, ◌++◌, ◌+◌, ◌-◌, ◌≤◌, ◌<◌, length};
ghost use Rattle.std.specs.Int.Bits.{bit_or};
ghost use Rattle.std.proofs.Math.Seq.{slice};
ghost use Rattle.meaning.specs.Base.{any};
ghost use Rattle.meaning.specs.RowOperations.{join_kind};
ghost use Rattle.meaning.specs.Processing.TransitionTables as TransitionTables;
ghost use Rattle.words.specs.Words.{low32_at};
ghost use Rattle.slots.specs.Slots.{table_at, Stands, Holds, Sorted, place_in, hit};
ghost use Rattle.room.specs.Room.{STRETCH, SPARE, Laid, watch_rule, effect_meant, waits_in};
ghost use Rattle.room.specs.Joins.{as_effect, join_slot, join_slots, Takes, Settleable, AllSettled, settled_at};
ghost use Rattle.effects.specs.Settling.{Settles, Loom, Passed, Weavable, Wove, Aside, WaitsSettled, joined_at, table_in, woven_from};

use room::{EffectTable, Watch};
use slots::Slot;

// The kinds of an effect: bytes of the room, whose tables hold them, and what the constant table of joins is indexed by. So they are
// no enum: each look at a slot would have to turn a byte into one, and back where it is stored.
pub const NOTHING: u8 = 0;

pub const INSERTED: u8 = 1;

pub const DELETED: u8 = 2;

pub const UPDATED: u8 = 3;

// Marks a join that no run can reach.
const UNREACHABLE: u8 = 4;

// How two kinds join: a line for the kind before, a column for the kind that comes after it.
const JOIN: [[u8; 4]; 4] = [
    [NOTHING, INSERTED, DELETED, UPDATED],
    [INSERTED, UNREACHABLE, NOTHING, INSERTED],
    [DELETED, UNREACHABLE, UNREACHABLE, UNREACHABLE],
    [UPDATED, UNREACHABLE, DELETED, UPDATED],
];

// What stands for the table of a rule that is not active; more than that stands past the last rule.
const INACTIVE: u8 = 4;

fn join_kind(a: usize, b: usize) -> u8
    ensures { result ≡ join_kind a b }
{
    if a < 4 && b < 4 {
        JOIN[a][b]
    } else {
        UNREACHABLE
    }
}

// The columns of two updates.
fn united(a: u8, b: u8) -> u8
    ensures { result ≡ bit_or a b }
{
    a | b
}

// A slot with another kind and mask.
pub fn as_effect(kind: u8, mask: u8, e: Slot) -> Slot
    ensures { result ≡ as_effect kind mask e }
{
    Slot { kind, mask, ..e }
}

// What was before and what comes after it as one effect; of kind 0 where nothing is left.
fn join_slot(a: Slot, b: Slot) -> Slot
    ensures { result ≡ join_slot a b }
{
    let k = join_kind(words::wide(a.kind), words::wide(b.kind));
    if k == DELETED {
        return b;
    }
    if k == UPDATED {
        return as_effect(UPDATED, united(a.mask, b.mask), a);
    }
    if k == NOTHING {
        return as_effect(NOTHING, 0, a);
    }
    a
}

// Whether an operation is an update that leaves a table of what waits as it was: the effect at a place is of its handle, and the row is
// inserted, or updated in its columns.
fn stays(room: &[u8], wait: EffectTable, i: usize, op: Slot) -> bool
    requires stands { Stands wait.base 128 room.now }
    requires sorted { Sorted (table_at room.now wait.base) }
    ensures { result ≡ true
        → Holds wait.base 128 room.now room.now (join_slots op (table_at room.now wait.base)) }
{
    if op.kind != UPDATED || !wait.is_at(room, i, op.handle) {
        return false;
    }
    let kind = wait.kind_at(room, i);
    if kind == UPDATED as usize {
        let mask = wait.mask_at(room, i);
        return mask | words::wide(op.mask) == mask;
    }
    kind == INSERTED as usize
}

// The effect at a place of a table joins a later one on the same handle.
fn join_at(room: &mut [u8], wait: EffectTable, i: usize, op: Slot)
    requires stands { Stands wait.base 128 room.old }
    requires sorted { Sorted (table_at room.old wait.base) }
    requires i_value { i ≡ place_in op.handle (table_at room.old wait.base) }
    requires base_value { hit op.handle i (table_at room.old wait.base) ≡ true }
    ensures { Holds wait.base 128 room.old room.new (join_slots op (table_at room.old wait.base)) }
{
    if stays(room, wait, i, op) {
        return;
    }
    let e = wait.slot_at(room, i);
    let x = join_slot(e, op);
    if x.kind == NOTHING {
        wait.remove_at(room, i);
        return;
    }
    wait.put_at(room, i, x);
}

// An operation joins what was done since the last joining; a near place is the first to try.
pub fn join(room: &mut [u8], near: usize, op: Slot)
    requires stands { Stands STRETCH 128 room.old }
    requires takes { Takes op (table_at room.old STRETCH) }
    ensures { Holds STRETCH 128 room.old room.new (join_slots op (table_at room.old STRETCH)) }
{
    if stays(room, room::STRETCH, near, op) {
        return;
    }
    let i = room::STRETCH.place_near(room, near, op.handle);
    if room::STRETCH.is_at(room, i, op.handle) {
        join_at(room, room::STRETCH, i, op);
        return;
    }
    room::STRETCH.insert_at(room, i, op);
}

// The place of a handle in a table of what waits, where all slots before `from` have lower ones.
fn place_from(room: &[u8], wait: EffectTable, from: usize, handle: u32) -> usize
    requires stands { Stands wait.base 128 room.now }
    requires from_bound { from ≤ place_in handle (table_at room.now wait.base) }
    ensures { result ≡ place_in handle (table_at room.now wait.base) }
{
    let n = wait.size(room);
    for i in from..n {
        if handle <= wait.handle_at(room, i) {
            return i;
        }
    }
    n
}

// The slots of a table of what waits from one place up to another, at the end of the spare table.
fn bring(room: &mut [u8], wait: EffectTable, from: usize, to: usize)
    requires loom { Loom room.old wait.base }
    requires from_le_to { from ≤ to }
    requires to_bound { to ≤ low32_at room.old wait.base }
    requires from_bound { low32_at room.old SPARE + (to - from) ≤ 128 }
    ensures { Holds SPARE 128 room.old room.new
        (table_at room.old SPARE ++ slice from to (table_at room.old wait.base)) }
{
    for i in from..to {
        room::SPARE.push_from(room, wait, i);
    }
}

// Slot i of what waits and slot j of the stretch as one, if anything is left of them.
fn bring_joined(room: &mut [u8], wait: EffectTable, i: usize, j: usize)
    requires loom { Loom room.old wait.base }
    requires i_bound { i < low32_at room.old wait.base }
    requires j_bound { j < low32_at room.old STRETCH }
    requires j_len_bound { length (table_at room.old SPARE ++ joined_at room.old wait.base i j) ≤ 128 }
    ensures { Holds SPARE 128 room.old room.new
        (table_at room.old SPARE ++ joined_at room.old wait.base i j) }
{
    // the kinds first, so that slots of which nothing is left are not read
    let before = wait.kind_at(room, i);
    let after = room::STRETCH.kind_at(room, j);
    if join_kind(before, after) == NOTHING {
        return;
    }
    let e = wait.slot_at(room, i);
    let op = room::STRETCH.slot_at(room, j);
    let x = join_slot(e, op);
    // of a slot that said nothing before, nothing may be left either
    if x.kind == NOTHING {
        return;
    }
    room::SPARE.push(room, x);
}

// Slot j of the stretch, after the slots of what waits with lower handles. The answer is where what waits goes on.
fn weave_one(room: &mut [u8], wait: EffectTable, from: usize, j: usize) -> usize
    requires { Weavable room.old wait.base from j }
    ensures { Wove room.old room.new wait.base (table_in room.old j) from j result }
{
    let handle = room::STRETCH.handle_at(room, j);
    let i = place_from(room, wait, from, handle);
    bring(room, wait, from, i);
    if wait.is_at(room, i, handle) {
        bring_joined(room, wait, i, j);
        return i + 1;
    }
    room::SPARE.push_from(room, room::STRETCH, j);
    i
}

// From a place of what waits on, and from one of the stretch on, both as one table in the place of the first.
fn weave(room: &mut [u8], wait: EffectTable, table: u8, first: usize, after: usize)
    requires settles { Settles room.old wait.base }
    requires passed { Passed (table_at room.old wait.base) (table_at room.old STRETCH) first after }
    requires after_len_bound { length (woven_from room.old wait.base table first after) ≤ 128 }
    ensures { Aside wait.base room.old room.new (woven_from room.old wait.base table first after) }
{
    room::SPARE.empty(room);
    let n = wait.size(room);
    let mut i = first;
    for j in after..room::STRETCH.size(room) {
        if room::STRETCH.table_at(room, j) == words::wide(table) {
            i = weave_one(room, wait, i, j);
        }
    }
    bring(room, wait, i, n);
    wait.put_tail(room, first, room::SPARE);
}

// What is on a table joins what waits for a rule on it. Nothing is written before the first slot that changes.
fn settle_table(room: &mut [u8], wait: EffectTable, table: u8)
    requires settles { Settles room.old wait.base }
    requires table_len_bound { length (settled_at room.old wait.base table) ≤ 128 }
    ensures { Aside wait.base room.old room.new (settled_at room.old wait.base table) }
{
    let mut i = 0;
    for j in 0..room::STRETCH.size(room) {
        let op = room::STRETCH.slot_at(room, j);
        if op.table == table {
            i = place_from(room, wait, i, op.handle);
            if !stays(room, wait, i, op) {
                weave(room, wait, table, i, j);
                return;
            }
        }
    }
}

fn settle_tables(room: &mut [u8], tables: [u8; 16])
    requires { Settleable room.old tables }
    ensures { WaitsSettled room.old room.new tables }
{
    for k in 0..room::RULES {
        if INACTIVE < tables[k] {
            return;
        }
        if tables[k] < INACTIVE {
            settle_table(room, room::wait(k), tables[k]);
        }
    }
}

// What was done since the last joining joins what waits for each active rule on its own table: no other rule is woken by it, or shown it.
pub fn settle(room: &mut [u8], tables: [u8; 16])
    requires { Settleable room.old tables }
    ensures { AllSettled room.old room.new tables }
{
    if room::STRETCH.size(room) == 0 {
        return;
    }
    settle_tables(room, tables);
    room::STRETCH.empty(room);
    room::CHOSEN.empty(room);
    room::WORKED.empty(room);
}

// Whether an effect wakes a rule: on its own table, an inserted handle (bit 0), a deleted one (bit 1), or
// an updated one whose mask meets the rule's columns (bit 2).
fn wakes(rule: Watch, e: Slot) -> bool
    ensures { result ≡ TransitionTables.wakes (watch_rule rule) (effect_meant e) }
{
    if words::wide(e.table) != rule.table {
        return false;
    }
    match e.kind {
        INSERTED => words::has_bit(rule.triggers, 0),
        DELETED => words::has_bit(rule.triggers, 1),
        UPDATED => {
            words::has_bit(rule.triggers, 2) && words::meet(words::wide(e.mask), rule.columns)
        }
        _ => false,
    }
}

// Whether what waits for rule k wakes it.
pub fn triggered(room: &[u8], k: usize, rule: Watch) -> bool
    requires laid { Laid room.now }
    requires k_bound { k < 16 }
    ensures { result ≡ any (λ p. TransitionTables.wakes (watch_rule rule) p.1) (waits_in room.now k) }
{
    let wait = room::wait(k);
    (0..wait.size(room)).any(|i| wakes(rule, wait.slot_at(room, i)))
}
