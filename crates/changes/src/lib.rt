// Row operations over all rows that an action chose or worked out, one after another.
#![tactic(auto)]

ghost use Rattle.std.specs.Prelude.{◌≡◌, ◌≤◌, Ok};
ghost use Rattle.meaning.specs.Processing.Actions.{delete_all, insert_all};
ghost use Rattle.meaning.specs.Made.{Taken};
ghost use Rattle.slots.specs.Slots.{table_at};
ghost use Rattle.room.specs.Room.{CHOSEN, WORKED, live_rows, rows_meant};
ghost use Rattle.room.specs.Represents.{Running};
ghost use Rattle.changes.specs.Steps.{Acts, values_in, Rewritten, UpdatesAll};
ghost use Rattle.changes.specs.declared.Stop.TheVariants.{Failed};

use rows::Reason;

// What ends a run: a rule rolls it back, or an operation fails for a reason.
#[derive(Clone, Copy)]
pub enum Stop {
    RolledBack,
    Failed(Reason),
}

impl From<Reason> for Stop {
    ghost from_gives = { λ reason stop. stop ≡ Failed reason };

    fn from(reason: Reason) -> Stop {
        Stop::Failed(reason)
    }
}

// Inserts a row for each that was worked out.
pub fn insert_all(room: &mut [u8], table: usize) -> Result<(), Stop>
    requires running { Running room.old }
    requires table_bound { table ≤ 3 }
    ensures { Acts room.old room.new (insert_all table (values_in room.old)) result }
{
    let n = room::WORKED.size(room);
    rows::space_for(room, n)?;
    for i in 0..n {
        let e = room::WORKED.slot_at(room, i);
        rows::insert_row(room, words::low_byte(table), e);
    }
    Ok(())
}

// Deletes every chosen row.
pub fn delete_all(room: &mut [u8])
    requires running { Running room.old }
    requires taken { Taken (live_rows room.old) 0 (rows_meant (table_at room.old CHOSEN)) }
    ensures { Acts room.old room.new (λ m. delete_all (rows_meant (table_at room.old CHOSEN)))
        (Ok tt) }
{
    for i in 0..room::CHOSEN.size(room) {
        let handle = room::CHOSEN.handle_at(room, i);
        rows::delete_row(room, handle).unwrap();
    }
}

// Puts every row that was worked out in the place of its old one.
pub fn update_all(room: &mut [u8], mask: usize)
    requires running { Running room.old }
    requires mask_bound { mask ≤ 15 }
    requires taken { Taken (live_rows room.old) 0 (rows_meant (table_at room.old CHOSEN)) }
    requires rewritten { Rewritten room.old mask }
    ensures { UpdatesAll room.old room.new mask }
{
    for i in 0..room::WORKED.size(room) {
        let e = room::WORKED.slot_at(room, i);
        rows::update_row(room, words::wide(e.kind), words::low_byte(mask), e).unwrap();
    }
}
