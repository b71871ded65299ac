// What an operation of the log and an action of a rule do: all rows are chosen and all expressions worked
// out before a row changes; one that fails changes no row.
#![tactic(auto)]

ghost use Rattle.std.specs.Prelude.{◌≡◌, [], ◌∷◌, ◌≤◌, length};
ghost use Rattle.std.specs.Int.Count.{ones};
ghost use Rattle.meaning.specs.Covers as Covers;
ghost use Rattle.meaning.specs.Processing.Actions as Actions;
ghost use Rattle.fields.specs.Fields.{values_at};
ghost use Rattle.transaction_log.specs.Log.{operation_meant};
ghost use Rattle.terms.specs.Terms.{terms_meant, query_meant};
ghost use Rattle.book.specs.Books.{expressions_at, action_meant};
ghost use Rattle.room.specs.Room.{transition_in};
ghost use Rattle.room.specs.Represents.{Running};
ghost use Rattle.changes.specs.Steps.{Acts};
ghost use Rattle.action.specs.Fit.{FitOperation, FitAction};

use book::Action;
use changes::Stop;
use rows::Reason;
use terms::{Query, Terms};
use transaction_log::Operation;

// Inserts one row of values that stand in the log or the book.
fn insert_values(room: &mut [u8], s: &[u8], table: usize, values: usize) -> Result<(), Stop>
    requires running { Running room.old }
    requires table_bound { table ≤ 3 }
    requires values_len { length (values_at s.now 4 values) ≡ 4 }
    ensures { Acts room.old room.new (Actions.insert_all table (values_at s.now 4 values ∷ [])) result }
{
    working::work_out_values(room, s, values);
    changes::insert_all(room, table)
}

// The log's delete of the row with a handle.
fn delete_one(room: &mut [u8], handle: u32) -> Result<(), Stop>
    requires { Running room.old }
    ensures { Acts room.old room.new (Actions.operate (Covers.LogOperation.delete handle)) result }
{
    rows::delete_row(room, handle)?;
    Ok(())
}

// The log's update of the row with a handle.
fn update_one(
    room: &mut [u8],
    log: &[u8],
    handle: u32,
    mask: usize,
    values: usize,
) -> Result<(), Stop>
    requires running { Running room.old }
    requires mask_bound { mask ≤ 15 }
    requires values_len { length (values_at log.now (ones mask) values) ≡ ones mask }
    ensures { Acts room.old room.new
        (Actions.operate (Covers.LogOperation.update handle mask (values_at log.now (ones mask) values))) result }
{
    let Some(i) = room::LIVE.find(room, handle) else {
        return Err(Stop::Failed(Reason::NoSuchRow));
    };
    let old = room::LIVE.slot_at(room, i);
    let new = working::with_values(log, values, mask, old);
    rows::update_row(room, i, words::low_byte(mask), new)?;
    Ok(())
}

// An operation of the log: what to run is a match on what was decoded.
pub fn operate(room: &mut [u8], log: &[u8], q: Operation) -> Result<(), Stop>
    requires running { Running room.old }
    requires fit_operation { FitOperation (operation_meant log.now q) }
    ensures { Acts room.old room.new (Actions.operate (operation_meant log.now q)) result }
{
    match q {
        Operation::Insert { table, values } => insert_values(room, log, table, values),
        Operation::Delete { handle } => delete_one(room, handle),
        Operation::Update {
            handle,
            mask,
            values,
        } => update_one(room, log, handle, mask, values),
    }
}

// Inserts a row for each that a query yields.
fn insert_from_query(
    room: &mut [u8],
    book: &[u8],
    triggers: usize,
    table: usize,
    query: Query,
    expressions: usize,
) -> Result<(), Stop>
    requires running { Running room.old }
    requires table_bound { table ≤ 3 }
    requires expressions_len { length (expressions_at book.now 4 expressions) ≡ 4 }
    ensures { Acts room.old room.new
        (Actions.perform (transition_in room.old) (Covers.Action.insert_from_query table
        (query_meant book.now triggers query) (expressions_at book.now 4 expressions))) result }
{
    query::choose(room, book, triggers, query);
    working::work_out_all(room, book, expressions, 15)?;
    changes::insert_all(room, table)
}

// Deletes the rows of a table of which all terms hold.
fn delete_rows(
    room: &mut [u8],
    book: &[u8],
    triggers: usize,
    table: usize,
    terms: Terms,
) -> Result<(), Stop>
    requires running { Running room.old }
    requires table_bound { table ≤ 3 }
    ensures { Acts room.old room.new
        (Actions.perform (transition_in room.old) (Covers.Action.delete_rows table
        (terms_meant book.now triggers terms))) result }
{
    let q = Query {
        source: table,
        terms,
    };
    query::choose(room, book, triggers, q);
    changes::delete_all(room);
    Ok(())
}

// Updates the rows of a table of which all terms hold.
fn update_rows(
    room: &mut [u8],
    book: &[u8],
    triggers: usize,
    table: usize,
    mask: usize,
    expressions: usize,
    terms: Terms,
) -> Result<(), Stop>
    requires running { Running room.old }
    requires table_bound { table ≤ 3 }
    requires mask_bound { mask ≤ 15 }
    requires expressions_len { length (expressions_at book.now (ones mask) expressions) ≡ ones mask }
    ensures { Acts room.old room.new
        (Actions.perform (transition_in room.old) (Covers.Action.update_rows table mask
        (expressions_at book.now (ones mask) expressions) (terms_meant book.now triggers terms))) result }
{
    let q = Query {
        source: table,
        terms,
    };
    query::choose(room, book, triggers, q);
    working::work_out_all(room, book, expressions, mask)?;
    changes::update_all(room, mask);
    Ok(())
}

// An action of a rule with these triggers: what to run is a match on what was decoded.
pub fn perform(room: &mut [u8], book: &[u8], triggers: usize, a: Action) -> Result<(), Stop>
    requires running { Running room.old }
    requires fit_action { FitAction (action_meant book.now triggers a) }
    ensures { Acts room.old room.new
        (Actions.perform (transition_in room.old) (action_meant book.now triggers a)) result }
{
    match a {
        Action::Rollback => Err(Stop::RolledBack),
        Action::Insert { table, values } => insert_values(room, book, table, values),
        Action::InsertFromQuery {
            table,
            query,
            expressions,
        } => insert_from_query(room, book, triggers, table, query, expressions),
        Action::Delete { table, terms } => delete_rows(room, book, triggers, table, terms),
        Action::Update {
            table,
            mask,
            expressions,
            terms,
        } => update_rows(room, book, triggers, table, mask, expressions, terms),
    }
}
