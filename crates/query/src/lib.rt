// Queries: the rows that a source shows, the terms that hold of a row, and the rows that an action chooses.
// Terms are asked one after another, each of the rows that are left; a match reads the columns of its source once.
#![tactic(auto)]

ghost use Rattle.std.specs.Prelude.{◌≡◌, Bool, ◌&&◌, ◌≤◌, ◌<◌, length, get_or};
ghost use Rattle.meaning.specs.Base.{select, some_in};
ghost use Rattle.meaning.specs.Values.{signed, compare as values_compare};
ghost use Rattle.meaning.specs.ByteLayouts.{pair, comparison};
ghost use Rattle.meaning.specs.Processing.Queries as Queries;
ghost use Rattle.words.specs.Words.{readable, low32_at};
ghost use Rattle.slots.specs.declared.Slot.{Slot};
ghost use Rattle.slots.specs.Slots.{table_at, Stands, blank};
ghost use Rattle.terms.specs.Terms.{term_meant, terms_meant, query_meant};
ghost use Rattle.room.specs.Room.{ROWS, Laid, row_meant, live_rows, transition_in};
ghost use Rattle.query.specs.Chosen.{base_of, shows as chosen_shows, Chose};
ghost use Rattle.query.specs.Picks.{slots_of, Within, PicksOut, AsPairs, match_holds, term_holds, FewPairs};
ghost use Rattle.query.specs.Columns.{with_pair, ColumnOf, ColumnsOf, wanted_of, has_at, some_below, Padded, kept_by};

use room::RowTable;
use terms::{Query, Term};

// Places in a table of rows, rising: those of the rows that are still wanted.
#[derive(Clone, Copy)]
struct Picked {
    count: usize,
    places: [u8; 64],
}

// The pairs of a match, four of them: where there are fewer, the first stands for the rest too.
#[derive(Clone, Copy)]
struct Pairs {
    own0: usize,
    other0: usize,
    own1: usize,
    other1: usize,
    own2: usize,
    other2: usize,
    own3: usize,
    other3: usize,
}

// What the own columns of the pairs hold.
#[derive(Clone, Copy)]
struct Wanted {
    v0: u32,
    v1: u32,
    v2: u32,
    v3: u32,
}

// Where a source's rows stand: a table's are among the live ones.
#[tactic(auto, unfolding(crate::specs::Chosen::base_of))]
fn table_of(source: usize) -> RowTable
    ensures { result.base ≡ base_of source }
{
    match source {
        0..=3 => room::LIVE,
        4 => room::INSERTED,
        5 => room::DELETED,
        6 => room::NEW,
        _ => room::OLD,
    }
}

// Whether the slot i of where a source's rows stand is one of the source's: asked before the row is read.
#[tactic(auto, unfolding(crate::specs::Chosen::shows))]
fn shown_at(room: &[u8], table: RowTable, source: usize, i: usize) -> bool
    requires stands { Stands table.base ROWS room.now }
    requires i_bound { i < low32_at room.now table.base }
    ensures { result ≡ chosen_shows source (get_or (table_at room.now table.base) i blank) }
{
    if source < 4 {
        return table.table_at(room, i) == source;
    }
    true
}

// The rows of a table that a source shows.
fn shown_rows(room: &[u8], table: RowTable, source: usize) -> Picked
    requires { Stands table.base ROWS room.now }
    ensures { PicksOut (table_at room.now table.base) (select (chosen_shows source) (table_at room.now table.base)) result }
{
    let mut places = [0; 64];
    let mut count = 0;
    for i in 0..table.size(room) {
        if shown_at(room, table, source, i) {
            places[count] = (i % 256) as u8;
            count += 1;
        }
    }
    Picked { count, places }
}

// A test of a row that stands in a table.
trait Test {
    ghost passes: { Self → Slot → Bool };

    fn passes(&self, room: &[u8], table: RowTable, i: usize) -> bool
        requires stands { Stands table.base ROWS room.now }
        requires i_bound { i < low32_at room.now table.base }
        ensures { result ≡ passes self.now (get_or (table_at room.now table.base) i blank) };
}

// Those of some rows of a table that pass a test.
fn kept<T: Test>(room: &[u8], table: RowTable, rows: Picked, test: &T) -> Picked
    requires stands { Stands table.base ROWS room.now }
    requires within { Within (table_at room.now table.base) rows }
    ensures { PicksOut (table_at room.now table.base)
        (select (T.passes test.now) (slots_of (table_at room.now table.base) rows)) result }
{
    let mut places = rows.places;
    let mut count = 0;
    for j in 0..rows.count {
        if test.passes(room, table, words::wide(places[j])) {
            places[count] = places[j];
            count += 1;
        }
    }
    Picked { count, places }
}

// A comparison of a column with a constant.
#[derive(Clone, Copy)]
struct AgainstConstant {
    op: usize,
    column: usize,
    constant: u32,
}

impl Test for AgainstConstant {
    ghost passes = { λ t e. values_compare (comparison t.op) (Queries.cell (row_meant e) t.column) (signed t.constant) };

    fn passes(&self, room: &[u8], table: RowTable, i: usize) -> bool {
        words::compare(self.op, table.value_at(room, i, self.column), self.constant)
    }
}

// A comparison of two columns.
#[derive(Clone, Copy)]
struct AgainstColumn {
    op: usize,
    column: usize,
    other: usize,
}

impl Test for AgainstColumn {
    ghost passes = { λ t e.
        values_compare (comparison t.op) (Queries.cell (row_meant e) t.column) (Queries.cell (row_meant e) t.other) };

    fn passes(&self, room: &[u8], table: RowTable, i: usize) -> bool {
        words::compare(
            self.op,
            table.value_at(room, i, self.column),
            table.value_at(room, i, self.other),
        )
    }
}

// One pair more in front; the last gives way.
#[tactic(auto, unfolding(crate::specs::Columns::with_pair))]
fn with_pair(p: Pairs, own: usize, other: usize) -> Pairs
    ensures { result ≡ with_pair own other p }
{
    Pairs {
        own0: own,
        other0: other,
        own1: p.own0,
        other1: p.other0,
        own2: p.own1,
        other2: p.other1,
        own3: p.own2,
        other3: p.other2,
    }
}

// The pairs of a match, one to four.
fn pairs_at(book: &[u8], at: usize, n: usize) -> Pairs
    requires in_bounds { 1 ≤ length (readable n pair book.now at) }
    requires at_len_bound { length (readable n pair book.now at) ≤ 4 }
    ensures { AsPairs (readable n pair book.now at) result }
{
    let own0 = words::byte(book, at);
    let other0 = words::byte(book, at + 1);
    let mut p = Pairs {
        own0,
        other0,
        own1: own0,
        other1: other0,
        own2: own0,
        other2: other0,
        own3: own0,
        other3: other0,
    };
    let mut here = at + 2;
    for _ in 1..n {
        let own = words::byte(book, here);
        if 3 < own {
            return p;
        }
        let other = words::byte(book, here + 1);
        if 3 < other {
            return p;
        }
        p = with_pair(p, own, other);
        here += 2;
    }
    p
}

// The values of picked rows in a column, one after another; every place after the last has the first.
fn column_of(room: &[u8], table: RowTable, rows: Picked, column: usize) -> [u32; 64]
    requires stands { Stands table.base ROWS room.now }
    requires within { Within (table_at room.now table.base) rows }
    requires count_nonzero { 0 < rows.count }
    ensures { ColumnOf (table_at room.now table.base) rows column result }
{
    let first = table.value_at(room, words::wide(rows.places[0]), column);
    let mut values = [first; 64];
    for j in 1..rows.count {
        values[j] = table.value_at(room, words::wide(rows.places[j]), column);
    }
    values
}

// The columns that a match reads of its source rows, one row or more: every place after the last row has the first row's values.
#[derive(Clone, Copy)]
struct SourceColumns {
    count: usize,
    s0: [u32; 64],
    s1: [u32; 64],
    s2: [u32; 64],
    s3: [u32; 64],
    ghost few: { (0 < count) × (count ≤ 64) },
    ghost padded: { (Padded count s0) × (Padded count s1) × (Padded count s2) × (Padded count s3) },
}

// The columns of picked rows, one or more, on the source side of the pairs.
fn columns_of(room: &[u8], table: RowTable, rows: Picked, p: Pairs) -> SourceColumns
    requires stands { Stands table.base ROWS room.now }
    requires within { Within (table_at room.now table.base) rows }
    requires count_nonzero { 0 < rows.count }
    ensures count { result.count ≡ rows.count }
    ensures columns { ColumnsOf (table_at room.now table.base) rows p result.s0 result.s1 result.s2 result.s3 }
{
    SourceColumns {
        count: rows.count,
        s0: column_of(room, table, rows, p.other0),
        s1: column_of(room, table, rows, p.other1),
        s2: column_of(room, table, rows, p.other2),
        s3: column_of(room, table, rows, p.other3),
    }
}

impl SourceColumns {
    // Whether the row j has what is wanted.
    #[tactic(auto, unfolding(crate::specs::Columns::has_at))]
    fn has_at(&self, w: Wanted, j: usize) -> bool
        requires { j < 64 }
        ensures { result ≡ has_at self.now.s0 self.now.s1 self.now.s2 self.now.s3 w j }
    {
        self.s0[j] == w.v0 && self.s1[j] == w.v1 && self.s2[j] == w.v2 && self.s3[j] == w.v3
    }

    // Whether one of the rows has what is wanted: one by one, up to the first that has.
    fn some_of_few(&self, w: Wanted) -> bool
        ensures { result ≡ some_below (has_at self.now.s0 self.now.s1 self.now.s2 self.now.s3 w) self.now.count }
    {
        (0..self.count).any(|j| self.has_at(w, j))
    }

    // Whether one of all 64 places has what is wanted: counted over all of them, so that the compiler compares many at a time.
    fn some_of_64(&self, w: Wanted) -> bool
        ensures { result ≡ some_below (has_at self.now.s0 self.now.s1 self.now.s2 self.now.s3 w) 64 }
    {
        let mut hits: u32 = 0;
        for j in 0..64 {
            let differs = (self.s0[j] ^ w.v0)
                | (self.s1[j] ^ w.v1)
                | (self.s2[j] ^ w.v2)
                | (self.s3[j] ^ w.v3);
            hits += (differs == 0) as u32;
        }
        0 < hits
    }

    // Whether one of the rows has what is wanted. A few are asked one by one; of more than that, all 64 places are compared.
    fn some_has(&self, w: Wanted) -> bool
        ensures { result ≡ some_below (has_at self.now.s0 self.now.s1 self.now.s2 self.now.s3 w) self.now.count }
    {
        if self.count <= 16 {
            return self.some_of_few(w);
        }
        self.some_of_64(w)
    }
}

// What the own columns of the pairs hold in the row i of a table.
#[tactic(auto, unfolding(crate::specs::Columns::wanted_of))]
fn wanted_by(room: &[u8], table: RowTable, i: usize, p: Pairs) -> Wanted
    requires stands { Stands table.base ROWS room.now }
    requires i_bound { i < low32_at room.now table.base }
    ensures { result ≡ wanted_of p (get_or (table_at room.now table.base) i blank) }
{
    Wanted {
        v0: table.value_at(room, i, p.own0),
        v1: table.value_at(room, i, p.own1),
        v2: table.value_at(room, i, p.own2),
        v3: table.value_at(room, i, p.own3),
    }
}

// A match with source rows, or its opposite.
#[derive(Clone, Copy)]
struct Matching {
    negated: bool,
    pairs: Pairs,
    columns: SourceColumns,
}

impl Test for Matching {
    ghost passes = { λ t e. kept_by t.negated
        (some_below (has_at t.columns.s0 t.columns.s1 t.columns.s2 t.columns.s3 (wanted_of t.pairs e)) t.columns.count) };

    fn passes(&self, room: &[u8], table: RowTable, i: usize) -> bool {
        let found = self.columns.some_has(wanted_by(room, table, i, self.pairs));
        if self.negated {
            return !found;
        }
        found
    }
}

// The rows of which a match with a source holds, or does not.
fn match_rows(
    room: &[u8],
    book: &[u8],
    table: RowTable,
    negated: bool,
    source: usize,
    count: usize,
    pairs: usize,
    rows: Picked,
) -> Picked
    requires laid { Laid room.now }
    requires stands { Stands table.base ROWS room.now }
    requires within { Within (table_at room.now table.base) rows }
    requires in_bounds { 1 ≤ length (readable count pair book.now pairs) }
    requires pairs_len_bound { length (readable count pair book.now pairs) ≤ 4 }
    ensures { PicksOut (table_at room.now table.base)
        (select (match_holds room.now (readable count pair book.now pairs) source negated)
        (slots_of (table_at room.now table.base) rows)) result }
{
    let from = table_of(source);
    let others = shown_rows(room, from, source);
    if others.count == 0 {
        if negated {
            return rows;
        }
        return Picked { count: 0, ..rows };
    }
    let pairs = pairs_at(book, pairs, count);
    let test = Matching {
        negated,
        pairs,
        columns: columns_of(room, from, others, pairs),
    };
    kept(room, table, rows, &test)
}

// The rows of which a term holds.
fn term_rows(room: &[u8], book: &[u8], table: RowTable, t: Term, rows: Picked) -> Picked
    requires laid { Laid room.now }
    requires stands { Stands table.base ROWS room.now }
    requires within { Within (table_at room.now table.base) rows }
    requires few_pairs { FewPairs (term_meant book.now t) }
    ensures { PicksOut (table_at room.now table.base)
        (select (term_holds room.now (term_meant book.now t)) (slots_of (table_at room.now table.base) rows)) result }
{
    match t {
        Term::Constant {
            op,
            column,
            constant,
        } => {
            let test = AgainstConstant {
                op,
                column,
                constant,
            };
            kept(room, table, rows, &test)
        }
        Term::Columns { op, column, other } => {
            let test = AgainstColumn { op, column, other };
            kept(room, table, rows, &test)
        }
        Term::Match {
            negated,
            source,
            count,
            pairs,
        } => match_rows(room, book, table, negated, source, count, pairs, rows),
    }
}

// The rows that a query yields: term by term, each asked of those that are left.
fn wanted_rows(room: &[u8], book: &[u8], triggers: usize, q: Query, table: RowTable) -> Picked
    requires laid { Laid room.now }
    requires base_value { table.base ≡ base_of q.source }
    ensures { PicksOut (table_at room.now table.base)
        (select (λ e. chosen_shows q.source e && Queries.all_hold (transition_in room.now)
        (live_rows room.now) (terms_meant book.now triggers q.terms) (row_meant e))
        (table_at room.now table.base)) result }
{
    let mut rows = shown_rows(room, table, q.source);
    let mut here = q.terms.first;
    for _ in 0..q.terms.count {
        let Some((term, next)) = terms::term_at(book, triggers, here) else {
            return rows;
        };
        rows = term_rows(room, book, table, term, rows);
        here = next;
    }
    rows
}

// Whether a query yields a row.
pub fn yields(room: &[u8], book: &[u8], triggers: usize, q: Query) -> bool
    requires { Laid room.now }
    ensures { result ≡ some_in (Queries.chosen (transition_in room.now) (live_rows room.now)
        (query_meant book.now triggers q)) }
{
    let rows = wanted_rows(room, book, triggers, q, table_of(q.source));
    0 < rows.count
}

// The rows that a query yields, by rising handle, become the chosen ones.
pub fn choose(room: &mut [u8], book: &[u8], triggers: usize, q: Query)
    requires { Laid room.old }
    ensures { Chose room.old room.new (query_meant book.now triggers q) }
{
    room::CHOSEN.empty(room);
    let table = table_of(q.source);
    let rows = wanted_rows(room, book, triggers, q, table);
    for j in 0..rows.count {
        room::CHOSEN.push_place(room, table, words::wide(rows.places[j]));
    }
}
