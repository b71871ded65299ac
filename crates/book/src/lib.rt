// The book: judged exactly, its rules and their actions decoded where they stand.
#![tactic(auto)]

ghost use Rattle.std.specs.Prelude.{◌≡◌, [], ◌^◌, ◌≤◌, ltb, length, if◌then◌else◌, IfSome};
ghost use Rattle.meaning.specs.Reading.{many, read_all};
ghost use Rattle.meaning.specs.Covers as Covers;
ghost use Rattle.meaning.specs.ByteLayouts as ByteLayouts;
ghost use Rattle.meaning.specs.ByteLayouts.{rule};
ghost use Rattle.meaning.specs.EntryPoints.{first_rule, rule_after};
ghost use Rattle.words.specs.Words.{read};
ghost use Rattle.book.specs.Books.{action_or, actions_or, condition_or, head_then, head_end, rule_or, book_or, Told, rule_span, SpanInside};

use terms::{Expressions, Query, Terms};
use words::Layout;

// An action; values, expressions and terms are named by the place of the first.
#[derive(Clone, Copy)]
pub enum Action {
    Rollback,
    Insert {
        table: usize,
        values: usize,
    },
    InsertFromQuery {
        table: usize,
        query: Query,
        expressions: usize,
    },
    Delete {
        table: usize,
        terms: Terms,
    },
    Update {
        table: usize,
        mask: usize,
        expressions: usize,
        terms: Terms,
    },
}

// A number of actions, and where the first stands.
#[derive(Clone, Copy)]
pub struct Actions {
    pub count: usize,
    pub first: usize,
}

// What stands before a rule's condition.
#[derive(Clone, Copy)]
pub struct Head {
    pub active: bool,
    pub table: usize,
    pub triggers: usize,
    pub columns: usize,
    pub precedes: usize,
}

// A rule; without a condition its actions run each time.
#[derive(Clone, Copy)]
pub struct Rule {
    pub head: Head,
    pub condition: Option<Query>,
    pub actions: Actions,
}

// What a well-formed book has beside its rules: the step limit, and how many rules there are.
#[derive(Clone, Copy)]
pub struct Frame {
    pub limit: usize,
    pub count: usize,
}

// Where the rules begin: after length, version, step limit and rule count.
pub const FIRST: usize = 8;

// At most 16 rules, and a step limit of at most 1,000.
pub const RULES: usize = 16;

pub const LIMIT: usize = 1000;

// As the log's insertion, but an action: three lines over a type of its own.
#[tactic(auto, using(fields::proofs::Laws::values_in_a_row), unfolding(meaning::specs::ByteLayouts::insert_row, meaning::specs::ByteLayouts::table))]
fn insert_row(s: &[u8], triggers: usize, at: usize) -> Option<(Action, usize)>
    ensures { action_or s.now triggers result ≡ ByteLayouts.insert_row triggers s.now at }
{
    let (table, values) = words::byte_within(s, at, 0, 3)?;
    let next = fields::values_end(s, values, 4)?;
    Some((Action::Insert { table, values }, next))
}

#[tactic(auto, using(words::proofs::Laws::read_in_a_row), unfolding(meaning::specs::ByteLayouts::insert_from_query, meaning::specs::ByteLayouts::table))]
fn insert_from_query(s: &[u8], triggers: usize, at: usize) -> Option<(Action, usize)>
    ensures { action_or s.now triggers result ≡ ByteLayouts.insert_from_query triggers s.now at }
{
    let (table, after) = words::byte_within(s, at, 0, 3)?;
    let (query, expressions) = terms::query_at(s, triggers, after)?;
    let next = words::many_end(&Expressions, s, expressions, 4)?;
    Some((
        Action::InsertFromQuery {
            table,
            query,
            expressions,
        },
        next,
    ))
}

#[tactic(auto, unfolding(meaning::specs::ByteLayouts::delete_rows, meaning::specs::ByteLayouts::table))]
fn delete_rows(s: &[u8], triggers: usize, at: usize) -> Option<(Action, usize)>
    ensures { action_or s.now triggers result ≡ ByteLayouts.delete_rows triggers s.now at }
{
    let (table, after) = words::byte_within(s, at, 0, 3)?;
    let (terms, next) = terms::terms_at(s, triggers, after)?;
    Some((Action::Delete { table, terms }, next))
}

#[tactic(auto, unfolding(meaning::specs::ByteLayouts::update_rows, meaning::specs::ByteLayouts::table, meaning::specs::ByteLayouts::mask))]
fn update_rows(s: &[u8], triggers: usize, at: usize) -> Option<(Action, usize)>
    ensures { action_or s.now triggers result ≡ ByteLayouts.update_rows triggers s.now at }
{
    let (table, after) = words::byte_within(s, at, 0, 3)?;
    let (mask, expressions) = words::byte_within(s, after, 1, 15)?;
    let many = usize::count_ones(mask) as usize;
    let end = words::many_end(&Expressions, s, expressions, many)?;
    let (terms, next) = terms::terms_at(s, triggers, end)?;
    Some((
        Action::Update {
            table,
            mask,
            expressions,
            terms,
        },
        next,
    ))
}

// The action at a place of a rule with these triggers. The numbers by which decoders choose are document 01's, so no enum stands between.
#[tactic(auto, unfolding(meaning::specs::ByteLayouts::action, meaning::specs::ByteLayouts::action_of, meaning::specs::Reading::byte))]
pub fn action_at(s: &[u8], triggers: usize, at: usize) -> Option<(Action, usize)>
    ensures { action_or s.now triggers result ≡ ByteLayouts.action triggers s.now at }
{
    let (kind, next) = words::byte_within(s, at, 0, 255)?;
    match kind {
        0 => Some((Action::Rollback, next)),
        1 => insert_row(s, triggers, next),
        2 => insert_from_query(s, triggers, next),
        3 => delete_rows(s, triggers, next),
        4 => update_rows(s, triggers, next),
        _ => None,
    }
}

// The actions of a rule with these triggers.
#[derive(Clone, Copy)]
struct RuleActions {
    triggers: usize,
}

impl Layout for RuleActions {
    ghost Value = { Covers.Action };

    ghost layout = { λ r. ByteLayouts.action r.triggers };

    fn end(&self, s: &[u8], at: usize) -> Option<usize> {
        Some(action_at(s, self.triggers, at)?.1)
    }
}

// 0, or 1 and a query.
#[tactic(auto, unfolding(meaning::specs::ByteLayouts::condition, meaning::specs::ByteLayouts::some_query))]
fn condition_at(s: &[u8], triggers: usize, at: usize) -> Option<(Option<Query>, usize)>
    ensures { condition_or s.now triggers result ≡ ByteLayouts.condition triggers s.now at }
{
    let (given, after) = words::byte_within(s, at, 0, 1)?;
    if given == 0 {
        return Some((None, after));
    }
    let (query, next) = terms::query_at(s, triggers, after)?;
    Some((Some(query), next))
}

// A number of actions, 1..4, and its actions.
#[tactic(auto, using(words::proofs::Laws::read_in_a_row), unfolding(meaning::specs::ByteLayouts::actions, crate::specs::Books::actions_meant))]
fn actions_at(s: &[u8], triggers: usize, at: usize) -> Option<(Actions, usize)>
    ensures { actions_or s.now triggers result ≡ ByteLayouts.actions triggers s.now at }
{
    let (count, first) = words::byte_within(s, at, 1, 4)?;
    let next = words::many_end(&RuleActions { triggers }, s, first, count)?;
    Some((Actions { count, first }, next))
}

// A column mask, as the triggers ask for: 1..15 if bit 2 is set, else 0.
#[tactic(auto, unfolding(meaning::specs::ByteLayouts::columns, meaning::specs::ByteLayouts::mask))]
fn columns_at(s: &[u8], triggers: usize, at: usize) -> Option<(usize, usize)>
    ensures { read result ≡ ByteLayouts.columns triggers s.now at }
{
    if words::has_bit(triggers, 2) {
        words::byte_within(s, at, 1, 15)
    } else {
        words::byte_within(s, at, 0, 0)
    }
}

// Whether a mask names only rules of a book of n.
#[tactic(auto, using(crate::proofs::Laws::shifted_out))]
fn names_rules(mask: usize, n: usize) -> bool
    requires { n ≤ 16 }
    ensures { result ≡ ltb mask (2 ^ n) }
{
    (mask >> n) == 0
}

// What stands before the condition of a rule of a book of n: active, table, triggers, columns, precedes.
#[tactic(auto, unfolding(meaning::specs::ByteLayouts::rule, meaning::specs::ByteLayouts::table, crate::specs::Books::rule_of))]
fn head_at(s: &[u8], n: usize, at: usize) -> Option<(Head, usize)>
    requires { n ≤ 16 }
    ensures result_value { head_then s.now result ≡ ByteLayouts.rule n s.now at }
    ensures result_in_bounds { head_end result ≤ length s.now }
{
    let (active, after_active) = words::byte_within(s, at, 0, 1)?;
    let (table, after_table) = words::byte_within(s, after_active, 0, 3)?;
    let (triggers, after_triggers) = words::byte_within(s, after_table, 1, 7)?;
    let (columns, after_columns) = columns_at(s, triggers, after_triggers)?;
    let (precedes, next) = words::number16(s, after_columns)?;
    if !names_rules(precedes, n) {
        return None;
    }
    Some((
        Head {
            active: active == 1,
            table,
            triggers,
            columns,
            precedes,
        },
        next,
    ))
}

// The rule at a place of a book of n rules.
#[tactic(auto, unfolding(crate::specs::Books::rule_meant))]
pub fn rule_at(s: &[u8], n: usize, at: usize) -> Option<(Rule, usize)>
    requires { n ≤ 16 }
    ensures { rule_or s.now result ≡ ByteLayouts.rule n s.now at }
{
    let (head, after_head) = head_at(s, n, at)?;
    let (condition, after) = condition_at(s, head.triggers, after_head)?;
    let (actions, next) = actions_at(s, head.triggers, after)?;
    Some((
        Rule {
            head,
            condition,
            actions,
        },
        next,
    ))
}

// The rules of a book of n.
#[derive(Clone, Copy)]
pub struct BookRules {
    pub n: usize,
    pub ghost few: { n ≤ 16 },
}

impl Layout for BookRules {
    ghost Value = { Covers.Rule };

    ghost layout = { λ b. ByteLayouts.rule b.n };

    fn end(&self, s: &[u8], at: usize) -> Option<usize> {
        Some(rule_at(s, self.n, at)?.1)
    }
}

// The step limit and the number of rules, where the book is well formed.
pub fn judge(s: &[u8]) -> Option<Frame>
    ensures result_value { book_or s.now result ≡ read_all ByteLayouts.book s.now }
    ensures told { Told s.now result }
{
    if !fields::well_framed(s) {
        return None;
    }
    let (limit, after) = words::number16(s, fields::FIELDS)?;
    if limit < 1 || LIMIT < limit {
        return None;
    }
    let (count, first) = words::byte_within(s, after, 0, RULES as u8)?;
    let end = words::many_end(&BookRules { n: count }, s, first, count)?;
    if end != s.len() {
        return None;
    }
    Some(Frame { limit, count })
}

// Where rule k of a well-formed book of n rules stands: from one place up to another.
pub fn rule_span(s: &[u8], n: usize, k: usize) -> Option<(usize, usize)>
    requires { n ≤ 16 }
    ensures span { result ≡ rule_span s.now n k }
    ensures inside { IfSome result (SpanInside s.now) }
{
    if n <= k {
        return None;
    }
    let start = words::many_end(&BookRules { n }, s, FIRST, k)?;
    let (_, end) = rule_at(s, n, start)?;
    Some((start, end))
}

// The bytes of rule k of a well-formed book of n rules, as a part of it; empty if there is no rule k. A part of the book in every case, as
// document 01 has it, so no `Option`.
pub fn rule_bytes(s: &[u8], n: usize, k: usize) -> &[u8]
    requires { n ≤ 16 }
    ensures { result.now ≡ (if ltb k n then rule_after s.now n (many k (rule n) s.now first_rule) else []) }
{
    match rule_span(s, n, k) {
        Some((start, end)) => &s[start..end],
        None => &s[0..0],
    }
}
