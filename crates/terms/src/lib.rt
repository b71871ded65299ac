// Terms, queries and expressions of a rule, decoded from the book where they stand. Judging a book and
// evaluating it later read through the same functions.
#![tactic(auto)]

ghost use Rattle.std.specs.Prelude.{◌≡◌};
ghost use Rattle.meaning.specs.Covers as Covers;
ghost use Rattle.meaning.specs.ByteLayouts as ByteLayouts;
ghost use Rattle.terms.specs.Terms.{source_fits, source_or, match_meant, term_or, terms_or, query_or, expression_or};

use words::Layout;

// A term: a column against a constant or a column, or a match whose pairs stand at a place. Comparison and row source by their numbers, as in
// `words::compare` and `Query`.
#[derive(Clone, Copy)]
pub enum Term {
    Constant {
        op: usize,
        column: usize,
        constant: u32,
    },
    Columns {
        op: usize,
        column: usize,
        other: usize,
    },
    Match {
        negated: bool,
        source: usize,
        count: usize,
        pairs: usize,
    },
}

// A number of terms, and where the first stands.
#[derive(Clone, Copy)]
pub struct Terms {
    pub count: usize,
    pub first: usize,
}

// A row source, by its number, and terms. Whoever evaluates a query takes every number (above 6 it is old-updated), so it is no enum.
#[derive(Clone, Copy)]
pub struct Query {
    pub source: usize,
    pub terms: Terms,
}

#[derive(Clone, Copy)]
pub enum Expression {
    Constant(u32),
    Column(usize),
    Sum { column: usize, constant: u32 },
}

// Whether a rule with these triggers may name a row source: 4 needs bit 0, 5 bit 1, 6 and 7 bit 2.
#[tactic(auto, unfolding(crate::specs::Terms::source_fits))]
pub fn source_fits(triggers: usize, n: usize) -> bool
    ensures { result ≡ source_fits triggers n }
{
    match n {
        0..=3 => true,
        4 => words::has_bit(triggers, 0),
        5 => words::has_bit(triggers, 1),
        6 => words::has_bit(triggers, 2),
        7 => words::has_bit(triggers, 2),
        _ => false,
    }
}

// A row source that a rule with these triggers may name.
#[tactic(auto, using(crate::proofs::Laws::source_read), unfolding(meaning::specs::ByteLayouts::source, meaning::specs::Reading::byte))]
fn source_at(s: &[u8], triggers: usize, at: usize) -> Option<(usize, usize)>
    ensures { source_or result ≡ ByteLayouts.source triggers s.now at }
{
    let (source, next) = words::byte_within(s, at, 0, 255)?;
    if !source_fits(triggers, source) {
        return None;
    }
    Some((source, next))
}

#[derive(Clone, Copy)]
struct Pairs;

impl Layout for Pairs {
    ghost Value = { Covers.Pair };

    ghost layout = { λ _. ByteLayouts.pair };

    #[tactic(auto, unfolding(meaning::specs::ByteLayouts::pair, meaning::specs::ByteLayouts::column))]
    fn end(&self, s: &[u8], at: usize) -> Option<usize> {
        let (_own, next) = words::byte_within(s, at, 0, 3)?;
        let (_other, end) = words::byte_within(s, next, 0, 3)?;
        Some(end)
    }
}

#[tactic(auto, unfolding(meaning::specs::ByteLayouts::against_constant, meaning::specs::ByteLayouts::column, meaning::specs::ByteLayouts::value))]
fn against_constant(s: &[u8], triggers: usize, at: usize, op: usize) -> Option<(Term, usize)>
    ensures { term_or s.now result ≡ ByteLayouts.against_constant triggers op s.now at }
{
    let (column, after) = words::byte_within(s, at, 0, 3)?;
    let (constant, next) = words::number32(s, after)?;
    Some((
        Term::Constant {
            op,
            column,
            constant,
        },
        next,
    ))
}

#[tactic(auto, unfolding(meaning::specs::ByteLayouts::against_column, meaning::specs::ByteLayouts::column))]
fn against_column(s: &[u8], triggers: usize, at: usize, op: usize) -> Option<(Term, usize)>
    ensures { term_or s.now result ≡ ByteLayouts.against_column triggers op s.now at }
{
    let (column, after) = words::byte_within(s, at, 0, 3)?;
    let (other, next) = words::byte_within(s, after, 0, 3)?;
    Some((Term::Columns { op, column, other }, next))
}

#[tactic(auto, using(words::proofs::Laws::read_in_a_row), unfolding(meaning::specs::ByteLayouts::matching))]
fn matching(s: &[u8], triggers: usize, at: usize, negated: bool) -> Option<(Term, usize)>
    ensures { term_or s.now result ≡ ByteLayouts.matching triggers (match_meant negated) s.now at }
{
    let (source, after) = source_at(s, triggers, at)?;
    let (count, pairs) = words::byte_within(s, after, 1, 4)?;
    let next = words::many_end(&Pairs, s, pairs, count)?;
    Some((
        Term::Match {
            negated,
            source,
            count,
            pairs,
        },
        next,
    ))
}

// The term at a place of a rule with these triggers. The numbers by which decoders choose are document 01's, in its ranges.
#[tactic(auto, unfolding(meaning::specs::ByteLayouts::term, meaning::specs::ByteLayouts::term_of, meaning::specs::Reading::byte))]
pub fn term_at(s: &[u8], triggers: usize, at: usize) -> Option<(Term, usize)>
    ensures { term_or s.now result ≡ ByteLayouts.term triggers s.now at }
{
    let (op, next) = words::byte_within(s, at, 0, 255)?;
    match op {
        0..=5 => against_constant(s, triggers, next, op),
        6..=11 => against_column(s, triggers, next, op - 6),
        12 => matching(s, triggers, next, false),
        13 => matching(s, triggers, next, true),
        _ => None,
    }
}

// The terms of a rule with these triggers.
#[derive(Clone, Copy)]
struct RuleTerms {
    triggers: usize,
}

impl Layout for RuleTerms {
    ghost Value = { Covers.Term };

    ghost layout = { λ r. ByteLayouts.term r.triggers };

    fn end(&self, s: &[u8], at: usize) -> Option<usize> {
        Some(term_at(s, self.triggers, at)?.1)
    }
}

// A term count, 0..4, and its terms.
#[tactic(auto, using(words::proofs::Laws::read_in_a_row), unfolding(meaning::specs::ByteLayouts::terms, crate::specs::Terms::terms_meant))]
pub fn terms_at(s: &[u8], triggers: usize, at: usize) -> Option<(Terms, usize)>
    ensures { terms_or s.now triggers result ≡ ByteLayouts.terms triggers s.now at }
{
    let (count, first) = words::byte_within(s, at, 0, 4)?;
    let next = words::many_end(&RuleTerms { triggers }, s, first, count)?;
    Some((Terms { count, first }, next))
}

// A row source and terms.
#[tactic(auto, unfolding(meaning::specs::ByteLayouts::query, crate::specs::Terms::query_meant))]
pub fn query_at(s: &[u8], triggers: usize, at: usize) -> Option<(Query, usize)>
    ensures { query_or s.now triggers result ≡ ByteLayouts.query triggers s.now at }
{
    let (source, after) = source_at(s, triggers, at)?;
    let (terms, next) = terms_at(s, triggers, after)?;
    Some((Query { source, terms }, next))
}

#[tactic(auto, unfolding(meaning::specs::ByteLayouts::constant, meaning::specs::ByteLayouts::value))]
fn constant(s: &[u8], at: usize) -> Option<(Expression, usize)>
    ensures { expression_or result ≡ ByteLayouts.constant s.now at }
{
    let (constant, next) = words::number32(s, at)?;
    Some((Expression::Constant(constant), next))
}

#[tactic(auto, unfolding(meaning::specs::ByteLayouts::of_column, meaning::specs::ByteLayouts::column))]
fn column(s: &[u8], at: usize) -> Option<(Expression, usize)>
    ensures { expression_or result ≡ ByteLayouts.of_column s.now at }
{
    let (column, next) = words::byte_within(s, at, 0, 3)?;
    Some((Expression::Column(column), next))
}

#[tactic(auto, unfolding(meaning::specs::ByteLayouts::sum, meaning::specs::ByteLayouts::column, meaning::specs::ByteLayouts::value))]
fn sum(s: &[u8], at: usize) -> Option<(Expression, usize)>
    ensures { expression_or result ≡ ByteLayouts.sum s.now at }
{
    let (column, after) = words::byte_within(s, at, 0, 3)?;
    let (constant, next) = words::number32(s, after)?;
    Some((Expression::Sum { column, constant }, next))
}

// The expression at a place, by document 01's number too.
#[tactic(auto, unfolding(meaning::specs::ByteLayouts::expression, meaning::specs::ByteLayouts::expression_of, meaning::specs::Reading::byte))]
pub fn expression_at(s: &[u8], at: usize) -> Option<(Expression, usize)>
    ensures { expression_or result ≡ ByteLayouts.expression s.now at }
{
    let (kind, next) = words::byte_within(s, at, 0, 255)?;
    match kind {
        0 => constant(s, next),
        1 => column(s, next),
        2 => sum(s, next),
        _ => None,
    }
}

#[derive(Clone, Copy)]
pub struct Expressions;

impl Layout for Expressions {
    ghost Value = { Covers.Expression };

    ghost layout = { λ _. ByteLayouts.expression };

    fn end(&self, s: &[u8], at: usize) -> Option<usize> {
        Some(expression_at(s, at)?.1)
    }
}
