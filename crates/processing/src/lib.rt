// Processing: the log, then considerations of triggered rules until none is triggered, the limit is reached,
// or the run ends.
#![tactic(auto)]

ghost use Rattle.std.specs.Prelude.{◌≡◌, ◌+◌, ◌<◌};
ghost use Rattle.plan.specs.Plans.{rules_in, Lists};
ghost use Rattle.processing.specs.Endings.{Starts, Processes, stopped};
ghost use Rattle.processing.specs.Rest.{Midway, Looks, Steps};

use changes::Stop;
use plan::Plan;
use rows::Reason;

#[derive(Clone, Copy)]
pub enum Outcome {
    Commit,
    RolledBack,
    StepLimit,
    Failed(Reason),
}

impl From<Stop> for Outcome {
    ghost from_gives = { λ stop outcome. outcome ≡ stopped stop };

    fn from(stop: Stop) -> Outcome {
        match stop {
            Stop::RolledBack => Outcome::RolledBack,
            Stop::Failed(reason) => Outcome::Failed(reason),
        }
    }
}

// The outcome, and the number of considerations.
#[derive(Clone, Copy)]
pub struct Ended {
    pub outcome: Outcome,
    pub count: usize,
}

// How many considerations were made, and how many the book allows.
#[derive(Clone, Copy)]
pub struct Budget {
    pub count: usize,
    pub limit: usize,
}

// Counts one consideration more.
fn spend(b: &mut Budget)
    requires { b.old.count < b.old.limit }
    ensures { (b.new.count ≡ b.old.count + 1) × (b.new.limit ≡ b.old.limit) }
{
    b.count += 1;
}

// The budget after one consideration more.
fn spent(b: Budget) -> Budget
    requires { b.count < b.limit }
    ensures { (result.count ≡ b.count + 1) × (result.limit ≡ b.limit) }
{
    let mut c = b;
    spend(&mut c);
    c
}

// A run that ended with this outcome after `count` considerations.
fn ending(outcome: Outcome, count: usize) -> Ended
    ensures { (result.outcome ≡ outcome) × (result.count ≡ count) }
{
    Ended { outcome, count }
}

// What was done joins what waits; then the first triggered rule in total order.
fn next_rule(room: &mut [u8], book: &[u8], plan: &Plan) -> Option<usize>
    requires lists { Lists book.now plan.now.count plan.now }
    requires midway { Midway room.old book.now plan.now }
    ensures { Looks room.old room.new book.now plan.now result }
{
    effects::settle(room, plan.tables);
    trigger::first_triggered(room, book, plan)
}

// Considers triggered rules, the first in total order each time.
fn steps(room: &mut [u8], book: &[u8], plan: &Plan, limit: usize) -> Ended
    requires lists { Lists book.now plan.now.count plan.now }
    requires midway { Midway room.old book.now plan.now }
    ensures { Steps room.old room.new book.now plan.now limit result }
{
    let mut b = Budget { count: 0, limit };
    // document 01: count and limit travel as one small record, spent at each consideration; so this is no `for`
    while b.count < b.limit {
        let Some(k) = next_rule(room, book, plan) else {
            return ending(Outcome::Commit, b.count);
        };
        b = spent(b);
        if let Err(stop) = consider::consider(room, book, plan, k) {
            return ending(stop.into(), b.count);
        }
    }
    match next_rule(room, book, plan) {
        None => ending(Outcome::Commit, b.count),
        Some(_) => ending(Outcome::StepLimit, b.count),
    }
}

// A run of a log of `operations` operations, from the start image that stands in the room.
pub fn process(
    room: &mut [u8],
    book: &[u8],
    log: &[u8],
    plan: &Plan,
    limit: usize,
    operations: usize,
) -> Ended
    requires lists { Lists book.now plan.now.count plan.now }
    requires starts { Starts room.old plan.now.tables (rules_in book.now plan.now.count) }
    ensures { Processes room.old room.new book.now log.now plan.now limit operations result }
{
    if let Err(stop) = series::run_log(room, log, operations) {
        return ending(stop.into(), 0);
    }
    steps(room, book, plan, limit)
}
