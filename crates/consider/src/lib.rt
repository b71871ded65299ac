// A consideration: what waited for the rule becomes its transition tables, and is emptied; if its condition
// holds, its actions run.
#![tactic(auto)]

ghost use Rattle.std.specs.Prelude.{◌≡◌, ◌≤◌, ◌<◌, get_or};
ghost use Rattle.meaning.specs.Processing as Processing;
ghost use Rattle.book.specs.Books.{condition_meant};
ghost use Rattle.plan.specs.Plans.{Lists};
ghost use Rattle.room.specs.Room.{Laid, transition_in, live_rows};
ghost use Rattle.room.specs.Represents.{Ready};
ghost use Rattle.consider.specs.Considers.{Considers};

use changes::Stop;
use plan::Plan;
use terms::Query;

// Whether the condition of a rule with these triggers is absent, or its query yields a row.
fn condition_holds(room: &[u8], book: &[u8], triggers: usize, c: Option<Query>) -> bool
    requires { Laid room.now }
    ensures { result ≡ Processing.condition_holds (transition_in room.now) (live_rows room.now)
        (condition_meant book.now triggers c) }
{
    match c {
        None => true,
        Some(q) => query::yields(room, book, triggers, q),
    }
}

// Active rule k of a book with a plan.
pub fn consider(room: &mut [u8], book: &[u8], plan: &Plan, k: usize) -> Result<(), Stop>
    requires ready { Ready room.old plan.now.tables }
    requires count_bound { k < plan.now.count }
    requires lists { Lists book.now plan.now.count plan.now }
    requires k_bound { get_or plan.now.tables k 0 ≤ 3 }
    ensures { Considers room.old room.new book.now plan.now k result }
{
    let Some((rule, _next)) = book::rule_at(book, plan.count, plan.rules[k].start) else {
        return Ok(());
    };
    let triggers = rule.head.triggers;
    transition::draw(room, k, trigger::watch(rule.head));
    if !condition_holds(room, book, triggers, rule.condition) {
        return Ok(());
    }
    series::run_actions(room, book, triggers, rule.actions)
}
