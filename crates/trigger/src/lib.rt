// Whether a rule is triggered by what waits for it, and the first triggered rule in total order.
#![tactic(auto)]

ghost use Rattle.std.specs.Prelude.{◌≡◌, ◌<◌};
ghost use Rattle.room.specs.Room.{Laid};
ghost use Rattle.plan.specs.Plans.{Lists};
ghost use Rattle.trigger.specs.Triggers.{Triggers, TriggersFirst};

use book::Head;
use plan::Plan;
use room::Watch;

// What a rule looks out for. Both types are of crates below, so this is no `impl From`.
pub fn watch(head: Head) -> Watch
    ensures { (result.table ≡ head.table) × (result.triggers ≡ head.triggers) × (result.columns ≡ head.columns) }
{
    Watch {
        table: head.table,
        triggers: head.triggers,
        columns: head.columns,
    }
}

// Whether rule k is active and woken by what waits for it.
fn is_triggered(room: &[u8], s: &[u8], plan: &Plan, k: usize) -> bool
    requires laid { Laid room.now }
    requires count_bound { k < plan.now.count }
    requires lists { Lists s.now plan.now.count plan.now }
    ensures { Triggers room.now s.now plan.now k result }
{
    if 3 < plan.tables[k] {
        return false;
    }
    effects::triggered(
        room,
        k,
        Watch {
            table: words::wide(plan.tables[k]),
            triggers: words::wide(plan.rules[k].triggers),
            columns: words::wide(plan.rules[k].columns),
        },
    )
}

// The first triggered rule in total order.
pub fn first_triggered(room: &[u8], s: &[u8], plan: &Plan) -> Option<usize>
    requires laid { Laid room.now }
    requires lists { Lists s.now plan.now.count plan.now }
    ensures { TriggersFirst room.now s.now plan.now result }
{
    let rules = plan.order?;
    for &number in &rules[..plan.count] {
        let k = words::wide(number);
        if is_triggered(room, s, plan, k) {
            return Some(k);
        }
    }
    None
}
