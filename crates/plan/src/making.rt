// A plan is made by reading the rules of its book one after another.
ghost use Rattle.std.specs.Prelude.{◌≡◌, ◌≤◌, length};
ghost use Rattle.meaning.specs.Reading.{got, many};
ghost use Rattle.meaning.specs.ByteLayouts as ByteLayouts;
ghost use Rattle.book.specs.Books.{head_rule};
ghost use Rattle.plan.specs.Plans.{rules_in, OutlineOf, Outlined, Planned};

use crate::{ABSENT, INACTIVE, Listed, Plan};
use book::Rule;

// Of a rule: its own table or INACTIVE, its triggers and columns, the rules that it precedes, and where it ends.
#[derive(Clone, Copy)]
struct Outline {
    table: u8,
    triggers: u8,
    columns: u8,
    precedes: usize,
    next: usize,
}

// No `impl From`: the place where the rule ends comes from beside it.
fn outline_of(rule: Rule, next: usize) -> Outline
    requires { (rule.head.table ≤ 3) × (rule.head.triggers ≤ 7) × (rule.head.columns ≤ 15) }
    ensures { OutlineOf (head_rule rule.head) next result }
{
    let head = rule.head;
    let triggers = head.triggers as u8;
    let columns = head.columns as u8;
    Outline {
        table: if head.active {
            head.table as u8
        } else {
            INACTIVE
        },
        triggers,
        columns,
        precedes: head.precedes,
        next,
    }
}

// The outline of the rule at a place of a book of n rules; where none can be read, nothing is said.
fn outline_at(s: &[u8], n: usize, at: usize) -> Outline
    requires { n ≤ 16 }
    ensures { Outlined (ByteLayouts.rule n s.now at) result }
{
    match book::rule_at(s, n, at) {
        Some((rule, next)) => outline_of(rule, next),
        None => Outline {
            table: INACTIVE,
            triggers: 0,
            columns: 0,
            precedes: 0,
            next: at,
        },
    }
}

// The plan of a book of n rules that stand one after another.
pub fn plan_of(s: &[u8], n: usize) -> Plan
    requires n_bound { n ≤ 16 }
    requires s_value { many n (ByteLayouts.rule n) s.now 8 ≡ got (rules_in s.now n) (length s.now) }
    ensures { Planned s.now n result }
{
    let mut tables = [ABSENT; 16];
    let mut rules = [Listed {
        start: 0,
        triggers: 0,
        columns: 0,
    }; 16];
    let mut masks = [0; 16];
    let mut here = book::FIRST;
    for k in 0..n {
        let rule = outline_at(s, n, here);
        tables[k] = rule.table;
        rules[k] = Listed {
            start: here,
            triggers: rule.triggers,
            columns: rule.columns,
        };
        masks[k] = rule.precedes;
        here = rule.next;
    }
    let order = order::total_order(masks, n);
    Plan {
        count: n,
        tables,
        rules,
        order,
    }
}
