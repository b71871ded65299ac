// What is read off a well-formed book once: where its rules stand, the own table of each active one, what each looks out for, and their
// total order.
#![tactic(auto)]

ghost use Rattle.std.specs.Prelude.{◌≤◌};
ghost use Rattle.plan.specs.Numbers.{Numbers};

mod making;

pub use making::plan_of;

// Where a rule stands, and its triggers and columns.
#[derive(Clone, Copy)]
pub struct Listed {
    pub start: usize,
    pub triggers: u8,
    pub columns: u8,
}

// Of a book of at most 16 rules. `tables` has the own table of each rule, INACTIVE for a rule that is not active, and ABSENT past the last
// rule: numbers, and an array of its own, as `effects::settle` and the definitions of what the room represents take it. `rules` has what
// is listed of each rule, and zeros past the last. `order` has the rules' numbers in total order, where `precedes` has no cycle, so that
// each of them is that of a rule.
#[derive(Clone, Copy)]
pub struct Plan {
    pub count: usize,
    pub tables: [u8; 16],
    pub rules: [Listed; 16],
    pub order: Option<[u8; 16]>,
    pub ghost few: { count ≤ 16 },
    pub ghost numbers: { Numbers count order },
}

pub const INACTIVE: u8 = 4;

pub const ABSENT: u8 = 5;
