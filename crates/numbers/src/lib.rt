// Document 01's numbers of refusals, outcomes and reasons, each once. An `impl From` would have to stand with each type, in three crates;
// here they are read on one page.
#![tactic(auto)]

ghost use Rattle.std.specs.Prelude.{◌≡◌};
ghost use Rattle.meaning.specs.EntryPoints.{refusal_number, outcome_number, failure_number, reason_number};
ghost use Rattle.changes.specs.Steps.{reason_meant};
ghost use Rattle.processing.specs.Endings.{outcome_meant};
ghost use Rattle.engine.specs.Answers.{refusal_meant};

use engine::Refusal;
use processing::Outcome;
use rows::Reason;

// Refusal 7, input too long: only the program gives it.
pub const INPUT_TOO_LONG: usize = 7;

pub fn refusal(r: Refusal) -> usize
    ensures { result ≡ refusal_number (refusal_meant r) }
{
    match r {
        Refusal::Output => 1,
        Refusal::Room => 2,
        Refusal::Image => 3,
        Refusal::Book => 4,
        Refusal::Cycle => 5,
        Refusal::Log => 6,
    }
}

pub fn outcome(o: Outcome) -> usize
    ensures { result ≡ outcome_number (outcome_meant o) }
{
    match o {
        Outcome::Commit => 0,
        Outcome::RolledBack => 1,
        Outcome::StepLimit => 2,
        Outcome::Failed(_) => 3,
    }
}

fn failure(r: Reason) -> usize
    ensures { result ≡ failure_number (reason_meant r) }
{
    match r {
        Reason::NoSuchRow => 1,
        Reason::Full => 2,
        Reason::HandlesUsedUp => 3,
        Reason::SumOutOfRange => 4,
    }
}

// 0 unless the outcome is 3.
pub fn reason(o: Outcome) -> usize
    ensures { result ≡ reason_number (outcome_meant o) }
{
    match o {
        Outcome::Commit => 0,
        Outcome::RolledBack => 0,
        Outcome::StepLimit => 0,
        Outcome::Failed(r) => failure(r),
    }
}
