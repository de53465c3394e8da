// An answer in numbers: document 01's for each status and action, the handle, and the access granted.
#![tactic(auto)]

ghost use Rattle.std.specs.Prelude.{◌≡◌};
ghost use Rattle.records.specs.Numbers.{status_number, action_number};
ghost use Rattle.reply_numbers.specs.Numbers.{answer_seen, action_or};

use records::{Answer, CreateAction, Outcome, Status};

// What stands where a call has no action.
const NO_ACTION: u32 = 0xFFFF_FFFF;

pub fn status_number(s: Status) -> u32
    ensures { result ≡ status_number s }
{
    u32::from(s)
}

// Success is 0.
#[tactic(auto, unfolding(records::specs::Numbers::seen))]
pub fn status_of(a: Answer) -> u32
    ensures { result ≡ (answer_seen a).status }
{
    match a.outcome {
        Outcome::Success(..) | Outcome::Done => 0,
        Outcome::Refused(s) => status_number(s),
    }
}

fn action_number(a: CreateAction) -> u32
    ensures { result ≡ action_number a }
{
    u32::from(a)
}

#[tactic(auto, unfolding(records::specs::Numbers::seen, crate::specs::Numbers::action_or))]
pub fn action_of(a: Answer) -> u32
    ensures { result ≡ action_or (answer_seen a).action }
{
    match a.outcome {
        Outcome::Success(a, _) => action_number(a),
        Outcome::Done | Outcome::Refused(_) => NO_ACTION,
    }
}

// Only an open that succeeds has one that is not 0.
#[tactic(auto, unfolding(records::specs::Numbers::seen))]
pub fn handle_of(a: Answer) -> u64
    ensures { result ≡ (answer_seen a).handle }
{
    match a.outcome {
        Outcome::Success(_, h) => h.0,
        Outcome::Done | Outcome::Refused(_) => 0,
    }
}
