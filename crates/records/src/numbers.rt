// Statuses and actions as document 01's numbers.
ghost use Rattle.std.specs.Prelude.{◌≡◌};
ghost use Rattle.records.specs.Numbers.{action_number, status_number};

use crate::{CreateAction, Status};

impl From<Status> for u32 {
    ghost from_gives = { λ s n. n ≡ status_number s };

    #[tactic(auto, unfolding(crate::specs::Numbers::status_number))]
    fn from(s: Status) -> u32 {
        s as u32
    }
}

impl From<CreateAction> for u32 {
    ghost from_gives = { λ a n. n ≡ action_number a };

    #[tactic(auto, unfolding(crate::specs::Numbers::action_number))]
    fn from(a: CreateAction) -> u32 {
        a as u32
    }
}
