// The answers of a call.
ghost use Rattle.std.specs.Prelude.{◌≡◌};
ghost use Rattle.records.specs.declared.Outcome.TheVariants.{Refused, Done, Success};

use open_steps::AcceptedOpen;
use records::{Answer, Outcome, Status};

// A refusal: no action, handle 0, granted 0.
pub fn refused(status: Status) -> Answer
    ensures { result ≡ record { outcome = Refused status; granted = 0 } }
{
    Answer {
        outcome: Outcome::Refused(status),
        granted: 0,
    }
}

// A close or a switch that is done.
pub fn done() -> Answer
    ensures { result ≡ record { outcome = Done; granted = 0 } }
{
    Answer {
        outcome: Outcome::Done,
        granted: 0,
    }
}

// An accepted open.
pub fn opened(a: AcceptedOpen) -> Answer
    ensures { result ≡ record { outcome = Success a.action a.handle; granted = a.terms.granted } }
{
    Answer {
        outcome: Outcome::Success(a.action, a.handle),
        granted: a.terms.granted,
    }
}
