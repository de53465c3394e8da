// The calls on the lent tables. Consistency comes first in each; a refusal leaves every byte, and success writes only the
// records that change, after the last possible refusal.
#![tactic(auto)]

mod answers;
mod closing;
mod opening;
mod switching;

pub use closing::close;
pub use opening::open;
pub use switching::set_read_only;
