// What a request's numbers alone settle (steps 1, 2, 3 and 5).
#![tactic(auto)]

ghost use Rattle.std.specs.Prelude.{◌≡◌, [], ◌∷◌};
ghost use Rattle.lists.specs.Lists.{one_of};
ghost use Rattle.records.specs.Constants.{supersede, open_only, open_if, overwrite, overwrite_if};
ghost use Rattle.store.specs.Request.{wants_directory, wants_file, deletes_on_close, bad_parameters, bad_access, wants_both, writes_volume};

use records::Request;
use records::constants::{
    APPEND_DATA, CREATE, DELETE, DELETE_ON_CLOSE, DIRECTORY_FILE, NON_DIRECTORY_FILE, OPEN_IF,
    OPEN_ONLY, OVERWRITE, OVERWRITE_IF, SUPERSEDE,
};

// A directory is asked for.
#[tactic(auto, unfolding(store::specs::Request::wants_directory))]
pub fn wants_directory(r: Request) -> bool
    ensures { result ≡ wants_directory r }
{
    bits::has(r.options, DIRECTORY_FILE)
}

// A file that is no directory is asked for.
#[tactic(auto, unfolding(store::specs::Request::wants_file))]
pub fn wants_file(r: Request) -> bool
    ensures { result ≡ wants_file r }
{
    bits::has(r.options, NON_DIRECTORY_FILE)
}

// The open's close shall mark what it opened.
#[tactic(auto, unfolding(store::specs::Request::deletes_on_close))]
pub fn deletes_on_close(r: Request) -> bool
    ensures { result ≡ deletes_on_close r }
{
    bits::has(r.options, DELETE_ON_CLOSE)
}

// The disposition replaces what is there: supersede, overwrite, overwrite-if.
#[tactic(auto, unfolding(lists::specs::Lists::one_of, lists::specs::Lists::any))]
fn replaces(disposition: u32) -> bool
    ensures { result ≡ one_of disposition (supersede ∷ overwrite ∷ overwrite_if ∷ []) }
{
    matches!(disposition, SUPERSEDE | OVERWRITE | OVERWRITE_IF)
}

// Step 1: INVALID_PARAMETER.
#[tactic(auto, unfolding(store::specs::Request::bad_parameters))]
pub fn bad_parameters(r: Request) -> bool
    ensures { result ≡ bad_parameters r }
{
    (7 < r.account)
        | (7 < r.share)
        | (5 < r.disposition)
        | !bits::within(r.options, 0x2_104F)
        | !bits::within(r.attributes, 0x31A7)
        | !bits::within(r.access, 0x0FFF_FFFF)
        | (bits::has(r.options, 0x8) & bits::has(r.access, APPEND_DATA))
        | (deletes_on_close(r) & !bits::has(r.access, DELETE))
        | (wants_directory(r) & (bits::has(r.options, 0x2_000C) | replaces(r.disposition)))
}

// Step 2: ACCESS_DENIED.
#[tactic(auto, unfolding(store::specs::Request::bad_access))]
pub fn bad_access(r: Request) -> bool
    ensures { result ≡ bad_access r }
{
    (r.access == 0) | bits::has(r.access, 0x0CE0_FE00) | bits::has(r.access, 0x0100_0000)
}

// Step 3: INVALID_PARAMETER.
#[tactic(auto, unfolding(store::specs::Request::wants_both))]
pub fn wants_both(r: Request) -> bool
    ensures { result ≡ wants_both r }
{
    wants_directory(r) & wants_file(r)
}

// Step 5: MEDIA_WRITE_PROTECTED on a read-only volume.
#[tactic(auto, unfolding(lists::specs::Lists::one_of, lists::specs::Lists::any, store::specs::Request::writes_volume))]
pub fn writes_volume(r: Request) -> bool
    ensures { result ≡ writes_volume r }
{
    matches!(r.disposition, SUPERSEDE | CREATE | OVERWRITE | OVERWRITE_IF)
}

// The disposition opens what is there as it is: open, open-if.
#[tactic(auto, unfolding(lists::specs::Lists::one_of, lists::specs::Lists::any))]
pub fn only_opens(r: Request) -> bool
    ensures { result ≡ one_of r.disposition (open_only ∷ open_if ∷ []) }
{
    matches!(r.disposition, OPEN_ONLY | OPEN_IF)
}

// The disposition adds nothing where something is missing: open, overwrite.
#[tactic(auto, unfolding(lists::specs::Lists::one_of, lists::specs::Lists::any))]
pub fn adds_nothing(r: Request) -> bool
    ensures { result ≡ one_of r.disposition (open_only ∷ overwrite ∷ []) }
{
    matches!(r.disposition, OPEN_ONLY | OVERWRITE)
}
