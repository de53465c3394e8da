// The C interface: the calls on numbers and byte slices, under the names of include/zanthupra.h.
#![tactic(auto)]

mod arguments;

ghost use Rattle.std.specs.Prelude.{◌≡◌, [], ◌∷◌};
ghost use Rattle.format.specs.Bytes.{format_bytes};
ghost use Rattle.audit.specs.Sound.{sound_bytes};
ghost use Rattle.store.specs.Store.{store_open, store_close, store_set_read_only};
ghost use Rattle.exports.specs.Interface.{flag, masks_of, path_of, request_of, status_alone, open_numbers, verdict};
ghost use Rattle.exports.specs.Returns.{Returns, ReturnsOf};

use crate::arguments::{read_masks, read_path};
use calls::{close, open, set_read_only};
use records::{Handle, Request};
use reply_numbers::{action_of, handle_of, status_of};

// A path as units, and how many they are.
#[derive(Clone, Copy)]
pub struct PathUnits {
    pub units: [u16; 256],
    pub count: usize,
}

// Masks, and how many they are.
#[derive(Clone, Copy)]
pub struct Masks {
    pub masks: [u32; 8],
    pub count: usize,
}

// Fresh tables, with eight masks of 4 bytes each.
#[unsafe(no_mangle)]
pub extern "C" fn zan_format(tables: &mut [u8], masks: &[u8], read_only: u32) -> u32
    ensures { Returns status_alone (result ∷ []) tables.new (format_bytes tables.old (masks_of masks.now) (flag read_only)) }
{
    let read = read_masks(masks);
    let words = read.masks;
    let count = read.count;
    let answer = format::format(tables, &words[..count], read_only != 0);
    status_of(answer)
}

// An open: the result is the status; action, granted access and handle are written on success and on a refusal.
#[unsafe(no_mangle)]
pub extern "C" fn zan_open(
    tables: &mut [u8],
    account: u32,
    access: u32,
    share: u32,
    disposition: u32,
    options: u32,
    attributes: u32,
    fold: u32,
    path: &[u8],
    action: &mut u32,
    granted: &mut u32,
    handle: &mut u64,
) -> u32
    ensures { ReturnsOf open_numbers (result ∷ action.new ∷ granted.new ∷ handle.new ∷ []) tables.old tables.new (λ t. store_open t (request_of account access share disposition options attributes fold) (path_of path.now)) }
{
    let read = read_path(path);
    let units = read.units;
    let count = read.count;
    let request = Request {
        account,
        access,
        share,
        disposition,
        options,
        attributes,
        fold: fold != 0,
    };
    let answer = open(tables, request, &units[..count]);
    *action = action_of(answer);
    *granted = answer.granted;
    *handle = handle_of(answer);
    status_of(answer)
}

#[unsafe(no_mangle)]
pub extern "C" fn zan_close(tables: &mut [u8], handle: u64) -> u32
    ensures { ReturnsOf status_alone (result ∷ []) tables.old tables.new (λ t. store_close t (record { 0 = handle })) }
{
    let answer = close(tables, Handle(handle));
    status_of(answer)
}

#[unsafe(no_mangle)]
pub extern "C" fn zan_set_read_only(tables: &mut [u8], read_only: u32) -> u32
    ensures { ReturnsOf status_alone (result ∷ []) tables.old tables.new (λ t. store_set_read_only t (flag read_only)) }
{
    let answer = set_read_only(tables, read_only != 0);
    status_of(answer)
}

// Whether the bytes stand for sound tables: 1 or 0.
#[unsafe(no_mangle)]
pub extern "C" fn zan_audit(tables: &[u8]) -> u32
    ensures { result ≡ verdict (sound_bytes tables.now) }
{
    if audit::audit(tables) { 1 } else { 0 }
}
