// A key for a name in a place, from the number of a directory or a file and the bytes of the name's units. Names with
// different keys differ, so that only those whose keys agree need comparing.
#![tactic(auto)]

ghost use Rattle.std.specs.Prelude.{◌≡◌, ◌≤◌};
ghost use Rattle.name_keys.specs.NameKeys.{weighed, stored_key};

use records::sizes::FILE_NAME_LIMIT;

// The weights of the units' bytes, by place: odd numbers of 15 bits, without any order.
const LOW: [u16; FILE_NAME_LIMIT] = [
    0x6973, 0x7953, 0x534F, 0x7289, 0x5351, 0x462F, 0x4945, 0x691F, 0x4497, 0x4C0D, 0x6ECF, 0x4A99,
    0x476D, 0x7471, 0x40F3, 0x5B7B, 0x44CD, 0x4B01, 0x7781, 0x7587, 0x48F1, 0x5ECF, 0x4B9D, 0x4689,
    0x7657, 0x4791, 0x69D7, 0x4861, 0x4FD9, 0x7947, 0x5C93, 0x50B9,
];

const HIGH: [u16; FILE_NAME_LIMIT] = [
    0x504F, 0x4A9F, 0x794F, 0x47EB, 0x49DF, 0x4AF3, 0x72C7, 0x4659, 0x7CF5, 0x5C4D, 0x45F7, 0x4741,
    0x6DE3, 0x510B, 0x6511, 0x75A7, 0x5277, 0x4535, 0x4F13, 0x4913, 0x677D, 0x47B7, 0x6877, 0x574B,
    0x5723, 0x4D31, 0x4A71, 0x491D, 0x51C7, 0x580D, 0x6FAB, 0x4C79,
];

// A unit's bytes, with a weight for each.
#[tactic(auto, unfolding(crate::specs::NameKeys::weighed), using(crate::proofs::Weights::byte_bound))]
fn weigh(unit: u16, low: u16, high: u16) -> u32
    ensures { (result ≡ weighed unit low high) × (result ≤ 33422850) }
{
    (unit % 256) as u32 * low as u32 + (unit / 256) as u32 * high as u32
}

// The key of a stored name, by all its places; a list of another length has none. A zero adds nothing, so that the
// places after the last unit do not count.
pub fn name_key(number: u16, name: &[u16]) -> u64
    ensures { result ≡ stored_key number name.now }
{
    if name.len() != FILE_NAME_LIMIT {
        return 0;
    }
    let mut sum: u32 = 0;
    for (i, unit) in name.iter().enumerate() {
        sum += weigh(*unit, LOW[i], HIGH[i]);
    }
    number as u64 * 0x1_0000_0000 + sum as u64 + 1
}
