// Sets of bits held in a number: access masks, options, attributes.
#![tactic(auto)]

ghost use Rattle.std.specs.Prelude.{◌≡◌};
ghost use Rattle.bits.specs.Bits as bits;

// Every bit of `a` is in `m`.
pub fn within(a: u32, m: u32) -> bool
    ensures { result ≡ bits.within a m }
{
    (a & m) == a
}

// Some bit of `m` is in `a`.
pub fn has(a: u32, m: u32) -> bool
    ensures { result ≡ bits.has a m }
{
    (a & m) != 0
}

// `a` less the bits of `m`.
pub fn without(a: u32, m: u32) -> u32
    ensures { result ≡ bits.without a m }
{
    a - (a & m)
}
