// Values in bytes: what a form is, how forms are put together, and the laws that every form put together so has. The code
// reads and writes rows of numbers, of any length.
#![tactic(auto)]

ghost use Rattle.std.specs.Prelude.{◌≡◌, ◌+◌, ◌*◌, ℕ, ◌≤◌, length};
ghost use Rattle.std.proofs.Common.{refl};
ghost use Rattle.little_endian.specs.LittleEndian.{part};
ghost use Rattle.little_endian.specs.Writes.{Wrote};
ghost use Rattle.little_endian.proofs.Numbers.{to_bytes-length};
ghost use Rattle.codecs.specs.Codec.{Codec, number, decode_row, encode_row};

use little_endian::{read_u16, read_u32, write_u16, write_u32};

// A number of a fixed width: its form in bytes, and how it is read and written at a place. By the laws it takes as many
// bytes as the constant says.
pub trait Number: Copy {
    ghost form: { Codec Self };

    ghost SIZE: { ℕ };

    const SIZE: usize;

    fn read(b: &[u8], at: usize) -> Self
        requires { at + form.size ≤ length b.now }
        ensures { result ≡ form.decode (part b.now at form.size) };

    fn write(b: &mut [u8], at: usize, x: Self)
        requires { at + form.size ≤ length b.old }
        ensures { Wrote b.old at (form.encode x) b.new };

    ghost sized: { form.size ≡ SIZE };

    ghost long: { (x : Self) → length (form.encode x) ≡ form.size };
}

impl Number for u16 {
    ghost form = { number 2 };

    ghost SIZE = { 2 };

    ghost sized = { refl };

    ghost long = { to_bytes-length 2 };

    const SIZE: usize = 2;

    fn read(b: &[u8], at: usize) -> u16 {
        read_u16(b, at)
    }

    fn write(b: &mut [u8], at: usize, x: u16) {
        write_u16(b, at, x);
    }
}

impl Number for u32 {
    ghost form = { number 4 };

    ghost SIZE = { 4 };

    ghost sized = { refl };

    ghost long = { to_bytes-length 4 };

    const SIZE: usize = 4;

    fn read(b: &[u8], at: usize) -> u32 {
        read_u32(b, at)
    }

    fn write(b: &mut [u8], at: usize, x: u32) {
        write_u32(b, at, x);
    }
}

// Fills a row of numbers from the bytes at a place.
pub fn read_row<N: Number>(b: &[u8], at: usize, to: &mut [N])
    requires { at + N.form.size * length to.old ≤ length b.now }
    ensures { to.new ≡ decode_row N.form (length to.old) (part b.now at (N.form.size * length to.old)) }
{
    for i in 0..to.len() {
        to[i] = N::read(b, at + N::SIZE * i);
    }
}

// Writes a row of numbers to the bytes at a place.
pub fn write_row<N: Number>(b: &mut [u8], at: usize, from: &[N])
    requires { at + N.form.size * length from.now ≤ length b.old }
    ensures { Wrote b.old at (encode_row N.form from.now) b.new }
{
    for i in 0..from.len() {
        N::write(b, at + N::SIZE * i, from[i]);
    }
}

// Rows of 16-bit numbers.
pub fn read_units(b: &[u8], at: usize, to: &mut [u16])
    requires { at + 2 * length to.old ≤ length b.now }
    ensures { to.new ≡ decode_row (number 2) (length to.old) (part b.now at (2 * length to.old)) }
{
    read_row::<u16>(b, at, to);
}

pub fn write_units(b: &mut [u8], at: usize, from: &[u16])
    requires { at + 2 * length from.now ≤ length b.old }
    ensures { Wrote b.old at (encode_row (number 2) from.now) b.new }
{
    write_row::<u16>(b, at, from);
}

// Rows of 32-bit numbers.
pub fn read_words(b: &[u8], at: usize, to: &mut [u32])
    requires { at + 4 * length to.old ≤ length b.now }
    ensures { to.new ≡ decode_row (number 4) (length to.old) (part b.now at (4 * length to.old)) }
{
    read_row::<u32>(b, at, to);
}

pub fn write_words(b: &mut [u8], at: usize, from: &[u32])
    requires { at + 4 * length from.now ≤ length b.old }
    ensures { Wrote b.old at (encode_row (number 4) from.now) b.new }
{
    write_row::<u32>(b, at, from);
}
