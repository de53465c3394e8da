// Rows of bytes: cleared, and copied whole or in part.
#![tactic(auto)]

ghost use Rattle.std.specs.Prelude.{◌≡◌, ◌+◌, ◌≤◌, length, replicate};
ghost use Rattle.little_endian.specs.LittleEndian.{part};
ghost use Rattle.little_endian.specs.Writes.{Wrote};

// Every byte becomes 0.
pub fn clear(b: &mut [u8])
    ensures { b.new ≡ replicate (length b.old) 0 }
{
    b.fill(0);
}

// The bytes of one row into another of the same length.
pub fn copy(from: &[u8], to: &mut [u8])
    requires { length from.now ≡ length to.old }
    ensures { to.new ≡ from.now }
{
    to.copy_from_slice(from);
}

// A part of one row into another at a place.
pub fn copy_part(from: &[u8], start: usize, size: usize, to: &mut [u8], at: usize)
    requires { (start + size ≤ length from.now) × (at + size ≤ length to.old) }
    ensures { Wrote to.old at (part from.now start size) to.new }
{
    let stop = start + size;
    let end = at + size;
    copy(&from[start..stop], &mut to[at..end]);
}
