// Numbers in a lent slice of bytes, least significant byte first: read and written at a place, without padding.
#![tactic(auto)]

ghost use Rattle.std.specs.Prelude.{◌≡◌, ◌+◌, ◌≤◌, length};
ghost use Rattle.little_endian.specs.LittleEndian.{from_bytes, to_bytes, part};
ghost use Rattle.little_endian.specs.Writes.{Wrote};

pub fn read_u16(b: &[u8], at: usize) -> u16
    requires { at + 2 ≤ length b.now }
    ensures { result ≡ from_bytes (part b.now at 2) }
{
    let low = b[at] as u16;
    let high = b[at + 1] as u16;
    low + 256 * high
}

pub fn read_u32(b: &[u8], at: usize) -> u32
    requires { at + 4 ≤ length b.now }
    ensures { result ≡ from_bytes (part b.now at 4) }
{
    let low = read_u16(b, at) as u32;
    let high = read_u16(b, at + 2) as u32;
    low + 0x10000 * high
}

pub fn read_u64(b: &[u8], at: usize) -> u64
    requires { at + 8 ≤ length b.now }
    ensures { result ≡ from_bytes (part b.now at 8) }
{
    let low = read_u32(b, at) as u64;
    let high = read_u32(b, at + 4) as u64;
    low + 0x1_0000_0000 * high
}

pub fn write_u16(b: &mut [u8], at: usize, x: u16)
    requires { at + 2 ≤ length b.old }
    ensures { Wrote b.old at (to_bytes 2 x) b.new }
{
    let low = (x % 256) as u8;
    let high = (x / 256) as u8;
    b[at] = low;
    b[at + 1] = high;
}

pub fn write_u32(b: &mut [u8], at: usize, x: u32)
    requires { at + 4 ≤ length b.old }
    ensures { Wrote b.old at (to_bytes 4 x) b.new }
{
    let low = (x % 0x10000) as u16;
    let high = (x / 0x10000) as u16;
    write_u16(b, at, low);
    write_u16(b, at + 2, high);
}

pub fn write_u64(b: &mut [u8], at: usize, x: u64)
    requires { at + 8 ≤ length b.old }
    ensures { Wrote b.old at (to_bytes 8 x) b.new }
{
    let low = (x % 0x1_0000_0000) as u32;
    let high = (x / 0x1_0000_0000) as u32;
    write_u32(b, at, low);
    write_u32(b, at + 4, high);
}
