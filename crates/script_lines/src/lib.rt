// The script's lines: what a line asks, and what is printed of an answer. A line is its bytes, without the line end.
#![tactic(auto)]

ghost use Rattle.std.specs.Prelude.{◌+◌, ◌*◌, ◌%◌, ◌≤◌, ◌<◌, ◌≡◌, cond, ◌&&◌, leb, length, take, drop};
ghost use Rattle.lists.specs.Lists.{all};
ghost use Rattle.script_lines.specs.Lines.{line_limit, is_digit, is_ascii, digits_from, number, field, open_line, close_line, parse_line};
ghost use Rattle.script_lines.specs.Print.{digit, digits, decimal_width, action_byte, printed, unknown_line, Appended};
ghost use Rattle.reply_numbers.specs.Numbers.{answer_seen};
ghost use Rattle.script_lines.specs.Found.{as_number, as_call, Holds, Prints};

use records::{Answer, CreateAction, Handle, Outcome, Request};
use reply_numbers::{handle_of, status_of};

pub mod buffers;

pub use crate::buffers::{PathUnits, Printed};

// A line's bytes, its line end not counted.
pub const LINE_LIMIT: usize = 1024;

// The most that fits 32 bits, and 64.
const MOST_32: u64 = 0xFFFF_FFFF;

const MOST_64: u64 = 0xFFFF_FFFF_FFFF_FFFF;

const SPACE: u8 = b' ';

const LINE_END: u8 = b'\n';

// What a line asks. The path of an open is what stands from the place on.
#[derive(Clone, Copy)]
pub enum AskedLine {
    Open(Request, usize),
    Close(Handle),
}

#[tactic(auto, unfolding(crate::specs::Lines::is_digit))]
fn is_digit(byte: u8) -> bool
    ensures { result ≡ is_digit byte }
{
    matches!(byte, b'0'..=b'9')
}

// Whether a value with one digit more is at most `most`.
fn fits(most: u64, value: u64, digit: u64) -> bool
    ensures { result ≡ leb (value * 10 + digit) most }
{
    digit <= most && value <= (most - digit) / 10
}

// The number whose digits stand at a place, up to the first byte that is no digit, and the place after them.
fn digits_at(line: &[u8], from: usize, most: u64) -> Option<(u64, usize)>
    ensures { as_number line.now result ≡ digits_from most 0 (drop from line.now) }
{
    let mut value: u64 = 0;
    for at in from..line.len() {
        let byte = line[at];
        if !is_digit(byte) {
            return Some((value, at));
        }
        let digit = u64::from(byte - b'0');
        if !fits(most, value, digit) {
            return None;
        }
        value = value * 10 + digit;
    }
    Some((value, line.len()))
}

// The number that stands at a place, and the place after it. It has at least one digit.
fn number_at(line: &[u8], from: usize, most: u64) -> Option<(u64, usize)>
    ensures { as_number line.now result ≡ number most (drop from line.now) }
{
    if from < line.len() && is_digit(line[from]) {
        digits_at(line, from, most)
    } else {
        None
    }
}

// The number of 32 bits that stands at a place, if a space follows it, and the place after that.
fn field_at(line: &[u8], from: usize) -> Option<(u32, usize)>
    ensures { as_number line.now result ≡ field (drop from line.now) }
{
    let (value, end) = number_at(line, from, MOST_32)?;
    if end < line.len() && line[end] == SPACE {
        Some((value as u32, end + 1))
    } else {
        None
    }
}

// Whether all bytes from a place on are ASCII.
fn ascii_from(line: &[u8], from: usize) -> bool
    ensures { result ≡ all is_ascii (drop from line.now) }
{
    line.iter().skip(from).all(|byte| *byte <= 0x7F)
}

// Whether the fold is 0 or 1, and the path ASCII.
fn valid_open(line: &[u8], fold: u32, at: usize) -> bool
    ensures { result ≡ (leb fold 1 && all is_ascii (drop at line.now)) }
{
    fold <= 1 && ascii_from(line, at)
}

// What a line asks that begins with `O `.
fn read_open(line: &[u8]) -> Option<AskedLine>
    ensures { as_call line.now result ≡ open_line (drop 2 line.now) }
{
    let (account, at) = field_at(line, 2)?;
    let (access, at) = field_at(line, at)?;
    let (share, at) = field_at(line, at)?;
    let (disposition, at) = field_at(line, at)?;
    let (options, at) = field_at(line, at)?;
    let (attributes, at) = field_at(line, at)?;
    let (fold, at) = field_at(line, at)?;
    if !valid_open(line, fold, at) {
        return None;
    }
    let r = Request {
        account,
        access,
        share,
        disposition,
        options,
        attributes,
        fold: fold == 1,
    };
    Some(AskedLine::Open(r, at))
}

// What a line asks that begins with `C `.
fn read_close(line: &[u8]) -> Option<AskedLine>
    ensures { as_call line.now result ≡ close_line (drop 2 line.now) }
{
    let (handle, end) = number_at(line, 2, MOST_64)?;
    if end < line.len() {
        return None;
    }
    Some(AskedLine::Close(Handle(handle)))
}

// What a line asks, if it asks anything.
pub fn read_line(line: &[u8]) -> Option<AskedLine>
    ensures { as_call line.now result ≡ parse_line line.now }
{
    if LINE_LIMIT < line.len() || line.len() < 2 || line[1] != SPACE {
        return None;
    }
    match line[0] {
        b'O' => read_open(line),
        b'C' => read_close(line),
        _ => None,
    }
}

// A path's bytes as units, those of the longest line at most.
pub fn path_units(line: &[u8], from: usize) -> PathUnits
    ensures { Holds result (take line_limit (drop from line.now)) }
{
    let mut units = [0u16; LINE_LIMIT];
    let count = line.len().saturating_sub(from).min(LINE_LIMIT);
    for i in 0..count {
        units[i] = u16::from(line[from + i]);
    }
    PathUnits { units, count }
}

// An action's digit, or `-`. The actions are declared in the order of their numbers.
#[tactic(auto, unfolding(records::specs::Numbers::seen, records::specs::Numbers::action_number, crate::specs::Print::action_byte, crate::specs::Print::digit))]
fn action_byte(a: Answer) -> u8
    ensures { result ≡ action_byte (answer_seen a).action }
{
    match a.outcome {
        Outcome::Success(action, _) => b'0' + action as u8,
        Outcome::Done | Outcome::Refused(_) => b'-',
    }
}

// 0 to 9, then A to F, of a number's last hexadecimal digit.
#[tactic(auto, unfolding(crate::specs::Print::digit))]
fn digit_byte(n: u64) -> u8
    ensures { result ≡ digit (n % 16) }
{
    let d = (n % 16) as u8;
    if d < 10 { b'0' + d } else { b'A' - 10 + d }
}

// A flag stays, not the base: `put_digits` promises digits for these two alone, and a base that is 0 has none.
fn base_of(hex: bool) -> u64
    ensures { result ≡ cond hex 16 10 }
{
    if hex { 16 } else { 10 }
}

// How many decimal digits a number has. 64 bits have at most 20.
fn decimal_width(number: u64) -> usize
    ensures { result ≡ decimal_width number }
{
    let mut left = number;
    for width in 1..20 {
        if left < 10 {
            return width;
        }
        left = left / 10;
    }
    20
}

// A number's digits after the bytes before a place, where there is room for them.
fn put_digits(out: &mut [u8], at: usize, hex: bool, width: usize, number: u64)
    ensures { Appended out.old at (digits (cond hex 16 10) width number) (at + width) out.new }
{
    let count = out.len();
    if count < width {
        return;
    }
    if count - width < at {
        return;
    }
    let base = base_of(hex);
    let mut left = number;
    for i in (0..width).rev() {
        out[at + i] = digit_byte(left % base);
        left = left / base;
    }
}

// What is printed of an answer.
pub fn print(a: Answer) -> Printed
    ensures { Prints result (printed (answer_seen a)) }
{
    let handle = handle_of(a);
    let width = decimal_width(handle);
    let mut bytes = [0u8; 32];
    put_digits(&mut bytes, 0, true, 8, status_of(a) as u64);
    bytes[8] = SPACE;
    bytes[9] = action_byte(a);
    bytes[10] = SPACE;
    put_digits(&mut bytes, 11, false, width, handle);
    bytes[11 + width] = LINE_END;
    Printed {
        bytes,
        count: 12 + width,
    }
}

// What is printed of a line that asks nothing.
pub fn print_unknown() -> Printed
    ensures { Prints result unknown_line }
{
    let mut bytes = [0u8; 32];
    bytes[0] = b'?';
    bytes[1] = LINE_END;
    Printed { bytes, count: 2 }
}
