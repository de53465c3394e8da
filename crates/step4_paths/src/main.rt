// Runs the rules of step 4 on lines of standard input, one answer to a line. The bytes of a line become units one by one.
//   n NAME                  whether it is valid as a file name and as a stream name
//   e A B                   whether two names have equal units, exactly and folded
//   p PATH, d PATH, f PATH  the path taken apart, with no option, with option 0x1 and with option 0x40
// Any other line, and one over 1,024 bytes, is answered by `?`.
#![tactic(auto)]

ghost use Rattle.std.specs.Prelude.{◌≡◌, cond, ◌++◌, ◌%◌, eqb, length, get_or, take, drop};
ghost use Rattle.components.specs.Positions.{place_of};

use components::{Part, find_sign, part_of, units_before};
use paths::ParsedPath;
use std::io;
use std::io::{Input, Read};

// How many bytes of the input are answered.
const INPUT_LIMIT: usize = 0x1_0000;

const LINE_LIMIT: usize = 1024;

const LINE_END: u8 = b'\n';

const SPACE: u16 = 0x20;

// The byte that a unit came from.
fn byte_of(unit: u16) -> u8
    ensures { result ≡ unit % 256 }
{
    (unit % 256) as u8
}

// The bytes as units, from the buffer's start on, those that have a place there.
fn write_units(bytes: &[u8], units: &mut [u16])
    ensures { units.new ≡ take (length units.old) bytes.now ++ drop (length bytes.now) units.old }
{
    for i in 0..bytes.len().min(units.len()) {
        units[i] = u16::from(bytes[i]);
    }
}

// The text where the test holds, else a dash.
fn say_if(rt: &impl Print, test: bool, text: &[u8]) -> io::Result<()> {
    rt.write_all(if test { text } else { b"-" })
}

// The units of a part, and a bar.
fn say_part(rt: &impl Print, path: &[u16], part: Part) -> io::Result<()> {
    for unit in part_of(path, part) {
        rt.write_all(&[byte_of(*unit)])?;
    }
    rt.write_all(b"|")
}

fn answer_name(rt: &impl Print, name: &[u16]) -> io::Result<()> {
    say_if(rt, names::valid_file_name(name), b"file")?;
    rt.write_all(b" ")?;
    say_if(rt, names::valid_stream_name(name), b"stream")
}

// Two names with one space between them, and no other space.
fn answer_pair(rt: &impl Print, pair: &[u16]) -> io::Result<()> {
    let space = find_sign(pair, SPACE, 0);
    if space < pair.len() {
        let after = space + 1;
        if find_sign(pair, SPACE, after) == pair.len() {
            let a = units_before(pair, space);
            let b = &pair[after..];
            say_if(rt, units::equal_units(a, b, false), b"exact")?;
            rt.write_all(b" ")?;
            return say_if(rt, units::equal_units(a, b, true), b"folded");
        }
    }
    rt.write_all(b"?")
}

// The path's file name and stream name, each with a bar after it, then its colon.
fn answer_path(
    rt: &impl Print,
    path: &[u16],
    wants_directory: bool,
    wants_file: bool,
) -> io::Result<()> {
    match paths::parse_path(path, wants_directory, wants_file) {
        ParsedPath::Invalid => rt.write_all(b"C0000033"),
        ParsedPath::Root => rt.write_all(b"root"),
        ParsedPath::Named(leaf) => {
            say_part(rt, path, leaf.file)?;
            say_part(rt, path, leaf.stream)?;
            if leaf.colon {
                rt.write_all(b":")?;
            }
            Ok(())
        }
    }
}

// A line's letter, or 0 where a space does not follow it.
fn kind_of(line: &[u16]) -> u16
    ensures { result ≡ cond (eqb (get_or line.now 1 0) 0x20) (get_or line.now 0 0) 0 }
{
    match line {
        [kind, SPACE, ..] => *kind,
        _ => 0,
    }
}

// A line over the limit is too long.
fn answer_line(rt: &impl Print, line: &[u16]) -> io::Result<()> {
    let end = line.len();
    if LINE_LIMIT < end {
        return rt.write_all(b"?");
    }
    let text = part_of(line, Part { start: 2, end });
    let kind = byte_of(kind_of(line));
    match kind {
        b'n' => answer_name(rt, text),
        b'e' => answer_pair(rt, text),
        b'p' | b'd' | b'f' => answer_path(rt, text, kind == b'd', kind == b'f'),
        _ => rt.write_all(b"?"),
    }
}

// The bytes from a place on.
fn bytes_from(input: &[u8], at: usize) -> &[u8]
    ensures { result.now ≡ drop at input.now }
{
    input.get(at..).unwrap_or(&[])
}

// Where the line ends that starts at `at`.
fn line_end(input: &[u8], at: usize) -> usize
    ensures { result ≡ place_of 0x0A input.now at }
{
    let rest = bytes_from(input, at);
    at + rest
        .iter()
        .position(|byte| *byte == LINE_END)
        .unwrap_or(rest.len())
}

// The lines in order; the last one may lack its line end. Each is written to the buffer, which has a place more than a line may
// have, so that a line that is too long stays so.
fn answer_lines(rt: &impl Print, input: &[u8], units: &mut [u16]) -> io::Result<()> {
    let mut at = 0;
    while at < input.len() {
        let end = line_end(input, at);
        let line = &input[at..end];
        write_units(line, units);
        answer_line(rt, units_before(units, line.len()))?;
        rt.write_all(b"\n")?;
        at = end + 1;
    }
    Ok(())
}

// As much of the input as is answered: what lies past it is not.
fn held(input: &[u8]) -> &[u8] {
    input.get(..INPUT_LIMIT).unwrap_or(input)
}

fn main(rt: HostRuntime) -> io::Result<()> {
    let mut input = Vec::new(rt.alloc());
    rt.reader().read_to_end(&mut input)?;
    let mut units = [0; LINE_LIMIT + 1];
    answer_lines(&rt, held(&input), &mut units)
}
