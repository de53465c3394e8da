// The script's input and output: lines are cut from standard input, whatever its length, and each answer is written before
// the next line is read. What a line asks and what is printed is decided in `script_lines` and `script_answers`. Of a line
// too long as much is kept as its buffer holds, which is enough to be none.
#![tactic(auto)]

ghost use Rattle.std.specs.Prelude.{◌≡◌, cond, ◌-◌, eqb, length, take};

use layout::{TABLES_SIZE, TableBytes};
use records::constants::ALL_ACCESS;
use records::sizes::{ACCOUNTS, FILE_SLOTS, LINK_SLOTS, OPEN_SLOTS, STREAM_SLOTS};
use records::slots::{ZERO_FILE, ZERO_LINK, ZERO_OPEN, ZERO_STREAM};
use records::{File, FileNo, Link, LinkNo, Open, Stream, StreamNo};
use records_files::write_file;
use records_links::write_link;
use records_opens::write_open;
use records_streams::write_stream;
use script_answers::answer_line;
use std::io;
use std::io::{Input, Read};

const LINE_END: u8 = b'\n';

// As much as is kept of a line, and as is read at once.
const BUFFER_SIZE: usize = 4096;

// Records written into the slots of a table, in order.
fn write_rows<T: Copy + Drop, W: Fn(&mut TableBytes, u16, T)>(
    tables: &mut TableBytes,
    rows: &[T],
    write: W,
)
    requires { W.IsAlwaysCallable write }
{
    for (i, row) in (0..u16::MAX).zip(rows) {
        write(tables, i, *row);
    }
}

// The tables as arrays of zero records, written into the bytes.
fn write_zeros(tables: &mut TableBytes) {
    write_rows(
        tables,
        &[ZERO_FILE; FILE_SLOTS],
        |b: &mut TableBytes, i: u16, f: File| { write_file(b, FileNo(i), f) },
    );
    write_rows(
        tables,
        &[ZERO_LINK; LINK_SLOTS],
        |b: &mut TableBytes, i: u16, l: Link| { write_link(b, LinkNo(i), l) },
    );
    write_rows(
        tables,
        &[ZERO_STREAM; STREAM_SLOTS],
        |b: &mut TableBytes, i: u16, s: Stream| { write_stream(b, StreamNo(i), s) },
    );
    write_rows(
        tables,
        &[ZERO_OPEN; OPEN_SLOTS],
        |b: &mut TableBytes, i: u16, o: Open| { write_open(b, usize::from(i), o) },
    );
}

// A line's answer, written at once.
fn answer(rt: &impl Print, tables: &mut [u8], line: &[u8]) -> io::Result<()> {
    let printed = answer_line(tables, line);
    rt.write_all(printed.as_slice())
}

// The bytes before a place.
pub fn bytes_before(bytes: &[u8], end: usize) -> &[u8]
    ensures { result.now ≡ take end bytes.now }
{
    if end < bytes.len() {
        &bytes[..end]
    } else {
        bytes
    }
}

// A byte more, after `n` bytes of a line, which is answered at its end; how many bytes of a line are there then.
fn take_byte(
    rt: &impl Print,
    tables: &mut [u8],
    line: &mut [u8],
    n: usize,
    byte: u8,
) -> io::Result<usize> {
    if byte == LINE_END {
        answer(rt, tables, bytes_before(line, n))?;
        return Ok(0);
    }
    if n < line.len() {
        line[n] = byte;
        return Ok(n + 1);
    }
    Ok(n)
}

// The bytes of a part of the input.
fn take_bytes(
    rt: &impl Print,
    tables: &mut [u8],
    line: &mut [u8],
    begun: usize,
    input: &[u8],
) -> io::Result<usize> {
    let mut n = begun;
    for byte in input {
        n = take_byte(rt, tables, line, n, *byte)?;
    }
    Ok(n)
}

// How many turns are left after one that read `count` bytes: none where the input has ended. Nothing says that it ever ends,
// so that a bound stands in for it.
fn turns_after(left: u64, count: usize) -> u64
    ensures { result ≡ cond (eqb count 0) 0 (left - 1) }
{
    if count == 0 {
        0
    } else {
        left.saturating_sub(1)
    }
}

// The input part by part, to its end. The last line may lack its line end.
fn answer_input(rt: &(impl Input + Print), tables: &mut [u8]) -> io::Result<()> {
    let mut reader = rt.reader();
    let mut line = [0u8; BUFFER_SIZE];
    let mut n = 0;
    let mut left = u64::MAX;
    while 0 < left {
        let mut input = [0u8; BUFFER_SIZE];
        let count = reader.read(&mut input)?;
        n = take_bytes(rt, tables, &mut line, n, &input[..count])?;
        left = turns_after(left, count);
    }
    if 0 < n {
        answer(rt, tables, bytes_before(&line, n))?;
    }
    Ok(())
}

// A fresh writable volume with masks 0x1F01FF, and the script on it.
pub fn run_script(rt: &(impl Input + Print)) -> io::Result<()> {
    let mut tables = [0u8; TABLES_SIZE];
    write_zeros(&mut tables);
    let masks = [ALL_ACCESS; ACCOUNTS];
    format::format(&mut tables, &masks, false);
    answer_input(rt, &mut tables)
}
