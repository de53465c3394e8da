// The step cases as a run of the script: each begins on a fresh writable volume with masks 0x1F01FF. What the calls print is
// written, and `differs` after it where a case says otherwise.
#![tactic(auto)]

ghost use Rattle.std.specs.Prelude.{◌≡◌, length, take};
ghost use Rattle.lists.specs.Lists.{same};
ghost use Rattle.step_vectors.specs.Places.{After};

use layout::TABLES_SIZE;
use records::constants::ALL_ACCESS;
use records::sizes::ACCOUNTS;
use script_answers::answer_line;
use script_io::bytes_before;
use script_lines::buffers::Printed;
use script_lines::print_unknown;
use std::io;

mod vectors;

const LINE_END: u8 = b'\n';

// A case begins.
const BEGINS: u8 = b'=';

// What the last line prints.
const PRINTS: u8 = b'>';

// The place after the line at `at`, with its line end.
fn after_line(text: &[u8], at: usize) -> usize
    ensures { After at (length text.now) result }
{
    for i in at..text.len() {
        if text[i] == LINE_END {
            return i + 1;
        }
    }
    text.len()
}

// Whether two texts are the same.
fn same_bytes(a: &[u8], b: &[u8]) -> bool
    ensures { result ≡ same a.now b.now }
{
    a == b
}

// Whether this was printed.
fn is_printed(p: Printed, text: &[u8]) -> bool
    ensures { result ≡ same (take p.count p.bytes) text.now }
{
    same_bytes(p.as_slice(), text)
}

// A fresh volume.
fn begin(rt: &impl Print, tables: &mut [u8]) -> io::Result<()> {
    let masks = [ALL_ACCESS; ACCOUNTS];
    format::format(tables, &masks, false);
    rt.write_all(b"=\n")
}

// A line with its line end, after one that printed this; what was printed last then.
fn take_line(
    rt: &impl Print,
    tables: &mut [u8],
    last: Printed,
    line: &[u8],
) -> io::Result<Printed> {
    if line.is_empty() {
        return Ok(last);
    }
    match line[0] {
        BEGINS => {
            begin(rt, tables)?;
            Ok(last)
        }
        PRINTS => {
            if !is_printed(last, &line[1..]) {
                rt.write_all(b"differs\n")?;
            }
            Ok(last)
        }
        _ => {
            let printed = answer_line(tables, bytes_before(line, line.len() - 1));
            rt.write_all(printed.as_slice())?;
            Ok(printed)
        }
    }
}

// The lines of a text, one after the other.
fn run(rt: &impl Print, tables: &mut [u8], text: &[u8]) -> io::Result<()> {
    let mut last = print_unknown();
    let mut at = 0;
    while at < text.len() {
        let next = after_line(text, at);
        last = take_line(rt, tables, last, &text[at..next])?;
        at = next;
    }
    Ok(())
}

fn main(rt: HostRuntime) -> io::Result<()> {
    let mut tables = [0u8; TABLES_SIZE];
    run(&rt, &mut tables, &vectors::parameters())?;
    run(&rt, &mut tables, &vectors::names())?;
    run(&rt, &mut tables, &vectors::control_units())?;
    run(&rt, &mut tables, &vectors::lookups())?;
    run(&rt, &mut tables, &vectors::new_files())?;
    run(&rt, &mut tables, &vectors::directories())?;
    run(&rt, &mut tables, &vectors::streams())?;
    run(&rt, &mut tables, &vectors::rules())?;
    run(&rt, &mut tables, &vectors::calls())?;
    run(&rt, &mut tables, &vectors::deletes())?;
    run(&rt, &mut tables, &vectors::pending())?;
    run(&rt, &mut tables, &vectors::removals())
}
