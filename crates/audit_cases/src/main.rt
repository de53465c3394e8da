// The audit on tables that break the rules of document 01 ("Tables are sound when") one at a time, so that each clause is
// seen to be looked at. The cases are lines of standard input:
//   NAME: CHANGE; CHANGE;    answered by the name and what the audit says of the good tables with these changes
//   + CHANGE; CHANGE;        not answered: it changes the good tables themselves, which begin as format makes them
// A change is the letter of its table and words: a slot, then the record's fields. Words left out are zero.
//   F SLOT KIND ATTRIBUTES MASK MASK MASK MASK MASK MASK MASK MASK MARK
//   L SLOT PARENT FILE =NAME
//   S SLOT KIND FILE OPENS READERS WRITERS DELETERS READS WRITES DELETES MARK =NAME     (reads, writes, deletes: those that share these)
//   O SLOT HANDLE FILE STREAM GRANTED SHARE MARK         (deletes on close)
//   R FIRST LAST FILE STREAM GRANTED SHARE MARK          the opens of slots FIRST to LAST, none past the end, each with the handle after its slot's number
//   N NUMBER                 the volume's next handle
//   B PLACE BYTE             a byte of the tables, whatever it stands for
//   T NUMBER                 no change: so many bytes are lent, if there are as many
// Numbers are hexadecimal. A kind is 0 free, 1 data or 2 directory; a mark is set unless it is 0. In a name `_` is unit 0,
// `~` unit 1 and `^` unit 1F. A line without `:` or `+`, a letter of no table and a slot past the table's end are answered
// by `?`.
//
// The good volume: `sub`, a directory in the root (file 1); in it the data files `a` (2) and `A` (4) and a directory that
// is named `sub` too (3). File 2 has the streams `log` and `tag`. Three opens are on its unnamed stream (2): two that
// read and write, of which the second deletes too, and both share all; and one that is not counted and shares nothing.
// Slots 5 and 9 are free in every table where a case uses them. Cases of the root and of the next handle come first, on
// the tables that format makes: with the good records links would have no directory above, and opens need the handle.
#![tactic(auto)]

ghost use Rattle.std.specs.Prelude.{◌≡◌, length};
ghost use Rattle.audit_cases.specs.Places.{Place};

use layout::{TABLES_SIZE, TableBytes, kind_of};
use records::constants::ALL_ACCESS;
use records::sizes::{ACCOUNTS, FILE_NAME_LIMIT, FILE_SLOTS, LINK_SLOTS, OPEN_SLOTS, STREAM_SLOTS};
use records::{File, FileNo, Handle, Link, LinkNo, Open, ShareCounts, Stream, StreamNo};
use records_files::write_file;
use records_links::write_link;
use records_opens::write_open;
use records_streams::write_stream;
use records_volume::write_next;
use std::io;
use std::io::{Input, Read};

// How many bytes of the input are answered.
const INPUT_LIMIT: usize = 0x1_0000;

// The slot and eleven fields.
const WORDS: usize = 12;

// What a byte of a change goes to: the letter, a word, or a unit of the name.
#[derive(Clone, Copy)]
enum Part {
    Letter,
    Word(usize),
    Unit(usize),
}

// What has been read of a change: its letter, its words and its name, and what comes next.
#[derive(Clone, Copy)]
struct Change {
    table: u8,
    words: [u32; WORDS],
    name: [u16; FILE_NAME_LIMIT],
    next: Part,
}

fn low(number: u32) -> u16 {
    (number % 65536) as u16
}

// The first place of the byte from `at` on, or the end.
fn find(text: &[u8], byte: u8, at: usize) -> usize
    ensures { Place at (length text.now) result }
{
    for i in at..text.len() {
        if text[i] == byte {
            return i;
        }
    }
    text.len()
}

// A number with a hexadecimal digit more.
fn with_digit(number: u32, byte: u8) -> u32 {
    let code = u32::from(byte);
    number % 0x100_0000 * 16 + code % 16 + code / 64 * 9
}

fn unit_of(byte: u8) -> u16 {
    match byte {
        b'_' => 0,
        b'~' => 1,
        b'^' => 0x1F,
        _ => u16::from(byte),
    }
}

// A change with a byte more. A word or a unit too many wraps round.
fn with_byte(c: Change, byte: u8) -> Change {
    let mut after = c;
    match c.next {
        Part::Letter => {
            if byte != b' ' && byte != 0 {
                after.table = byte;
                after.next = Part::Word(WORDS - 1);
            }
        }
        Part::Word(at) => {
            let word = at % WORDS;
            match byte {
                b' ' => after.next = Part::Word(word + 1),
                b'=' => after.next = Part::Unit(0),
                _ => after.words[word] = with_digit(c.words[word], byte),
            }
        }
        Part::Unit(at) => {
            let unit = at % FILE_NAME_LIMIT;
            after.name[unit] = unit_of(byte);
            after.next = Part::Unit(unit + 1);
        }
    }
    after
}

// The change that a text says: its letter stands first, after spaces.
fn change_of(text: &[u8]) -> Change {
    let mut change = Change {
        table: 0,
        words: [0; WORDS],
        name: [0; FILE_NAME_LIMIT],
        next: Part::Letter,
    };
    for byte in text {
        change = with_byte(change, *byte);
    }
    change
}

fn file_of(c: Change) -> File {
    let words = c.words;
    File {
        file_type: kind_of(low(words[1])),
        attributes: words[2],
        masks: [
            words[3], words[4], words[5], words[6], words[7], words[8], words[9], words[10],
        ],
        delete_pending: words[11] != 0,
    }
}

fn link_of(c: Change) -> Link {
    Link {
        parent: FileNo(low(c.words[1])),
        name: c.name,
        file: FileNo(low(c.words[2])),
    }
}

fn stream_of(c: Change) -> Stream {
    let words = c.words;
    // Within the literal the borrow checker does not cover it.
    let name = c.name;
    Stream {
        file: FileNo(low(words[2])),
        stream_type: kind_of(low(words[1])),
        name,
        counts: ShareCounts {
            opens: low(words[3]),
            readers: low(words[4]),
            writers: low(words[5]),
            deleters: low(words[6]),
            shared_read: low(words[7]),
            shared_write: low(words[8]),
            shared_delete: low(words[9]),
        },
        delete_pending: words[10] != 0,
    }
}

fn open_of(c: Change) -> Open {
    let words = c.words;
    Open {
        handle: Handle(u64::from(words[1])),
        file: FileNo(low(words[2])),
        stream: StreamNo(low(words[3])),
        granted: words[4],
        share: words[5],
        delete_on_close: words[6] != 0,
    }
}

// How many slots the table of a letter has.
fn slots_of(table: u8) -> usize {
    match table {
        b'F' => FILE_SLOTS,
        b'L' => LINK_SLOTS,
        b'S' => STREAM_SLOTS,
        b'O' | b'R' => OPEN_SLOTS,
        b'B' => TABLES_SIZE,
        b'N' | b'T' => 0x1_0000_0000,
        _ => 0,
    }
}

// The opens of a run of slots, alike but for their handles.
fn put_opens(tables: &mut TableBytes, c: Change) {
    let o = open_of(c);
    let end = OPEN_SLOTS.min(c.words[1] as usize + 1);
    for slot in c.words[0] as usize..end {
        let handle = Handle(slot as u64 + 1);
        write_open(tables, slot, Open { handle, ..o });
    }
}

// The tables with the change.
fn put(rt: &impl Print, tables: &mut TableBytes, c: Change) -> io::Result<()> {
    let slot = c.words[0];
    if slots_of(c.table) <= slot as usize {
        return rt.write_all(b" ?");
    }
    match c.table {
        b'F' => write_file(tables, FileNo(low(slot)), file_of(c)),
        b'L' => write_link(tables, LinkNo(low(slot)), link_of(c)),
        b'S' => write_stream(tables, StreamNo(low(slot)), stream_of(c)),
        b'O' => write_open(tables, slot as usize, open_of(c)),
        b'R' => put_opens(tables, c),
        b'N' => write_next(tables, Handle(u64::from(slot))),
        b'B' => tables[slot as usize % TABLES_SIZE] = (c.words[1] % 256) as u8,
        _ => {}
    }
    Ok(())
}

// The tables with each change of a text, and how many bytes of them are lent at its end.
fn put_all(rt: &impl Print, tables: &mut TableBytes, text: &[u8]) -> io::Result<usize> {
    let mut lent = TABLES_SIZE;
    let mut at = 0;
    let mut end = find(text, b';', 0);
    while end < text.len() {
        let c = change_of(&text[at..end]);
        put(rt, tables, c)?;
        if c.table == b'T' {
            lent = c.words[0] as usize;
        }
        at = end + 1;
        end = find(text, b';', at);
    }
    Ok(lent)
}

// What the audit says of the bytes lent.
fn verdict(tables: &TableBytes, lent: usize) -> bool {
    audit::audit(&tables[..lent.min(TABLES_SIZE)])
}

// What the audit says of a copy of the good tables with a case's changes.
fn answer_changes(rt: &impl Print, mut tables: TableBytes, text: &[u8]) -> io::Result<()> {
    let lent = put_all(rt, &mut tables, text)?;
    if verdict(&tables, lent) {
        rt.write_all(b" yes\n")
    } else {
        rt.write_all(b" no\n")
    }
}

// A case: its name, and what the audit says of the good tables with its changes.
fn answer_case(rt: &impl Print, good: &TableBytes, line: &[u8]) -> io::Result<()> {
    let colon = find(line, b':', 0);
    rt.write_all(&line[..colon])?;
    if colon == line.len() {
        return rt.write_all(b" ?\n");
    }
    answer_changes(rt, *good, &line[colon + 1..])
}

fn answer_line(rt: &impl Print, tables: &mut TableBytes, line: &[u8]) -> io::Result<()> {
    if 0 < line.len() && line[0] == b'+' {
        put_all(rt, tables, &line[1..])?;
        return Ok(());
    }
    answer_case(rt, tables, line)
}

fn answer_lines(rt: &impl Print, tables: &mut TableBytes, input: &[u8]) -> io::Result<()> {
    let mut at = 0;
    while at < input.len() {
        let end = find(input, b'\n', at);
        answer_line(rt, tables, &input[at..end])?;
        at = end + 1;
    }
    Ok(())
}

// As much of the input as is answered: what lies past it is not.
fn held(input: &[u8]) -> &[u8] {
    &input[..input.len().min(INPUT_LIMIT)]
}

fn main(rt: HostRuntime) -> io::Result<()> {
    let mut input = Vec::new(rt.alloc());
    rt.reader().read_to_end(&mut input)?;
    let masks = [ALL_ACCESS; ACCOUNTS];
    let mut good = [0u8; TABLES_SIZE];
    format::format(&mut good, &masks, false);
    answer_lines(&rt, &mut good, held(&input))
}
