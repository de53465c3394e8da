// The lent row of opens on one table, a line for each clause: a conflict on a stream by the pair rule, the row of a handle,
// and the row that a call changes. A line is answered by yes or no.
//
// The table: row 0 reads stream 3 and shares all. Row 1 is free, whatever else it holds. Rows 2 and 3 have one handle; row 2
// writes stream 4 and shares reading. Row 4 is on stream 6 and not counted. Row 255, the last, reads stream 8 and shares
// nothing. No other row has an open.
#![tactic(auto)]

ghost use Rattle.std.specs.Prelude.{◌≡◌};

use layout::{TABLES_SIZE, TableBytes};
use open_rows::{change_row, conflict_on, find_open};
use records::slots::ZERO_OPEN;
use records::{FileNo, Handle, Open, StreamNo, Terms};
use records_opens::write_open;
use std::io;

fn answer(rt: &impl Print, name: &str, holds: bool) -> io::Result<()> {
    let word = if holds { "yes" } else { "no" };
    println!(rt; "{name}: {word}")
}

fn put(b: &mut TableBytes, row: usize, handle: u64, stream: u16, granted: u32, share: u32) {
    write_open(
        b,
        row,
        Open {
            handle: Handle(handle),
            file: FileNo(1),
            stream: StreamNo(stream),
            granted,
            share,
            delete_on_close: false,
        },
    );
}

fn put_all(b: &mut TableBytes) {
    put(b, 0, 7, 3, 0x1, 7);
    put(b, 1, 0, 5, 0x1_0003, 0);
    put(b, 2, 9, 4, 0x2, 1);
    put(b, 3, 9, 7, 0x1, 7);
    put(b, 4, 12, 6, 0x80, 0);
    put(b, 255, 20, 8, 0x1, 0);
}

fn conflict(
    rt: &impl Print,
    b: &TableBytes,
    name: &str,
    stream: u16,
    granted: u32,
    share: u32,
) -> io::Result<()> {
    answer(
        rt,
        name,
        conflict_on(b, StreamNo(stream), Terms { granted, share }),
    )
}

fn conflicts(rt: &impl Print, b: &TableBytes) -> io::Result<()> {
    conflict(rt, b, "reads where all is shared", 3, 0x1, 7)?;
    conflict(
        rt,
        b,
        "writes and deletes where all is shared",
        3,
        0x1_0002,
        7,
    )?;
    conflict(rt, b, "does not share the reading", 3, 0x2, 6)?;
    conflict(rt, b, "writes where writing is not shared", 4, 0x2, 7)?;
    conflict(
        rt,
        b,
        "deletes where deleting is not shared",
        4,
        0x1_0000,
        7,
    )?;
    conflict(rt, b, "reads where reading is shared", 4, 0x1, 7)?;
    conflict(rt, b, "does not share the writing", 4, 0x1, 1)
}

fn quiet_conflicts(rt: &impl Print, b: &TableBytes) -> io::Result<()> {
    conflict(rt, b, "not counted, and shares nothing", 4, 0x80, 0)?;
    conflict(
        rt,
        b,
        "on a stream of an open that is not counted",
        6,
        0x1_0003,
        0,
    )?;
    conflict(rt, b, "on a stream of a free row", 5, 0x1_0003, 0)?;
    conflict(rt, b, "on a stream of no row", 9, 0x1_0003, 0)?;
    conflict(rt, b, "on the stream of the last row", 8, 0x1, 7)
}

fn handles(rt: &impl Print, b: &TableBytes) -> io::Result<()> {
    answer(
        rt,
        "handle in the first row",
        find_open(b, Handle(7)) == Some(0),
    )?;
    answer(
        rt,
        "handle of two rows in the lower one",
        find_open(b, Handle(9)) == Some(2),
    )?;
    answer(
        rt,
        "handle in the last row",
        find_open(b, Handle(20)) == Some(255),
    )?;
    answer(
        rt,
        "handle 0 in a free row",
        find_open(b, Handle(0)) == Some(1),
    )?;
    answer(
        rt,
        "handle of no open in a row",
        find_open(b, Handle(5)) == Some(5),
    )
}

fn new_open() -> Open {
    Open {
        handle: Handle(30),
        file: FileNo(1),
        stream: StreamNo(3),
        granted: 1,
        share: 7,
        delete_on_close: true,
    }
}

fn row_changes(rt: &impl Print, b: &TableBytes) -> io::Result<()> {
    let o = new_open();
    let stored = change_row(b, 5, o);
    answer(rt, "a row has the open stored there", stored.handle.0 == 30)?;
    answer(
        rt,
        "the open stored there deletes on close",
        stored.delete_on_close,
    )?;
    answer(
        rt,
        "past the end the open is answered",
        change_row(b, 256, o).handle.0 == 30,
    )?;
    answer(
        rt,
        "a row that is freed has handle 0",
        change_row(b, 2, ZERO_OPEN).handle.0 == 0,
    )
}

fn main(rt: HostRuntime) -> io::Result<()> {
    let mut b = [0u8; TABLES_SIZE];
    put_all(&mut b);
    conflicts(&rt, &b)?;
    quiet_conflicts(&rt, &b)?;
    handles(&rt, &b)?;
    row_changes(&rt, &b)
}
