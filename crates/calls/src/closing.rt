// A close: consistency, then the open that has the handle is found in the lent row of opens and struck, then what becomes
// of its file and stream is settled.
ghost use Rattle.std.specs.Prelude.{◌≡◌};
ghost use Rattle.records.specs.Slots.{zero_open};
ghost use Rattle.layout.specs.Layout.{decode, Changed};
ghost use Rattle.tables.specs.Tables.{row_at};
ghost use Rattle.apply.specs.Applied.{struck_from};
ghost use Rattle.store.specs.Store.{settled, store_close};
ghost use Rattle.call_contracts.specs.Performs.{Performs};

use crate::answers::{done, refused};
use apply::strike_open;
use audit::audit;
use layout::{TABLES_SIZE, TableBytes};
use open_rows::{change_row, find_open};
use records::slots::ZERO_OPEN;
use records::{Answer, Handle, Status};
use records_opens::read_open;
use settle::settle;

// The open in a row, struck: the row is free in the lent row of opens, and then in the bytes. Then its file and stream, by
// the opens that remain.
fn close_row(b: &mut TableBytes, row: usize)
    ensures { Changed b.old b.new
        (settled (struck_from (decode b.old) row zero_open) (row_at (decode b.old).opens row)) }
{
    let o = read_open(b, row);
    let free = change_row(b, row, ZERO_OPEN);
    strike_open(b, row, free);
    settle(b, o);
}

pub fn close(b: &mut [u8], h: Handle) -> Answer
    ensures { Performs result b.old b.new (λ t. store_close t h) }
{
    let Some(tables) = b.as_mut_array::<TABLES_SIZE>() else {
        return refused(Status::FileCorruptError);
    };
    if !audit(tables) {
        return refused(Status::FileCorruptError);
    }
    let Some(row) = find_open(tables, h) else {
        return refused(Status::InvalidHandle);
    };
    close_row(tables, row);
    done()
}
