// The table of opens in the lent bytes: the lowest free row, and whether a file or a stream has an open.
#![tactic(auto)]

ghost use Rattle.std.specs.Prelude.{◌≡◌};
ghost use Rattle.records.specs.Checked.{as_option};
ghost use Rattle.layout.specs.Layout.{decode};
ghost use Rattle.open_table.specs.Rows.{free_row, HasOpen};
ghost use Rattle.tables.specs.Tables.{file_has_open, stream_has_open};

use layout::TableBytes;
use records::sizes::OPEN_SLOTS;
use records::{FileNo, StreamNo};
use records_opens::{read_handle, read_open_file, read_open_stream};

// The lowest free row. A row has no number of its own kind: handles come from elsewhere.
pub fn free_open(b: &TableBytes) -> Option<usize>
    ensures { as_option result ≡ free_row (decode b.now).opens.rows }
{
    (0..OPEN_SLOTS).find(|i| read_handle(b, *i).0 == 0)
}

// Some open, counted or not, is in a row that is asked for. The handle is read only in those.
fn has_open<F: Fn(usize) -> bool>(b: &TableBytes, asked: F) -> bool
    requires { F.IsAlwaysCallable asked }
    ensures { HasOpen (F.post asked) (decode b.now).opens.rows result }
{
    for i in 0..OPEN_SLOTS {
        if asked(i) && read_handle(b, i).0 != 0 {
            return true;
        }
    }
    false
}

pub fn file_has_open(b: &TableBytes, f: FileNo) -> bool
    ensures { result ≡ file_has_open (decode b.now).opens.rows f }
{
    has_open(b, |i| read_open_file(b, i) == f)
}

pub fn stream_has_open(b: &TableBytes, s: StreamNo) -> bool
    ensures { result ≡ stream_has_open (decode b.now).opens.rows s }
{
    has_open(b, |i| read_open_stream(b, i) == s)
}
