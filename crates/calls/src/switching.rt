// The read-only mark set or cleared (the paper's switch).
ghost use Rattle.store.specs.Store.{store_set_read_only};
ghost use Rattle.call_contracts.specs.Performs.{Performs};

use crate::answers::{done, refused};
use audit::audit;
use layout::TABLES_SIZE;
use records::{Answer, Status};
use records_volume::write_mark;

pub fn set_read_only(b: &mut [u8], read_only: bool) -> Answer
    ensures { Performs result b.old b.new (λ t. store_set_read_only t read_only) }
{
    let Some(tables) = b.as_mut_array::<TABLES_SIZE>() else {
        return refused(Status::FileCorruptError);
    };
    if !audit(tables) {
        return refused(Status::FileCorruptError);
    }
    write_mark(tables, read_only);
    done()
}
