// An open: consistency, then the twelve steps, then what was decided is written.
ghost use Rattle.std.specs.Prelude.{◌≡◌};
ghost use Rattle.records.specs.Namespace.{namespace};
ghost use Rattle.layout.specs.Layout.{decode};
ghost use Rattle.store.specs.Complete as definitions;
ghost use Rattle.store.specs.Store.{store_view, store_open};
ghost use Rattle.complete.specs.Placing.{Decides};
ghost use Rattle.call_contracts.specs.Performs.{Performs};

use crate::answers::{opened, refused};
use admit::admit;
use apply::apply_open;
use audit::audit;
use complete::complete;
use layout::{TABLES_SIZE, TableBytes};
use open_steps::AcceptedOpen;
use records::{Answer, Request, Status};
use request_checks::deletes_on_close;
use target::find_target;

// The twelve steps.
fn decide(b: &TableBytes, r: Request, path: &[u16]) -> Result<AcceptedOpen, Status>
    ensures { Decides (decode b.now) path.now result
        (definitions.decide (store_view (decode b.now)) (namespace (decode b.now).volume) r path.now) }
{
    let target = find_target(b, r, path);
    let pending = admit(b, r, path, target);
    complete(b, path, deletes_on_close(r), pending)
}

pub fn open(b: &mut [u8], r: Request, path: &[u16]) -> Answer
    ensures { Performs result b.old b.new (λ t. store_open t r path.now) }
{
    let Some(tables) = b.as_mut_array::<TABLES_SIZE>() else {
        return refused(Status::FileCorruptError);
    };
    if !audit(tables) {
        return refused(Status::FileCorruptError);
    }
    match decide(tables, r, path) {
        Err(status) => refused(status),
        Ok(accepted) => {
            apply_open(tables, path, accepted);
            opened(accepted)
        }
    }
}
