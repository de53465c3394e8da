// The audit of the files table: each slot by itself, and the root.
#![tactic(auto)]

ghost use Rattle.std.specs.Prelude.{◌≡◌};
ghost use Rattle.records.specs.Slots.{file_used};
ghost use Rattle.layout.specs.Layout.{decode};
ghost use Rattle.consistency.specs.Slots.{slot_test};
ghost use Rattle.consistency.specs.Good.{good_file, is_zero_file};
ghost use Rattle.consistency.specs.Test.{files_test};

use layout::TableBytes;
use masks::{valid_masks, zero_masks};
use records::constants::{DIRECTORY, FILE_ATTRIBUTES};
use records::sizes::FILE_SLOTS;
use records::slots::{file_used, is_directory};
use records::{File, FileNo};
use records_files::{read_file, read_file_type};

// What a free slot has beside its kind is zero.
#[tactic(auto, unfolding(consistency::specs::Good::is_zero_file))]
fn is_zero_file(f: File) -> bool
    ensures { result ≡ is_zero_file f }
{
    (f.attributes == 0) & zero_masks(&f.masks) & !f.delete_pending
}

// A used slot has attributes that a file may have, the directory bit exactly on a directory, and valid masks.
#[tactic(auto, unfolding(consistency::specs::Good::good_file))]
fn good_file(f: File) -> bool
    ensures { result ≡ good_file f }
{
    bits::within(f.attributes, FILE_ATTRIBUTES)
        && bits::has(f.attributes, DIRECTORY) == is_directory(f.file_type)
        && valid_masks(&f.masks)
}

// A file by itself. Each table has such a choice: as one function it would take two closures.
pub fn slot_consistent(f: File) -> bool
    ensures { result ≡ slot_test file_used good_file is_zero_file f }
{
    if file_used(f) {
        good_file(f)
    } else {
        is_zero_file(f)
    }
}

// The root is a directory, and each slot passes.
pub fn files_consistent(b: &TableBytes) -> bool
    ensures { result ≡ files_test (decode b.now).volume.files }
{
    is_directory(read_file_type(b, FileNo(0)))
        && (0..FILE_SLOTS).all(|i| slot_consistent(read_file(b, FileNo(i as u16))))
}
