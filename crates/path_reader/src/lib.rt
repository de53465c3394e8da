// A reader of a path's components (step 6), which holds the lent units and its place. The functions over it are thin:
// each takes the reader apart or puts it together, and `components::next_component` on units and place does the work. It
// is no `Iterator`: the laws of proofs/Order are about its steps (`reader_at`, `step_of`).
#![tactic(auto)]

ghost use Rattle.std.specs.Prelude.{◌≡◌};
ghost use Rattle.components.specs.Positions.{next_component};
ghost use Rattle.path_reader.specs.Reading.{reader_at, step_of};

use components::{Part, next_component};

#[derive(Clone, Copy)]
pub struct PathReader<'a> {
    pub units: &'a [u16],
    pub at: usize,
}

// A component, and the reader after it. Where none is left, the component is empty and both stand at the end.
#[derive(Clone, Copy)]
pub struct Step<'a> {
    pub component: Part,
    pub reader: PathReader<'a>,
}

// A reader of the units from a place on.
pub fn reader_at<'a>(units: &'a [u16], at: usize) -> PathReader<'a>
    ensures { result ≡ reader_at units.entry at }
{
    PathReader { units, at }
}

// The reader's next component, and the reader after it.
pub fn next<'a>(reader: PathReader<'a>) -> Step<'a>
    ensures { result ≡ step_of reader.entry }
{
    let component = next_component(reader.units, reader.at);
    Step {
        component,
        reader: PathReader {
            at: component.end,
            ..reader
        },
    }
}

// The first component from `at` on, by a step of a reader. Its parameters are plain, so that callers need no walk by
// hand.
pub fn read_component(path: &[u16], at: usize) -> Part
    ensures { result ≡ next_component path.now at }
{
    next(reader_at(path, at)).component
}
