// Path lookup (the paper's walk, step 6). The lowest matching slot wins.
#![tactic(auto)]

mod links;
mod walk;

use records::{FileNo, LinkNo};
pub use walk::locate;

// Where the walk ends: at the last component's link, or in a directory that lacks its name.
#[derive(Clone, Copy)]
pub enum Walked {
    Link(LinkNo),
    Missing(FileNo),
}

// Where a path leads: to the root, by a link to its file, or to a directory that lacks its last name.
#[derive(Clone, Copy)]
pub enum Located {
    Root,
    Found(LinkNo, FileNo),
    Missing(FileNo),
}
