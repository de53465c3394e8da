// The script at the limits of the tables, names and paths; and slots that deletions give back, taken again.
#![tactic(auto)]

use std::io;

fn main(rt: HostRuntime) -> io::Result<()> {
    script_io::run_script(&rt)
}
