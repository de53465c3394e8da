// The script on lines that the grammar settles one by one: what is a line, a number, a space, a path.
#![tactic(auto)]

use std::io;

fn main(rt: HostRuntime) -> io::Result<()> {
    script_io::run_script(&rt)
}
