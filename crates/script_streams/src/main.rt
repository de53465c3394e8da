// The script on a volume whose streams run out: one slot left for a file that needs two.
#![tactic(auto)]

use std::io;

fn main(rt: HostRuntime) -> io::Result<()> {
    script_io::run_script(&rt)
}
