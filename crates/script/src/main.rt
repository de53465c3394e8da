// The script of document 01: lines `O account access share disposition options attributes fold path` and `C handle` of
// standard input, answered one by one on a fresh writable volume with masks 0x1F01FF; any other line prints `?`.
#![tactic(auto)]

use std::io;

fn main(rt: HostRuntime) -> io::Result<()> {
    script_io::run_script(&rt)
}
