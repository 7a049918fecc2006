// Writes the capture of the call script on standard input to standard output.
#![tactic(auto)]

use std::io;

fn main(rt: HostRuntime) -> io::Result<()> {
    capture_runner::run(&mut rt.stdin(), &mut rt.stdout())
}
