// Runs the call script on standard input and prints the answers.
#![tactic(auto)]

use std::io;

fn main(rt: HostRuntime) -> io::Result<()> {
    call_runner::run(&mut rt.stdin(), &mut rt.stdout())
}
