#![tactic(auto)]
// Prints the lines of the file on standard input: `listing` has the format.
use listing::list_input;
use std::io;

// Kept: a main in each of the three programs, since the gate runs a program on one input.
fn main(rt: HostRuntime) -> io::Result<()> {
    list_input(&mut rt.stdin(), &mut rt.stdout())
}
