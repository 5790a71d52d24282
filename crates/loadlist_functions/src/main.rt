#![tactic(auto)]
// What loadlist does, run in the gate on a profile with five functions, `examples/functions.so`.
use listing::list_input;
use std::io;

// Kept: a main in each of the three programs, since the gate runs a program on one input.
fn main(rt: HostRuntime) -> io::Result<()> {
    list_input(&mut rt.stdin(), &mut rt.stdout())
}
