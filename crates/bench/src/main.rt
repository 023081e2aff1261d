#![tactic(auto)]

use std::io;

/// Standard input is a script, standard output its listing.
fn main(rt: HostRuntime) -> io::Result<()> {
    script::play::play(&mut rt.stdin(), &mut rt.stdout())
}
