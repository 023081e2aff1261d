#![tactic(auto)]

mod listing;
mod piles;
mod session;

use std::io;
use std::process::ExitCode;

/// Standard input names sessions, one a line. Each is played, and its listing compared with the one that is stored.
fn main(rt: HostRuntime) -> io::Result<ExitCode> {
    let mut code = ExitCode::SUCCESS;
    for name in rt.lines(rt.alloc()) {
        if !session::agrees(&rt, name?.as_str())? {
            code = ExitCode::FAILURE;
        }
    }
    Ok(code)
}
