// The program: a session file on standard input, a printed line for each of its events on standard output. `stdin` is the
// session of document 01's "Session file and program", and `stdout` what that chapter says it prints.
#![tactic(auto)]

use std::process::ExitCode;
use streams::{read_full, status_after};

fn main(rt: HostRuntime) -> ExitCode {
    // One byte more than a session may have, so that a longer one is seen to be longer.
    let mut input = [0u8; 65537];
    let n = read_full(&mut rt.stdin(), &mut input);
    let mut text = [0u8; 194400];
    let k = printing::print(&input[..n], &mut text);
    status_after(rt.write_all(&text[..k]))
}
