// What the programs share: an input read into a lent buffer, and the status that a program ends with.
#![tactic(auto)]

ghost use Rattle.std.specs.Prelude.{◌≤◌, length};

use std::io;
use std::io::{ErrorKind, Read};
use std::process::ExitCode;

// Reads until buf is full, the input ends or a read fails, and answers how many bytes it put at the start of buf.
pub fn read_full(input: &mut impl Read, buf: &mut [u8]) -> usize
    ensures { result ≤ length buf.new }
{
    let mut done = 0;
    while done < buf.len() {
        match input.read(&mut buf[done..]) {
            Ok(0) | Err(_) => break,
            Ok(n) => done += n,
        }
    }
    done
}

// How a program ends once its output is written, or could not be. Where nobody reads the pipe any more it is 141, which a shell has for a program that
// SIGPIPE ended, and else 0: what came out is to be looked at.
pub fn status_after(written: io::Result<()>) -> ExitCode {
    match written {
        Err(e) if e.kind() == ErrorKind::BrokenPipe => ExitCode::from(141),
        _ => ExitCode::SUCCESS,
    }
}
