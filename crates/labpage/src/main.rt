// The program: a session file on standard input, its page for the lab book on standard output. Its one argument is the number of sample
// lines under a header line, 40 without. What it cannot do it says in one line on standard error. `stdin` is a session of document 01's
// cases in both modes, and `stdout` the page that the paper's values make.
#![tactic(auto)]

ghost use Rattle.std.specs.Prelude.{◌≡◌, ◌+◌, ◌*◌, ◌-◌, cond, Some, None};
ghost use Rattle.labpage.specs.Number.{chosen_of, number_from, follows};

use std::env::FillError;
use std::io;
use std::process::ExitCode;
use std::rt::Env;
use streams::{read_full, status_after};

fn main(rt: HostRuntime) -> ExitCode {
    // Where there is no argument, or a longer one, nothing of the word counts.
    let mut word = [0u8; 16];
    let k = rt.arg(1, &mut word).unwrap_or(0);
    let Some(every) = chosen(arg_count(&rt), &word[..k]) else {
        let _ = eprintln!(rt;
            "labpage: the one argument is the number of sample lines under a header, 1 to 999"
        );
        return ExitCode::SUCCESS;
    };
    // Longer than any session, so that a longer input is seen to be longer.
    let mut input = [0u8; 65537];
    let n = read_full(&mut rt.stdin(), &mut input);
    let mut text = [0u8; 394054];
    // The number is within its limits and no page is longer than the buffer, so only a file that is no session has none.
    let Ok(written) = page::page(&input[..n], every, &mut text) else {
        let _ = eprintln!(rt; "labpage: the input is not a session file");
        return ExitCode::SUCCESS;
    };
    match rt.write_all(&text[..written]) {
        Ok(()) => ExitCode::SUCCESS,
        Err(e) => unwritten(&rt, e),
    }
}

// How many arguments there are, the program's own name among them; of 3 or more it is 3.
fn arg_count(rt: &impl Env) -> usize {
    let mut start = [0u8; 1];
    for i in 0..3 {
        if let Err(FillError::NotPresent) = rt.arg(i, &mut start) {
            return i;
        }
    }
    3
}

// Says why the page could not be written. Where nobody reads the pipe any more there is nothing to say.
fn unwritten(rt: &(impl Eprint + Alloc), e: io::Error) -> ExitCode {
    if e.kind() != io::ErrorKind::BrokenPipe {
        let _ = say_why(rt, &e);
    }
    status_after(Err(e))
}

fn say_why(rt: &(impl Eprint + Alloc), e: &io::Error) -> io::Result<()> {
    let text = format!(in rt.alloc(); "{e}")?;
    let why = words_of(text.as_str());
    eprintln!(rt; "labpage: the page could not be written: {why}")
}

// The system's words for an error, without the number that std puts after them.
fn words_of(text: &str) -> &str {
    text.rsplit_once(" (os error ")
        .map_or(text, |(words, _)| words)
}

// How many sample lines are wanted under a header line, by the count of arguments, the program's own name among them, and the one after it, if
// they say it.
#[tactic(auto, unfolding(crate::specs::Number::chosen_of))]
fn chosen(count: usize, word: &[u8]) -> Option<u32>
    ensures { result ≡ chosen_of count word.now }
{
    match count {
        0 | 1 => Some(40),
        2 => number(word).filter(|every| *every > 0),
        _ => None,
    }
}

// What digits say, up to 999.
fn number(word: &[u8]) -> Option<u32>
    ensures { result ≡ number_from 0 word.now }
{
    let mut n = 0;
    for b in word {
        n = with_digit(n, *b)?;
    }
    Some(n)
}

// A number with one digit more, if the byte is a digit and the number stays below 1000.
#[tactic(auto, unfolding(crate::specs::Number::follows))]
fn with_digit(n: u32, b: u8) -> Option<u32>
    ensures { result ≡ cond (follows n b) (Some (10 * n + (b - 48))) None }
{
    if n <= 99 && b.is_ascii_digit() {
        Some(10 * n + u32::from(b - b'0'))
    } else {
        None
    }
}
