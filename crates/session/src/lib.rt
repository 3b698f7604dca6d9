// A session file run: its events answered in turn, whatever is put of them.
#![tactic(auto)]

pub mod run;

// How a run over a file's events ended: how many samples it accepted, and how many bytes it put.
#[derive(Clone, Copy)]
pub struct Ran {
    pub samples: usize,
    pub written: usize,
}
