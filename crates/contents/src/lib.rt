// What a lesson plan holds. The crate has no function but the derived ones: its definitions say what the session file of a plan is and what a run has of it, and
// its theorems that writing and reading are inverse.
#![tactic(auto)]

// A sheet's numbers as the file has them, whether or not a sheet may be so.
#[derive(Clone, Copy, Default)]
pub struct PlannedSheet {
    pub a1: i32,
    pub a2: i32,
    pub a3: i32,
    pub t0: u32,
    pub k: u32,
}
