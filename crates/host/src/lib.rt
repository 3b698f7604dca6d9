// What a host links: a session file run into a lent buffer, as answers, lines, a page or grounds, its answers as doubles, a session file
// written, and a chart recorder's words.
#![tactic(auto)]

pub mod exports;
