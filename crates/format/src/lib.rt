// The format of document 01's session file: its header.
#![tactic(auto)]

pub mod header;
