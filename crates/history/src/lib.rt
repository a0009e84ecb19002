// What the replays of recorded histories have in common, whatever set they replay. oracle/README.md has the format.
#![tactic(auto)]

pub mod fault;
pub mod line;
pub mod operation;
pub mod print;
pub mod replay;
pub mod state;
