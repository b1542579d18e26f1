// Bytes written into lent memory; what is written is read back, and what was read is written again.
#![tactic(auto)]

pub mod buffer;
