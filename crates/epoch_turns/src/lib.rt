//! The nodes of a run, given their turns: each is led from its start, until all are done.
//!
//! Crates above rest on this: `work_in_groups` answers 1 to 4096 nodes of one job in order of number, each done and led
//! from the one that was handed in. `laws` say that a broken node of a group stays so.
//!
//! A message passes only from a node to its neighbour. So nodes get their turns at a board whose tasks are groups of
//! neighbours, as many as there are workers, or of up to 64 nodes where there is one. In a turn of a group a message
//! passes the whole group, in both directions, so that runs of many epochs need few rounds of the board. A node's first
//! turn analyses its epoch. At last all workers make the rows, each those of the epochs that it takes.
#![tactic(auto)]

mod answers;
mod group;
pub mod laws;
mod own_work;
mod splitting;
mod turning;

pub use turning::work_in_groups;
