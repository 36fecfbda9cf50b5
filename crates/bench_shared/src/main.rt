//! What threads share, measured: how fast two of them pass messages over links, and what a turn at a board costs.
//!
//! Standard output tells the answers of links and how many turns were taken at boards; standard error tells how long that
//! took. An argument is the number of rounds in which messages are passed, of which the fastest counts.
#![tactic(auto)]

mod answers;
mod board;
mod countdown;
mod ends;
mod links;
mod numbers;
mod runs;

use std::env;

fn main(rt: HostRuntime) -> anyhow::Result<()> {
    let alloc = rt.alloc();
    let mut rounds = 1u32;
    if let Some(word) = env::args(&rt)?.nth(1) {
        rounds = word.as_str().parse().unwrap_or(1);
    }
    links::untimed(&rt, alloc)?;
    links::timed(&rt, alloc, rounds)?;
    board::untimed(&rt, alloc)?;
    board::timed(&rt, alloc)
}
