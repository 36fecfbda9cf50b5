//! Tests of checks that go on a stretch at a time, and from copies of states.
#![tactic(auto)]

#[cfg(test)]
mod stretches;
