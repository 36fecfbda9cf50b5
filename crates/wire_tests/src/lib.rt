//! Tests of talks over a wire, also where it fails in mid-stream, and of the debugger over one.
#![tactic(auto)]

#[cfg(test)]
mod debugger;
#[cfg(test)]
mod dialogue;
#[cfg(test)]
mod doubler;
#[cfg(test)]
mod sends;
#[cfg(test)]
mod talks;
#[cfg(test)]
mod wires;
