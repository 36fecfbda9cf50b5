//! Tests of runs that are cut into epochs: where these begin, each by itself, what its core sends, and all of them
//! together, with what crosses the cuts between them. Paths over runs, decisions of
//! runs, the calls in progress, core files, pages, and moves and sessions of a debugger.
#![tactic(auto)]

#[cfg(test)]
mod core_files;
#[cfg(test)]
mod cores;
#[cfg(test)]
mod cursors;
#[cfg(test)]
mod deciding;
#[cfg(test)]
mod epochs;
#[cfg(test)]
mod guests;
#[cfg(test)]
mod pages;
#[cfg(test)]
mod paths;
#[cfg(test)]
mod runs;
#[cfg(test)]
mod sessions;
#[cfg(test)]
mod stacks;
#[cfg(test)]
mod travels;
