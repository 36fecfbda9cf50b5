//! Tests of commands over files in memory, from their words to what they write.
#![tactic(auto)]

#[cfg(test)]
mod tests;
