//! Tests of the store's layer that no case file can say.
#![tactic(auto)]

#[cfg(test)]
mod index_tests;
