//! Tests of the pager that threads share: worked cases over public contracts alone, and nothing else.
#![tactic(auto)]

#[cfg(test)]
mod accesses;
