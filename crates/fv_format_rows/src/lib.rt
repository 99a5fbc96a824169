//! Tests of what stands in blocks and in lines, by values from outside: images that another implementation
//! wrote, and rows worked out by hand.
#![tactic(auto)]

#[cfg(test)]
mod tests;
