// What the vectors accepted on one circuit say about its bridges.

#![tactic(auto)]

mod leading;
mod parts;
#[cfg(test)]
mod tests;
