// Tests of the replay and its listing.
#![tactic(auto)]

#[cfg(test)]
mod listings;
