// Tests of the plant log: each refusal with a small input that gives it, beside one that does not.
#![tactic(auto)]

mod asking;
mod calls;
mod numbers;
mod records;
mod round_trip;
mod showing;
mod writing;
