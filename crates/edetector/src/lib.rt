// Bettors, restart rules and the ledger of a restarted-bet change monitor.
#![tactic(auto)]

pub mod adaptive;
pub mod bettor;
pub mod fault;
pub mod fixed;
pub mod mixture;
pub mod monitor;
mod ratio;
pub mod rule;
pub mod rules;
pub mod slip;
pub mod state;
pub mod table;
pub mod units;
pub mod value;
pub mod wealth;
