// Calls and answers as bytes.
#![tactic(auto)]

pub mod calls;
pub mod fields;
pub mod items;
pub mod kinds;
pub mod order;
