// The two stores: where a card stands, and cards copied in and between them.
#![tactic(auto)]

pub mod cards;
pub mod place;
