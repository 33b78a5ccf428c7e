// Parents and children: the live children of a parent, the way up from an action to the store, and what is seen there.
#![tactic(auto)]

pub mod charge;
pub mod children;
pub mod under;
pub mod walk;
pub mod way;
