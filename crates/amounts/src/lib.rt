// Words to amounts and back, and exact sums of them. No signed number and none of more than 64 bits occurs.
#![tactic(auto)]

pub mod bytes;
pub mod limit;
pub mod sum;
