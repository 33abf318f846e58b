// The tables by point: which working values have their place there, which word it touches and how.
#![tactic(auto)]

pub mod places;
