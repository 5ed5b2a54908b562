// A layer over any store that holds the last row put back until a row of another key comes.
#![tactic(auto)]

pub mod layer;
pub mod layers;
