// A cache of up to 4 fragments above any fragment server. It is a fragment server itself.
#![tactic(auto)]

pub mod layer;
mod slots;
