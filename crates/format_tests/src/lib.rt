// Tests of the formats. What the code answers is held against `model`, which states the rules once
// more, in plain byte arithmetic, and uses nothing of the code under test.
#![tactic(auto)]

#[cfg(test)]
mod edges;
#[cfg(test)]
mod keys;
#[cfg(test)]
mod model;
#[cfg(test)]
mod noise;
#[cfg(test)]
mod pairs;
#[cfg(test)]
mod parities;
#[cfg(test)]
mod placing;
#[cfg(test)]
mod reading;
#[cfg(test)]
mod terms;
#[cfg(test)]
mod writing;
