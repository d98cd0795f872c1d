// Tests of the kinds of fragment servers. What a server answers is held against `model`, which states
// the rules once more, as a short list that is walked through, and uses nothing of the code under
// test.
#![tactic(auto)]

#[cfg(test)]
mod call;
#[cfg(test)]
mod compare;
#[cfg(test)]
mod damage;
#[cfg(test)]
mod kinds;
#[cfg(test)]
mod log_area;
#[cfg(test)]
mod model;
#[cfg(test)]
mod noise;
#[cfg(test)]
mod rows;
#[cfg(test)]
mod run;
#[cfg(test)]
mod served;
#[cfg(test)]
mod tally;
