// The rules' worked examples, and each refusal with the place that it names, on the model of the
// service.
#![tactic(auto)]

#[cfg(test)]
mod cuts;
#[cfg(test)]
mod examples;
#[cfg(test)]
mod formats;
#[cfg(test)]
mod refusals;
#[cfg(test)]
mod script;
#[cfg(test)]
mod torn;
