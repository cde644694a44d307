//! Runs of whole scenarios: each text beside the history or the status that it gives.
#![tactic(auto)]

#[cfg(test)]
mod forwarded;
#[cfg(test)]
mod tests;
#[cfg(test)]
mod tests_egress;
#[cfg(test)]
mod tests_gen;
#[cfg(test)]
mod tests_lanes;
#[cfg(test)]
mod tests_refused;
#[cfg(test)]
mod tests_smcroute;
#[cfg(test)]
mod tests_statuses;
#[cfg(test)]
mod tests_threads;
#[cfg(test)]
mod tests_traces;
#[cfg(test)]
mod waiting;
