//! Tests of parts that neither a command line nor a host in C reaches: the pieces of code, chains
//! as trees, and the number of workers that plan.
#![tactic(auto)]

#[cfg(test)]
mod chains;
#[cfg(test)]
mod examples;
#[cfg(test)]
mod failed;
#[cfg(test)]
mod pieces;
#[cfg(test)]
mod workers;
