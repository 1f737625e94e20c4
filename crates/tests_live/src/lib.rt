//! Tests of running threads: properties that no clause states, and each public function once with
//! ample memory.
#![tactic(auto)]

#[cfg(test)]
mod beside;
#[cfg(test)]
mod calling;
#[cfg(test)]
mod definitions;
#[cfg(test)]
mod desks;
#[cfg(test)]
mod judged;
#[cfg(test)]
mod offices;
#[cfg(test)]
mod opened;
#[cfg(test)]
mod scenario;
#[cfg(test)]
mod settling;
#[cfg(test)]
mod worked_row;
