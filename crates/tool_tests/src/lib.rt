//! Tests of the libraries of files and of whole runs: of files in memory and the order in which
//! they are read, of devices that fail, of limits and of workers. More whole runs over files are
//! rows of `checks/rows/`.
#![tactic(auto)]

#[cfg(test)]
mod asking;
#[cfg(test)]
mod crowd;
#[cfg(test)]
mod devices;
#[cfg(test)]
mod drivers;
#[cfg(test)]
mod libraries;
#[cfg(test)]
mod limits;
#[cfg(test)]
mod loads;
#[cfg(test)]
mod rows;
#[cfg(test)]
mod runs;
#[cfg(test)]
mod sinks;
