//! Tests of script lines, sessions, shelves and commands, over devices and streams in memory: what no
//! contract says of texts and bytes, and each call that fails where it is told to. Cases of the program
//! without faults are the runs in `tests/`.

#![tactic(auto)]

#[cfg(test)]
mod checks;
#[cfg(test)]
mod discards;
#[cfg(test)]
mod faults;
#[cfg(test)]
mod fixtures;
#[cfg(test)]
mod lines;
#[cfg(test)]
mod replies;
#[cfg(test)]
mod runs;
#[cfg(test)]
mod scripts;
#[cfg(test)]
mod sessions;
#[cfg(test)]
mod shelves;
#[cfg(test)]
mod words;
