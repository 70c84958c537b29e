//! Tests of volumes whose pages a map names, over a host in memory.
#![tactic(auto)]

#[cfg(test)]
mod attaching;
#[cfg(test)]
mod changing;
#[cfg(test)]
mod files;
#[cfg(test)]
mod forged;
#[cfg(test)]
mod full;
#[cfg(test)]
mod making;
#[cfg(test)]
mod volumes;
