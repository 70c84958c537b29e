//! Structures, vectors and procedures that a store gives, and what is read of them and written to them, of structures by the constants of a stored code
//! object.
#![tactic(auto)]

#[cfg(test)]
mod elements;
#[cfg(test)]
mod fields;
#[cfg(test)]
mod forms;
#[cfg(test)]
mod making;
#[cfg(test)]
mod procedure_store;
#[cfg(test)]
mod procedures;
#[cfg(test)]
mod row_making;
#[cfg(test)]
mod store;
#[cfg(test)]
mod table_store;
#[cfg(test)]
mod tables;
#[cfg(test)]
mod turns;
#[cfg(test)]
mod vector_store;
