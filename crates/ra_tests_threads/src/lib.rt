//! Tests of what goes through the lock: the lock over a toy journal, desks, reporters on threads of their own, and the
//! bench. The crate contains nothing else.
#![tactic(auto)]

#[cfg(test)]
mod bench;
#[cfg(test)]
mod callers;
#[cfg(test)]
mod contention;
#[cfg(test)]
mod desk;
#[cfg(test)]
mod desks;
#[cfg(test)]
mod lock;
