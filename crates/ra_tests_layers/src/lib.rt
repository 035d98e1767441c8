//! Tests of single layers below the monitor: the rewriting and the states of a list, the order of the elements of lists
//! of any editor and what else is kept of them, of the reads of an object of any type, and of a multi-value register.
//! Others test the order of labels that meets conditions, and whether any order explains a history. They state what no
//! clause does. The crate contains nothing else.
#![tactic(auto)]

#[cfg(test)]
mod any_order;
#[cfg(test)]
mod any_rga;
#[cfg(test)]
mod edges;
#[cfg(test)]
mod effects;
#[cfg(test)]
mod first_reads;
#[cfg(test)]
mod nearest_lists;
#[cfg(test)]
mod next_elements;
#[cfg(test)]
mod next_reads;
#[cfg(test)]
mod order;
#[cfg(test)]
mod order_costs;
#[cfg(test)]
mod precedence;
#[cfg(test)]
mod replica;
#[cfg(test)]
mod rewriting;
#[cfg(test)]
mod siblings;
#[cfg(test)]
mod states;
#[cfg(test)]
mod witness;
#[cfg(test)]
mod worked_examples;
