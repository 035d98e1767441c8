//! Tests that cross the libraries: worked examples as lists of commands, the text of a history, the two lists of an
//! RGA, and many of the public calls with ample memory. Tests of the lock are in `ra_tests_threads`. The crate contains
//! nothing else.
#![tactic(auto)]

#[cfg(test)]
mod another_order;
#[cfg(test)]
mod commands;
#[cfg(test)]
mod costs;
#[cfg(test)]
mod counters;
#[cfg(test)]
mod cycles;
#[cfg(test)]
mod explained;
#[cfg(test)]
mod first_calls;
#[cfg(test)]
mod joins;
#[cfg(test)]
mod limits;
#[cfg(test)]
mod list_orders;
#[cfg(test)]
mod lists;
#[cfg(test)]
mod or_sets;
#[cfg(test)]
mod possible_answers;
#[cfg(test)]
mod reported;
#[cfg(test)]
mod room;
#[cfg(test)]
mod rows;
#[cfg(test)]
mod sizes;
#[cfg(test)]
mod text;
#[cfg(test)]
mod timestamps;
#[cfg(test)]
mod two_lists;
#[cfg(test)]
mod unordered;
#[cfg(test)]
mod visibility;
