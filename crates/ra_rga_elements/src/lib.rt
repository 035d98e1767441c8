//! The list of all elements of an RGA: those that any accepted label inserted, in the order after the updates of all
//! labels. Removed elements, and those that some replica has not received, are in it too.
//!
//! Contract for the crates above: contracts see an `ElementList` as the elements in the order of the list, and as
//! arrivals by number: each element with its stamp and its anchor. `insert` changes the list as the definition
//! `insert_late_after` of `ra_labels` does. `lists` compares given elements with those of a replica, which marks them
//! by number.
//!
//! The elements stand in chunks with room for 128. A new element moves few others, and passes a whole chunk at once if
//! the chunk's lower bound shows that all its stamps are greater.
#![tactic(auto)]

mod chunk;
mod element;
mod element_list;
mod entry;
mod link;
mod room;
mod split;
mod spot;

pub use element_list::{ElementList, ROOT};
