//! The model of a list of any editor: its sequential specification, and the theorems that the kind `list` rests on.
//!
//! A history of lists is judged by one order of all elements, which nobody reports. So the specification comes twice:
//! for a given order (`specs/Ordered`), as the PLDI 2019 paper has specifications, and without one (`specs/FreeList` of
//! `ra_labels`). The theorems of `theorems` say that the first is the second and edges: an order that extends the edges
//! of the operations, and no other one, makes every step and every answer of the free specification right. They also
//! say that its state does not depend on the order of the updates.
#![tactic(auto)]

pub mod theorems;
