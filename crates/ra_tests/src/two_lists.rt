//! The two lists of an RGA, that of all elements and that of one replica: their calls succeed with ample memory, also
//! for thousands of labels.

mod elements;
mod replicas;
