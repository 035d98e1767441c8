/// The replicated data type of a history.
#[derive(Clone, Copy, Debug, PartialEq, Eq)]
pub enum Kind {
    /// A number that is incremented and decremented. Its named order is the execution order.
    Counter,
    /// A last-writer-wins (LWW) register: its value is the write with the greatest timestamp. Its named order is the
    /// timestamp order.
    Register,
    /// A last-writer-wins (LWW) set: an element is present if its update with the greatest timestamp added it. Its
    /// named order is the timestamp order.
    LwwSet,
    /// An observed-remove (OR) set: an element is present if some addition of it was not removed. A removal takes out
    /// the additions that its replica had observed. Its named order is the execution order.
    OrSet,
    /// A replicated growable array (RGA): a list in which each element is inserted behind another one. Its named order
    /// is the timestamp order.
    Rga,
    /// A list of any editor, which says of an insertion between which elements it is. One order of all elements, which
    /// nobody reports, has to explain all insertions and reads. Its named order is the execution order.
    List,
    /// An object of any type, of whose updates nothing is said. Reads that see the same updates have to return the same
    /// value. Its named order is the execution order.
    Any,
    /// A multi-value register: a read returns the values of all writes that it sees and that no other one of these
    /// replaced. Its named order is the execution order.
    MvRegister,
}
