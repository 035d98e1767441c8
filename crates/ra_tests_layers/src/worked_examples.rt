//! The worked examples of the kind `list`.
use ra_labels::Cause;

/// A step of a worked example, with the replica that makes it.
#[derive(Clone, Copy)]
pub enum Step {
    /// An insertion: the left neighbour, the element, and the right neighbour.
    Insert(u8, u32, u32, u32),
    /// A removal of this element.
    Remove(u8, u32),
    /// A read that returned these elements.
    Read(u8, &'static [u32]),
    /// A read of a part of the list, which returned these elements.
    Part(u8, &'static [u32]),
    /// The delivery of the insertion of this element.
    GotInsertion(u8, u32),
    /// The delivery of a removal of this element.
    GotRemoval(u8, u32),
    /// A join of the next replica from this one.
    Join(u8),
}

/// A worked example. All steps but the last one succeed.
pub struct Row {
    /// What it shows.
    pub name: &'static str,
    /// The number of replicas at the start.
    pub replicas: u8,
    /// The steps.
    pub steps: &'static [Step],
    /// Why the last step fails, if it does.
    pub cause: Option<Cause>,
}

pub static ROWS: [Row; 22] = [
    Row {
        name: "two replicas read two concurrent insertions in different orders",
        replicas: 2,
        steps: &[
            Step::Insert(0, 0, 1, 0),
            Step::GotInsertion(1, 1),
            Step::Insert(0, 1, 2, 0),
            Step::Insert(1, 1, 3, 0),
            Step::GotInsertion(0, 3),
            Step::GotInsertion(1, 2),
            Step::Read(0, &[1, 3, 2]),
            Step::Read(1, &[1, 2, 3]),
        ],
        cause: Some(Cause::Order),
    },
    Row {
        name: "two replicas agree",
        replicas: 2,
        steps: &[
            Step::Insert(0, 0, 1, 0),
            Step::GotInsertion(1, 1),
            Step::Insert(0, 1, 2, 0),
            Step::Insert(1, 1, 3, 0),
            Step::GotInsertion(0, 3),
            Step::GotInsertion(1, 2),
            Step::Read(0, &[1, 3, 2]),
            Step::Read(1, &[1, 3, 2]),
        ],
        cause: None,
    },
    Row {
        name: "a cycle through an element that is no longer shown",
        replicas: 3,
        steps: &[
            Step::Insert(0, 0, 1, 0),
            Step::GotInsertion(1, 1),
            Step::GotInsertion(2, 1),
            Step::Insert(0, 0, 2, 1),
            Step::Insert(1, 1, 3, 0),
            Step::Remove(2, 1),
            Step::GotInsertion(2, 2),
            Step::GotInsertion(2, 3),
            Step::Read(2, &[3, 2]),
        ],
        cause: Some(Cause::Order),
    },
    Row {
        name: "the same in the other order",
        replicas: 3,
        steps: &[
            Step::Insert(0, 0, 1, 0),
            Step::GotInsertion(1, 1),
            Step::GotInsertion(2, 1),
            Step::Insert(0, 0, 2, 1),
            Step::Insert(1, 1, 3, 0),
            Step::Remove(2, 1),
            Step::GotInsertion(2, 2),
            Step::GotInsertion(2, 3),
            Step::Read(2, &[2, 3]),
        ],
        cause: None,
    },
    Row {
        name: "a neighbour that was not delivered",
        replicas: 2,
        steps: &[Step::Insert(0, 0, 1, 0), Step::Insert(1, 1, 2, 0)],
        cause: Some(Cause::Query),
    },
    Row {
        name: "a neighbour that was never inserted",
        replicas: 2,
        steps: &[Step::Insert(0, 0, 1, 0), Step::Insert(1, 0, 2, 7)],
        cause: Some(Cause::Update),
    },
    Row {
        name: "one neighbour not delivered, the other never inserted",
        replicas: 2,
        steps: &[Step::Insert(0, 0, 1, 0), Step::Insert(1, 1, 2, 7)],
        cause: Some(Cause::Update),
    },
    Row {
        name: "one element inserted twice",
        replicas: 2,
        steps: &[Step::Insert(0, 0, 1, 0), Step::Insert(1, 0, 1, 0)],
        cause: Some(Cause::Update),
    },
    Row {
        name: "an element removed twice, and a removed neighbour",
        replicas: 2,
        steps: &[
            Step::Insert(0, 0, 1, 0),
            Step::GotInsertion(1, 1),
            Step::Remove(0, 1),
            Step::Remove(1, 1),
            Step::Insert(1, 1, 2, 0),
            Step::GotRemoval(0, 1),
            Step::GotInsertion(0, 2),
            Step::Read(0, &[2]),
        ],
        cause: None,
    },
    Row {
        name: "an element read twice",
        replicas: 1,
        steps: &[
            Step::Insert(0, 0, 1, 0),
            Step::Insert(0, 1, 2, 0),
            Step::Read(0, &[1, 2, 1]),
        ],
        cause: Some(Cause::Query),
    },
    Row {
        name: "a cycle of three reads, no two of which disagree",
        replicas: 3,
        steps: &[
            Step::Insert(0, 0, 1, 0),
            Step::Insert(1, 0, 2, 0),
            Step::Insert(2, 0, 3, 0),
            Step::GotInsertion(0, 2),
            Step::GotInsertion(1, 3),
            Step::GotInsertion(2, 1),
            Step::Read(0, &[1, 2]),
            Step::Read(1, &[2, 3]),
            Step::Read(2, &[3, 1]),
        ],
        cause: Some(Cause::Order),
    },
    Row {
        name: "the left neighbour stands behind the right one",
        replicas: 1,
        steps: &[
            Step::Insert(0, 0, 1, 0),
            Step::Insert(0, 1, 2, 0),
            Step::Insert(0, 2, 3, 1),
        ],
        cause: Some(Cause::Order),
    },
    Row {
        name: "one element as both neighbours",
        replicas: 1,
        steps: &[Step::Insert(0, 0, 1, 0), Step::Insert(0, 1, 2, 1)],
        cause: Some(Cause::Order),
    },
    Row {
        name: "no neighbour named claims nothing",
        replicas: 2,
        steps: &[
            Step::Insert(0, 0, 1, 0),
            Step::Insert(0, 0, 2, 0),
            Step::Read(0, &[1, 2]),
            Step::GotInsertion(1, 1),
            Step::GotInsertion(1, 2),
            Step::Read(1, &[1, 2]),
        ],
        cause: None,
    },
    Row {
        name: "a replica that joined read otherwise",
        replicas: 1,
        steps: &[
            Step::Insert(0, 0, 1, 0),
            Step::Insert(0, 1, 2, 0),
            Step::Join(0),
            Step::Read(1, &[1, 2]),
            Step::Insert(1, 1, 3, 2),
            Step::Read(1, &[1, 3, 2]),
            Step::Read(0, &[1, 2]),
            Step::GotInsertion(0, 3),
            Step::Read(0, &[1, 2, 3]),
        ],
        cause: Some(Cause::Order),
    },
    Row {
        name: "0 is no element",
        replicas: 1,
        steps: &[Step::Insert(0, 0, 0, 0)],
        cause: Some(Cause::Update),
    },
    Row {
        name: "a removal before the insertion is delivered",
        replicas: 2,
        steps: &[Step::Insert(0, 0, 1, 0), Step::Remove(1, 1)],
        cause: Some(Cause::Query),
    },
    Row {
        name: "a removal of what was never inserted",
        replicas: 1,
        steps: &[Step::Remove(0, 1)],
        cause: Some(Cause::Update),
    },
    Row {
        name: "the kept order is moved for a read",
        replicas: 3,
        steps: &[
            Step::Insert(0, 0, 1, 0),
            Step::Insert(1, 0, 2, 0),
            Step::Insert(2, 0, 3, 0),
            Step::GotInsertion(0, 2),
            Step::GotInsertion(0, 3),
            Step::Read(0, &[2, 1, 3]),
            Step::GotInsertion(1, 1),
            Step::GotInsertion(1, 3),
            Step::Read(1, &[2, 1, 3]),
        ],
        cause: None,
    },
    Row {
        name: "the edges of a removed element hold",
        replicas: 3,
        steps: &[
            Step::Insert(0, 0, 1, 0),
            Step::Insert(1, 0, 2, 0),
            Step::GotInsertion(0, 2),
            Step::Read(0, &[2, 1]),
            Step::Remove(0, 2),
            Step::Read(0, &[1]),
            Step::GotInsertion(2, 1),
            Step::GotInsertion(2, 2),
            Step::Read(2, &[1, 2]),
        ],
        cause: Some(Cause::Order),
    },
    Row {
        name: "a read of as many elements, one of which was not delivered",
        replicas: 2,
        steps: &[
            Step::Insert(0, 0, 1, 0),
            Step::Insert(1, 0, 2, 0),
            Step::Read(0, &[2]),
        ],
        cause: Some(Cause::Query),
    },
    Row {
        name: "a part that contradicts a read",
        replicas: 1,
        steps: &[
            Step::Insert(0, 0, 1, 0),
            Step::Insert(0, 1, 2, 0),
            Step::Insert(0, 2, 3, 0),
            Step::Part(0, &[1, 3]),
            Step::Part(0, &[3, 1]),
        ],
        cause: Some(Cause::Order),
    },
];
