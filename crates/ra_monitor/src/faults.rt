/// The reason why no monitor was created. The variants stand in the order in which the reasons are tested.
#[derive(Clone, Copy, Debug, PartialEq, Eq)]
pub enum NewFault {
    /// The number of replicas is not in 1 to 64.
    BadReplicas,
    /// The limit is not in 1 to 1,048,576.
    BadLimit,
    /// Allocation failed.
    NoMemory,
}
