//! The answer to the question whether another order explains the labels that a log reports.
ghost use Rattle.std.specs.Prelude.{◌≡◌};
ghost use Rattle.ra_another_order.specs.Answers.{exists};

/// Whether some order of the labels explains them.
#[derive(Drop)]
pub enum Answer {
    /// An order of all labels. The parts of the labels in this order are an RA-linearization.
    Exists(Vec<u32>),
    /// No sequence is an RA-linearization, for this reason.
    NoneExists(Reason),
}

impl Answer {
    /// Returns `true` if some order explains the labels.
    pub fn exists(&self) -> bool
        // The result is `true` exactly if the answer is an order.
        ensures { result ≡ exists self.now }
    {
        match self {
            Answer::Exists(_) => true,
            Answer::NoneExists(_) => false,
        }
    }
}

/// The reason why no sequence explains the labels.
#[derive(Drop)]
pub enum Reason {
    /// The reason of a register or an LWW set.
    Lww(ra_any_order::Refutation),
    /// The reason of an RGA.
    Rga(ra_rga_precedence::Refutation),
}
