//! The words of a fault that no text causes, the clause of a function with an empty body.
ghost use Rattle.std.specs.Prelude.{◌≡◌, codes};
ghost use Rattle.ra_history_text.specs.Faults.{check_fault_words};
ghost use Rattle.ra_history_text.specs.declared.fault.CheckFault.TheVariants.{Endless};

/// Theorem: the fault of an endless input has these words. That a fault is printed as its words is a clause of its
/// `Display`.
pub fn words_of_endless_input()
    ensures { check_fault_words Endless ≡ codes "endless input" }
{}
