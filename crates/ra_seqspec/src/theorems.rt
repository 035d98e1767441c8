//! The limit of a counter as a theorem.
ghost use Rattle.std.specs.Prelude.{◌≡◌};
ghost use Rattle.ra_seqspec.specs.declared.TheConstants.{FARTHEST_COUNT};

/// Theorem: the largest absolute value of a counter's number is 1,048,576.
pub fn limits()
    ensures { FARTHEST_COUNT ≡ 1048576 }
{}
