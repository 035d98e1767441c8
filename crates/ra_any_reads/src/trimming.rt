//! Vectors of counts without trailing zeros.
ghost use Rattle.ra_any_reads.specs.Counts.{HaveSameCounts, IsTrimmed};

/// Returns the counts up to the last one that is not 0.
pub(crate) fn trimmed(counts: &[u32]) -> &[u32]
    // The result has the same count for each replica.
    ensures same { HaveSameCounts result.now counts.now }
    // The result does not end in 0.
    ensures trimmed { IsTrimmed result.now }
{
    let mut end = 0;
    for index in 0..counts.len() {
        if counts[index] != 0 {
            end = index + 1;
        }
    }
    &counts[..end]
}
