//! One more read of an object of any type, against the first one that sees the same updates.
ghost use Rattle.std.specs.Prelude.{◌≡◌, ◌∷◌, true, Ok, IfOk};
ghost use Rattle.ra_labels.specs.Records.{Records};
ghost use Rattle.ra_labels.specs.Agreement.{reads_agree};
ghost use Rattle.ra_labels.specs.Explained.{value_read};
ghost use Rattle.ra_labels.specs.HistorySoFar.{NextOperation, operate};
ghost use Rattle.ra_unordered.specs.FirstReads.{AreFirstReadsOf, IsNextRead};

use ra_any_reads::AnyReads;
use ra_labels::NoMemory;
use ra_visibility::Seen;

/// Adds the next read, with this label and value, and returns `true`. If an earlier read that sees the same updates
/// returned another value, changes nothing and returns `false`.
///
/// # Errors
///
/// `NoMemory` if allocation fails; nothing changes.
///
/// # Complexity
///
/// O(r · log n), where `r` is the number of replicas and `n` the number of reads that see different updates.
pub fn add_read(
    reads: &mut AnyReads,
    seen: &Seen<'_>,
    value: u32,
    label: u32,
) -> Result<bool, NoMemory>
    ensures judged { (records : Records) (next : NextOperation) → AreFirstReadsOf reads.old records
        → IsNextRead records next value label seen.now.counts
        → IfOk result (λ agrees. agrees ≡ reads_agree value_read (operate next ∷ records)) }
    ensures taken { (records : Records) (next : NextOperation) → AreFirstReadsOf reads.old records
        → IsNextRead records next value label seen.now.counts
        → result ≡ Ok true → AreFirstReadsOf reads.new (operate next ∷ records) }
    ensures same { ¬ (result ≡ Ok true) → reads.new ≡ reads.old }
{
    let counts = seen.counts(reads.allocator())?;
    match reads.find(counts.as_slice()) {
        Some(first) => Ok(first.value == value),
        None => {
            reads.add(counts.as_slice(), value, label)?;
            Ok(true)
        }
    }
}
