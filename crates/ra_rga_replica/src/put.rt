//! The insertion of an element, in one step of the replica's list.
ghost use Rattle.std.specs.Prelude.{◌≡◌, ◌==◌, ◌||◌, ℕ, OnOk, OnErr};
ghost use Rattle.ra_rga_elements.specs.ElementList.{is_marked};

use crate::number_set::NumberSet;
use crate::shown::ShownElements;
use ra_labels::NoMemory;

/// Adds the element's number to the elements that are present and to those that are shown.
///
/// # Errors
///
/// `NoMemory` if allocation fails; the elements are unchanged.
pub fn put_in(there: &mut NumberSet, shown: &mut ShownElements, number: u32) -> Result<(), NoMemory>
    ensures marks { OnOk result ((k : ℕ) → is_marked there.new.marks.items k
        ≡ (is_marked there.old.marks.items k || k == number)) }
    ensures shown { OnOk result ((k : ℕ) → is_marked shown.new k ≡ (is_marked shown.old k || k == number)) }
    ensures err_marks { OnErr result ((k : ℕ)
        → is_marked there.new.marks.items k ≡ is_marked there.old.marks.items k) }
    ensures err_shown { OnErr result ((k : ℕ) → is_marked shown.new k ≡ is_marked shown.old k) }
{
    there.reserve(number)?;
    shown.reserve(number as usize + 1)?;
    there.put(number);
    shown.show(number);
    Ok(())
}
