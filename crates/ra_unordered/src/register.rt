//! One more label of a multi-value register.
ghost use Rattle.std.specs.Prelude.{◌≡◌, ◌∷◌, true, Ok, IfOk};
ghost use Rattle.ra_labels.specs.Explained.{is_explained};
ghost use Rattle.ra_labels.specs.HistorySoFar.{History, NextOperation, operate, history_with};
ghost use Rattle.ra_unordered.specs.Register.{AreSiblingsOf, IsNextOf, MayAddTo};

use ra_labels::{Label, NoMemory, Op};
use ra_siblings::Siblings;

/// Adds the next label and returns `true`. If it is a read that does not list the values of its replica's siblings,
/// changes nothing and returns `false`.
///
/// # Errors
///
/// `NoMemory` if allocation fails; nothing changes.
///
/// # Complexity
///
/// A write is O(1), amortized, and a read O(s log s), where its replica has `s` siblings.
pub fn add_label(siblings: &mut Siblings, label: &Label) -> Result<bool, NoMemory>
    requires { MayAddTo siblings.old label.now }
    ensures judged { (past : History) (next : NextOperation) → AreSiblingsOf siblings.old past
        → IsNextOf past next label.now
        → IfOk result (λ is_right. is_right ≡ is_explained past.kind (operate next ∷ past.records)) }
    ensures taken { (past : History) (next : NextOperation) → AreSiblingsOf siblings.old past
        → IsNextOf past next label.now → result ≡ Ok true
        → AreSiblingsOf siblings.new (history_with past (operate next)) }
    ensures same { ¬ (result ≡ Ok true) → siblings.new ≡ siblings.old }
{
    match &label.op {
        Op::MvWrite(value) => siblings.write(label.replica, *value)?,
        Op::MvRead(values) => {
            if !siblings.is_right_read(label.replica, values.as_slice())? {
                return Ok(false);
            }
            siblings.add_query()?;
        }
        _ => unreachable!(),
    }
    Ok(true)
}
