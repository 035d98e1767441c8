//! Ascending lists.
ghost use Rattle.std.specs.Prelude.{◌≡◌, ◌++◌, ◌∷◌, [], true, OnOk};
ghost use Rattle.ra_labels.specs.Lists.{rises};

use ra_labels::NoMemory;

/// Appends the element if it is greater than all elements of the list, so that the list stays ascending.
pub fn add_above(list: &mut Vec<u32>, element: u32) -> Result<(), NoMemory>
    requires { rises list.old.items ≡ true }
    ensures { OnOk result (rises list.new.items ≡ true) }
{
    if may_follow(list, element) {
        list.push(element)?;
    }
    Ok(())
}

// Returns `true` if the element is greater than the last one.
fn may_follow(list: &[u32], element: u32) -> bool
    requires { rises list.now ≡ true }
    ensures { result ≡ true → rises (list.now ++ element ∷ []) ≡ true }
{
    match list.last() {
        Some(last) => *last < element,
        None => true,
    }
}
