//! What the reads of one replica of an LWW set found.
ghost use Rattle.std.specs.Prelude.{◌≡◌, ◌<◌, [], ℕ, None, length, get_or, IfOk};
ghost use Rattle.ra_any_order.specs.declared.views.View.{View};
ghost use Rattle.ra_any_order.specs.Changes.{IsNewView};

use ra_labels::NoMemory;
use std::alloc::Global;
use std::collections::BTreeMap;

/// What the reads of one replica found. It takes O(u) words, where `u` is the number of updates that they see.
#[derive(Drop)]
pub struct View {
    /// The last read of the replica.
    pub last: Option<u32>,
    /// For each element and replica, the newest update of the element by the replica that this read sees.
    pub newest: BTreeMap<(u32, u8), u32>,
}

impl View {
    /// Creates the view of a replica without reads. Does not allocate.
    pub fn new(alloc: Global) -> View
        ensures { IsNewView result }
    {
        View {
            last: None,
            newest: BTreeMap::new(alloc),
        }
    }
}

/// Returns a view for each replica, each without reads.
///
/// # Errors
///
/// `NoMemory` if allocation fails.
pub fn new_views(alloc: Global, replicas: u8) -> Result<Vec<View>, NoMemory>
    ensures len { IfOk result (λ views. length views.items ≡ replicas) }
    ensures each { IfOk result (λ views. (i : ℕ) (none : View) → i < length views.items
        → IsNewView (get_or views.items i none)) }
{
    let mut views = Vec::new(alloc);
    for _ in 0..replicas {
        views.push(View::new(alloc))?;
    }
    Ok(views)
}
