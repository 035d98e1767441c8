ghost use Rattle.std.specs.Prelude.{◌≡◌};
ghost use Rattle.ra_rga_replica.specs.Edits.{edit_at};

/// The effect of a label on an element, by the element's number.
#[derive(Clone, Copy)]
pub enum Edit {
    /// An insertion of the element.
    PutsIn(u32),
    /// A removal of the element.
    Removes(u32),
}

/// Returns the effect of the label, or `None` if it has none.
pub fn edit_of(edits: &[Option<Edit>], label: u32) -> Option<Edit>
    ensures { result ≡ edit_at edits.now label }
{
    match edits.get(label as usize) {
        Some(edit) => *edit,
        None => None,
    }
}
