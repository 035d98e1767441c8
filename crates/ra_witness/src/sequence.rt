//! The named sequence, built from the order of the labels and their halves.
ghost use Rattle.std.specs.Prelude.{◌≡◌, ◌++◌, flat_map, IfOk, OnOk};
ghost use Rattle.ra_labels.specs.TheoremTerms.{EachLabelIsWellFormed};
ghost use Rattle.ra_labels.specs.HistorySoFar.{History};
ghost use Rattle.ra_witness.specs.Labels.{updates_by_number};
ghost use Rattle.ra_witness.specs.Effects.{AreEffectsOf};
ghost use Rattle.ra_witness.specs.Sequence.{refs_at};

use crate::effects::Effects;
use crate::label_order::LabelOrder;
use crate::part_ref::{Half, PartRef};
use ra_labels::NoMemory;
use std::alloc::Global;

/// Returns the parts of the labels of an order, in this order. The effects tell which of them have two halves.
///
/// # Errors
///
/// `NoMemory` if allocation fails.
///
/// # Complexity
///
/// O(n) and one call of `LabelOrder::numbers`, where `n` is the number of labels.
pub fn part_refs<O: LabelOrder>(
    alloc: Global,
    order: &O,
    kept: &Effects,
) -> Result<Vec<PartRef>, NoMemory>
    ensures { (past : History) → AreEffectsOf kept.now past
        → EachLabelIsWellFormed past.kind past.initial_replicas past.records → IfOk result (λ refs. refs.items
        ≡ flat_map (refs_at (updates_by_number past.records)) (O.listed order.now)) }
{
    let mut refs = Vec::new(alloc);
    for number in &order.numbers(alloc)? {
        push_parts(&mut refs, kept, *number)?;
    }
    Ok(refs)
}

// Appends the label's parts.
fn push_parts(refs: &mut Vec<PartRef>, kept: &Effects, label: u32) -> Result<(), NoMemory>
    ensures { (past : History) → AreEffectsOf kept.now past
        → EachLabelIsWellFormed past.kind past.initial_replicas past.records
        → OnOk result (refs.new.items ≡ refs.old.items ++ refs_at (updates_by_number past.records) label) }
{
    if kept.has_halves(label) {
        refs.push(PartRef {
            label,
            half: Half::QueryHalf,
        })?;
        refs.push(PartRef {
            label,
            half: Half::UpdateHalf,
        })?;
    } else {
        refs.push(PartRef {
            label,
            half: Half::Whole,
        })?;
    }
    Ok(())
}
