//! A list of elements or identifiers that an operation returned.
ghost use Rattle.std.specs.Prelude.{◌≡◌, nat_eq};
ghost use Rattle.std.specs.Cmp.{nat_eq_equiv, partial_equiv_from_equiv};
ghost use Rattle.std.specs.Cmp.Lexicographic.{pointwise, lists_per, lists_equiv};

use std::alloc::AllocError;
use std::marker::Model;

/// A list of elements that a read returned, or of identifiers that a removal returned. Its model is the list of
/// numbers.
#[derive(Debug, Drop)]
pub struct Elements {
    items: Vec<u32>,
}

impl Model for Elements {
    ghost use Rattle.std.specs.Prelude.{ℕ, List};

    ghost Value = { List ℕ };

    ghost view = { λ elements. elements.items.items };
}

impl Elements {
    /// Creates the list of these items. Does not allocate.
    pub fn new(items: Vec<u32>) -> Elements
        // The new list has exactly these items.
        ensures { result ≡ items.items }
    {
        Elements { items }
    }

    /// Returns the items, and consumes `self`. Does not allocate.
    pub fn into_vec(self) -> Vec<u32>
        // The vector has exactly the items of the list.
        ensures { result.items ≡ self }
    {
        self.items
    }

    /// Returns the items as a slice.
    pub fn as_slice(&self) -> &[u32]
        // The slice has exactly the items of the list.
        ensures { result.now ≡ self.now }
    {
        &self.items
    }
}

impl Clone for Elements {
    ghost is_clone = { λ elements copy. copy ≡ elements };

    fn clone(&self) -> Result<Elements, AllocError> {
        Ok(Elements {
            items: self.items.clone()?,
        })
    }
}

impl PartialEq for Elements {
    ghost eq = { pointwise nat_eq };

    ghost laws = { lists_per (partial_equiv_from_equiv nat_eq_equiv) };

    fn eq(&self, other: &Elements) -> bool {
        self.items == other.items
    }
}

impl Eq for Elements {
    ghost laws = { lists_equiv nat_eq_equiv };
}
