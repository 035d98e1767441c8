//! The theorems about orders and cycles, each the clause of a function with an empty body.
ghost use Rattle.std.specs.Prelude.{◌≡◌, ◌↔◌, ℕ, List, Some, None, Contains};
ghost use Rattle.ra_labels.specs.declared.edge.Edge.{Edge};
ghost use Rattle.ra_labels.specs.Edges.{EachOnce, Extends, IsCycle};
ghost use Rattle.ra_labels.specs.Listing.{list_order_of};
ghost use Rattle.ra_labels.specs.Reads.{edges_of_read, in_order};

/// Theorem: no order that has each element once extends edges among which there is a cycle.
pub fn no_order_extends_cycle()
    ensures { (order : List ℕ) (edges cycle : List Edge) → EachOnce order → Extends order edges
        → IsCycle edges cycle → ⊥ }
{}

/// Theorem: if some order extends the edges, then removing the first free element again and again lists all elements.
/// If there is a cycle, it does not.
pub fn listed_order_cases()
    ensures found { (order elements : List ℕ) (edges : List Edge) → EachOnce order → Extends order edges
        → ((x : ℕ) → Contains elements x → Contains order x)
        → (listed : List ℕ) × (list_order_of elements edges ≡ Some listed) }
    ensures none { (elements : List ℕ) (edges cycle : List Edge) → IsCycle edges cycle
        → ((edge : Edge) → Contains cycle edge → Contains elements edge.before)
        → list_order_of elements edges ≡ None }
{}

/// Theorem: an order extends the edges of a list that a replica returned exactly if the list has its elements in that
/// order.
pub fn order_extends_read_iff()
    ensures { (order list : List ℕ) (label : ℕ) → EachOnce order → EachOnce list
        → ((x : ℕ) → Contains list x → Contains order x)
        → Extends order (edges_of_read label list) ↔ (list ≡ in_order order list) }
{}
