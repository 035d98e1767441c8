//! Theorems about the timestamp order.
ghost use Rattle.ra_labels.specs.declared.kind.Kind.TheVariants.{Register, LwwSet, Rga};
ghost use Rattle.ra_visibility.specs.Order.{IsByTimestamp};

/// Theorem: the labels of registers, of LWW sets and of RGAs stand in timestamp order.
pub fn timestamp_order_kinds()
    ensures register { IsByTimestamp Register }
    ensures lww_set { IsByTimestamp LwwSet }
    ensures rga { IsByTimestamp Rga }
{}
