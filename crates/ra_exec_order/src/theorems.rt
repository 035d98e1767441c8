//! Theorems about the execution order.
ghost use Rattle.std.specs.Prelude.{◌≡◌, true};
ghost use Rattle.ra_labels.specs.declared.kind.Kind.{Kind};
ghost use Rattle.ra_labels.specs.declared.kind.Kind.TheVariants.{Counter, OrSet};
ghost use Rattle.ra_labels.specs.declared.kind.Kind.TheVariants as kinds;
ghost use Rattle.ra_labels.specs.Records.{Records};
ghost use Rattle.ra_labels.specs.Linearization.{extends_visibility};
ghost use Rattle.ra_labels.specs.NamedOrder.{named_sequence};
ghost use Rattle.ra_visibility.specs.Order.{IsByExecution};

/// Theorem: the labels of counters, OR-Sets, lists, objects of any type and multi-value registers stand in execution
/// order.
pub fn execution_order_kinds()
    ensures counter { IsByExecution Counter }
    ensures or_set { IsByExecution OrSet }
    ensures list { IsByExecution kinds.List }
    ensures any { IsByExecution kinds.Any }
    ensures mv_register { IsByExecution kinds.MvRegister }
{}

/// Theorem: the execution order extends visibility for all records, causal or not.
pub fn execution_order_extends_any_visibility()
    ensures { (kind : Kind) → IsByExecution kind
        → (records : Records) → extends_visibility records (named_sequence kind records) ≡ true }
{}
