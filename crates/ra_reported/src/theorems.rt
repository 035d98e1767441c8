//! Theorems about what a log reports, each the clause of a function with an empty body.
ghost use Rattle.std.specs.Prelude.{◌≡◌, ◌≤◌, ℕ, ◌++◌, [], List, None, take};
ghost use Rattle.ra_labels.specs.declared.kind.Kind.{Kind};
ghost use Rattle.ra_labels.specs.declared.command.Command.{Command};
ghost use Rattle.ra_labels.specs.Records.{Records};
ghost use Rattle.ra_labels.specs.Fault.{fault_of};
ghost use Rattle.ra_labels.specs.Answer.{records_after_all};
ghost use Rattle.ra_labels.specs.HistorySoFar.{history_of, empty_history};
ghost use Rattle.ra_monitor.specs.Monitor.{MonitorEntry};
ghost use Rattle.ra_reported.specs.Reported.{reported_after_all, reported_in};

/// Theorem: the records of the monitor are those reported first, and all of them if it answers without a violation.
pub fn reported_extends_records()
    ensures all { (kind : Kind) (replicas : ℕ) (commands : List Command)
        → fault_of kind (records_after_all kind replicas [] commands) ≡ None
        → reported_after_all (empty_history kind replicas) commands
        ≡ history_of kind replicas (records_after_all kind replicas [] commands) }
    ensures first { (kind : Kind) (replicas : ℕ) (commands : List Command) → (later : Records)
        × ((reported_after_all (empty_history kind replicas) commands).records
        ≡ later ++ records_after_all kind replicas [] commands) }
{}

/// Theorem: the records of a longer prefix of a log extend those of a shorter one.
pub fn longer_log_extends_records()
    ensures { (kind : Kind) (replicas : ℕ) (log : List MonitorEntry) (i j : ℕ) → i ≤ j → (later : Records)
        × ((reported_in kind replicas (take j log)).records
        ≡ later ++ (reported_in kind replicas (take i log)).records) }
{}
