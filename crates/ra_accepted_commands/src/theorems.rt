//! The theorem about accepted commands. It is the clause of a function that does nothing.
ghost use Rattle.std.specs.Prelude.{◌≡◌, false, List, reverse};
ghost use Rattle.ra_monitor.specs.declared.setup.Setup.{Setup};
ghost use Rattle.ra_monitor.specs.Monitor.{MonitorEntry, IsLegalLog, records_of};
ghost use Rattle.ra_accepted_commands.specs.Accepted.{accepted_in};

/// Theorem: the accepted commands of a legal log are its records, the oldest first.
pub fn accepted_commands_eq_records()
    ensures { (setup : Setup) (log : List MonitorEntry) → IsLegalLog setup log →
        accepted_in false log ≡ reverse (records_of setup log) }
{}
