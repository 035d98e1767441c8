//! Theorems about a monitor's log. Each is the clause of a function that does nothing.
ghost use Rattle.std.specs.Prelude.{◌≡◌, ◌<◌, List, [], ◌∷◌, ◌++◌, IsTrue};
ghost use Rattle.ra_labels.specs.Answer.{answer_of};
ghost use Rattle.ra_theorems.specs.AnyOrder.{is_of_any_order};
ghost use Rattle.ra_journal.specs.Log.{MayFollow, IsLegal};
ghost use Rattle.ra_monitor.specs.contracts.monitor.MonitorJournal.TheImpl as journal;
ghost use Rattle.ra_monitor.specs.Replies.{is_yes};
ghost use Rattle.ra_monitor.specs.Monitor.{MonitorEntry, answer_after, records_of, IsLegalLog, IsRaLinearizable, IsNoAtFault, IsFinalNo};
ghost use Rattle.ra_journal.specs.declared.journal.TheConstants.{MOST_ENTRIES};
ghost use Rattle.ra_labels.specs.declared.limits.TheConstants.{MOST_REPLICAS};
ghost use Rattle.ra_monitor.specs.declared.setup.Setup.{Setup};

/// Theorem: the largest number of replicas is 64, and the largest number of entries of a log is 1,048,576.
pub fn limits()
    ensures replicas { MOST_REPLICAS ≡ 64 }
    ensures entries { MOST_ENTRIES ≡ 1048576 }
{}

/// Theorem: in a legal log each entry may follow those before it: its reply is the answer after them.
pub fn legal_log_entries()
    ensures { (setup : Setup) (before after : List MonitorEntry) (entry : MonitorEntry)
        → IsLegalLog setup (before ++ entry ∷ after) → MayFollow (answer_after setup) before entry }
{}

/// Theorem: the tickets of a legal log are strictly increasing.
pub fn tickets_increase()
    ensures { (setup : Setup) (before between after : List MonitorEntry) (earlier later : MonitorEntry)
        → IsLegalLog setup (before ++ earlier ∷ (between ++ later ∷ after)) → earlier.ticket < later.ticket }
{}

/// Theorem: if a reply in a legal log is `Yes`, some sequence is an RA-linearization of the records up to there.
pub fn yes_implies_linearization()
    ensures { (setup : Setup) (before after : List MonitorEntry) (entry : MonitorEntry)
        → IsLegalLog setup (before ++ entry ∷ after) → IsTrue (is_yes entry.reply)
        → IsRaLinearizable setup (before ++ entry ∷ []) }
{}

/// Theorem: a reply in a legal log is `No` exactly if the records up to there have a fault; it has the fault's label
/// and cause.
pub fn reply_no_iff_fault()
    ensures { (setup : Setup) (before after : List MonitorEntry) (entry : MonitorEntry)
        → IsLegalLog setup (before ++ entry ∷ after) → IsNoAtFault setup (before ++ entry ∷ []) entry.reply }
{}

/// Theorem: each `No` in a legal log of a kind that does not go by timestamps is final: no sequence at all linearizes
/// the records up to its label.
pub fn reply_no_is_final()
    ensures { (setup : Setup) (before after : List MonitorEntry) (entry : MonitorEntry)
        → IsTrue (is_of_any_order setup.kind) → IsLegalLog setup (before ++ entry ∷ after)
        → IsFinalNo setup (before ++ entry ∷ []) entry.reply }
{}

/// Theorem: in a log that is legal for a monitor as a journal, each reply is the single-threaded monitor's answer after
/// the entries before it. If it is `Yes`, the records up to there have an RA-linearization. It is `No` exactly at the
/// fault, which is final for the kinds that do not go by timestamps.
pub fn replies_under_lock()
    ensures reply { (setup : Setup) (before after : List MonitorEntry) (entry : MonitorEntry)
        → IsLegal (journal.ghosts.reply_of setup) (before ++ entry ∷ after)
        → entry.reply ≡ answer_of setup.kind setup.replicas (records_of setup before) entry.command }
    ensures yes { (setup : Setup) (before after : List MonitorEntry) (entry : MonitorEntry)
        → IsLegal (journal.ghosts.reply_of setup) (before ++ entry ∷ after)
        → IsTrue (is_yes entry.reply) → IsRaLinearizable setup (before ++ entry ∷ []) }
    ensures no { (setup : Setup) (before after : List MonitorEntry) (entry : MonitorEntry)
        → IsLegal (journal.ghosts.reply_of setup) (before ++ entry ∷ after)
        → IsNoAtFault setup (before ++ entry ∷ []) entry.reply }
    ensures final_no { (setup : Setup) (before after : List MonitorEntry) (entry : MonitorEntry)
        → IsTrue (is_of_any_order setup.kind) → IsLegal (journal.ghosts.reply_of setup) (before ++ entry ∷ after)
        → IsFinalNo setup (before ++ entry ∷ []) entry.reply }
{}
