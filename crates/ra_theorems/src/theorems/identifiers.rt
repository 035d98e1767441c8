//! Theorems about the identifiers of an OR-Set's additions.
ghost use Rattle.std.specs.Prelude.{◌≡◌, ◌↔◌, true, ℕ, List, []};
ghost use Rattle.ra_labels.specs.declared.kind.Kind.{Kind};
ghost use Rattle.ra_labels.specs.declared.operation.Op.{Op};
ghost use Rattle.ra_labels.specs.declared.command.Command.{Command};
ghost use Rattle.ra_labels.specs.Records.{Records};
ghost use Rattle.ra_labels.specs.Answer.{is_identifier_taken, has_taken_identifier, records_after, records_after_all};
ghost use Rattle.ra_labels.specs.TheoremTerms.{GivesIdentifier, IsOwnIdentifier, IdentifiersAreUnique};

/// Theorem: `is_identifier_taken` holds exactly of the identifiers that accepted additions have. `has_taken_identifier`
/// holds exactly of the operations that give one of these.
pub fn identifier_taken_iff()
    ensures taken { (records : Records) (id : ℕ)
        → (is_identifier_taken records id ≡ true) ↔ IsOwnIdentifier records id }
    ensures gives { (records : Records) (op : Op)
        → (has_taken_identifier records op ≡ true) ↔ ((id : ℕ) × GivesIdentifier op id × IsOwnIdentifier records id) }
{}

/// Theorem: each answer keeps identifiers unique, so they are unique in the records after commands on empty ones.
pub fn identifiers_unique()
    ensures one { (kind : Kind) (replicas : ℕ) (records : Records) (command : Command)
        → IdentifiersAreUnique records → IdentifiersAreUnique (records_after kind replicas records command) }
    ensures all { (kind : Kind) (replicas : ℕ) (commands : List Command)
        → IdentifiersAreUnique (records_after_all kind replicas [] commands) }
{}
