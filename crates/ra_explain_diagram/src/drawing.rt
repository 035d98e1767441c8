//! The content of a picture: rows from top to bottom, a column for each replica that takes part, up to eight, and the
//! arrows of a certificate.
ghost use Rattle.std.specs.Prelude.{◌≡◌, ◌≤◌, ◌+◌, ◌++◌, All, Contains, IfOk, OnOk, Some};
ghost use Rattle.ra_explain.specs.declared.remedies.Remedies.{Remedies};
ghost use Rattle.ra_explain_diagram.specs.Arrows.{arrows_in};
ghost use Rattle.ra_explain_diagram.specs.Drawn.{IsHelpful, LeadTo, fold_between, led_by, replica_of, source_of};

use crate::arrow::{Arrow, arrows_of};
use crate::chosen::{named_labels, places_of};
use crate::order_column::width_of_order;
use ra_explain::{Change, Remedies, Violation};
use ra_explain_text::{View, shown};
use ra_labels::{Command, NoMemory, Reply};
use std::alloc::Global;

/// The largest number of columns.
const MOST_COLUMNS: usize = 8;

/// A row of a picture.
#[derive(Clone, Copy)]
pub enum Row {
    /// The given number of entries, which are not drawn.
    Fold(u32),
    /// The entry at this index.
    Entry(u32),
    /// The entry at this index, without which the violating label would hold.
    Without(u32),
    /// A delivery of this label, with which the violating label would hold.
    With(u32),
    /// The violating label, which would hold before the entry at this index.
    Before(u32),
    /// The violating label.
    Asked,
}

/// A column: a replica, and the index of its join.
#[derive(Clone, Copy)]
pub struct Column {
    /// The replica.
    pub replica: u8,
    /// The index of its join; `None` for an initial replica.
    pub begins: Option<u32>,
}

/// A picture of what led to a violating label.
#[derive(Drop)]
pub struct Picture {
    /// Its columns, in the order of the replicas' numbers.
    pub columns: Vec<Column>,
    /// Its rows, from the first entry on.
    pub rows: Vec<Row>,
    /// The arrows between rows whose labels a certificate orders.
    pub arrows: Vec<Arrow>,
    /// The width in characters of the column with the lines that a certificate orders behind that of a row.
    pub order_width: usize,
}

impl Picture {
    /// Returns the picture of this label.
    ///
    /// # Errors
    ///
    /// `NoMemory` if an allocation fails.
    pub fn of(alloc: Global, view: &View<'_>, violation: &Violation) -> Result<Picture, NoMemory>
        // The arrows are exactly those of the certificate's claims between labels that have a row.
        ensures arrows { IfOk result (λ picture. picture.arrows.items ≡ arrows_in
            view.now.explanation.now.places violation.now.place picture.rows.items
            view.now.explanation.now.certificate.items) }
        // Each row for a change shows one of the remedies.
        ensures helpful { IfOk result (λ picture.
            All (IsHelpful view.now.explanation.now.remedies) picture.rows.items) }
        // The rows show or fold each entry of the log from the first on, and end with the violating label.
        ensures whole { IfOk result (λ picture.
            LeadTo violation.now.place (violation.now.place + 1) picture.rows.items) }
    {
        let places = places_of(alloc, view, violation)?;
        let columns = columns_of(alloc, view, violation, &places)?;
        let mut rows = Vec::new(alloc);
        let mut next = 0;
        for at in &places {
            if next <= *at && *at < violation.place && is_at_one(view, &columns, *at) {
                add_rows(&mut rows, view, violation, next, *at)?;
                next = *at + 1;
            }
        }
        add_rows(&mut rows, view, violation, next, violation.place)?;
        let arrows = arrows_of(alloc, view, violation, &rows)?;
        let order_width = width_of_order(alloc, view, violation, &rows)?;
        Ok(Picture {
            columns,
            rows,
            arrows,
            order_width,
        })
    }

    /// Returns the number of replicas without a column.
    pub fn left_out(&self, view: &View<'_>) -> u32 {
        let all = view.explanation.replicas as usize;
        all.saturating_sub(self.columns.len()) as u32
    }

    /// Returns the index of the replica's column, from 0, if it has one.
    pub fn column_of(&self, replica: Option<u8>) -> Option<usize> {
        let wanted = replica?;
        let mut number: usize = 0;
        for column in &self.columns {
            if column.replica == wanted {
                return Some(number);
            }
            number = number.saturating_add(1);
        }
        None
    }
}

// Appends the row of the entry at this index, and before it a row of the entries from `next` on and those of helpful
// changes.
#[tactic(auto, using(crate::proofs::Leads::lead_fold, crate::proofs::Leads::helpful_fold))]
fn add_rows(
    rows: &mut Vec<Row>,
    view: &View<'_>,
    violation: &Violation,
    next: u32,
    at: u32,
) -> Result<(), NoMemory>
    requires helpful { All (IsHelpful view.now.explanation.now.remedies) rows.old.items }
    requires lead { LeadTo violation.now.place next rows.old.items }
    requires behind { next ≤ at }
    requires within { at ≤ violation.now.place }
    ensures helpful { OnOk result (All (IsHelpful view.now.explanation.now.remedies) rows.new.items) }
    ensures lead { OnOk result (LeadTo violation.now.place (at + 1) rows.new.items) }
{
    add_fold(rows, next, at)?;
    add_event_rows(rows, view, violation, at)
}

// Appends the row of the entries between these indices, if there are any.
fn add_fold(rows: &mut Vec<Row>, from: u32, to: u32) -> Result<(), NoMemory>
    ensures { OnOk result (rows.new.items ≡ rows.old.items ++ fold_between from to) }
{
    if from < to {
        rows.push(Row::Fold(to - from))?;
    }
    Ok(())
}

// Appends the row of the entry at this index, with those of helpful changes before it.
#[tactic(auto, using(crate::proofs::Leads::lead_more))]
fn add_event_rows(
    rows: &mut Vec<Row>,
    view: &View<'_>,
    violation: &Violation,
    at: u32,
) -> Result<(), NoMemory>
    requires helpful { All (IsHelpful view.now.explanation.now.remedies) rows.old.items }
    requires lead { LeadTo violation.now.place at rows.old.items }
    requires within { at ≤ violation.now.place }
    ensures helpful { OnOk result (All (IsHelpful view.now.explanation.now.remedies) rows.new.items) }
    ensures lead { OnOk result (LeadTo violation.now.place (at + 1) rows.new.items) }
{
    let remedies = &view.explanation.remedies;
    let mut row = row_of(violation.place, at);
    for change in shown(remedies) {
        row = add_change(rows, row, remedies, violation.place, at, *change)?;
    }
    Ok(rows.push(row)?)
}

// Returns the row of the entry at this index.
fn row_of(asked: u32, at: u32) -> Row
    requires within { at ≤ asked }
    ensures own { (remedies : Remedies) → IsHelpful remedies result }
    ensures lead { led_by asked at result ≡ Some (at + 1) }
{
    if at == asked {
        Row::Asked
    } else {
        Row::Entry(at)
    }
}

// Appends the row of the change if it is drawn before the entry at this index. Returns the row of the entry, which is
// another one if the change leaves the entry out.
#[tactic(auto, using(crate::proofs::Leads::lead_more))]
fn add_change(
    rows: &mut Vec<Row>,
    row: Row,
    remedies: &Remedies,
    asked: u32,
    at: u32,
    change: Change,
) -> Result<Row, NoMemory>
    requires helpful { All (IsHelpful remedies.now) rows.old.items }
    requires own { IsHelpful remedies.now row }
    requires found { Contains remedies.now.found.items change }
    requires lead { LeadTo asked at rows.old.items }
    requires last { led_by asked at row ≡ Some (at + 1) }
    requires within { at ≤ asked }
    ensures helpful { OnOk result (All (IsHelpful remedies.now) rows.new.items) }
    ensures own { IfOk result (IsHelpful remedies.now) }
    ensures lead { OnOk result (LeadTo asked at rows.new.items) }
    ensures last { IfOk result (λ row. led_by asked at row ≡ Some (at + 1)) }
{
    match change {
        Change::Gets(label) if at == asked => rows.push(Row::With(label))?,
        Change::Misses(missed) if missed == at && at != asked => return Ok(Row::Without(at)),
        Change::ComesBefore(next) if next == at => rows.push(Row::Before(at))?,
        _ => {}
    }
    Ok(row)
}

// Returns `true` if the entry at this index happened at a replica with a column.
fn is_at_one(view: &View<'_>, columns: &[Column], place: u32) -> bool {
    match view.explanation.entry(place) {
        Some(entry) => {
            let (_, at) = ends_of(view, &entry.command);
            columns.iter().any(|column| Some(column.replica) == at)
        }
        None => false,
    }
}

// Returns the columns of the replicas that take part in the entries at these indices: the label's replica, and at most
// seven others, first those of the labels that a certificate names.
fn columns_of(
    alloc: Global,
    view: &View<'_>,
    violation: &Violation,
    places: &[u32],
) -> Result<Vec<Column>, NoMemory> {
    let mut replicas = Vec::new(alloc);
    replicas.push(violation.replica)?;
    for label in &named_labels(alloc, &view.explanation.certificate)? {
        add_replica(&mut replicas, view.explanation.issuer(*label))?;
    }
    for at in places {
        if let Some(entry) = view.explanation.entry(*at) {
            let (one, other) = ends_of(view, &entry.command);
            add_replica(&mut replicas, one)?;
            add_replica(&mut replicas, other)?;
        }
    }
    replicas.sort_unstable();
    let mut columns = Vec::new(alloc);
    for replica in &replicas {
        columns.push(Column {
            replica: *replica,
            begins: join_of(view, *replica),
        })?;
    }
    Ok(columns)
}

fn add_replica(replicas: &mut Vec<u8>, replica: Option<u8>) -> Result<(), NoMemory> {
    if let Some(replica) = replica {
        if replicas.len() < MOST_COLUMNS && !replicas.contains(&replica) {
            replicas.push(replica)?;
        }
    }
    Ok(())
}

// Returns the index of the replica's join; `None` for an initial replica.
fn join_of(view: &View<'_>, replica: u8) -> Option<u32> {
    let mut place: u32 = 0;
    for entry in &view.explanation.log {
        match entry.reply {
            Reply::Joined(joined) if joined == replica => return Some(place),
            _ => {}
        }
        place = place.saturating_add(1);
    }
    None
}

/// Returns the ends of an entry's arrow: the replica that a label or a state comes from, if any, and the one that has
/// it then.
pub fn ends_of(view: &View<'_>, command: &Command) -> (Option<u8>, Option<u8>)
    ensures source { result.0
        ≡ source_of view.now.explanation.now.log.items view.now.explanation.now.places command.now }
    ensures replica { result.1 ≡ replica_of command.now }
{
    match command {
        Command::Operate { replica, .. } => (None, Some(*replica)),
        Command::Deliver { replica, label } => (view.explanation.issuer(*label), Some(*replica)),
        Command::Join { replica, from } => (Some(*from), Some(*replica)),
        Command::Verdict => (None, None),
    }
}
