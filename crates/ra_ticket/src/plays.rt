//! The steps on the table, with what each lets its seat know.
ghost use Rattle.ra_journal.specs.Log.{readings};
ghost use Rattle.ra_ticket.specs.Steps.{learned, learned_serving, glanced, looked_together, drew};
ghost use Rattle.ra_ticket.specs.Steps.{drew_served, looked, published, released};
ghost use Rattle.ra_ticket.specs.Views.{first_pass, other_passes, met};
ghost use Rattle.ra_ticket.specs.declared.board.View.TheVariants.{Spent};

use crate::board::{JournalView, View};
use atomic_table::{Join, Play, Split};
use ra_journal::Journal;
use std::marker::PhantomData;

/// A load of `next`.
pub(crate) struct Learn;

impl<M, C, R, S> Play<Option<M>, View<C, R, S>> for Learn {
    ghost then = { learned };
}

/// A load of `serving` by a seat without a ticket.
pub(crate) struct LearnServing;

impl<M, C, R, S> Play<Option<M>, View<C, R, S>> for LearnServing {
    ghost then = { learned_serving };
}

/// A load of `mark`.
pub(crate) struct LookAtMark<M> {
    journal: PhantomData<M>,
}

impl<M: Journal> Play<Option<M>, JournalView<M>> for LookAtMark<M> {
    ghost then = { glanced (readings M.setup M.log M.reply_of M.fault_of) };
}

/// A load of `mark` by a seat to which another was joined.
pub(crate) struct LookTogether<M> {
    journal: PhantomData<M>,
}

impl<M: Journal> Play<Option<M>, JournalView<M>> for LookTogether<M> {
    ghost then = { looked_together (readings M.setup M.log M.reply_of M.fault_of) };
}

/// A compare-exchange of `next`.
pub(crate) struct Draw;

impl<M, C, R, S> Play<Option<M>, View<C, R, S>> for Draw {
    ghost then = { drew };
}

/// A compare-exchange of `next` by a seat that has seen the ticket served.
pub(crate) struct DrawServed<M> {
    journal: PhantomData<M>,
}

impl<M: Journal> Play<Option<M>, JournalView<M>> for DrawServed<M> {
    ghost then = { drew_served (readings M.setup M.log M.reply_of M.fault_of) };
}

/// A load of `serving`.
pub(crate) struct Look<M> {
    journal: PhantomData<M>,
}

impl<M: Journal> Play<Option<M>, JournalView<M>> for Look<M> {
    ghost then = { looked (readings M.setup M.log M.reply_of M.fault_of) };
}

/// A store of `mark`.
pub(crate) struct Publish<M> {
    journal: PhantomData<M>,
}

impl<M: Journal> Play<Option<M>, JournalView<M>> for Publish<M> {
    ghost then = { published (readings M.setup M.log M.reply_of M.fault_of) };
}

/// An addition to `serving`.
pub(crate) struct Release;

impl<M, C, R, S> Play<Option<M>, View<C, R, S>> for Release {
    ghost then = { released };
}

/// The split of a seat: the first pass gets a seat of its own.
pub(crate) struct CutFirst;

impl<C, R, S> Split<View<C, R, S>> for CutFirst {
    ghost left = { other_passes };

    ghost right = { first_pass };
}

/// The join of a seat to another one.
pub(crate) struct Meet;

impl<C, R, S> Join<View<C, R, S>> for Meet {
    ghost both = { met };

    ghost spent = { Spent };
}
