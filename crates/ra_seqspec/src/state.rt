//! The sequential specification as a data structure: its state, the step of an update, and the answer of a query.
ghost use Rattle.std.specs.Prelude.{◌≡◌, ◌↔◌, ◌==◌, not, filter, IsTrue, IfOk, IsOk, IfSome, OnErr, true, false, is_some, unwrap_or, OnOk};
ghost use Rattle.std.specs.Ordering.{nat_cmp};
ghost use Rattle.std.specs.BTreeSet.{IsOrdered};
ghost use Rattle.ra_labels.specs.declared.kind.Kind.TheVariants.{Rga};
ghost use Rattle.ra_labels.specs.Specification.{initial_state, step_of, answers};
ghost use Rattle.ra_labels.specs.TheoremTerms.{kind_of_state};
ghost use Rattle.ra_seqspec.specs.Asked.{asks_rising};
ghost use Rattle.ra_seqspec.specs.Range.{IsInRange};
ghost use Rattle.ra_seqspec.specs.Memory.{takes_memory, update_takes_memory};
ghost use Rattle.ra_seqspec.specs.Updates.{after_all};
ghost use Rattle.ra_seqspec.specs.Answered.{answered_in};

use crate::list::ListElements;
use crate::pairs;
use crate::rga::RgaList;
use ra_labels::{Elements, Kind, NoMemory, Query, Update};
use std::alloc::Global;
use std::collections::BTreeSet;
use std::marker::Model;

/// The state of one kind's sequential specification.
#[derive(Drop)]
pub struct State {
    form: Form,
}

// The representation of each kind's state.
#[derive(Drop)]
enum Form {
    // The number.
    Counter(i32),
    // The last value written, if any.
    Register(Option<u32>),
    // The elements.
    LwwSet(BTreeSet<u32>),
    // The pairs of an element and the identifier of one of its additions.
    OrSet(BTreeSet<(u32, u32)>),
    // The list of an RGA.
    Rga(RgaList),
    // The elements of a list.
    List(ListElements),
    // Nothing, of an object of any type.
    Any,
    // Nothing, of a multi-value register.
    MvRegister,
}

impl Model for State {
    ghost use Rattle.ra_labels.specs.Specification as specification;

    ghost Value = { specification.State };

    ghost use Rattle.ra_seqspec.specs.Form.{state_of, StateKept};

    ghost view = { λ s. state_of s.form };

    ghost invariant = { λ s. StateKept s.form };
}

impl State {
    /// Creates the kind's state before any update. It always succeeds. A state that is a collection lives in `alloc`.
    pub fn new(alloc: Global, kind: Kind) -> Result<State, NoMemory>
        // The new state is the initial state of the kind.
        ensures start { IfOk result (λ state. state ≡ initial_state kind) }
        // The call always succeeds.
        ensures memory { IsOk result }
    {
        let form = match kind {
            Kind::Counter => Form::Counter(0),
            Kind::Register => Form::Register(None),
            Kind::LwwSet => Form::LwwSet(BTreeSet::new(alloc)),
            Kind::OrSet => Form::OrSet(BTreeSet::new(alloc)),
            Kind::Rga => Form::Rga(RgaList::new(alloc)),
            Kind::List => Form::List(ListElements::new(alloc)),
            Kind::Any => Form::Any,
            Kind::MvRegister => Form::MvRegister,
        };
        Ok(State { form })
    }

    /// Returns an equal state that owns its memory.
    ///
    /// # Errors
    ///
    /// `NoMemory` if allocation fails. Only a state that is a collection allocates.
    ///
    /// # Complexity
    ///
    /// O(n), where `n` is the size of the state.
    pub fn copy(&self) -> Result<State, NoMemory>
        // The copy represents the same state.
        ensures equal { IfOk result (λ copy. copy ≡ self.now) }
        // The call succeeds unless the state is a collection.
        ensures memory { takes_memory self.now ≡ false → IsOk result }
    {
        let form = match &self.form {
            Form::Counter(number) => Form::Counter(*number),
            Form::Register(last) => Form::Register(*last),
            Form::LwwSet(elements) => Form::LwwSet(elements.clone()?),
            Form::OrSet(pairs) => Form::OrSet(pairs.clone()?),
            Form::Rga(list) => Form::Rga(list.copy()?),
            Form::List(list) => Form::List(list.copy()?),
            Form::Any => Form::Any,
            Form::MvRegister => Form::MvRegister,
        };
        Ok(State { form })
    }

    /// Applies the update and returns `true`, or changes nothing and returns `false` if the state does not admit it.
    /// The caller ensures that a counter's number stays in range.
    ///
    /// # Errors
    ///
    /// `NoMemory` if allocation fails; the state is unchanged. Only a new element, a new pair, an admitted insertion
    /// into an RGA or a list, or the first removal of a list's element allocates.
    ///
    /// # Complexity
    ///
    /// O(1) for a counter or a register. O(log n) for a set or a list with `n` entries, for each identifier of an
    /// OR-Set's removal. A constant number of hash map operations for an RGA.
    #[inline(always)]
    pub fn apply(&mut self, update: &Update) -> Result<bool, NoMemory>
        // The update keeps a counter's number between `-FARTHEST_COUNT` and `FARTHEST_COUNT`, if it is admitted.
        requires { IfSome (step_of self.old update.now) IsInRange }
        // The result is `true` exactly if the sequential specification admits the update in this state.
        ensures admitted { IfOk result (λ is_admitted. is_admitted ≡ is_some (step_of self.old update.now)) }
        // The new state is the specification's step, or the old state if the update is not admitted.
        ensures step { IfOk result (λ is_admitted. self.new ≡ unwrap_or (step_of self.old update.now) self.old) }
        // If allocation fails, the state is unchanged.
        ensures err { OnErr result (self.new ≡ self.old) }
        // Without a new element, a new pair, an admitted insertion into an RGA or a list, or the first removal of a
        // list's element, the call succeeds.
        ensures memory { update_takes_memory self.old update.now ≡ false → IsOk result }
    {
        match (&mut self.form, update) {
            (Form::Counter(number), Update::Inc) => *number += 1,
            (Form::Counter(number), Update::Dec) => *number -= 1,
            (Form::Register(last), Update::Write(value)) => *last = Some(*value),
            (Form::LwwSet(elements), Update::LwwAdd(element)) => {
                elements.insert(*element)?;
            }
            (Form::LwwSet(elements), Update::LwwRemove(element)) => take_out(elements, *element),
            (Form::OrSet(pairs), Update::OrAdd { element, id }) => {
                pairs.insert((*element, *id))?;
            }
            (Form::OrSet(pairs), Update::TakeOut { element, ids }) => {
                pairs::take_out(pairs, *element, ids.as_slice());
            }
            (Form::Rga(list), Update::After { anchor, element }) => {
                return list.insert_after(*anchor, *element);
            }
            (Form::Rga(list), Update::RgaRemove(element)) => return Ok(list.hide(*element)),
            (Form::List(list), Update::List(change)) => return list.apply(change),
            (Form::Any, Update::AnyUpdate) | (Form::MvRegister, Update::MvWrite(_)) => {}
            _ => return Ok(false),
        }
        Ok(true)
    }

    /// Applies the updates to an RGA one after another. An update that the state does not admit changes nothing. All
    /// memory is allocated before the first update.
    ///
    /// # Errors
    ///
    /// `NoMemory` if allocation fails; the state is unchanged.
    ///
    /// # Complexity
    ///
    /// A constant number of hash map operations for each update.
    pub fn apply_all(&mut self, updates: &[Update]) -> Result<(), NoMemory>
        // The state is that of an RGA.
        requires list { kind_of_state self.old ≡ Rga }
        // The new state is that after all updates in order. An update that is not admitted changes nothing.
        ensures state { OnOk result (self.new ≡ after_all self.old updates.now) }
        // If allocation fails, the state is unchanged and no update is applied.
        ensures err { OnErr result (self.new ≡ self.old) }
    {
        let Form::Rga(list) = &mut self.form else {
            return Ok(());
        };
        list.apply_all(updates)
    }

    /// Returns `true` if the query's answer is that of this state. The order of a list's elements is not compared. The
    /// caller ensures that an answer which has to be strictly increasing is. Does not allocate.
    ///
    /// # Complexity
    ///
    /// O(1) for a counter or a register, and O(n) for a read of an LWW set or an RGA with `n` elements, those that an
    /// RGA hides included. O(k log n) for a read of `k` elements of an OR-Set with `n` pairs, and O(log n + k) for the
    /// query of an element's `k` identifiers. O(log n) for the query of a list's update, and quadratic for its reads:
    /// O(k² + n (k + log n)) for a read of `k` elements, O(k² + k log n) for a part.
    pub fn admits(&self, query: &Query) -> bool
        // If the query has a list of a set's elements or of identifiers, the list is strictly increasing.
        requires { asks_rising query.now ≡ true }
        // The result is `true` exactly if the query's answer is right in this state.
        ensures { result ≡ answers self.now query.now }
    {
        match (&self.form, query) {
            (Form::Counter(number), Query::Count(answer)) => *answer == *number,
            (Form::Register(last), Query::Last(answer)) => *answer == *last,
            (Form::LwwSet(elements), Query::LwwRead(answer)) => are_elements(
                elements,
                answer.as_slice(),
            ),
            (Form::OrSet(pairs), Query::ReadIds { element, ids }) => {
                pairs::are_identifiers(pairs, *element, ids.as_slice())
            }
            (Form::OrSet(pairs), Query::OrRead(answer)) => {
                pairs::are_elements(pairs, answer.as_slice())
            }
            (Form::Rga(list), Query::RgaRead(answer)) => list.shows(answer.as_slice()),
            (Form::List(list), Query::List(question)) => list.admits(question),
            (Form::Any, Query::AnyRead(_)) | (Form::MvRegister, Query::MvRead(_)) => true,
            _ => false,
        }
    }

    /// Returns the query with the answer of this state instead of its own, or `None` if it belongs to another kind. The
    /// new answer is right. A state of any type or of a multi-value register, whose reads are judged by what they see,
    /// gives none. If the query's own answer is right and any list that has to be strictly increasing is, the
    /// result equals the query. The elements live in `alloc`.
    ///
    /// Several answers to a query of a list may be right. A wrong read becomes the shown elements in increasing order,
    /// and a wrong part its shown elements, each once. The result is `None` for the query of a list's update that names
    /// an element which is not in the list.
    ///
    /// # Errors
    ///
    /// `NoMemory` if allocation fails. Only the answer of a set or a list allocates.
    ///
    /// # Complexity
    ///
    /// As `admits`.
    pub fn answer(&self, alloc: Global, query: &Query) -> Result<Option<Query>, NoMemory>
        // The result is the query with this state's answer. It is `None` if the query belongs to another kind or is
        // that of a list's update which names an element that is not in the list, and if the state has no answer of its
        // own.
        ensures answer { IfOk result (λ answer. answer ≡ answered_in self.now query.now) }
        // The answer in the result is right in this state.
        ensures right { IfOk result (λ answer. IfSome answer (λ it. answers self.now it ≡ true)) }
        // If the query's own answer is right and any list that has to be strictly increasing is, the result is that
        // query.
        ensures only { asks_rising query.now ≡ true → answers self.now query.now ≡ true
            → IfOk result (λ answer. IfSome answer (λ it. query.now ≡ it)) }
        // The call succeeds unless the state is a collection.
        ensures memory { takes_memory self.now ≡ false → IsOk result }
    {
        let answer = match (&self.form, query) {
            (Form::Counter(number), Query::Count(_)) => Query::Count(*number),
            (Form::Register(last), Query::Last(_)) => Query::Last(*last),
            (Form::LwwSet(elements), Query::LwwRead(_)) => Query::LwwRead(listed(alloc, elements)?),
            (Form::OrSet(pairs), Query::ReadIds { element, .. }) => Query::ReadIds {
                element: *element,
                ids: pairs::identifiers(alloc, pairs, *element)?,
            },
            (Form::OrSet(pairs), Query::OrRead(_)) => Query::OrRead(pairs::elements(alloc, pairs)?),
            (Form::Rga(list), Query::RgaRead(_)) => Query::RgaRead(list.shown(alloc)?),
            (Form::List(list), Query::List(question)) => {
                return Ok(list.answer(alloc, question)?.map(Query::List));
            }
            _ => return Ok(None),
        };
        Ok(Some(answer))
    }
}

// Returns a list of the elements in increasing order.
fn listed(alloc: Global, elements: &BTreeSet<u32>) -> Result<Elements, NoMemory>
    ensures { IfOk result (λ list. list ≡ elements.now.keys) }
{
    let mut items = Vec::new(alloc);
    for element in elements {
        items.push(*element)?;
    }
    Ok(Elements::new(items))
}

// Removes the element, if it is present.
#[tactic(auto, using(crate::proofs::Keys::taken_out))]
fn take_out(elements: &mut BTreeSet<u32>, element: u32)
    requires { IsOrdered nat_cmp elements.old }
    ensures left { elements.new.keys ≡ filter (λ y. not (element == y)) elements.old.keys }
    ensures ordered { IsOrdered nat_cmp elements.new }
{
    elements.remove(&element);
}

// Returns `true` if the list has the elements in increasing order.
fn are_elements(elements: &BTreeSet<u32>, list: &[u32]) -> bool
    ensures { IsTrue result ↔ (list.now ≡ elements.now.keys) }
{
    elements.iter().eq(list)
}
