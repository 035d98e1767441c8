//! A ticket lock over a journal: threads that hold passes take turns at one object, in the order of their tickets.
//!
//! The contract is that of the calls of `TicketLock`, for any `Journal`. A pass has seen a log, which is initially
//! empty, and each reply extends it. The extended log is legal under the setup of the journal, begins with what the
//! pass had seen, and ends with this call. Its entries of this pass are those that the pass had seen and this one: each
//! of its calls occurs once, in order.
//!
//! `submit` may wait; `try_submit` returns `Busy` instead. After `Full` the log has as many entries as the setup
//! allows. A fault hands the command back and logs nothing. `glance` returns the length and the fault of such a log,
//! which the pass has then seen. `meet` lets two passes see one such log, which begins with what each had seen. `close`
//! returns the journal, with such a log.
//!
//! A `Caller` is a pass together with its lock, and its calls are those of the lock. `open` requires a journal with an
//! empty log, `meet` two callers of one lock, and the others nothing.
//!
//! The contract rests on the rule of the lock (`specs/Rule`), which each step on the table preserves. No two calls hold
//! one ticket. The journal is out of its slot with at most one call, whose ticket is served. There is one legal log,
//! the front, which the word `mark` describes. Each pass has seen a prefix of it with all its own entries. Only the
//! holder of the journal extends it, by one entry, with its store of `mark`. Nothing is claimed about whether a call is
//! ever served.
#![tactic(auto)]

mod at_once;
mod backoff;
mod board;
mod caller;
mod close;
mod draw;
mod enter;
mod fault;
mod glance;
mod lock;
mod mark;
mod meet;
mod open;
mod pass;
mod plays;
mod release;
mod serve;
mod slot;
pub mod theorems;

pub use caller::{Caller, CloseFault};
pub use close::Unsettled;
pub use draw::GREATEST_TICKET;
pub use fault::{CallFault, OpenFault};
pub use glance::Glance;
pub use lock::TicketLock;
pub use open::MOST_PASSES;
pub use pass::Pass;
/// What the lock guards, with what its steps answer and log.
pub use ra_journal::{Entry, Journal, MOST_ENTRIES, StepFault};
