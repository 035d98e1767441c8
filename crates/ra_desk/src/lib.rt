//! The desk: a monitor behind the ticket lock, for reporters on many threads.
//!
//! The contract for the layers above: each reply to a `DeskReporter` is the single-threaded monitor's answer after some
//! reports of one growing log. That log begins with all that the reporter had seen, and this report is its last entry.
//! A reply `yes` implies an RA-linearization of all of them, and a reply `no` comes exactly at the fault
//! (`DeskReporter::tell`). This follows from the contract of the lock (`ra_ticket`) for a journal that is a monitor.
#![tactic(auto)]

mod reporter;

use ra_monitor::Monitor;
use ra_ticket::TicketLock;
pub use reporter::{DeskCloseFault, DeskReporter};

/// A monitor behind the ticket lock, for programs that prove something about passes themselves. Each thread holds a
/// pass and reports by `TicketLock::submit`. Other programs open a desk by `DeskReporter::open`.
pub type Desk = TicketLock<Monitor>;
