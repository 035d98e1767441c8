//! A bench: a running system of up to 16 replicas, each on a thread of its own, that the monitor watches.
//!
//! In `run_bench` replicas (`ra_bench_replicas`) exchange their updates round by round, and report each operation and
//! each delivery to one desk, while a `Gate` decides who proceeds. In `run_bench_with` one of them may report a false
//! read.
//!
//! The contract is that of these two calls: they return the report of the closed desk's log, or an error. No clause
//! states that honest replicas receive the verdict `yes`; tests show it.
//!
//! To connect a data type of your own, begin with `worker`: a worker owns a replica and a reporter, and reports each
//! step of its replica to the desk.
#![tactic(auto)]

mod bench;
mod conclude;
mod fault;
mod gate;
mod lie;
mod limits;
mod mailbox;
mod report;
mod round;
mod tell;
pub mod theorems;
mod threads;
mod unexpected_reply;
mod worker;

pub use bench::{run_bench, run_bench_with};
pub use fault::BenchFault;
pub use gate::{Gate, OpenGate};
pub use lie::Lie;
pub use limits::{MOST_BENCH_REPLICAS, MOST_ROUNDS};
pub use report::BenchReport;
