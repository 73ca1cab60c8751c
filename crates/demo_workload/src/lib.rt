//! A large workload that is made from a number, and the summary of its replies.
//!
//! One series grows by rounds of 256 values, a walk whose steps a generator of 64 bits draws. Behind
//! every fourth round a slot is set, and behind every eighth the whole series is viewed:
//!
//!     create demo 0 1 0                   first
//!     open 1
//!     append demo V V ..                  each round
//!     set demo T V                        rounds 3, 7, 11 ..
//!     view 1 demo 640 240 0 L auto        rounds 7, 15, 23 ..
//!
//! The requests are made one by one, and never held together. `run_workload` gives them to a service,
//! and the replies to a client of it. `run_demo` is the command `demo`: it does that over the store of a
//! disk, and sends the summary's line. `specs/Demonstrated.antt` says what the disk holds and what was sent.
#![tactic(auto)]

mod answering;
mod demo;
mod draws;
mod plans;
mod requests;
pub mod running;
pub mod summaries;
pub mod workloads;

pub use demo::run_demo;
pub use running::run_workload;
pub use summaries::Summary;
pub use workloads::Workload;
