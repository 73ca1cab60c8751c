//! CSV rows from a stream into a series of a store.
//!
//! The lines of the input are read one at a time. Readings whose times follow each other by the step of
//! the series are gathered into runs of at most 256; each run is one set of the series. The sets of runs
//! that have ended are kept back, 512 at most, and done together, as many in one commit as its pages allow:
//! before each take of the input, at its end, before a bad line is told, and where 512 are kept. None is
//! done behind a refused one. So at each moment a crash leaves the book after the sets of some first runs.
//!
//! Nothing is sent. It ends by an `End` of run_ends; words of the command line and what is said of a load are left to the layer above.
#![tactic(auto)]

mod committing;
mod kept_sets;
pub mod laws;
mod load_work;
mod loader;
mod loading;
mod open_run;
mod said;

pub use loading::load;
