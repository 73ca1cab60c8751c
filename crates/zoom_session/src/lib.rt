//! The sessions that are open at the server: for each, the list of coefficients that its client keeps,
//! and the view that it was answered last.
//!
//! At most 16 sessions are open, no two of one number. A session's list changes only with its own
//! answered views without a filter, in two steps that its client takes too (see `coefficient_cache`),
//! so both always hold the same list. Such a view is planned first, which changes nothing: the keys
//! that it needs, and the part of them that the client lacks or holds with an old coefficient. Once it
//! is answered the plan is applied. A filtered view has no plan and leaves the list alone.
//!
//! What the coefficients are, and the frames that carry them, are left to the layers around this one.
#![tactic(auto)]

mod errors;
mod plan;
mod session;
mod sessions;
mod view_spec;

pub use errors::{PlanError, SessionError};
pub use plan::ViewPlan;
pub use sessions::{DEFAULT_CACHE, MOST_SESSIONS, Sessions};
pub use view_spec::{RangeSpec, ViewSpec};
