//! What a session text says: its parts, the bodies of its scripts, and a text as it is held.
#![tactic(auto)]

mod body;
mod part;
mod session;

pub use body::{BodyEnd, BodyPlan, BodyPlans, CallPlan, CallPlans};
pub use part::Part;
pub use session::SessionText;
