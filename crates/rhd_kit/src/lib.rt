//! What is handed in to a session text: the natives of the kit, and the bodies and the host that the
//! text itself declares.
#![tactic(auto)]

mod kit;
mod laws;
mod plan_bodies;
mod table_host;
mod values;

pub use kit::{KIT_LEN, KitFn};
pub use laws::{a_body_asks_its_calls_in_order, a_native_asks_as_often_as_it_is_told};
pub use plan_bodies::PlanBodies;
pub use table_host::TableHost;
