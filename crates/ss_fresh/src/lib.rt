//! The routers and endpoints of a network as they are when a run begins: made for a graph's wires, with the credits that the queues at
//! the other ends of their lines hold, so that each line is in balance.
#![tactic(auto)]

mod laws;
mod making;

pub use laws::{
    elements_speak_as_members, lines_agree, new_elements_can_begin, new_elements_have_their_credits,
};
pub use making::{nic_settings, router_from};
