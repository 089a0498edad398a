// What a call does to one of 64 flows and to what all of them have in common, by value: the verdict on a packet, and the flow and the
// common part after an arrival, after a departure and after a tick.
#![tactic(auto)]

use refusals::Packet;

mod arriving;
mod deciding;
mod departing;
mod ticking;

// What a departure hands out: the flow that was served, and its packet.
#[derive(Clone, Copy)]
pub struct Served {
    pub flow: u32,
    pub packet: Packet,
}

pub use arriving::{arrived, counted};
pub use deciding::{decide, lost};
pub use departing::{departed, taken, wrong_word};
pub use ticking::tick_flow;
