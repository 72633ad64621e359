//! What a bridge works by, and what becomes of a frame at it: ng_bridge(4).
mod bridge;
mod links;

pub use bridge::BridgePlan;
