//! Models of the two makes of chip, over a store.
#![tactic(auto, unfolding(chip::specs::Refused::first_refusal))]

mod config;
mod device;
mod model;
mod part;
mod unwoken;

pub use model::{Model, ModelA, ModelS};
pub use part::{Part, PartA, PartS};
