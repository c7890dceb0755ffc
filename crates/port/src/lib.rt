//! The port of one chip: it takes requests for any address, refuses those that make no sense, and
//! sends the frames that the others come to.
#![tactic(auto)]

mod filling;
mod payload;
mod performing;
mod ports;
mod reading;
mod refusing;
mod request;
mod sending;
mod served;
mod settings;
mod traffic;
mod writing;

pub use ports::{UnwokenPort, WokenPort};
pub use refusing::LONGEST;
pub use request::Request;
pub use served::Served;
pub use traffic::Traffic;
