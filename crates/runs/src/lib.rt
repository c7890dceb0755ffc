//! Lists of requests to one port, and what is true of every such list.
#![tactic(auto)]

mod serving;

pub use serving::{Call, Response, serve};
