//! What comes of a request.

use crate::traffic::Traffic;
use chip::Reply;
use fault::Fault;

/// What came of one request.
#[derive(Clone, Copy, Debug, PartialEq, Eq)]
pub struct Served {
    /// A refusal of 6 to 12 came before any frame, and changed nothing. After 19 the buffer has the
    /// bytes of whole earlier frames, as many as the refusal says.
    pub answer: Result<Reply, Fault>,
    /// The frames that were sent, lost ones too.
    pub traffic: Traffic,
}
