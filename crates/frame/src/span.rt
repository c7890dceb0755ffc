//! Ranges of addresses.
ghost use Rattle.std.specs.Prelude.{◌≡◌, ◌-◌, ◌≤◌};

/// The addresses from `from` up to, and not with, `to`.
#[derive(Clone, Copy, Debug, PartialEq, Eq)]
pub struct Span {
    pub from: u32,
    pub to: u32,
    ghost ordered: { from ≤ to },
}

impl Span {
    /// The number of its bytes.
    pub fn bytes(self) -> u32
        ensures { result ≡ self.to - self.from }
    {
        self.to - self.from
    }
}
