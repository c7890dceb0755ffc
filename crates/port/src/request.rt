//! What a port is asked for.
ghost use Rattle.std.specs.Prelude.{◌≡◌, ℕ};

/// One request. A read has as many bytes as the buffer that it fills, and so has a fill, whose
/// buffer is a cache line. Latency types, coverages and registers go by their numbers.
#[derive(Clone, Copy, Debug, PartialEq, Eq)]
pub enum Request<'a> {
    Read {
        start: u32,
    },
    Write {
        start: u32,
        data: &'a [u8],
        mask: &'a [u8],
    },
    Fill {
        start: u32,
    },
    LatencyType(u8),
    Coverage(u8),
    Register(u8),
    Reset,
}

impl Request<'_> {
    ghost use Rattle.port.specs.Requests.{requested, place};

    /// The place of a fault: the start of a read, a write or a fill, else 0.
    pub fn place(self) -> u32
        ensures { (n : ℕ) → result ≡ place (requested self.entry n) }
    {
        match self {
            Request::Read { start } | Request::Write { start, .. } | Request::Fill { start } =>
                start,
            Request::LatencyType(_)
            | Request::Coverage(_)
            | Request::Register(_)
            | Request::Reset => 0,
        }
    }
}
