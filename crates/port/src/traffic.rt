//! How much went over the bus.
ghost use Rattle.std.specs.Prelude.{◌≡◌, ◌+◌, ◌^◌, ◌<◌};

/// How much went over the bus: how many frames, lost ones too, and the sum of their low clocks.
#[derive(Clone, Copy, Debug, PartialEq, Eq)]
pub struct Traffic {
    pub frames: u64,
    pub clocks: u64,
}

impl Traffic {
    /// Nothing.
    pub const NONE: Traffic = Traffic {
        frames: 0,
        clocks: 0,
    };

    // One frame more.
    pub(crate) fn and_frame(self, low: u64) -> Traffic
        requires frames { self.frames + 1 < 2 ^ 64 }
        requires clocks { self.clocks + low < 2 ^ 64 }
        ensures { result ≡ record { frames = self.frames + 1; clocks = self.clocks + low } }
    {
        Traffic {
            frames: self.frames + 1,
            clocks: self.clocks + low,
        }
    }

    // Both together.
    pub(crate) fn and(self, other: Traffic) -> Traffic
        requires frames { self.frames + other.frames < 2 ^ 64 }
        requires clocks { self.clocks + other.clocks < 2 ^ 64 }
        ensures { result ≡ record {
          frames = self.frames + other.frames;
          clocks = self.clocks + other.clocks;
        } }
    {
        Traffic {
            frames: self.frames + other.frames,
            clocks: self.clocks + other.clocks,
        }
    }
}
