//! The order in which a memory frame goes through its addresses.
ghost use Rattle.std.specs.Prelude.{◌≡◌, ◌%◌};
ghost use Rattle.frame.specs.Bursts.{bytes, wrapped, burst_address};
ghost use Rattle.frame.specs.Orders.{IsBurstOrder};

use crate::make::Make;

/// The block that a burst wraps in, by its length.
#[derive(Clone, Copy, Debug, PartialEq, Eq)]
pub enum Block {
    Bytes16,
    Bytes32,
    Bytes64,
    Page,
}

/// The burst of a memory frame, from its start.
#[derive(Clone, Copy, Debug, PartialEq, Eq)]
pub enum Burst {
    /// On from the start, and round in the page.
    Linear,
    /// Round and round in the block.
    Wrapped(Block),
    /// Once round the block, then on behind it, and round in the page.
    Hybrid(Block),
}

impl Block {
    /// The length of the block in bytes.
    pub fn bytes(self, make: Make) -> u32
        ensures { result ≡ bytes make self }
    {
        match self {
            Block::Bytes16 => 16,
            Block::Bytes32 => 32,
            Block::Bytes64 => 64,
            Block::Page => make.page(),
        }
    }

    // The column of an address in its block.
    fn column(self, make: Make, address: u32) -> u32
        ensures { result ≡ address % bytes make self }
    {
        match self {
            Block::Bytes16 | Block::Bytes32 | Block::Bytes64 => address % self.bytes(make),
            Block::Page => {
                let (_, column) = make.row_and_column(address);
                column
            }
        }
    }

    // The address of byte `i` of a burst that goes round in blocks of this length.
    #[tactic(auto, using(crate::proofs::Orders::whole_turns))]
    fn wrapped(self, make: Make, start: u32, i: usize) -> u32
        ensures { result ≡ wrapped (bytes make self) start i }
    {
        let column = self.column(make, start);
        // 2^32 bytes are whole blocks
        let turn = self.column(make, (i % 0x1_0000_0000) as u32);
        start - column + self.column(make, column + turn)
    }
}

impl Burst {
    /// The address of byte `i`, from 0, of a burst from `start`.
    #[tactic(auto, using(crate::proofs::Orders::burst_order))]
    pub fn address(self, make: Make, start: u32, i: usize) -> u32
        ensures value { result ≡ burst_address make self start i }
        ensures order { IsBurstOrder make start }
    {
        match self {
            Burst::Linear | Burst::Hybrid(Block::Page) => Block::Page.wrapped(make, start, i),
            Burst::Wrapped(block) => block.wrapped(make, start, i),
            Burst::Hybrid(block) => {
                if i < block.bytes(make) as usize {
                    block.wrapped(make, start, i)
                } else {
                    Block::Page.wrapped(make, start - block.column(make, start), i)
                }
            }
        }
    }
}
