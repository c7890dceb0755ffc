//! Reading an opening from its front to its end.
ghost use Rattle.std.specs.Prelude.{◌≡◌, ◌+◌, ◌<◌, ◌≤◌, length, take, drop, slice_index, IfOk, OnOk, IfErr, OnErr, Ok, Err};
ghost use Rattle.script.specs.Numbers.{u16_at, u32_at};

use fault::Refusal;

/// What is left to be read. Whatever is missing or names nothing is refused by 1.
#[derive(Drop)]
pub struct Reader<'a> {
    rest: &'a [u8],
}

impl<'a> Reader<'a> {
    pub fn new(input: &'a [u8]) -> Reader<'a>
        ensures { result.rest.now ≡ input.now }
    {
        Reader { rest: input }
    }

    /// The next `N` bytes.
    pub fn bytes<const N: usize>(&mut self) -> Result<[u8; N], Refusal>
        ensures ok { IfOk result (λ bytes. bytes ≡ take N self.old.rest.now) }
        ensures rest { OnOk result (self.new.rest.now ≡ drop N self.old.rest.now) }
        ensures left { OnOk result (N + length self.new.rest.now ≡ length self.old.rest.now) }
        ensures short { OnErr result (length self.old.rest.now < N) }
        ensures refused { IfErr result (λ e. e ≡ Refusal.BadSetup) }
    {
        let (bytes, rest) = self.rest.split_first_chunk().ok_or(Refusal::BadSetup)?;
        self.rest = rest;
        Ok(*bytes)
    }

    /// The next two bytes as a number.
    pub fn u16(&mut self) -> Result<u16, Refusal>
        ensures ok { IfOk result (λ n. n ≡ u16_at self.old.rest.now 0) }
        ensures rest { OnOk result (self.new.rest.now ≡ drop 2 self.old.rest.now) }
        ensures left { OnOk result (2 + length self.new.rest.now ≡ length self.old.rest.now) }
        ensures short { OnErr result (length self.old.rest.now < 2) }
        ensures refused { IfErr result (λ e. e ≡ Refusal.BadSetup) }
    {
        Ok(u16::from_be_bytes(self.bytes()?))
    }

    /// The next four bytes as a number.
    pub fn u32(&mut self) -> Result<u32, Refusal>
        ensures ok { IfOk result (λ n. n ≡ u32_at self.old.rest.now 0) }
        ensures rest { OnOk result (self.new.rest.now ≡ drop 4 self.old.rest.now) }
        ensures left { OnOk result (4 + length self.new.rest.now ≡ length self.old.rest.now) }
        ensures short { OnErr result (length self.old.rest.now < 4) }
        ensures refused { IfErr result (λ e. e ≡ Refusal.BadSetup) }
    {
        Ok(u32::from_be_bytes(self.bytes()?))
    }

    /// What the next byte, a letter, stands for.
    pub fn letter<T: TryFrom<char>>(&mut self) -> Result<T, Refusal>
    where
        T::Error: Drop,
        ensures ok { IfOk result (λ x. T.try_from_gives (slice_index self.old.rest.now 0) (Ok x)) }
        ensures rest { OnOk result (self.new.rest.now ≡ drop 1 self.old.rest.now) }
        ensures left { OnOk result (1 + length self.new.rest.now ≡ length self.old.rest.now) }
        ensures names_nothing { OnErr result (1 ≤ length self.old.rest.now
            → (u : T.Error) × T.try_from_gives (slice_index self.old.rest.now 0) (Err u)) }
        ensures refused { IfErr result (λ e. e ≡ Refusal.BadSetup) }
    {
        let [letter] = self.bytes::<1>()?;
        T::try_from(char::from(letter)).map_err(|_| Refusal::BadSetup)
    }
}
