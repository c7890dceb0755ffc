// The chips that cases are tried on.
use anyhow::anyhow;
use fault::Refusal;
use model::{Model, Part};
use script::Opening;
use std::alloc::Global;

// The opening of a script, in hexadecimal.
pub fn opening_of(heap: Global, words: &[&str]) -> anyhow::Result<Opening> {
    let mut bytes = Vec::new(heap);
    for word in words {
        bytes.extend(hex::decode(heap, *word)?)?;
    }
    Opening::parse(bytes.as_slice()).map_err(|fault| refused(fault.refusal))
}

// Why there is no chip, or no layer over it.
pub fn refused(refusal: Refusal) -> anyhow::Error {
    anyhow!("no chip: refused by {}", refusal.details().number)
}

// The model of an opening, without its layers.
pub fn model<P: Part>(heap: Global, opening: &Opening) -> anyhow::Result<Model<P>> {
    let size = usize::from(opening.pages) * P::MAKE.page() as usize;
    let store = vec![in heap; 0; size]?;
    let Opening {
        clock,
        refresh_word,
        strobe_count,
        ..
    } = *opening;
    Model::new(store, clock.khz, clock.range, refresh_word, strobe_count).map_err(|back| refused(
        back.fault.refusal,
    ))
}
