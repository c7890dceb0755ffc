//! A scrambler over any chip: it combines every byte with the key byte of its address, and is a chip
//! again; and a stack of a scrambler over a window.
#![tactic(auto)]

mod scrambling;
mod stack;

pub use scrambling::Scrambler;
