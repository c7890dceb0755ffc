// One row of the table.
use crate::words::{Ask, Word, bytes_of, words_of};
use crate::{clocks, frames, masks, registers, scripts, splits};
use std::alloc::Global;
use std::fmt;

// How a row differs from what is found: two kinds, and no `Option` of a text.
#[derive(Debug, Drop)]
pub enum Mismatch {
    // another answer
    Differs(String),
    // the row cannot be read, or there is no memory for its answer
    Unanswered,
}

impl fmt::Display for Mismatch {
    fn fmt<W: fmt::Write>(&self, f: &mut fmt::Formatter<W>) -> fmt::Result {
        f.write_str(match self {
            Mismatch::Differs(found) => found.as_str(),
            Mismatch::Unanswered => "no answer",
        })
    }
}

// Compares the answer to a row's question with the answer that the row has.
pub fn judge(heap: Global, row: &str) -> Result<(), Mismatch> {
    let (question, expected) = row.split_once(" = ").ok_or(Mismatch::Unanswered)?;
    let found = answer(heap, question).ok_or(Mismatch::Unanswered)?;
    if found.as_str() == expected {
        Ok(())
    } else {
        Err(Mismatch::Differs(found))
    }
}

// The answer to a question. A byte string, if it has one, stands last, behind a #. The heap goes
// down beside the words: Rattle hands it on to what allocates, and it is no part of a question.
fn answer(heap: Global, question: &str) -> Option<String> {
    match question.split_once('#') {
        Some((front, digits)) => {
            let bytes = bytes_of(heap, digits)?;
            let words = words_of(heap, front)?;
            of_bytes(heap, &words, &bytes)
        }
        None => {
            let words = words_of(heap, question)?;
            of_words(heap, &words)
        }
    }
}

fn of_bytes(heap: Global, words: &[Word], bytes: &[u8]) -> Option<String> {
    match words {
        [Word::Ask(Ask::Opened)] => frames::opened(heap, bytes),
        [Word::Ask(Ask::Mask), length, byte] => masks::mask(heap, bytes, *length, *byte),
        [Word::Ask(Ask::Script)] => scripts::opening(heap, bytes),
        [Word::Ask(Ask::Report)] => scripts::first_line(heap, bytes),
        _ => None,
    }
}

fn of_words(heap: Global, words: &[Word]) -> Option<String> {
    match words {
        [Word::Ask(ask), rest @ ..] => answered(heap, *ask, rest),
        _ => None,
    }
}

// No table of functions: it would name each question and its function once more, as this does.
fn answered(heap: Global, ask: Ask, words: &[Word]) -> Option<String> {
    match ask {
        Ask::Clock => clocks::numbers(heap, words),
        Ask::Keeps => clocks::keeps(heap, words),
        Ask::Opening => frames::opening(heap, words),
        Ask::Place => frames::place(heap, words),
        Ask::Burst => frames::burst(heap, words),
        Ask::Low => frames::low(heap, words),
        Ask::Meaning => registers::meaning(heap, words),
        Ask::Accepts => registers::accepted(heap, words),
        Ask::Access => registers::access(heap, words),
        Ask::Settings => registers::settings(heap, words),
        Ask::Wire => registers::wire(heap, words),
        Ask::Kept => registers::kept(heap, words),
        Ask::Pieces => splits::pieces(heap, words),
        Ask::Frames => splits::frames(heap, words),
        Ask::Rounded => splits::rounded(heap, words),
        Ask::Refusal => scripts::refusal(heap, words),
        Ask::Opened | Ask::Mask | Ask::Script | Ask::Report => None,
    }
}
