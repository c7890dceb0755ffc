// Rows on frames: their opening bytes, the places of their bytes, their low clocks.
use crate::items::{Item, shown};
use crate::words::Word;
use clock::Latency;
use frame::{Command, Transfer, low_clocks_of};
use std::alloc::Global;

// The opening bytes of a command and an address.
pub fn opening(heap: Global, words: &[Word]) -> Option<String> {
    let [Word::Command(command), Word::Number(address)] = words else {
        return None;
    };
    let Some(bytes) = command.opening_bytes(*address) else {
        return shown(heap, &[]);
    };
    let [code, a3, a2, a1, a0] = bytes;
    let number = u64::from_be_bytes([0, 0, 0, code, a3, a2, a1, a0]);
    shown(heap, &[Item::Hex(u128::from(number), 10)])
}

// The command and the address that five bytes open.
pub fn opened(heap: Global, bytes: &[u8]) -> Option<String> {
    match Command::from_opening_bytes(bytes.try_into().ok()?) {
        Some((command, address)) => {
            let code = Item::byte(command.code());
            shown(heap, &[code, Item::Number(address)])
        }
        None => shown(heap, &[]),
    }
}

// The row and the column of an address.
pub fn place(heap: Global, words: &[Word]) -> Option<String> {
    let [Word::Make(make), Word::Number(address)] = words else {
        return None;
    };
    let (row, column) = make.row_and_column(*address);
    shown(heap, &[Item::Number(row), Item::Number(column)])
}

// The addresses of some bytes of a burst: so many, from this one on.
pub fn burst(heap: Global, words: &[Word]) -> Option<String> {
    let [
        Word::Make(make),
        Word::Burst(burst),
        Word::Number(start),
        Word::Number(first),
        Word::Number(count),
    ] = words
    else {
        return None;
    };
    let items: Vec<Item> = (*first..first.saturating_add(*count))
        .map(|i| Item::Number(burst.address(*make, *start, i as usize)))
        .collect(heap)
        .ok()?;
    shown(heap, &items)
}

// The low clocks of one frame so often and of so many global resets.
pub fn low(heap: Global, words: &[Word]) -> Option<String> {
    let [Word::Number(often), Word::Number(resets), frame @ ..] = words else {
        return None;
    };
    let count = *often as usize + *resets as usize;
    let mut frames = vec![in heap; transfer_of(frame)?; *often as usize].ok()?;
    frames.resize(count, Transfer::GlobalReset).ok()?;
    shown(heap, &[Item::Long(low_clocks_of(&frames))])
}

fn transfer_of(words: &[Word]) -> Option<Transfer> {
    match words {
        [Word::Command(Command::RegisterWrite)] => Some(Transfer::RegisterWrite),
        [Word::Command(Command::GlobalReset)] => Some(Transfer::GlobalReset),
        [Word::Command(command), Word::Latency(latency)] => register_read(*command, *latency),
        [Word::Command(command), latency, bytes] => {
            memory_frame(*command, *latency, bytes.long()? as usize)
        }
        _ => None,
    }
}

fn register_read(command: Command, latency: Latency) -> Option<Transfer> {
    match command {
        Command::RegisterRead => Some(Transfer::RegisterRead { latency }),
        _ => None,
    }
}

fn memory_frame(command: Command, latency: Word, bytes: usize) -> Option<Transfer> {
    match (command, latency) {
        (Command::Read, Word::Number(latency)) => Some(Transfer::Read { latency, bytes }),
        (Command::Write, Word::Latency(latency)) => Some(Transfer::Write { latency, bytes }),
        _ => None,
    }
}
