// The items of an answer.
use std::alloc::Global;
use std::fmt;
use std::fmt::Write;

#[derive(Clone, Copy, Debug, PartialEq, Eq)]
pub enum Item {
    Number(u32),
    Long(u64),
    // in hexadecimal, with so many digits
    Hex(u128, usize),
    Flag(bool),
    Name(&'static str),
}

pub const NONE: Item = Item::Name("none");

impl Item {
    pub fn byte(byte: u8) -> Item {
        Item::Hex(u128::from(byte), 2)
    }
}

impl fmt::Display for Item {
    fn fmt<W: fmt::Write>(&self, f: &mut fmt::Formatter<W>) -> fmt::Result {
        match *self {
            Item::Number(number) => write!(f, "{number}"),
            Item::Long(number) => write!(f, "{number}"),
            Item::Hex(number, digits) => write!(f, "{number:0digits$X}"),
            Item::Flag(flag) => write!(f, "{flag}"),
            Item::Name(name) => f.write_str(name),
        }
    }
}

// The text of an answer: its items, parted by blanks, or `none`.
pub fn shown(heap: Global, items: &[Item]) -> Option<String> {
    let mut text = String::new(heap);
    for item in items {
        if !text.is_empty() {
            text.push(' ').ok()?;
        }
        write!(text, "{item}").ok()?;
    }
    if text.is_empty() {
        text.push_str("none").ok()?;
    }
    Some(text)
}
