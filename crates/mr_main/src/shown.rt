//! Words of a file, as a message shows them.

use std::alloc::{AllocError, Global};

/// How many bytes of a word are shown.
const MOST_SHOWN: usize = 60;

/// A word as it is shown on a terminal: its first 60 bytes, those outside 0x20 to 0x7E as `\xNN`,
/// and `..` for what is left out.
pub fn shown(alloc: Global, word: &[u8]) -> Result<String, AllocError> {
    let mut text = String::new(alloc);
    for byte in word.iter().take(MOST_SHOWN) {
        if (0x20..=0x7E).contains(byte) {
            text.push(char::from(*byte))?;
        } else {
            text.push_str(format!(in alloc; "\\x{byte:02x}")?.as_str())?;
        }
    }
    if word.len() > MOST_SHOWN {
        text.push_str("..")?;
    }
    Ok(text)
}
