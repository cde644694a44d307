//! Names of devices and files.

ghost use Rattle.std.specs.Prelude.{◌≡◌, ◌≤◌, ◌==◌, true, length};
ghost use Rattle.std.specs.List.{list_all, list_any};
ghost use Rattle.mr_words.specs.Names.{is_plain, is_clean, is_letter, is_name_byte, begins_name};
ghost use Rattle.mr_words.specs.Names.{is_device_name, is_file};

use crate::numbers::is_digit;
use mr_base::FileName;
use std::str;

fn is_letter(b: u8) -> bool
    ensures { result ≡ is_letter b }
{
    b'A' <= b && b <= b'Z' || b'a' <= b && b <= b'z'
}

fn is_name_byte(b: u8) -> bool
    ensures { result ≡ is_name_byte b }
{
    is_letter(b) || is_digit(b) || b == b'.' || b == b'_' || b == b'-' || b == b':'
}

/// Whether a word has 1 to 15 bytes, a letter first.
fn begins_name(word: &[u8]) -> bool
    ensures { result ≡ begins_name word.now }
{
    !word.is_empty() && word.len() <= 15 && is_letter(word[0])
}

fn are_name_bytes(word: &[u8]) -> bool
    ensures { result ≡ list_all is_name_byte word.now }
{
    word.iter().all(|b| is_name_byte(*b))
}

/// Whether a word is a device's name.
pub fn is_device_name(word: &[u8]) -> bool
    ensures { result ≡ is_device_name word.now }
{
    begins_name(word) && word != b"pimreg".as_slice() && are_name_bytes(word)
}

/// Whether a word has plain bytes alone, 0x20 to 0x7E.
pub fn is_clean(word: &[u8]) -> bool
    ensures { result ≡ is_clean word.now }
{
    word.iter().all(|b| is_plain(*b))
}

fn is_plain(b: u8) -> bool
    ensures { result ≡ is_plain b }
{
    b' ' <= b && b <= b'~'
}

fn has_slash(word: &[u8]) -> bool
    ensures { result ≡ list_any (λ b. b == 47) word.now }
{
    word.iter().any(|b| *b == b'/')
}

/// Whether a word may name a file of the folder: 1 to 255 plain bytes without `/`, neither `.` nor
/// `..`, which do not begin with `out-`.
pub fn is_file(word: &[u8]) -> bool
    ensures { result ≡ is_file word.now }
{
    !word.is_empty()
        && word.len() <= 255
        && is_clean(word)
        && !has_slash(word)
        && word != b".".as_slice()
        && word != b"..".as_slice()
        && !word.starts_with(b"out-")
}

/// A word of plain bytes as a name.
pub fn name_of(word: &[u8]) -> FileName
    requires clean { is_clean word.now ≡ true }
    requires fits { length word.now ≤ 255 }
    ensures { result ≡ word.now }
{
    match str::from_utf8(word) {
        Ok(text) => FileName::new(text),
        Err(_) => unreachable!(),
    }
}
