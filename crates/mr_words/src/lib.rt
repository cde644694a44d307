//! Texts cut into lines and words, and what single words spell: numbers, addresses, items `V:T`,
//! names of devices and files.
#![tactic(auto)]

mod cursor;
mod items;
mod names;
mod numbers;
mod parts;
#[cfg(test)]
mod tests;

pub use cursor::{behind_first, from_index, next_word, past, split_line, trimmed};
pub use items::item_of;
pub use names::{is_clean, is_device_name, is_file, name_of};
pub use numbers::{address_of, is_digit, long_number_of, number_of, with_digit};
pub use parts::split_part;
