//! What the words of the command line ask for.

ghost use Rattle.std.specs.Prelude.{◌≡◌, ◌≤◌, ◌&&◌, IfSome, map, option_map, string_bytes};
ghost use Rattle.mr_base.specs.declared.limits.TheConstants.{MOST_ITEMS, MOST_LANES};
ghost use Rattle.mr_command.specs.Commands.{Check, IsInRange, Replay, asked_by, command_of, gen_of};
ghost use Rattle.mr_command.specs.Commands.{if_so, is_file_word, number_in};
ghost use Rattle.mr_words.specs.Numbers.{number_of};

use mr_base::{MOST_ITEMS, MOST_LANES};
use mr_words::long_number_of;

/// The greatest seed of `gen`.
pub const MOST_SEED: u64 = 9_223_372_036_854_775_807;

/// What a run is asked to do. A file's name is a word of 1 to 255 bytes that does not begin with
/// `out-`, as the egress files do.
#[derive(Clone, Copy, Debug)]
pub enum Command<'a> {
    /// `replay SCENARIO`: the scenario in this file is run.
    Replay { scenario: &'a str },
    /// `check SCENARIO HISTORY`: the history in the second file is judged as one of the scenario in
    /// the first.
    Check { scenario: &'a str, history: &'a str },
    /// `gen SEED LANES PACKETS`: a scenario is made from a seed, 0 to `MOST_SEED`, for 1 to
    /// `MOST_LANES` of mr_base lanes with 1 packet or more each, together at most `MOST_ITEMS`.
    Gen { seed: u64, lanes: u32, packets: u32 },
}

/// Whether a word may name a file.
fn is_file_word(word: &str) -> bool
    ensures { result ≡ is_file_word word.now }
{
    let bytes = word.as_bytes();
    !bytes.is_empty() && bytes.len() <= 255 && !bytes.starts_with(b"out-")
}

/// The number that a word spells, if it is 1 to `most`.
fn count_of(word: &str, most: u32) -> Option<u32>
    ensures value { result ≡ number_in 1 most word.now }
    ensures within { IfSome result (λ n. (1 ≤ n) × (n ≤ most)) }
{
    match long_number_of(word.as_bytes(), u64::from(most)) {
        Some(0) | None => None,
        Some(n) => Some(n as u32),
    }
}

/// `gen SEED LANES PACKETS`, without its first word.
fn gen_of<'a>(seed: &str, lanes: &str, packets: &str) -> Option<Command<'a>>
    ensures asked { option_map asked_by result ≡ gen_of (number_of MOST_SEED seed.now)
        (number_in 1 MOST_LANES lanes.now) (number_in 1 MOST_ITEMS packets.now) }
    ensures fits { IfSome result IsInRange }
{
    let seed = long_number_of(seed.as_bytes(), MOST_SEED)?;
    let lanes = count_of(lanes, MOST_LANES)?;
    let packets = count_of(packets, MOST_ITEMS as u32)?;
    if u64::from(lanes) * u64::from(packets) <= MOST_ITEMS as u64 {
        Some(Command::Gen {
            seed,
            lanes,
            packets,
        })
    } else {
        None
    }
}

/// `replay SCENARIO`, without its first word.
fn replay_of(scenario: &str) -> Option<Command<'_>>
    ensures asked { option_map asked_by result
        ≡ if_so (is_file_word scenario.now) (Replay scenario.now) }
    ensures fits { IfSome result IsInRange }
{
    if is_file_word(scenario) {
        Some(Command::Replay { scenario })
    } else {
        None
    }
}

/// `check SCENARIO HISTORY`, without its first word.
fn check_of<'a>(scenario: &'a str, history: &'a str) -> Option<Command<'a>>
    ensures asked { option_map asked_by result
        ≡ if_so (is_file_word scenario.now && is_file_word history.now)
        (Check scenario.now history.now) }
    ensures fits { IfSome result IsInRange }
{
    if is_file_word(scenario) && is_file_word(history) {
        Some(Command::Check { scenario, history })
    } else {
        None
    }
}

/// What the words after the program's name ask for; none where they are no form of a command.
pub fn command_of(words: &[String]) -> Option<Command<'_>>
    ensures asked { option_map asked_by result ≡ command_of (map string_bytes words.now) }
    ensures fits { IfSome result IsInRange }
{
    match words {
        [word, scenario] => {
            if word.as_str() == "replay" {
                replay_of(scenario.as_str())
            } else {
                None
            }
        }
        [word, scenario, history] => {
            if word.as_str() == "check" {
                check_of(scenario.as_str(), history.as_str())
            } else {
                None
            }
        }
        [word, seed, lanes, packets] => {
            if word.as_str() == "gen" {
                gen_of(seed.as_str(), lanes.as_str(), packets.as_str())
            } else {
                None
            }
        }
        _ => None,
    }
}
