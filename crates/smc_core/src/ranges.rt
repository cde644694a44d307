//! `IF [A[/LEN]] G[/LEN]` in commands.

ghost use Rattle.std.specs.Prelude.{◌≡◌, ◌<◌, [], length, not, IfOk, option_copied};
ghost use Rattle.smc_core.specs.Answers.{Gives, Makes};
ghost use Rattle.smc_core.specs.Ranges.{begins_with_digit, range_of, source_in, prefix_in};
ghost use Rattle.smc_core.specs.Ranges.{active_vif, active_key, is_none_behind, names_from};
ghost use Rattle.smc_core.specs.Mistakes.{wants};
ghost use Rattle.smc_rules.specs.Interfaces.{name_of};
ghost use Rattle.smc_words.specs.Words.{command_words};
ghost use Rattle.smc_core.specs.declared.mistake.Mistake.TheVariants as mistake;
ghost use Rattle.smc_conf.specs.Forms.{group_word};

use crate::mistake::Mistake;
use crate::stop::Stop;
use mr_base::{Addr, FileName, List};
use mr_words::is_digit;
use smc_conf::{Prefix, group_word, source_word};
use smc_rules::{Interface, Key, vif_of};
use smc_words::next_word;
use std::alloc::Global;

/// The words of a range, and what stands behind them.
#[derive(Clone, Copy)]
pub(crate) struct Range<'a> {
    pub(crate) input: &'a [u8],
    pub(crate) source: Option<&'a [u8]>,
    pub(crate) group: &'a [u8],
    pub(crate) behind: &'a [u8],
}

fn begins_with_digit(word: &[u8]) -> bool
    ensures { result ≡ begins_with_digit word.now }
{
    match word {
        [first, ..] => is_digit(*first),
        [] => false,
    }
}

/// The words of a range at the front of a command's words.
pub(crate) fn range_of(words: &[u8]) -> Result<Range<'_>, Mistake>
    ensures { Gives (λ r. record {
      input = r.input.now;
      source = option_copied r.source;
      group = r.group.now;
      behind = command_words r.behind.now;
    }) result (range_of (command_words words.now)) }
{
    let (input, rest) = next_word(words).ok_or(Mistake::Usage)?;
    let (first, rest) = next_word(rest).ok_or(Mistake::Usage)?;
    match next_word(rest) {
        Some((second, behind)) if begins_with_digit(second) => Ok(Range {
            input,
            source: Some(first),
            group: second,
            behind,
        }),
        _ => Ok(Range {
            input,
            source: None,
            group: first,
            behind: rest,
        }),
    }
}

/// The prefix of sources; 0.0.0.0/0 where none is given.
fn source_in(word: Option<&[u8]>) -> Result<Prefix, Mistake>
    ensures { result ≡ source_in (option_copied word.entry) }
{
    match word {
        Some(word) => source_word(word).map_err(|_| Mistake::Address),
        None => Ok(Prefix {
            addr: Addr(0),
            len: 0,
        }),
    }
}

/// The prefix of groups.
fn group_in(word: &[u8]) -> Result<Prefix, Mistake>
    ensures { result ≡ prefix_in (group_word word.now) }
{
    group_word(word).map_err(|_| Mistake::Address)
}

/// The vif of an interface that has to be active.
fn active_vif(interfaces: &[Interface], name: &[u8]) -> Result<usize, Mistake>
    ensures value { result ≡ active_vif interfaces.now name.now }
    ensures within { IfOk result (λ v. v < length interfaces.now) }
    ensures named { IfOk result (λ v. name_of interfaces.now v ≡ name.now) }
{
    match vif_of(interfaces, name) {
        Some(vif) => Ok(vif),
        None => Err(Mistake::Interface),
    }
}

/// The key that words give, and the vif of its interface.
pub(crate) fn active_key(
    interfaces: &[Interface],
    input: &[u8],
    source: Option<&[u8]>,
    group: &[u8],
) -> Result<(usize, Key), Mistake>
    ensures value { result ≡ active_key interfaces.now (record {
      input = input.now;
      source = option_copied source.entry;
      group = group.now;
      behind = [];
    }) }
    ensures within { IfOk result (λ x. x.0 < length interfaces.now) }
{
    let source = source_in(source)?;
    let group = group_in(group)?;
    let vif = active_vif(interfaces, input)?;
    let name = FileName::new(interfaces[vif].name.as_str());
    Ok((
        vif,
        Key {
            input: name,
            source,
            group,
        },
    ))
}

/// Nothing may stand behind a command.
pub(crate) fn nothing_behind(words: &[u8]) -> Result<(), Mistake>
    ensures { result ≡ wants (is_none_behind (command_words words.now)) mistake.Usage }
{
    match next_word(words) {
        None => Ok(()),
        Some(_) => Err(Mistake::Usage),
    }
}

/// Something has to stand behind a command.
pub(crate) fn something_behind(words: &[u8]) -> Result<(), Mistake>
    ensures { result ≡ wants (not (is_none_behind (command_words words.now))) mistake.Usage }
{
    match next_word(words) {
        None => Err(Mistake::Usage),
        Some(_) => Ok(()),
    }
}

/// The names that words give, which have to be those of active interfaces.
pub(crate) fn active_names(
    alloc: Global,
    interfaces: &[Interface],
    words: &[u8],
) -> Result<List<FileName>, Stop>
    ensures { Makes (λ l. l) result
        (names_from interfaces.now [] (command_words words.now)) }
{
    let mut names = Vec::new(alloc);
    let mut rest = words;
    'words: while let Some((word, after)) = next_word(rest) {
        let vif = active_vif(interfaces, word)?;
        names.push(FileName::new(interfaces[vif].name.as_str()))?;
        rest = after;
    }
    Ok(List(names))
}
