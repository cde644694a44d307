//! Lines `mgroup` and `mroute`.

ghost use Rattle.std.specs.Prelude.{◌≡◌, ◌≤◌, true, [], length, IfOk};
ghost use Rattle.mr_words.specs.Names.{is_clean};
ghost use Rattle.mr_words.specs.Words.{words_of};
ghost use Rattle.smc_conf.specs.Answers.{Gives, Reads, Steps};
ghost use Rattle.smc_conf.specs.Lines.{from_interface, group_line, outs_from, rule_line};

use crate::conf::{Group, Rule};
use crate::draft::Draft;
use crate::forms::{first_of, interface_word, keyword};
use crate::phyints::nothing_behind;
use crate::ranges::range_of;
use crate::stop::{Kind, Stop};
use mr_base::{FileName, List};
use mr_words::{name_of, next_word};
use std::alloc::Global;

/// `from IF`, and what stands behind it.
fn from_interface(words: &[u8]) -> Result<(&[u8], &[u8]), Kind>
    ensures name { Gives (λ x. (x.0.now, words_of x.1.now)) result
        (from_interface (words_of words.now)) }
    ensures clean { IfOk result (λ x. is_clean x.0.now ≡ true) }
    ensures short { IfOk result (λ x. length x.0.now ≤ 255) }
{
    interface_word(keyword(b"from", words)?)
}

/// `mgroup from IF [source A[/LEN]] group G[/LEN]`
pub fn group_line(draft: &mut Draft, words: &[u8]) -> Result<(), Stop>
    ensures { Steps result draft.new (group_line draft.old (words_of words.now)) }
{
    let (input, rest) = from_interface(words)?;
    let (source, group, rest) = range_of(rest)?;
    nothing_behind(rest)?;
    draft.groups.0.push(Group {
        input: name_of(input),
        source,
        group,
    })?;
    Ok(())
}

/// The interfaces that words name.
fn outs_of(alloc: Global, words: &[u8]) -> Result<List<FileName>, Stop>
    ensures { Reads (λ l. l) result (outs_from [] (words_of words.now)) }
{
    let mut outs = Vec::new(alloc);
    let mut rest = words;
    'words: while next_word(rest).is_some() {
        let (name, after) = interface_word(rest)?;
        outs.push(name_of(name))?;
        rest = after;
    }
    Ok(List(outs))
}

/// `mroute from IF [source A[/LEN]] group G[/LEN] to IF ..`, one output or more.
pub fn rule_line(alloc: Global, draft: &mut Draft, words: &[u8]) -> Result<(), Stop>
    ensures { Steps result draft.new (rule_line draft.old (words_of words.now)) }
{
    let (input, rest) = from_interface(words)?;
    let (source, group, rest) = range_of(rest)?;
    let rest = keyword(b"to", rest)?;
    first_of(rest)?;
    let outs = outs_of(alloc, rest)?;
    draft.rules.0.push(Rule {
        input: name_of(input),
        source,
        group,
        outs,
    })?;
    Ok(())
}
