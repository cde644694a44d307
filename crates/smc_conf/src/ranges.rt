//! Sources and groups: `[source A[/LEN]] group G[/LEN]`, in either order.

ghost use Rattle.std.specs.Prelude.{◌≡◌, codes};
ghost use Rattle.mr_words.specs.Words.{words_of};
ghost use Rattle.smc_conf.specs.Answers.{Gives};
ghost use Rattle.smc_conf.specs.Ranges.{source_first, source_behind, group_first, range_of};

use crate::conf::Prefix;
use crate::forms::{first_of, group_word, keyword, source_word};
use crate::stop::Kind;
use mr_base::Addr;
use mr_words::next_word;

/// Any source.
const ANY: Prefix = Prefix {
    addr: Addr(0),
    len: 0,
};

/// Behind `source`: its prefix, and the group.
fn source_first(words: &[u8]) -> Result<(Prefix, Prefix, &[u8]), Kind>
    ensures { Gives (λ x. (x.0, x.1, words_of x.2.now)) result
        (source_first (words_of words.now)) }
{
    let (source, rest) = first_of(words)?;
    let source = source_word(source)?;
    let rest = keyword(b"group", rest)?;
    let (group, rest) = first_of(rest)?;
    let group = group_word(group)?;
    Ok((source, group, rest))
}

/// Behind a group: perhaps its source.
fn source_behind(group: Prefix, words: &[u8]) -> Result<(Prefix, Prefix, &[u8]), Kind>
    ensures { Gives (λ x. (x.0, x.1, words_of x.2.now)) result
        (source_behind group (words_of words.now)) }
{
    match next_word(words) {
        Some((word, rest)) if word == b"source".as_slice() => {
            let (source, rest) = first_of(rest)?;
            let source = source_word(source)?;
            Ok((source, group, rest))
        }
        _ => Ok((ANY, group, words)),
    }
}

/// Behind `group`: its prefix, and perhaps the source.
fn group_first(words: &[u8]) -> Result<(Prefix, Prefix, &[u8]), Kind>
    ensures { Gives (λ x. (x.0, x.1, words_of x.2.now)) result
        (group_first (words_of words.now)) }
{
    let (group, rest) = first_of(words)?;
    let group = group_word(group)?;
    source_behind(group, rest)
}

/// The source and the group with which words begin, and what stands behind them.
pub fn range_of(words: &[u8]) -> Result<(Prefix, Prefix, &[u8]), Kind>
    ensures { Gives (λ x. (x.0, x.1, words_of x.2.now)) result
        (range_of (words_of words.now)) }
{
    let (word, rest) = first_of(words)?;
    if word == b"source".as_slice() {
        source_first(rest)
    } else if word == b"group".as_slice() {
        group_first(rest)
    } else {
        Err(Kind::Word)
    }
}
