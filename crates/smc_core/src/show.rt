//! `show`, `show routes`, `show groups` and `show interfaces`.

ghost use Rattle.std.specs.Prelude.{◌≡◌, IfOk};
ghost use Rattle.smc_core.specs.Answers.{Steps, Makes};
ghost use Rattle.smc_core.specs.Showing.{routes_text, groups_text, interfaces_text};
ghost use Rattle.smc_core.specs.Showing.{shown, show_text};
ghost use Rattle.smc_core.specs.Smc.{show};
ghost use Rattle.smc_words.specs.Words.{command_words};

use crate::input::Output;
use crate::mistake::Mistake;
use crate::ranges::nothing_behind;
use crate::showing::{write_groups, write_interfaces, write_learned, write_routes};
use crate::smc::Smc;
use crate::stop::Stop;
use smc_words::next_word;
use std::alloc::AllocError;

impl Smc {
    /// `show`, `show routes`, `show groups` and `show interfaces`.
    pub(crate) fn show(&mut self, words: &[u8]) -> Result<Output, Stop>
        ensures { Steps result self.old self.new (show self.old (command_words words.now)) }
    {
        let text = self.show_text(words)?;
        Ok(Output {
            requests: Vec::new(self.alloc),
            text,
        })
    }

    fn show_text(&self, words: &[u8]) -> Result<Vec<u8>, Stop>
        ensures { Makes (λ v. v.items) result (show_text self.now (command_words words.now)) }
    {
        let Some((word, rest)) = next_word(words) else {
            return Ok(self.routes_text()?);
        };
        nothing_behind(rest)?;
        self.shown(word)
    }

    fn shown(&self, word: &[u8]) -> Result<Vec<u8>, Stop>
        ensures { Makes (λ v. v.items) result (shown self.now word.now) }
    {
        if word == b"routes".as_slice() {
            Ok(self.routes_text()?)
        } else if word == b"groups".as_slice() {
            Ok(self.groups_text()?)
        } else if word == b"interfaces".as_slice() {
            Ok(self.interfaces_text()?)
        } else {
            Err(Stop::Bad(Mistake::Usage))
        }
    }

    fn routes_text(&self) -> Result<Vec<u8>, AllocError>
        ensures { IfOk result (λ v. v.items ≡ routes_text self.now) }
    {
        let mut text = Vec::new(self.alloc);
        write_routes(&mut text, self.settings.rules())?;
        let interfaces = self.settings.interfaces();
        write_learned(&mut text, interfaces, self.learned.0.as_slice())?;
        text.extend_from_slice(b"ok\n")?;
        Ok(text)
    }

    fn groups_text(&self) -> Result<Vec<u8>, AllocError>
        ensures { IfOk result (λ v. v.items ≡ groups_text self.now) }
    {
        let mut text = Vec::new(self.alloc);
        write_groups(&mut text, self.settings.groups())?;
        text.extend_from_slice(b"ok\n")?;
        Ok(text)
    }

    fn interfaces_text(&self) -> Result<Vec<u8>, AllocError>
        ensures { IfOk result (λ v. v.items ≡ interfaces_text self.now) }
    {
        let mut text = Vec::new(self.alloc);
        write_interfaces(&mut text, self.settings.interfaces())?;
        text.extend_from_slice(b"ok\n")?;
        Ok(text)
    }
}
