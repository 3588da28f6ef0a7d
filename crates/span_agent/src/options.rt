//! The words of the agent.
ghost use Rattle.std.specs.Prelude.{◌≡◌, ◌↔◌, Some};
ghost use Rattle.span_notes.specs.Pairs.{texts};
ghost use Rattle.span_agent.specs.AgentWords.{SpellsOptions};
ghost use Rattle.span_agent.specs.declared.options.Options.{Options};

use span_io::Form;
use span_notes::{count_at, form_at, word_place};

/// What the agent is asked for: to receive so many datagrams at the address that is the word at this place, and to
/// write their batches in the form.
#[derive(Clone, Copy, PartialEq, Eq)]
pub struct Options {
    pub address: usize,
    pub to: Form,
    pub count: u32,
}

/// Reads the words after the program's name: each option once, in any order, with nothing else.
pub fn read_options(words: &[String]) -> Option<Options>
    ensures { (options : Options)
        → (result ≡ Some options) ↔ SpellsOptions options (texts words.now) }
{
    if words.len() != 6 {
        return None;
    }
    let address = word_place(words, 0, b"--listen")?;
    let to = form_at(words, 0, b"--to")?;
    let count = count_at(words, 0, b"--count")?;
    Some(Options { address, to, count })
}
