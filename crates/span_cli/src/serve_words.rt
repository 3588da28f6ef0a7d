//! The words of `serve`.
ghost use Rattle.std.specs.Prelude.{◌≡◌, ◌↔◌, length, Some};
ghost use Rattle.span_cli.specs.Commands.{texts, Spells};
ghost use Rattle.span_cli.specs.declared.command.Command.{Command};

use crate::command::Command;
use span_notes::{count_at, form_at, is_at, word_place};

/// Reads seven words: the mode, and then each of its three options once, in any order.
pub(crate) fn serve_of(words: &[String]) -> Option<Command>
    requires { length words.now ≡ 7 }
    ensures { (command : Command) → (result ≡ Some command) ↔ Spells command (texts words.now) }
{
    if !is_at(words, 0, b"serve") {
        return None;
    }
    let address = word_place(words, 1, b"--listen")?;
    let to = form_at(words, 1, b"--to")?;
    let count = count_at(words, 1, b"--count")?;
    Some(Command::Serve { address, to, count })
}
