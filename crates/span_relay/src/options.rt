//! The words of the relay.
ghost use Rattle.std.specs.Prelude.{ℕ, ◌≡◌, ◌↔◌, Some, IsTrue};
ghost use Rattle.span_notes.specs.Pairs.{texts};
ghost use Rattle.span_relay.specs.RelayWords.{CanRelay, IsPeerWord, SpellsOptions};
ghost use Rattle.span_relay.specs.declared.options.Options.{Options};

use http_conn::is_address;
use span_io::Form;
use span_notes::{count_at, form_at, word_place};

/// The most connections that a relay is asked for.
const MOST: u32 = 1_000_000;

/// What the relay is asked for: to listen at the address that is the word at one place, to keep bodies in the form, to
/// send them on to the peer that is the word at the other place, and so for so many connections.
#[derive(Clone, Copy, PartialEq, Eq)]
pub struct Options {
    pub address: usize,
    pub to: Form,
    pub peer: usize,
    pub count: u32,
}

/// Reads the words after the program's name: each option once, in any order, with nothing else.
pub fn read_options(words: &[String]) -> Option<Options>
    ensures { (options : Options)
        → (result ≡ Some options) ↔ SpellsOptions options (texts words.now) }
{
    if words.len() != 8 {
        return None;
    }
    let address = word_place(words, 0, b"--listen")?;
    let to = form_at(words, 0, b"--to")?;
    let peer = word_place(words, 0, b"--peer")?;
    let count = count_at(words, 0, b"--count")?;
    if !can_relay(to, count, words[peer].as_str()) {
        return None;
    }
    Some(Options {
        address,
        to,
        peer,
        count,
    })
}

// Whether so many connections are relayed in this form to this peer.
fn can_relay(to: Form, count: u32, peer: &str) -> bool
    ensures { IsTrue result ↔ CanRelay to count peer.now }
{
    to != Form::JaegerCompact && count <= MOST && is_peer(peer)
}

// Whether a word is the address of a peer.
fn is_peer(word: &str) -> bool
    ensures { IsTrue result ↔ IsPeerWord word.now }
{
    match word.len() {
        1..=255 => is_address(word.as_bytes()),
        _ => false,
    }
}
