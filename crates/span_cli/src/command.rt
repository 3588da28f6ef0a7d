//! The words of the command line.
ghost use Rattle.std.specs.Prelude.{◌≡◌, ◌↔◌, ◌∷◌, [], ℕ, Some};
ghost use Rattle.span_cli.specs.Commands.{texts, Spells, side_word, long_word};
ghost use Rattle.span_cli.specs.private.Words.{GoesBetween, ShowsForm, ChecksForm, WritesHeaders, WritesSizes, TellsSpans, other_side, short_word, short_option};
ghost use Rattle.span_cli.specs.declared.command.Command.{Command};
ghost use Rattle.span_cli.specs.declared.command.Long.{Long};
ghost use Rattle.span_cli.specs.declared.command.Short.{Short};
ghost use Rattle.span_cli.specs.declared.command.Side.{Side};

use crate::serve_words::serve_of;
use propagation::HeaderForm;
use span_io::Form;
use span_notes::decimal_of;

/// The most spans that a gauge is asked for.
const MOST_SPANS: u32 = 1_000_000;

/// What a run is asked to do.
#[derive(Clone, Copy, PartialEq, Eq)]
pub enum Command {
    /// Reads spans in the first form and writes them in the second.
    Convert(Form, Form),
    /// Reads spans in the first form and writes a line for each thing that a move to the second loses.
    Losses(Form, Form),
    /// Reads spans in the form and writes a line for each.
    Show(Form),
    /// Reads spans in the form and writes a line for each remark on what was read.
    Check(Form),
    /// Reads header lines and writes their context in this form.
    Headers(HeaderForm),
    /// Reads nothing and writes how many bytes the gauge of so many spans has in each form.
    Gauge(u32),
    /// Serves so many connections at the address that is the word at this place, and answers in the form.
    Serve {
        address: usize,
        to: Form,
        count: u32,
    },
}

/// Which form an option is of.
#[derive(Clone, Copy, PartialEq, Eq)]
enum Side {
    From,
    To,
}

/// The modes with two options.
#[derive(Clone, Copy, PartialEq, Eq)]
enum Long {
    Convert,
    Losses,
}

/// The modes with one option.
#[derive(Clone, Copy, Debug, PartialEq, Eq)]
enum Short {
    Show,
    Check,
    Headers,
    Gauge,
}

/// Reads the words after the program's name: the mode, and then each of its options once, in any
/// order, with nothing else.
pub fn read_words(words: &[String]) -> Option<Command>
    ensures { (command : Command) → (result ≡ Some command) ↔ Spells command (texts words.now) }
{
    match words {
        [mode, option, word] => { one_option(mode.as_bytes(), option.as_bytes(), word.as_str()) }
        [mode, first, first_word, second, second_word] => command_of(
            mode.as_bytes(),
            first.as_bytes(),
            first_word.as_bytes(),
            second.as_bytes(),
            second_word.as_bytes(),
        ),
        [_, _, _, _, _, _, _] => serve_of(words),
        _ => None,
    }
}

// The command that a mode and one option with its word spell.
fn one_option(mode: &[u8], option: &[u8], word: &str) -> Option<Command>
    ensures { (command : Command)
        → (result ≡ Some command) ↔ Spells command (mode.now ∷ option.now ∷ word.now ∷ []) }
{
    let bytes = word.as_bytes();
    match short_mode(mode, option)? {
        Short::Show => show(bytes),
        Short::Check => check(bytes),
        Short::Headers => headers(bytes),
        Short::Gauge => gauge(word),
    }
}

// The mode that two words are, and its option.
fn short_mode(mode: &[u8], option: &[u8]) -> Option<Short>
    ensures { (short : Short) → (result ≡ Some short)
        ↔ ((mode.now ≡ short_word short) × (option.now ≡ short_option short)) }
{
    match (mode, option) {
        (b"show", b"--from") => Some(Short::Show),
        (b"check", b"--from") => Some(Short::Check),
        (b"headers", b"--to") => Some(Short::Headers),
        (b"gauge", b"--spans") => Some(Short::Gauge),
        _ => None,
    }
}

// The command that shows the form that a word names.
fn show(source: &[u8]) -> Option<Command>
    ensures { (command : Command) → (result ≡ Some command) ↔ ShowsForm command source.now }
{
    let source = Form::of_word(source)?;
    Some(Command::Show(source))
}

// The command that checks the form that a word names.
fn check(source: &[u8]) -> Option<Command>
    ensures { (command : Command) → (result ≡ Some command) ↔ ChecksForm command source.now }
{
    let source = Form::of_word(source)?;
    Some(Command::Check(source))
}

// The command that writes headers in the form that a word names.
fn headers(target: &[u8]) -> Option<Command>
    ensures { (command : Command) → (result ≡ Some command) ↔ WritesHeaders command target.now }
{
    let target = HeaderForm::of_word(target)?;
    Some(Command::Headers(target))
}

// The command that writes the sizes of the gauge of as many spans as a word tells.
fn gauge(spans: &str) -> Option<Command>
    ensures { (command : Command) → (result ≡ Some command) ↔ WritesSizes command spans.now }
{
    let spans = spans_told(spans)?;
    Some(Command::Gauge(spans))
}

// The number of spans that a word tells.
fn spans_told(word: &str) -> Option<u32>
    ensures { (spans : ℕ) → (result ≡ Some spans) ↔ TellsSpans word.now spans }
{
    let spans = decimal_of(word)?;
    if spans == 0 || spans > MOST_SPANS {
        return None;
    }
    Some(spans)
}

// The command that a mode and two options with their words spell.
fn command_of(
    mode: &[u8],
    first: &[u8],
    first_word: &[u8],
    second: &[u8],
    second_word: &[u8],
) -> Option<Command>
    ensures { (command : Command) → (result ≡ Some command)
        ↔ Spells command
        (mode.now ∷ first.now ∷ first_word.now ∷ second.now ∷ second_word.now ∷ []) }
{
    let long = long_mode(mode)?;
    match first_side(first, second)? {
        Side::From => between(long, first_word, second_word),
        Side::To => between(long, second_word, first_word),
    }
}

// The mode with two options that a word is.
fn long_mode(mode: &[u8]) -> Option<Long>
    ensures { (long : Long) → (result ≡ Some long) ↔ (mode.now ≡ long_word long) }
{
    match mode {
        b"convert" => Some(Long::Convert),
        b"losses" => Some(Long::Losses),
        _ => None,
    }
}

// The side that the first of two options is of, where the second is of the other.
fn first_side(first: &[u8], second: &[u8]) -> Option<Side>
    ensures { (side : Side)
        → (result ≡ Some side)
        ↔ ((first.now ≡ side_word side) × (second.now ≡ side_word (other_side side))) }
{
    match (first, second) {
        (b"--from", b"--to") => Some(Side::From),
        (b"--to", b"--from") => Some(Side::To),
        _ => None,
    }
}

// The command of a mode between the forms that two words name.
fn between(long: Long, source: &[u8], target: &[u8]) -> Option<Command>
    ensures { (command : Command)
        → (result ≡ Some command) ↔ GoesBetween command long source.now target.now }
{
    let source = Form::of_word(source)?;
    let target = Form::of_word(target)?;
    match long {
        Long::Convert => Some(Command::Convert(source, target)),
        Long::Losses => Some(Command::Losses(source, target)),
    }
}
