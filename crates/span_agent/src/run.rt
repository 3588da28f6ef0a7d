//! The run of the agent.
ghost use Rattle.std.specs.Prelude.{ℕ, List, ◌≡◌, ◌↔◌, ◌≤◌, ◌++◌, length, codes, decimal, Err, IfOk, OnErr, OnOk};
ghost use Rattle.span_notes.specs.Notes.{Notes, NotesMore};
ghost use Rattle.span_notes.specs.Pairs.{texts};
ghost use Rattle.span_agent.specs.AgentRuns.{ReceivesAt, ReceivesDatagrams, bad_text, end_line, end_status, usage_line};
ghost use Rattle.span_agent.specs.AgentWords.{OnOptions, SpellsOptions};
ghost use Rattle.span_agent.specs.Posts.{NoPostCallInVain, PostListens, most_bytes};
ghost use Rattle.span_agent.specs.private.AgentSteps.{HandsOn, ReceivesEach};
ghost use Rattle.span_agent.specs.declared.options.Options.{Options};

use crate::lines::bad_line;
use crate::options::read_options;
use crate::piece::{AgentBad, convert_datagram};
use crate::post::Post;
use span_io::laws::gains_then;
use span_io::{Failed, Form, Halt, Limits, OutOfMemory, Sink, write_all};
use span_notes::{note_line, note_more};
use std::alloc::Global;

/// How receiving ends.
#[derive(Clone, Copy, PartialEq, Eq)]
pub(crate) enum AgentEnd {
    /// As many datagrams as were asked for were received.
    AllReceived,
    /// The post gave no datagram, or didn't listen.
    PostFailed,
    /// The output didn't take a piece.
    OutputFailed,
    /// No memory was found.
    NoMemory,
}

impl AgentEnd {
    // The exit status.
    fn status(self) -> u8
        ensures { result ≡ end_status self }
    {
        match self {
            AgentEnd::AllReceived => 0,
            AgentEnd::PostFailed => 5,
            AgentEnd::OutputFailed => 6,
            AgentEnd::NoMemory => 7,
        }
    }

    // Its line on the notes.
    fn line(self) -> &'static [u8]
        ensures { result.now ≡ end_line self }
    {
        match self {
            AgentEnd::AllReceived => b"",
            AgentEnd::PostFailed => b"post failed\n",
            AgentEnd::OutputFailed => b"output failed\n",
            AgentEnd::NoMemory => b"out of memory\n",
        }
    }
}

/// Runs the agent that the words after the program's name ask for: it receives so many datagrams at the address,
/// writes the piece of each good one to the output before the next one is received, and notes each bad one.
/// The answer is the exit status: 0 all were received, 2 the words ask for nothing, 5 the post failed before, 6 the
/// output failed, 7 no memory was found. What the notes refuse changes nothing.
pub fn agent_run<P: Post, K: Sink, N: Sink>(
    alloc: Global,
    words: &[String],
    post: &mut P,
    output: &mut K,
    notes: &mut N,
) -> u8
    // Other words are answered at once: nothing is received, and nothing written but a note.
    ensures usage { (result ≡ 2)
        ↔ ((options : Options) → ¬ SpellsOptions options (texts words.now)) }
    ensures untouched { result ≡ 2 → (post.new ≡ post.old) × (output.new ≡ output.old) }
    ensures usage_noted { result ≡ 2 → Notes (N.outlet notes.old) (N.outlet notes.new) usage_line }

    // Datagrams are received at the address of the words, and these are converted and written, one after the other.
    ensures receives { OnOptions (texts words.now)
        (λ address to count. ReceivesDatagrams address to count result
        (P.mailbox post.old) (P.mailbox post.new) (K.outlet output.old) (K.outlet output.new)
        (N.outlet notes.old) (N.outlet notes.new)) }

    // No call of the post comes behind a failed one, and it is asked to listen once.
    ensures post_in_vain { NoPostCallInVain (P.mailbox post.old) (P.mailbox post.new) }
{
    match read_options(words) {
        Some(options) => receive(
            alloc,
            words[options.address].as_str(),
            options.to,
            options.count,
            post,
            output,
            notes,
        ),
        None => {
            note_line(notes, b"usage: spanx_agent OPTIONS\n");
            2
        }
    }
}

// Receives so many datagrams at this address, and notes how that ended.
fn receive<P: Post, K: Sink, N: Sink>(
    alloc: Global,
    address: &str,
    to: Form,
    count: u32,
    post: &mut P,
    output: &mut K,
    notes: &mut N,
) -> u8
    requires { 1 ≤ count }
    ensures { ReceivesDatagrams address.now to count result (P.mailbox post.old)
        (P.mailbox post.new)
        (K.outlet output.old) (K.outlet output.new) (N.outlet notes.old) (N.outlet notes.new) }
{
    gains_then();
    let mut holds = true;
    let end = receive_at(alloc, address, to, count, post, output, notes, &mut holds);
    note_more(notes, holds, &[end.line()]);
    end.status()
}

// A buffer for one datagram.
fn buffer(alloc: Global) -> Result<Vec<u8>, OutOfMemory>
    ensures { IfOk result (λ buf. length buf.items ≡ most_bytes) }
{
    Ok(vec![in alloc; 0; 65_535]?)
}

// Listens, and receives.
fn receive_at<P: Post, K: Sink, N: Sink>(
    alloc: Global,
    address: &str,
    to: Form,
    count: u32,
    post: &mut P,
    output: &mut K,
    notes: &mut N,
    holds: &mut bool,
) -> AgentEnd
    requires { 1 ≤ count }
    ensures { (lines : List ℕ)
        × ReceivesAt address.now to count result (P.mailbox post.old) (P.mailbox post.new)
        (K.outlet output.old) (K.outlet output.new) lines
        × NotesMore holds.old holds.new (N.outlet notes.old) (N.outlet notes.new) lines }
{
    gains_then();
    let Ok(mut buf) = buffer(alloc) else {
        return AgentEnd::NoMemory;
    };
    match post.listen(address) {
        Ok(()) => receive_each(alloc, to, count, post, output, notes, holds, &mut buf),
        Err(Failed) => AgentEnd::PostFailed,
    }
}

// Receives so many datagrams, one after the other.
fn receive_each<P: Post, K: Sink, N: Sink>(
    alloc: Global,
    to: Form,
    count: u32,
    post: &mut P,
    output: &mut K,
    notes: &mut N,
    holds: &mut bool,
    buf: &mut [u8],
) -> AgentEnd
    requires listening { PostListens (P.mailbox post.old) }
    requires room { most_bytes ≤ length buf.old }
    ensures { ReceivesEach to count result holds.old holds.new (P.mailbox post.old)
        (P.mailbox post.new)
        (K.outlet output.old) (K.outlet output.new) (N.outlet notes.old) (N.outlet notes.new) }
{
    gains_then();
    'datagrams: for done in 0..count {
        let Ok(size) = post.receive(buf) else {
            return AgentEnd::PostFailed;
        };
        match hand_on(alloc, &buf[..size], to, done + 1, output, notes, holds) {
            Ok(()) => {}
            Err(Halt::Why(Failed)) => return AgentEnd::OutputFailed,
            Err(Halt::OutOfMemory) => return AgentEnd::NoMemory,
        }
    }
    AgentEnd::AllReceived
}

// Writes the piece of a datagram, or notes why it has none.
fn hand_on<K: Sink, N: Sink>(
    alloc: Global,
    datagram: &[u8],
    to: Form,
    number: u32,
    output: &mut K,
    notes: &mut N,
    holds: &mut bool,
) -> Result<(), Halt<Failed>>
    requires small { length datagram.now ≤ most_bytes }
    ensures { HandsOn to number datagram.now result holds.old holds.new (K.outlet output.old)
        (K.outlet output.new)
        (N.outlet notes.old) (N.outlet notes.new) }
{
    gains_then();
    match convert_datagram(alloc, datagram, to, &Limits::shipped()) {
        Ok(piece) => match write_all(output, piece.as_slice()) {
            Ok(()) => Ok(()),
            Err(Failed) => Err(Halt::Why(Failed)),
        },
        Err(Halt::Why(bad)) => note_bad(alloc, number, &bad, notes, holds),
        Err(Halt::OutOfMemory) => Err(Halt::OutOfMemory),
    }
}

// Notes why a datagram has no piece, where no note has failed.
fn note_bad<N: Sink>(
    alloc: Global,
    number: u32,
    bad: &AgentBad,
    notes: &mut N,
    holds: &mut bool,
) -> Result<(), Halt<Failed>>
    ensures ok { OnOk result
        (NotesMore holds.old holds.new (N.outlet notes.old) (N.outlet notes.new)
        (codes "datagram " ++ decimal number ++ bad_text bad.now)) }
    ensures err { OnErr result
        ((result ≡ Err Halt.OutOfMemory) × (holds.new ≡ holds.old) × (notes.new ≡ notes.old)) }
{
    match bad_line(alloc, number, bad) {
        Ok(line) => {
            *holds = note_more(notes, *holds, &[line.as_slice()]);
            Ok(())
        }
        Err(OutOfMemory) => Err(Halt::OutOfMemory),
    }
}
