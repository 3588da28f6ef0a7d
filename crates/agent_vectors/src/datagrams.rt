//! Datagrams that are told in words.
ghost use Rattle.std.specs.Prelude.{◌≤◌, length, IfOk};
ghost use Rattle.span_agent.specs.Posts.{most_bytes};

use row_tables::append_spelled;
use span_io::Blob;
use std::alloc::Global;
use std::test::Fail;

// The word that stands for other words.
fn spelled(word: &str) -> &str {
    match word {
        // the headers of both protocols
        "C" => "82 81 00 09 'emitBatch'",
        "B" => "80010004 00000009 'emitBatch' 00000000",
        // batches of one span: in the compact protocol with the flags 3 and with none, and in the binary one
        "FLAGS" => "1c18017300191c16021600160416001801612506160016000000",
        "PLAIN" => "1c18017300191c16021600160416001801612500160016000000",
        "DOUBLES" => DOUBLES,
        "OWN" => OWN,
        "BATCH" => BATCH,
        _ => word,
    }
}

// with a double in a tag
const DOUBLES: &str =
    "1c18017300191c1602160016041600180161250016001600191c180164150227000000000000f03f000000";

// with a tag of the key that Zipkin's form has itself
const OWN: &str =
    "1c18017300191c1602160016041600180161250016001600191c180c 'zipkin.debug' 15043100 0000";

const BATCH: &str = "
0c0001 0b00010000000173 00 0f00020c00000001 0a00010000000000000001 0a00020000000000000000 0a00030000000000000002
0a00040000000000000000 0b00050000000161 08000700000000 0a00080000000000000000 0a00090000000000000000 00 00
";

// Appends the bytes that a word spells. A number behind a star says how often they stand.
fn append_word(alloc: Global, bytes: &mut Vec<u8>, word: &str) -> Result<(), Fail> {
    let Some((text, times)) = word.split_once('*') else {
        return append_spelled(alloc, bytes, spelled(word));
    };
    let Ok(times) = times.parse::<u32>() else {
        return Err(Fail::new(format_args!("no number: {word}")));
    };
    let mut once = Vec::new(alloc);
    append_spelled(alloc, &mut once, text)?;
    for _time in 0..times {
        bytes.extend_from_slice(once.as_slice())?;
    }
    Ok(())
}

/// The bytes that words spell.
pub fn bytes_of(alloc: Global, text: &str) -> Result<Vec<u8>, Fail> {
    let mut bytes = Vec::new(alloc);
    for word in text.split_ascii_whitespace() {
        append_word(alloc, &mut bytes, word)?;
    }
    Ok(bytes)
}

/// A datagram that words spell.
pub fn datagram_of(alloc: Global, text: &str) -> Result<Blob, Fail>
    ensures { IfOk result (λ datagram. length datagram ≤ most_bytes) }
{
    let bytes = bytes_of(alloc, text)?;
    if bytes.len() > 65_535 {
        return Err(Fail::new("more bytes than a datagram has"));
    }
    Ok(Blob::from_vec(bytes))
}
