//! Texts: bytes in UTF-8 that a value holds.
ghost use Rattle.std.specs.Prelude.{◌≡◌, ◌<◌, [], ◌++◌, length, IfOk, MatchResult, OnOk, OnErr, IsUtf8, string_bytes};
ghost use Rattle.span_io.specs.Sizes.{IsShort, longest};

use crate::halt::OutOfMemory;
use crate::items::LONGEST;
use arrayvec::ArrayString;
use std::alloc::Global;
use std::marker::Model;

/// A text of so many bytes, or fewer, needs no memory of its own.
const SHORT: usize = 24;

/// Where the bytes of a text are kept.
#[derive(Debug, Drop)]
enum Kept {
    /// In the value itself.
    Short(ArrayString<SHORT>, Global),
    Long(String),
}

/// A growing text in UTF-8 of at most `LONGEST` bytes, which contracts see as the list of its bytes.
/// Most names, keys and values of attributes are short: they are kept in the value itself.
#[derive(Debug, Drop)]
pub struct Text {
    kept: Kept,
}

impl Model for Text {
    ghost use Rattle.std.specs.Prelude.{ℕ, List};
    ghost use Rattle.std.specs.Coded.{coded_ℕ, coded_list};
    ghost use Rattle.span_io.specs.Sizes.{IsShort, longest};
    ghost use Rattle.span_io.specs.Texts.{kept_bytes};

    ghost Value = { List ℕ };

    ghost coded = { coded_list coded_ℕ };

    ghost view = { λ t. kept_bytes t.kept };

    ghost invariant = { λ t. IsShort (kept_bytes t.kept) };
}

// Two texts, one behind the other, in memory of their own.
fn joined(alloc: Global, front: &str, back: &str) -> Result<String, OutOfMemory>
    ensures { IfOk result (λ text. string_bytes text ≡ front.now ++ back.now) }
{
    let mut text = String::with_capacity(alloc, front.len().saturating_add(back.len()))?;
    text.push_str(front)?;
    text.push_str(back)?;
    Ok(text)
}

impl Text {
    pub fn new(alloc: Global) -> Text
        ensures { result ≡ [] }
    {
        Text {
            kept: Kept::Short(ArrayString::new(), alloc),
        }
    }

    /// The same text, in memory of its own where it is long.
    pub fn of(alloc: Global, piece: &str) -> Result<Text, OutOfMemory>
        ensures { IfOk result (λ text. text ≡ piece.now) }
    {
        if piece.len() > LONGEST {
            return Err(OutOfMemory);
        }
        let kept = match ArrayString::from(piece) {
            Ok(text) => Kept::Short(text, alloc),
            Err(_) => Kept::Long(String::from_str(alloc, piece)?),
        };
        Ok(Text { kept })
    }

    /// The text of a string, which is taken over. One too long counts as want of memory.
    pub fn from_string(text: String) -> Result<Text, OutOfMemory>
        ensures { MatchResult result (λ held. held ≡ string_bytes text)
            (λ _. longest < length (string_bytes text)) }
    {
        if text.len() > LONGEST {
            return Err(OutOfMemory);
        }
        Ok(Text {
            kept: Kept::Long(text),
        })
    }

    /// The number of bytes.
    pub fn len(&self) -> usize
        ensures count { result ≡ length self.now }
        ensures short { IsShort self.now }
    {
        // its invariant is known where a field is used
        let _ = &self.kept;
        self.as_str().len()
    }

    pub fn copy(&self) -> Result<Text, OutOfMemory>
        ensures { IfOk result (λ copy. copy ≡ self.now) }
    {
        let kept = match &self.kept {
            Kept::Short(text, alloc) => Kept::Short(*text, *alloc),
            Kept::Long(text) => Kept::Long(text.clone()?),
        };
        Ok(Text { kept })
    }

    pub fn as_str(&self) -> &str
        ensures value { result.now ≡ self.now }
        ensures utf8 { IsUtf8 self.now }
    {
        match &self.kept {
            Kept::Short(text, _) => text.as_str(),
            Kept::Long(text) => text.as_str(),
        }
    }

    /// Adds a text at the end, at amortised cost.
    pub fn append(&mut self, piece: &str) -> Result<(), OutOfMemory>
        ensures ok { OnOk result (self.new ≡ self.old ++ piece.now) }
        ensures err { OnErr result (self.new ≡ self.old) }
    {
        if piece.len() > LONGEST - self.len() {
            return Err(OutOfMemory);
        }
        let long = match &mut self.kept {
            Kept::Long(text) => {
                text.push_str(piece)?;
                return Ok(());
            }
            Kept::Short(text, alloc) => {
                if text.try_push_str(piece).is_ok() {
                    return Ok(());
                }
                joined(*alloc, text.as_str(), piece)?
            }
        };
        self.kept = Kept::Long(long);
        Ok(())
    }
}
