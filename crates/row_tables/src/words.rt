//! The words of a row.
ghost use Rattle.std.specs.Prelude.{◌≡◌, IfOk};
ghost use Rattle.std.specs.List.{before_first, after_first};
ghost use Rattle.row_tables.specs.Parts.{is_blank};
ghost use Rattle.row_tables.specs.Words.{StandsRound, arrow, without_blank, words_left};

use crate::parts::parted;
use std::test::Fail;

/// Words of a text, parted by one blank each.
#[derive(Drop)]
pub struct Words<'a> {
    rest: &'a str,
}

impl<'a> Words<'a> {
    pub fn of(text: &'a str) -> Words<'a>
        ensures { words_left result ≡ text.now }
    {
        Words { rest: text }
    }

    /// The next word, which is empty behind the last.
    pub fn word(&mut self) -> &'a str
        ensures word { result.now ≡ before_first is_blank (words_left self.old) }
        ensures rest { words_left self.new ≡ after_first is_blank (words_left self.old) }
    {
        let (word, rest) = parted(self.rest, ' ');
        self.rest = rest;
        word
    }

    /// What stands behind the words so far, as one text.
    pub fn rest(&self) -> &'a str
        ensures { result.now ≡ words_left self.now }
    {
        self.rest
    }
}

/// Of a row that is one line what stands in front of ` =>` and what stands behind, without a blank between.
pub fn sides(row: &str) -> Result<(&str, &str), Fail>
    ensures { IfOk result (λ sides. StandsRound arrow sides.0.now sides.1.now row.now) }
{
    let Some((given, behind)) = row.split_once(" =>") else {
        return Err(Fail::new(format_args!("{row}: one side alone")));
    };
    Ok((given, without_blank(behind)))
}

// A text without the blank at its front, if it has one.
fn without_blank(text: &str) -> &str
    ensures { result.now ≡ without_blank text.now }
{
    let (front, behind) = parted(text, ' ');
    if front.is_empty() {
        return behind;
    }
    text
}
