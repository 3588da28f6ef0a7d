//! Rows of a table, and their parts.
ghost use Rattle.std.specs.Prelude.{◌≡◌, ◌∷◌, [], ◌≤◌, IfOk, OnOk, Some, map, length, false, true};
ghost use Rattle.std.specs.List.{AllPass, find, list_any};
ghost use Rattle.std.specs.Option.{option_copied, option_to_list};
ghost use Rattle.std.specs.Str.{bytes_eq};
ghost use Rattle.std.specs.Str.Parse.{ParsesUnsigned};
ghost use Rattle.row_tables.specs.Parts.{is_newline, parts_of};
ghost use Rattle.row_tables.specs.private.TakenParts.{TakesPart};
ghost use Rattle.row_tables.specs.Rows.{key_of, text_of, name_of, fields_of, pairs_of, told_of, texts_of, rows_of, rows_in, TellsNumber, with_line, with_lines, with_more};

use crate::parts::parted;
use std::alloc::{AllocError, Global};
use std::test::Fail;

/// A key, and the text behind it.
#[derive(Drop)]
pub struct Field {
    key: &'static str,
    text: String,
}

impl Field {
    pub fn key(&self) -> &'static str
        ensures { result.now ≡ key_of self.now }
    {
        self.key
    }

    pub fn text(&self) -> &str
        ensures { result.now ≡ text_of self.now }
    {
        self.text.as_str()
    }
}

/// A row of a table: its name, and its keys and texts in order.
#[derive(Drop)]
pub struct Row {
    name: &'static str,
    fields: Vec<Field>,
}

/// The rows of a table. It fails where a text goes on before there is one.
pub fn rows(alloc: Global, table: &'static str) -> Result<Vec<Row>, Fail>
    ensures { IfOk result (λ rows. map told_of rows.items ≡ rows_of table.now) }
{
    let mut rows = Vec::new(alloc);
    let mut rest = table;
    'rows: while !rest.is_empty() {
        let (name, behind) = first_line(rest);
        rest = behind;
        if name.is_empty() {
            continue;
        }
        let row = Row::read(alloc, name, rest)?;
        rows.push(row).map_err(AllocError::from)?;
        rest = behind_row(rest);
    }
    Ok(rows)
}

/// The row of this name, which is the first where several have it. No other row is read.
pub fn row_named(alloc: Global, table: &'static str, name: &str) -> Result<Row, Fail>
    ensures { IfOk result
        (λ row. find (λ told. bytes_eq told.0 name.now) (rows_of table.now) ≡ Some (told_of row)) }
{
    let mut rest = table;
    'rows: while !rest.is_empty() {
        let (first, behind) = first_line(rest);
        rest = behind;
        if first.is_empty() {
            continue;
        }
        if first == name {
            return Row::read(alloc, first, rest);
        }
        rest = behind_row(rest);
    }
    Err(Fail::new(format_args!("no row {name}")))
}

// The line at the front of a text, which is empty where none is left, and what stands behind it.
fn first_line(text: &'static str) -> (&'static str, &'static str)
    ensures { TakesPart is_newline text.now result.0.now result.1.now }
{
    parted(text, '\n')
}

// What stands behind the lines of a row.
fn behind_row(text: &'static str) -> &'static str
    ensures rows { rows_in true (parts_of is_newline text.now)
        ≡ rows_in false (parts_of is_newline result.now) }
    ensures nearer { length result.now ≤ length text.now }
{
    let mut rest = text;
    'lines: while !rest.is_empty() {
        let (line, behind) = first_line(rest);
        rest = behind;
        if line.is_empty() {
            return rest;
        }
    }
    rest
}

impl Row {
    // Reads the lines behind a name, up to an empty one.
    fn read(alloc: Global, name: &'static str, text: &'static str) -> Result<Row, Fail>
        ensures { IfOk result
            (λ row. told_of row ≡ (name.now, with_lines [] (parts_of is_newline text.now))) }
    {
        let mut row = Row {
            name,
            fields: Vec::new(alloc),
        };
        let mut rest = text;
        'lines: while !rest.is_empty() {
            let (line, behind) = first_line(rest);
            rest = behind;
            if line.is_empty() {
                return Ok(row);
            }
            row.take(alloc, line)?;
        }
        Ok(row)
    }

    // Takes a line behind the name.
    fn take(&mut self, alloc: Global, line: &'static str) -> Result<(), Fail>
        ensures name { name_of self.new ≡ name_of self.old }
        ensures pairs { OnOk result
            (pairs_of (fields_of self.new) ≡ with_line (pairs_of (fields_of self.old)) line.now) }
    {
        let (key, text) = parted(line, ' ');
        if key.is_empty() {
            return self.go_on(text);
        }
        let text = String::from_str(alloc, text)?;
        self.fields
            .push(Field { key, text })
            .map_err(AllocError::from)?;
        Ok(())
    }

    fn go_on(&mut self, more: &str) -> Result<(), Fail>
        ensures name { name_of self.new ≡ name_of self.old }
        ensures pairs { OnOk result
            (pairs_of (fields_of self.new) ≡ with_more (pairs_of (fields_of self.old)) more.now) }
    {
        let Some(mut field) = self.fields.pop() else {
            return Err(self.fail("before any key", more));
        };
        field.text.push_str(more)?;
        self.fields.push(field).map_err(AllocError::from)?;
        Ok(())
    }

    /// What a test fails with that finds this wrong in the row.
    pub fn fail(&self, what: &str, of: &str) -> Fail {
        Fail::new(format_args!("{}: {what}: {of}", self.name))
    }

    pub fn name(&self) -> &'static str
        ensures { result.now ≡ name_of self.now }
    {
        self.name
    }

    /// The keys and their texts, in order.
    pub fn fields(&self) -> &[Field]
        ensures { result.now ≡ fields_of self.now }
    {
        self.fields.as_slice()
    }

    /// Fails where the row has a key that isn't one of these, so that a mistyped key never passes.
    pub fn expect_keys(&self, known: &[&str]) -> Result<(), Fail>
        ensures { OnOk result
            (AllPass (λ field. list_any (λ key. bytes_eq key.now (key_of field)) known.now)
            (fields_of self.now)) }
    {
        for field in &self.fields {
            if !known.contains(&field.key) {
                return Err(self.fail("unknown key", field.key));
            }
        }
        Ok(())
    }

    /// The text of a key that stands once, or none where it doesn't stand.
    pub fn text_if_any(&self, key: &str) -> Result<Option<&str>, Fail>
        ensures { IfOk result
            (λ text. texts_of key.now self.now ≡ option_to_list (option_copied text)) }
    {
        let mut found = None;
        for field in &self.fields {
            if field.key != key {
                continue;
            }
            if found.is_some() {
                return Err(self.fail("stands twice", key));
            }
            found = Some(field.text.as_str());
        }
        Ok(found)
    }

    /// The text of a key that stands once.
    pub fn text(&self, key: &str) -> Result<&str, Fail>
        ensures { IfOk result (λ text. texts_of key.now self.now ≡ text.now ∷ []) }
    {
        match self.text_if_any(key)? {
            Some(text) => Ok(text),
            None => Err(self.fail("missing", key)),
        }
    }

    /// The number that a text of the row is.
    pub fn number_in(&self, text: &str) -> Result<u64, Fail>
        ensures { ParsesUnsigned 64 10 text.now result }
    {
        match text.parse::<u64>() {
            Ok(number) => Ok(number),
            Err(_) => Err(self.fail("no number", text)),
        }
    }

    /// The number that stands once behind a key, or none where the key doesn't stand.
    pub fn number_if_any(&self, key: &str) -> Result<Option<u64>, Fail>
        ensures { IfOk result (λ number. TellsNumber (texts_of key.now self.now) number) }
    {
        match self.text_if_any(key)? {
            Some(text) => Ok(Some(self.number_in(text)?)),
            None => Ok(None),
        }
    }

    /// The number that stands once behind a key.
    pub fn number(&self, key: &str) -> Result<u64, Fail>
        ensures { IfOk result (λ number. TellsNumber (texts_of key.now self.now) (Some number)) }
    {
        self.number_in(self.text(key)?)
    }

    /// The same for a number of things in memory.
    pub fn count_in(&self, text: &str) -> Result<usize, Fail>
        ensures { ParsesUnsigned 64 10 text.now result }
    {
        match text.parse::<usize>() {
            Ok(count) => Ok(count),
            Err(_) => Err(self.fail("no number", text)),
        }
    }

    pub fn count(&self, key: &str) -> Result<usize, Fail>
        ensures { IfOk result (λ count. TellsNumber (texts_of key.now self.now) (Some count)) }
    {
        self.count_in(self.text(key)?)
    }
}
