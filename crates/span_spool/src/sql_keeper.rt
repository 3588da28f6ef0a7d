//! A keeper over a file of SQLite.
ghost use Rattle.std.specs.Prelude.{◌≡◌, ◌≤◌, IfOk};
ghost use Rattle.span_spool.specs.Calls.{DropsFirst, GivesFirst, Halts, Keeps};
ghost use Rattle.span_spool.specs.Spools.{IsSpool, last_number, most_room};
ghost use Rattle.span_spool.specs.SqlKeepers.{fresh_table, spool_of_table};

use crate::keeper::{KeepFault, Keeper, LAST_NUMBER};
use crate::kept::Kept;
use crate::statements::{Refusal, delete, insert, opened, select};
use span_io::Form;
use sqlite::{Connection, MemStore};
use std::alloc::Global;
use std::marker::Model;

/// A keeper whose rows stand in a table of a database in memory, which the first `keep` opens. It doesn't tell its
/// rows: what the table holds is shown by tests. A refused statement, a row that isn't there and a row that no `keep`
/// wrote are failures of it; its count of them stays at the end of 64 bits.
#[derive(Drop)]
pub struct SqlKeeper {
    database: Option<Connection<MemStore>>,
    room: u64,
    held: u64,
    next: u64,
    faults: u64,
    alloc: Global,
}

impl Model for SqlKeeper {
    ghost use Rattle.std.specs.Prelude.{◌≤◌};
    ghost use Rattle.span_spool.specs.Spools.{IsSpool, most_room};
    ghost use Rattle.span_spool.specs.SqlKeepers.{TableState, spool_of_table};

    ghost Value = { TableState };

    ghost view = { λ k. record { room = k.room; held = k.held; next = k.next; faults = k.faults } };

    ghost invariant = { λ k. IsSpool (spool_of_table (record {
      room = k.room;
      held = k.held;
      next = k.next;
      faults = k.faults;
    })) × (k.room ≤ most_room) };
}

impl SqlKeeper {
    /// A keeper with room for so many bodies, which holds none.
    pub fn new(alloc: Global, room: u64) -> SqlKeeper
        requires least { 1 ≤ room }
        requires most { room ≤ most_room }
        ensures { result ≡ fresh_table room }
    {
        SqlKeeper {
            database: None,
            room,
            held: 0,
            next: 1,
            faults: 0,
            alloc,
        }
    }

    // The fault that a refusal is, which is counted where it isn't want of memory.
    fn fault_of(&mut self, refusal: Refusal) -> KeepFault
        ensures halts { Halts (spool_of_table self.old) (spool_of_table self.new) result }
        ensures counted { self.old.faults ≤ self.new.faults }
        ensures sound { IsSpool (spool_of_table self.old) × IsSpool (spool_of_table self.new) }
    {
        match refusal {
            Refusal::OutOfMemory => KeepFault::OutOfMemory,
            Refusal::Refused => {
                self.faults = self.faults.saturating_add(1);
                KeepFault::Failed
            }
        }
    }
}

impl Keeper for SqlKeeper {
    ghost spool = { spool_of_table };

    fn keep(&mut self, form: Form, body: &[u8]) -> Result<u64, KeepFault>
        ensures keeps { Keeps form body.now (spool_of_table self.old)
            (spool_of_table self.new) result }
        ensures counted { (spool_of_table self.old).faults ≤ (spool_of_table self.new).faults }
        ensures sound { IsSpool (spool_of_table self.old) × IsSpool (spool_of_table self.new) }
    {
        if self.held == self.room {
            return Err(KeepFault::Full);
        }
        if self.next == LAST_NUMBER {
            return Err(KeepFault::Spent);
        }
        let number = self.next;
        match write_row(self.alloc, &mut self.database, number, form, body) {
            Ok(()) => {
                self.held += 1;
                self.next += 1;
                Ok(number)
            }
            Err(refusal) => Err(self.fault_of(refusal)),
        }
    }

    fn first(&mut self) -> Result<Option<Kept>, KeepFault>
        ensures gives { GivesFirst (spool_of_table self.old) (spool_of_table self.new) result }
        ensures counted { (spool_of_table self.old).faults ≤ (spool_of_table self.new).faults }
        ensures sound { IsSpool (spool_of_table self.old) × IsSpool (spool_of_table self.new) }
    {
        if self.held == 0 {
            return Ok(None);
        }
        match read_row(&mut self.database, self.next - self.held) {
            Ok(row) => Ok(Some(row)),
            Err(refusal) => Err(self.fault_of(refusal)),
        }
    }

    fn drop_first(&mut self, number: u64) -> Result<bool, KeepFault>
        ensures drops { DropsFirst number (spool_of_table self.old)
            (spool_of_table self.new) result }
        ensures counted { (spool_of_table self.old).faults ≤ (spool_of_table self.new).faults }
        ensures sound { IsSpool (spool_of_table self.old) × IsSpool (spool_of_table self.new) }
    {
        if self.held == 0 || number != self.next - self.held {
            return Ok(false);
        }
        match drop_row(&mut self.database, number) {
            Ok(()) => {
                self.held -= 1;
                Ok(true)
            }
            Err(refusal) => Err(self.fault_of(refusal)),
        }
    }

    fn size(&self) -> u64
        ensures held { result ≡ (spool_of_table self.now).held }
        ensures sound { IsSpool (spool_of_table self.now) }
    {
        self.held
    }
}

// Writes a row of the table, which is made before the first one.
fn write_row(
    alloc: Global,
    place: &mut Option<Connection<MemStore>>,
    number: u64,
    form: Form,
    body: &[u8],
) -> Result<(), Refusal>
    requires { number ≤ last_number }
{
    if place.is_none() {
        *place = Some(opened(alloc)?);
    }
    match place {
        None => Err(Refusal::Refused),
        Some(database) => insert(database, number as i64, number_of(form), body),
    }
}

// Reads the row of a number.
fn read_row(place: &mut Option<Connection<MemStore>>, number: u64) -> Result<Kept, Refusal>
    requires { number ≤ last_number }
    ensures { IfOk result (λ row. row.number ≡ number) }
{
    let Some(database) = place else {
        return Err(Refusal::Refused);
    };
    let (form, body) = select(database, number as i64)?;
    match form_of(form) {
        None => Err(Refusal::Refused),
        Some(form) => Ok(Kept { number, form, body }),
    }
}

// Deletes the row of a number.
fn drop_row(place: &mut Option<Connection<MemStore>>, number: u64) -> Result<(), Refusal>
    requires { number ≤ last_number }
{
    match place {
        None => Err(Refusal::Refused),
        Some(database) => delete(database, number as i64),
    }
}

// The number by which a form stands in a row: its place among the words of the command line.
fn number_of(form: Form) -> i64 {
    match form {
        Form::OtlpProto => 0,
        Form::OtlpJson => 1,
        Form::JaegerBinary => 2,
        Form::JaegerCompact => 3,
        Form::ZipkinJson => 4,
    }
}

// The form that stands in a row by this number.
fn form_of(number: i64) -> Option<Form> {
    match number {
        0 => Some(Form::OtlpProto),
        1 => Some(Form::OtlpJson),
        2 => Some(Form::JaegerBinary),
        3 => Some(Form::JaegerCompact),
        4 => Some(Form::ZipkinJson),
        _ => None,
    }
}
