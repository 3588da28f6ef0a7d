//! The statements by which a table keeps bodies. Each stands in a function by itself and promises nothing: what a
//! database in memory holds is tested.
use span_io::Blob;
use sqlite::{Connection, Error, ErrorCode, MemStore, params};
use std::alloc::{AllocError, Global};

/// Why a statement was refused.
#[derive(Clone, Copy, PartialEq, Eq)]
pub(crate) enum Refusal {
    OutOfMemory,
    Refused,
}

impl From<Error> for Refusal {
    ghost use Rattle.sqlite.specs.declared.error.Error.TheVariants.{SqliteFailure};
    ghost use Rattle.sqlite.specs.declared.error.ErrorCode.TheVariants as failures;
    ghost use Rattle.span_spool.specs.declared.statements.Refusal.TheVariants as refusals;
    ghost use Rattle.std.specs.Prelude.{◌≡◌, ◌↔◌};

    // Memory is wanted where the library wanted it, and only there.
    ghost from_gives = { λ error refusal.
        (refusal ≡ refusals.OutOfMemory) ↔ (error ≡ SqliteFailure failures.OutOfMemory) };

    fn from(error: Error) -> Refusal {
        match error {
            Error::SqliteFailure(ErrorCode::OutOfMemory) => Refusal::OutOfMemory,
            _ => Refusal::Refused,
        }
    }
}

impl From<AllocError> for Refusal {
    ghost use Rattle.span_spool.specs.declared.statements.Refusal.TheVariants as refusals;
    ghost use Rattle.std.specs.Prelude.{◌≡◌};

    ghost from_gives = { λ _ refusal. refusal ≡ refusals.OutOfMemory };

    fn from(_error: AllocError) -> Refusal {
        Refusal::OutOfMemory
    }
}

/// A database in memory, with the table.
pub(crate) fn opened(alloc: Global) -> Result<Connection<MemStore>, Refusal> {
    let mut database = Connection::open_in_memory(alloc)?;
    create(&mut database)?;
    Ok(database)
}

fn create(database: &mut Connection<MemStore>) -> Result<(), Refusal> {
    Ok(database.execute_batch(
        "CREATE TABLE kept (number INTEGER PRIMARY KEY, form INTEGER NOT NULL, body BLOB NOT NULL) STRICT",
    )?)
}

/// Writes a row.
pub(crate) fn insert(
    database: &mut Connection<MemStore>,
    number: i64,
    form: i64,
    body: &[u8],
) -> Result<(), Refusal> {
    let _rows = database.execute(
        "INSERT INTO kept (number, form, body) VALUES (?1, ?2, ?3)",
        params![number, form, body],
    )?;
    Ok(())
}

/// Reads the form and the body of a row.
pub(crate) fn select(
    database: &mut Connection<MemStore>,
    number: i64,
) -> Result<(i64, Blob), Refusal> {
    let row = database.query_row(
        "SELECT form, body FROM kept WHERE number = ?1",
        params![number],
    )?;
    let form: i64 = row.get(0)?;
    let body: Vec<u8> = row.get(1)?;
    Ok((form, Blob::from_vec(body)))
}

/// Deletes a row, which has to be there.
pub(crate) fn delete(database: &mut Connection<MemStore>, number: i64) -> Result<(), Refusal> {
    let rows = database.execute("DELETE FROM kept WHERE number = ?1", params![number])?;
    if rows == 0 {
        return Err(Refusal::Refused);
    }
    Ok(())
}
