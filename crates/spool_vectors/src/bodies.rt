//! Bodies of each length, long ones, and as many as there may be room for.
use span_io::{Form, Items};
use span_spool::{KeepFault, Keeper, MemKeeper, SqlKeeper};
use std::alloc::{AllocError, Global};
use std::test::Fail;

// So many bytes, in which every byte comes behind the one before it.
fn counting(alloc: Global, length: usize) -> Result<Vec<u8>, AllocError> {
    let mut bytes = Vec::new(alloc);
    for place in 0..length {
        bytes.push((place % 256) as u8)?;
    }
    Ok(bytes)
}

// Whether the first row has this number and this body, and leaves.
fn leaves<K: Keeper>(keeper: &mut K, number: u64, body: &[u8]) -> bool {
    let Ok(Some(row)) = keeper.first() else {
        return false;
    };
    row.number == number && row.body.as_slice() == body && keeper.drop_first(number) == Ok(true)
}

// Whether a body is kept as it is.
fn keeps<K: Keeper>(keeper: &mut K, body: &[u8]) -> bool {
    let Ok(number) = keeper.keep(Form::OtlpProto, body) else {
        return false;
    };
    leaves(keeper, number, body)
}

// Whether each front of some bytes is kept as it is.
fn keeps_fronts<K: Keeper>(keeper: &mut K, bytes: &[u8]) -> bool {
    for length in 0..=bytes.len() {
        if !keeps(keeper, &bytes[..length]) {
            return false;
        }
    }
    true
}

// Whether bodies are kept until so many are, and then after one leaves one more.
fn has_room<K: Keeper>(keeper: &mut K, room: u64) -> bool {
    for _ in 0..room {
        if keeper.keep(Form::ZipkinJson, b"[]").is_err() {
            return false;
        }
    }
    is_full(keeper, room) && leaves(keeper, 1, b"[]") && goes_on(keeper, room)
}

fn is_full<K: Keeper>(keeper: &mut K, room: u64) -> bool {
    keeper.size() == room && keeper.keep(Form::ZipkinJson, b"[]") == Err(KeepFault::Full)
}

fn goes_on<K: Keeper>(keeper: &mut K, room: u64) -> bool {
    let number = room.checked_add(1);
    keeper.keep(Form::ZipkinJson, b"[]").ok() == number && is_full(keeper, room)
}

#[test]
fn keeps_each_length(rt: HostRuntime) -> Result<(), Fail> {
    let bytes = counting(rt.alloc(), 5_120)?;
    let mut memory = MemKeeper::new(rt.alloc(), 1, Items::new(rt.alloc()));
    assert!(rt; keeps_fronts(&mut memory, bytes.as_slice()));
    let mut table = SqlKeeper::new(rt.alloc(), 1);
    assert!(rt; keeps_fronts(&mut table, bytes.as_slice()));
    Ok(())
}

#[test]
fn keeps_16_mebibytes(rt: HostRuntime) -> Result<(), Fail> {
    let bytes = counting(rt.alloc(), 16_777_216)?;
    let mut memory = MemKeeper::new(rt.alloc(), 1, Items::new(rt.alloc()));
    assert!(rt; keeps(&mut memory, bytes.as_slice()));
    let mut table = SqlKeeper::new(rt.alloc(), 1);
    assert!(rt; keeps(&mut table, bytes.as_slice()));
    Ok(())
}

#[test]
fn has_room_for_a_million_in_memory(rt: HostRuntime) {
    let mut keeper = MemKeeper::new(rt.alloc(), 1_000_000, Items::new(rt.alloc()));
    assert!(rt; has_room(&mut keeper, 1_000_000));
}

#[test]
fn has_room_for_a_million_in_a_table(rt: HostRuntime) {
    let mut keeper = SqlKeeper::new(rt.alloc(), 1_000_000);
    assert!(rt; has_room(&mut keeper, 1_000_000));
}
