//! The message of a datagram.
use crate::datagrams::bytes_of;
use row_tables::{Words, sides};
use span_agent::read_message;
use std::alloc::Global;
use std::process::Abort;
use std::test::Fail;

// A datagram; the protocol of its batch and the batch, or the number and the name of its cause.
const MESSAGES: &str = "
C 1c 1c18017300191c1602160016041600180161250616001600 00 00 00 => compact 1c18017300191c1602160016041600180161250616001600 00 00
82 21 00 09 'emitBatch' 1c 00 00 => compact 00
B 0c0001 00 00 => binary 00
80010001 00000009 'emitBatch' 01020304 0c0001 00 00 => binary 00
82 81 ffffffffffffffffff01 09 'emitBatch' 1c 00 00 => compact 00
82 81 00 8900 'emitBatch' 1c 00 00 => compact 00
C 1c 00 05 02 00 00 => compact 00
C 15 00 0c 02 00 00 => compact 00
C 1c 00 1c 00 00 => compact 00
B 0c0002 00 0c0001 00 00 => binary 00
 => 40 BadMessage
82 => 40 BadMessage
82 81 => 40 BadMessage
82 81 00 => 40 BadMessage
82 81 00 09 'emitBatc' => 40 BadMessage
82 41 00 00 => 40 BadMessage
82 01 00 09 'emitBatch' 1c 00 00 => 40 BadMessage
82 41 00 09 'emitBatch' 1c 00 00 => 40 BadMessage
82 61 00 09 'emitBatch' 1c 00 00 => 40 BadMessage
82 82 00 09 'emitBatch' 1c 00 00 => 40 BadMessage
82 81 ffffffffffffffffff02 09 'emitBatch' 1c 00 00 => 40 BadMessage
82 81 00 ffffffff07 'emitBatch' => 40 BadMessage
82 81 00 ffffffffffffffffff01 'emitBatch' => 40 BadMessage
80010002 00000009 'emitBatch' 00000000 0c0001 00 00 => 40 BadMessage
80010003 00000009 'emitBatch' 00000000 0c0001 00 00 => 40 BadMessage
80020004 00000009 'emitBatch' 00000000 0c0001 00 00 => 40 BadMessage
80010104 00000009 'emitBatch' 00000000 0c0001 00 00 => 40 BadMessage
80010004 7fffffff 'emitBatch' 00000000 0c0001 00 00 => 40 BadMessage
80010004 ffffffff 'emitBatch' 00000000 0c0001 00 00 => 40 BadMessage
80010004 00000009 'emitBatch' 000000 => 40 BadMessage
00000009 'emitBatch' 04 00000000 0c0001 00 00 => 40 BadMessage
82 81 00 00 => 41 BadName
82 81 00 08 'emitBatc' 1c 00 00 => 41 BadName
82 81 00 09 'emitbatch' 1c 00 00 => 41 BadName
82 81 00 0a 'emitBatchX' 1c 00 00 => 41 BadName
82 81 00 09 'emitbatch' => 41 BadName
80010004 0000000a 'emitBatchX' 00000000 => 41 BadName
C => 1 Truncated
C 1c => 1 Truncated
C 1c 00 => 1 Truncated
B 0c0001 00 => 1 Truncated
C 16 ffffffffffffffffff02 => 2 BadVarint
C 1c 1d => 3 BadWire
B 0c0001 01 => 3 BadWire
C 18 ffffffff0f => 4 BadSize
B 0b0001 80 => 4 BadSize
C 1c*32 => 1 Truncated
C 1c*33 => 5 TooDeep
C 1c 00 0c 02 00 1d => 3 BadWire
C 1c 00 0c 02 00 00 => 7 FieldTwice
C 1c 00 0c 02 00 00 00 => 7 FieldTwice
B 0c0001 00 0c0001 00 00 => 7 FieldTwice
C 1c 00 00 00 => 43 Tail
C 00 00 => 43 Tail
B 0c0001 00 00 0c0001 00 00 => 43 Tail
C 00 => 42 NoBatch
C 15 00 00 => 42 NoBatch
C 2c 00 00 => 42 NoBatch
B 0b0001 00000000 00 => 42 NoBatch
";

// Holds the message of a row's datagram against the row.
fn reads_message(rt: &impl Abort, alloc: Global, row: &str) -> Result<(), Fail> {
    let (given, behind) = sides(row)?;
    let datagram = bytes_of(alloc, given)?;
    let mut wanted = Words::of(behind);
    let first = wanted.word();
    match read_message(datagram.as_slice()) {
        Ok(message) => {
            let batch = bytes_of(alloc, wanted.rest())?;
            assert!(rt;
                first == if message.compact { "compact" } else { "binary" },
                "{row}"
            );
            assert!(rt; message.batch == batch.as_slice(), "{row}");
        }
        Err(cause) => {
            let number = format!(in alloc; "{}", cause.number())?;
            assert!(rt;
                first == number.as_str() && wanted.rest() == cause.name(),
                "{row}"
            );
        }
    }
    Ok(())
}

#[test]
fn reads_each_message(rt: HostRuntime) -> Result<(), Fail> {
    for row in MESSAGES.trim_matches('\n').lines() {
        reads_message(&rt, rt.alloc(), row)?;
    }
    Ok(())
}
