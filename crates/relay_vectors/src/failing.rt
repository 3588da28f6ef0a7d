//! Connections of which each read and each write fails in turn: how serving ends, and what was kept and answered then.
use crate::connections::served;
use crate::devices::{Course, WHOLE, connection};
use crate::texts::bytes_of;
use row_tables::{Row, row_named};
use span_io::{Form, Items, MemDuplex};
use span_relay::{RelayEnd, RelayFault, RelayWhy, Served};
use span_spool::MemKeeper;
use std::alloc::Global;
use std::process::Abort;
use std::test::Fail;

// Three posts of 93 bytes, and their answers of 44.
const THREE: &str = r"
three posts
stream @POSTED*3
took @KEPT*3
";

const POST: usize = 93;

const ANSWER: usize = 44;

/// How serving ends, how many bodies were kept, and how many bytes of the answers were taken.
#[derive(Clone, Copy)]
struct Told {
    ended: Result<RelayEnd, RelayWhy>,
    kept: usize,
    taken: usize,
}

const SERVED_WHOLE: Told = Told {
    ended: Ok(RelayEnd::Closed),
    kept: 3,
    taken: 132,
};

fn are_kept(outcomes: &Items<bool>, count: usize) -> bool {
    for outcome in outcomes.as_slice() {
        if !*outcome {
            return false;
        }
    }
    outcomes.len() == count
}

fn is_served(served: &Result<Served, RelayFault>, told: Told) -> bool {
    match served {
        Ok(served) => told.ended == Ok(served.end) && are_kept(&served.outcomes, told.kept),
        Err(fault) => told.ended == Err(fault.why) && are_kept(&fault.outcomes, told.kept),
    }
}

// Whether a keeper holds so many bodies without spans.
fn holds(keeper: &MemKeeper, count: usize) -> bool {
    for kept in keeper.rows() {
        if kept.body.as_slice() != b"[]".as_slice() {
            return false;
        }
    }
    keeper.rows().len() == count
}

// Serves a connection, and looks at what was kept.
fn is_relayed(alloc: Global, conn: &mut MemDuplex, told: Told) -> bool {
    let mut keeper = MemKeeper::new(alloc, 3, Items::new(alloc));
    is_served(&served(alloc, conn, &mut keeper, Form::ZipkinJson), told)
        && holds(&keeper, told.kept)
}

// Serves three posts over a connection of this course, and looks at all that became of them.
fn expect_course(
    rt: &impl Abort,
    alloc: Global,
    row: &Row,
    course: Course,
    told: Told,
) -> Result<(), Fail> {
    let answers = bytes_of(alloc, row, row.text("took")?)?;
    let posts = bytes_of(alloc, row, row.text("stream")?)?;
    let mut conn = connection(rt, alloc, posts, course);
    let Course {
        gives,
        takes,
        read,
        write,
    } = course;
    assert!(rt;
        is_relayed(alloc, &mut conn, told)
            && Some(conn.written()) == answers.as_slice().get(..told.taken),
        "pieces of {gives} and {takes}, calls {read} and {write}"
    );
    Ok(())
}

// The most bytes that a read gives, and how many reads there are. The last one tells the end.
const READS: [(usize, u64); 5] = [(1, 280), (2, 141), (50, 7), (93, 4), (4_096, 2)];

// What is told where a read fails: the posts that ended in the bytes before it were kept and answered.
fn behind_read(gives: usize, read: u64) -> Told {
    let given = gives.saturating_mul(read.saturating_sub(1) as usize);
    let kept = (given / POST).min(3);
    Told {
        ended: Err(RelayWhy::Read),
        kept,
        taken: kept.saturating_mul(ANSWER),
    }
}

// What is told where a call fails of which there are so many, or one that never comes.
fn told_of(call: u64, calls: u64, told: Told) -> Told {
    if call <= calls {
        return told;
    }
    SERVED_WHOLE
}

// Serves with each read failing in turn, and with one behind the last.
fn expect_reads(
    rt: &impl Abort,
    alloc: Global,
    row: &Row,
    gives: usize,
    reads: u64,
) -> Result<(), Fail> {
    for read in 1..reads.saturating_add(2) {
        let course = Course {
            gives,
            takes: WHOLE,
            read,
            write: 0,
        };
        let told = told_of(read, reads, behind_read(gives, read));
        expect_course(rt, alloc, row, course, told)?;
    }
    Ok(())
}

#[test]
fn fails_with_each_read(rt: HostRuntime) -> Result<(), Fail> {
    let row = row_named(rt.alloc(), THREE, "three posts")?;
    for (gives, reads) in &READS {
        expect_reads(&rt, rt.alloc(), &row, *gives, *reads)?;
    }
    Ok(())
}

// The most bytes that a write takes, and how many writes there are. Each answer is written by itself.
const WRITES: [(usize, u64); 4] = [(1, 132), (3, 45), (44, 3), (4_096, 3)];

// What is told where a write fails: its post was kept, and those before it were answered.
fn behind_write(takes: usize, write: u64, writes: u64) -> Told {
    let before = write.saturating_sub(1) as usize;
    let each = (writes / 3) as usize;
    let done = before.checked_div(each).unwrap_or(0);
    let more = before.checked_rem(each).unwrap_or(0);
    let taken = done.saturating_mul(ANSWER);
    Told {
        ended: Err(RelayWhy::Write),
        kept: done.saturating_add(1),
        taken: taken.saturating_add(more.saturating_mul(takes)),
    }
}

// Serves with each write failing in turn, and with one behind the last.
fn expect_writes(
    rt: &impl Abort,
    alloc: Global,
    row: &Row,
    takes: usize,
    writes: u64,
) -> Result<(), Fail> {
    for write in 1..writes.saturating_add(2) {
        let course = Course {
            gives: WHOLE,
            takes,
            read: 0,
            write,
        };
        let told = told_of(write, writes, behind_write(takes, write, writes));
        expect_course(rt, alloc, row, course, told)?;
    }
    Ok(())
}

#[test]
fn fails_with_each_write(rt: HostRuntime) -> Result<(), Fail> {
    let row = row_named(rt.alloc(), THREE, "three posts")?;
    for (takes, writes) in &WRITES {
        expect_writes(&rt, rt.alloc(), &row, *takes, *writes)?;
    }
    Ok(())
}
