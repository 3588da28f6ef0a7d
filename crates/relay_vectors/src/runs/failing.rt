//! Runs of the relay of which a call of the peer, the keeper, a connection, the door or the notes fails.
use super::expect_run;
use row_tables::rows;
use std::test::Fail;

// Rows as those of `RUNS`, with the front of a line of the notes behind which they fail.
const FAILING: &str = r"
a peer that fails at once
run --listen m --to zipkin-json --peer p:1 --count 2
stream @POSTED
stream @POSTED
answers 202*2
peer-fails 1
took @KEPT
took @KEPT
round 0 true
round 2 true
sent 202*2 p:1 zipkin-json []
note connection 1: peer failed

a peer that fails at the second body
run --listen m --to zipkin-json --peer p:1 --count 1
stream @POSTED*2
answers 202*2
peer-fails 2
took @KEPT*2
round 1 true*2
sent 202 p:1 zipkin-json []
left 2 zipkin-json []
note connection 1: peer failed
note left 1
status 8

a peer whose failing call never comes
run --listen m --to zipkin-json --peer p:1 --count 1
stream @POSTED*2
answers 202*2
peer-fails 3
took @KEPT*2
round 2 true*2
sent 202*2 p:1 zipkin-json []

a peer that says nothing
run --listen m --to zipkin-json --peer p:1 --count 1
stream @POSTED
took @KEPT
round 0 true
left 1 zipkin-json []
note connection 1: peer failed
note left 1
status 8

a keeper that is full
run --listen m --to zipkin-json --peer p:1 --count 2
room 1
stream @POSTED*2
stream @POSTED
answers 202*2
took @KEPT @NOT_KEPT
took @KEPT
round 1 true false
round 1 true
sent 202*2 p:1 zipkin-json []

a keeper that stays full
run --listen m --to zipkin-json --peer p:1 --count 2
room 1
stream @POSTED
stream @POSTED
answers 503*2
took @KEPT
took @NOT_KEPT
round 0 true
round 0 false
sent 503*2 p:1 zipkin-json []
left 1 zipkin-json []
note connection 1: peer answered 503
note connection 2: peer answered 503
note left 1
status 8

a keeper that fails to keep the first body
run --listen m --to zipkin-json --peer p:1 --count 1
keeper-fails 1
stream @POSTED*2
answers 202*2
took @NOT_KEPT @KEPT
round 1 false true
sent 202 p:1 zipkin-json []

a keeper that fails to keep the second body
run --listen m --to zipkin-json --peer p:1 --count 1
keeper-fails 2
stream @POSTED*2
answers 202*2
took @KEPT @NOT_KEPT
round 1 true false
sent 202 p:1 zipkin-json []

a keeper that fails to give the first body
run --listen m --to zipkin-json --peer p:1 --count 1
keeper-fails 3
stream @POSTED*2
answers 202*2
took @KEPT*2
round 0 true*2
left 1..2 zipkin-json []
note connection 1: keeper failed
note left 2
status 8

a keeper that fails to drop the first body
run --listen m --to zipkin-json --peer p:1 --count 1
keeper-fails 4
stream @POSTED*2
answers 202*2
took @KEPT*2
round 0 true*2
sent 202 p:1 zipkin-json []
left 1..2 zipkin-json []
note connection 1: keeper failed
note left 2
status 8

a keeper that fails to give the second body
run --listen m --to zipkin-json --peer p:1 --count 1
keeper-fails 5
stream @POSTED*2
answers 202*2
took @KEPT*2
round 1 true*2
sent 202 p:1 zipkin-json []
left 2 zipkin-json []
note connection 1: keeper failed
note left 1
status 8

a keeper that fails to drop the second body
run --listen m --to zipkin-json --peer p:1 --count 1
keeper-fails 6
stream @POSTED*2
answers 202*2
took @KEPT*2
round 1 true*2
sent 202*2 p:1 zipkin-json []
left 2 zipkin-json []
note connection 1: keeper failed
note left 1
status 8

a keeper that fails to say that none is left
run --listen m --to zipkin-json --peer p:1 --count 1
keeper-fails 7
stream @POSTED*2
answers 202*2
took @KEPT*2
round 2 true*2
sent 202*2 p:1 zipkin-json []
note connection 1: keeper failed

a keeper whose failing call never comes
run --listen m --to zipkin-json --peer p:1 --count 1
keeper-fails 8
stream @POSTED*2
answers 202*2
took @KEPT*2
round 2 true*2
sent 202*2 p:1 zipkin-json []

a body that is sent twice, since it wasn't dropped
run --listen m --to zipkin-json --peer p:1 --count 2
keeper-fails 3
stream @POSTED
stream
answers 202*2
took @KEPT
took
round 0 true
round 1
sent 202*2 p:1 zipkin-json []
note connection 1: keeper failed

a read that fails
run --listen m --to zipkin-json --peer p:1 --count 2
broken 1 0 @POSTED
stream @POSTED
answers 202
took
took @KEPT
round 0
round 1 true
sent 202 p:1 zipkin-json []
note connection 1: read failed

a read that fails behind a post
run --listen m --to zipkin-json --peer p:1 --count 1
gives 93
broken 2 0 @POSTED*2
answers 202
took @KEPT
round 1 true
sent 202 p:1 zipkin-json []
note connection 1: read failed

a write that fails
run --listen m --to zipkin-json --peer p:1 --count 2
broken 0 1 @POSTED*2
stream @POSTED
answers 202*2
took
took @KEPT
round 1 true
round 1 true
sent 202*2 p:1 zipkin-json []
note connection 1: write failed

a write that fails at the second answer
run --listen m --to zipkin-json --peer p:1 --count 1
broken 0 2 @POSTED*3
answers 202*3
took @KEPT
round 2 true*2
sent 202*2 p:1 zipkin-json []
note connection 1: write failed

a write that fails at a peer that fails
run --listen m --to zipkin-json --peer p:1 --count 1
broken 0 1 @POSTED
took
round 0 true
left 1 zipkin-json []
note connection 1: write failed
note connection 1: peer failed
note left 1
status 8

each connection fails otherwise
run --listen m --to zipkin-json --peer p:1 --count 3
broken 1 0 @POSTED
broken 0 1 @POSTED
stream @POSTED
answers 500 503
took
took
took @KEPT
round 0
round 0 true
round 0 true
sent 500 p:1 zipkin-json []
sent 503 p:1 zipkin-json []
left 1..2 zipkin-json []
note connection 1: read failed
note connection 2: write failed
note connection 2: peer answered 500
note connection 3: peer answered 503
note left 2
status 8

a door that doesn't listen
run --listen m --to zipkin-json --peer p:1 --count 1
stream @POSTED
door-fails 1
note door failed
waiting 1
status 5

another address
run --listen n --to zipkin-json --peer p:1 --count 1
stream @POSTED
note door failed
waiting 1
status 5

a door that gives no connection
run --listen m --to zipkin-json --peer p:1 --count 1
kept 1 zipkin-json []
stream @POSTED
door-fails 2
left 1 zipkin-json []
note door failed
waiting 1
status 5

a door that fails behind the first connection
run --listen m --to zipkin-json --peer p:1 --count 2
stream @POSTED
stream @POSTED
door-fails 3
answers 503
took @KEPT
round 0 true
sent 503 p:1 zipkin-json []
left 1 zipkin-json []
note connection 1: peer answered 503
note door failed
waiting 1
status 5

a door whose failing call never comes
run --listen m --to zipkin-json --peer p:1 --count 1
stream @POSTED
door-fails 3
answers 202
took @KEPT
round 1 true
sent 202 p:1 zipkin-json []

no more connections than are asked for
run --listen m --to zipkin-json --peer p:1 --count 1
stream @POSTED
stream @POSTED
answers 202*2
took @KEPT
round 1 true
sent 202 p:1 zipkin-json []
waiting 1

notes that fail at once
run --listen m --to zipkin-json --peer p:1 --count 1
stream @POSTED
answers 500
notes-fail 1
took @KEPT
round 0 true
sent 500 p:1 zipkin-json []
left 1 zipkin-json []
status 8

notes that fail at the second piece of a line
run --listen m --to zipkin-json --peer p:1 --count 1
stream @POSTED
answers 500
notes-fail 2
took @KEPT
round 0 true
sent 500 p:1 zipkin-json []
left 1 zipkin-json []
note-front connection 
status 8

notes that fail behind the first line
run --listen m --to zipkin-json --peer p:1 --count 1
stream @POSTED
answers 500
notes-fail 6
took @KEPT
round 0 true
sent 500 p:1 zipkin-json []
left 1 zipkin-json []
note connection 1: peer answered 500
status 8

notes that fail at the words
run
stream @POSTED
notes-fail 1
waiting 1
status 2
";

#[test]
fn stops_where_a_call_fails(rt: HostRuntime) -> Result<(), Fail> {
    for row in &rows(rt.alloc(), FAILING)? {
        expect_run(&rt, rt.alloc(), row)?;
    }
    Ok(())
}
