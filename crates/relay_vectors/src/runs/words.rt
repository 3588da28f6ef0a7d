//! Words of the relay: what it is asked for, and what asks for nothing.
use super::expect_run;
use row_tables::rows;
use std::test::Fail;

// Rows as those of `RUNS`. Other words are answered by the line `usage`, and then nothing was accepted, kept or sent.
const WORDS: &str = r"
as many connections as may be
run --listen m --to zipkin-json --peer p:1 --count 1000000
stream @POSTED
answers 202
took @KEPT
round 1 true
sent 202 p:1 zipkin-json []
note door failed
status 5

words in another order: listen, to, count, peer
run --listen m --to zipkin-json --count 1 --peer p:1
stream @POSTED
answers 202
took @KEPT
round 1 true
sent 202 p:1 zipkin-json []

words in another order: listen, peer, to, count
run --listen m --peer p:1 --to zipkin-json --count 1
stream @POSTED
answers 202
took @KEPT
round 1 true
sent 202 p:1 zipkin-json []

words in another order: listen, peer, count, to
run --listen m --peer p:1 --count 1 --to zipkin-json
stream @POSTED
answers 202
took @KEPT
round 1 true
sent 202 p:1 zipkin-json []

words in another order: listen, count, to, peer
run --listen m --count 1 --to zipkin-json --peer p:1
stream @POSTED
answers 202
took @KEPT
round 1 true
sent 202 p:1 zipkin-json []

words in another order: listen, count, peer, to
run --listen m --count 1 --peer p:1 --to zipkin-json
stream @POSTED
answers 202
took @KEPT
round 1 true
sent 202 p:1 zipkin-json []

words in another order: to, listen, peer, count
run --to zipkin-json --listen m --peer p:1 --count 1
stream @POSTED
answers 202
took @KEPT
round 1 true
sent 202 p:1 zipkin-json []

words in another order: to, listen, count, peer
run --to zipkin-json --listen m --count 1 --peer p:1
stream @POSTED
answers 202
took @KEPT
round 1 true
sent 202 p:1 zipkin-json []

words in another order: to, peer, listen, count
run --to zipkin-json --peer p:1 --listen m --count 1
stream @POSTED
answers 202
took @KEPT
round 1 true
sent 202 p:1 zipkin-json []

words in another order: to, peer, count, listen
run --to zipkin-json --peer p:1 --count 1 --listen m
stream @POSTED
answers 202
took @KEPT
round 1 true
sent 202 p:1 zipkin-json []

words in another order: to, count, listen, peer
run --to zipkin-json --count 1 --listen m --peer p:1
stream @POSTED
answers 202
took @KEPT
round 1 true
sent 202 p:1 zipkin-json []

words in another order: to, count, peer, listen
run --to zipkin-json --count 1 --peer p:1 --listen m
stream @POSTED
answers 202
took @KEPT
round 1 true
sent 202 p:1 zipkin-json []

words in another order: peer, listen, to, count
run --peer p:1 --listen m --to zipkin-json --count 1
stream @POSTED
answers 202
took @KEPT
round 1 true
sent 202 p:1 zipkin-json []

words in another order: peer, listen, count, to
run --peer p:1 --listen m --count 1 --to zipkin-json
stream @POSTED
answers 202
took @KEPT
round 1 true
sent 202 p:1 zipkin-json []

words in another order: peer, to, listen, count
run --peer p:1 --to zipkin-json --listen m --count 1
stream @POSTED
answers 202
took @KEPT
round 1 true
sent 202 p:1 zipkin-json []

words in another order: peer, to, count, listen
run --peer p:1 --to zipkin-json --count 1 --listen m
stream @POSTED
answers 202
took @KEPT
round 1 true
sent 202 p:1 zipkin-json []

words in another order: peer, count, listen, to
run --peer p:1 --count 1 --listen m --to zipkin-json
stream @POSTED
answers 202
took @KEPT
round 1 true
sent 202 p:1 zipkin-json []

words in another order: peer, count, to, listen
run --peer p:1 --count 1 --to zipkin-json --listen m
stream @POSTED
answers 202
took @KEPT
round 1 true
sent 202 p:1 zipkin-json []

words in another order: count, listen, to, peer
run --count 1 --listen m --to zipkin-json --peer p:1
stream @POSTED
answers 202
took @KEPT
round 1 true
sent 202 p:1 zipkin-json []

words in another order: count, listen, peer, to
run --count 1 --listen m --peer p:1 --to zipkin-json
stream @POSTED
answers 202
took @KEPT
round 1 true
sent 202 p:1 zipkin-json []

words in another order: count, to, listen, peer
run --count 1 --to zipkin-json --listen m --peer p:1
stream @POSTED
answers 202
took @KEPT
round 1 true
sent 202 p:1 zipkin-json []

words in another order: count, to, peer, listen
run --count 1 --to zipkin-json --peer p:1 --listen m
stream @POSTED
answers 202
took @KEPT
round 1 true
sent 202 p:1 zipkin-json []

words in another order: count, peer, listen, to
run --count 1 --peer p:1 --listen m --to zipkin-json
stream @POSTED
answers 202
took @KEPT
round 1 true
sent 202 p:1 zipkin-json []

words in another order: count, peer, to, listen
run --count 1 --peer p:1 --to zipkin-json --listen m
stream @POSTED
answers 202
took @KEPT
round 1 true
sent 202 p:1 zipkin-json []

one connection more than may be
run --listen m --to zipkin-json --peer p:1 --count 1000001
kept 1 zipkin-json []
stream @POSTED
usage
left 1 zipkin-json []

no connection
run --listen m --to zipkin-json --peer p:1 --count 0
kept 1 zipkin-json []
stream @POSTED
usage
left 1 zipkin-json []

more connections than 32 bits hold
run --listen m --to zipkin-json --peer p:1 --count 4294967297
kept 1 zipkin-json []
stream @POSTED
usage
left 1 zipkin-json []

a zero in front
run --listen m --to zipkin-json --peer p:1 --count 01
kept 1 zipkin-json []
stream @POSTED
usage
left 1 zipkin-json []

a sign
run --listen m --to zipkin-json --peer p:1 --count +1
kept 1 zipkin-json []
stream @POSTED
usage
left 1 zipkin-json []

an empty count
run --listen m --to zipkin-json --peer p:1 --count
last-word
kept 1 zipkin-json []
stream @POSTED
usage
left 1 zipkin-json []

no number
run --listen m --to zipkin-json --peer p:1 --count one
kept 1 zipkin-json []
stream @POSTED
usage
left 1 zipkin-json []

the other protocol of Jaeger
run --listen m --to jaeger-compact --peer p:1 --count 1
kept 1 zipkin-json []
stream @POSTED
usage
left 1 zipkin-json []

no form
run --listen m --to zipkin --peer p:1 --count 1
kept 1 zipkin-json []
stream @POSTED
usage
left 1 zipkin-json []

no words
run
kept 1 zipkin-json []
stream @POSTED
usage
left 1 zipkin-json []

an option that is missing: listen
run --to zipkin-json --peer p:1 --count 1
kept 1 zipkin-json []
stream @POSTED
usage
left 1 zipkin-json []

an option twice: listen
run --listen m --to zipkin-json --peer p:1 --count 1 --listen m
kept 1 zipkin-json []
stream @POSTED
usage
left 1 zipkin-json []

an option twice in place of another: listen
run --listen m --peer p:1 --count 1 --listen m
kept 1 zipkin-json []
stream @POSTED
usage
left 1 zipkin-json []

an option that is missing: to
run --listen m --peer p:1 --count 1
kept 1 zipkin-json []
stream @POSTED
usage
left 1 zipkin-json []

an option twice: to
run --listen m --to zipkin-json --peer p:1 --count 1 --to zipkin-json
kept 1 zipkin-json []
stream @POSTED
usage
left 1 zipkin-json []

an option twice in place of another: to
run --listen m --to zipkin-json --count 1 --to zipkin-json
kept 1 zipkin-json []
stream @POSTED
usage
left 1 zipkin-json []

an option that is missing: peer
run --listen m --to zipkin-json --count 1
kept 1 zipkin-json []
stream @POSTED
usage
left 1 zipkin-json []

an option twice: peer
run --listen m --to zipkin-json --peer p:1 --count 1 --peer p:1
kept 1 zipkin-json []
stream @POSTED
usage
left 1 zipkin-json []

an option twice in place of another: peer
run --listen m --peer p:1 --count 1 --peer p:1
kept 1 zipkin-json []
stream @POSTED
usage
left 1 zipkin-json []

an option that is missing: count
run --listen m --to zipkin-json --peer p:1
kept 1 zipkin-json []
stream @POSTED
usage
left 1 zipkin-json []

an option twice: count
run --listen m --to zipkin-json --peer p:1 --count 1 --count 1
kept 1 zipkin-json []
stream @POSTED
usage
left 1 zipkin-json []

an option twice in place of another: count
run --listen m --peer p:1 --count 1 --count 1
kept 1 zipkin-json []
stream @POSTED
usage
left 1 zipkin-json []

another option
run --listen m --to zipkin-json --from p:1 --count 1
kept 1 zipkin-json []
stream @POSTED
usage
left 1 zipkin-json []

a word more
run --listen m --to zipkin-json --peer p:1 --count 1 m
kept 1 zipkin-json []
stream @POSTED
usage
left 1 zipkin-json []

a word less
run --listen m --to zipkin-json --peer p:1 --count
kept 1 zipkin-json []
stream @POSTED
usage
left 1 zipkin-json []

a peer of one character
run --listen m --to zipkin-json --count 1 --peer p
stream @POSTED
answers 202
took @KEPT
round 1 true
sent 202 p zipkin-json []

a peer of 255 characters
run --listen m --to zipkin-json --count 1 --peer p*255
stream @POSTED
answers 202
took @KEPT
round 1 true
sent 202 p*255 zipkin-json []

a peer of the least and the largest character
run --listen m --to zipkin-json --count 1 --peer !~
stream @POSTED
answers 202
took @KEPT
round 1 true
sent 202 !~ zipkin-json []

a peer of no character
run --listen m --to zipkin-json --count 1 --peer
last-word
kept 1 zipkin-json []
stream @POSTED
usage
left 1 zipkin-json []

a peer of 256 characters
run --listen m --to zipkin-json --count 1 --peer p*256
kept 1 zipkin-json []
stream @POSTED
usage
left 1 zipkin-json []

a peer with a blank
run --listen m --to zipkin-json --count 1 --peer
last-word p q
kept 1 zipkin-json []
stream @POSTED
usage
left 1 zipkin-json []

a peer with a blank at its end
run --listen m --to zipkin-json --count 1 --peer
last-word p\x20
kept 1 zipkin-json []
stream @POSTED
usage
left 1 zipkin-json []

a peer with a line break
run --listen m --to zipkin-json --count 1 --peer
last-word p\r\n
kept 1 zipkin-json []
stream @POSTED
usage
left 1 zipkin-json []

a peer with a character behind the largest
run --listen m --to zipkin-json --count 1 --peer
last-word p\x7f
kept 1 zipkin-json []
stream @POSTED
usage
left 1 zipkin-json []

a peer beyond ASCII
run --listen m --to zipkin-json --count 1 --peer
last-word p\xc3\xa9
kept 1 zipkin-json []
stream @POSTED
usage
left 1 zipkin-json []
";

#[test]
fn reads_the_words(rt: HostRuntime) -> Result<(), Fail> {
    for row in &rows(rt.alloc(), WORDS)? {
        expect_run(&rt, rt.alloc(), row)?;
    }
    Ok(())
}
