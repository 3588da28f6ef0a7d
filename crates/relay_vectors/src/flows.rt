//! Bodies that are sent on: what a peer gets, what stays, and how that ends.
use crate::devices::{keeper_of, peer_of};
use crate::told::{are_left, are_sent, expect};
use http_conn::is_address;
use row_tables::{Row, rows};
use span_relay::{Flow, FlowFault, MemPeer, forward};
use span_spool::MemKeeper;
use std::alloc::Global;
use std::process::Abort;
use std::test::Fail;

// The rows that are kept, the calls of the keeper that fail, numbered behind those that kept these rows; the statuses that the
// peer answers with and its calls that fail; to how many bodies sending is bound, which is 1,000 where it isn't told. Then how
// it ends, what the peer got, each with its status and its address, and the rows that are left.
const FLOWS: &str = r#"
a body that is taken and one that isn't
kept 1..2 zipkin-json []
answers 202 503
flow held 503
sent 202 p:1 zipkin-json []
sent 503 p:1 zipkin-json []
left 2 zipkin-json []

two that are taken
kept 1..2 zipkin-json []
answers 202 202
flow empty
sent 202*2 p:1 zipkin-json []

nothing
answers 202
flow empty

bodies in their order, each in its form
kept 1 otlp-json {"resourceSpans":[]}
kept 2 zipkin-json []
kept 3 otlp-proto
kept 4 jaeger-binary #SDK_BATCH
kept 5 otlp-proto #ONE_SPAN
answers 200 202 200 202 200
flow empty
sent 200 p:1 otlp-json {"resourceSpans":[]}
sent 202 p:1 zipkin-json []
sent 200 p:1 otlp-proto
sent 202 p:1 jaeger-binary #SDK_BATCH
sent 200 p:1 otlp-proto #ONE_SPAN

the lowest status that takes one
kept 1 zipkin-json []
answers 200
flow empty
sent 200 p:1 zipkin-json []

one below
kept 1 zipkin-json []
answers 199 200
flow held 199
sent 199 p:1 zipkin-json []
left 1 zipkin-json []

the highest
kept 1 zipkin-json []
answers 299
flow empty
sent 299 p:1 zipkin-json []

one above
kept 1 zipkin-json []
answers 300 200
flow held 300
sent 300 p:1 zipkin-json []
left 1 zipkin-json []

a status before the answer
kept 1 zipkin-json []
answers 100 200
flow held 100
sent 100 p:1 zipkin-json []
left 1 zipkin-json []

the first of three
kept 1 zipkin-json []
kept 2 zipkin-json [1]
kept 3 zipkin-json [2]
answers 503 202
flow held 503
sent 503 p:1 zipkin-json []
left 1 zipkin-json []
left 2 zipkin-json [1]
left 3 zipkin-json [2]

the last of three
kept 1 zipkin-json []
kept 2 zipkin-json [1]
kept 3 zipkin-json [2]
answers 202 202 503
flow held 503
sent 202 p:1 zipkin-json []
sent 202 p:1 zipkin-json [1]
sent 503 p:1 zipkin-json [2]
left 3 zipkin-json [2]

one at the most
kept 1..2 zipkin-json []
budget 1
answers 202 202
flow spent
sent 202 p:1 zipkin-json []
left 2 zipkin-json []

as many as there are
kept 1..2 zipkin-json []
budget 2
answers 202 202
flow empty
sent 202*2 p:1 zipkin-json []

one more than there are
kept 1..2 zipkin-json []
budget 3
answers 202 202
flow empty
sent 202*2 p:1 zipkin-json []

one at the most that isn't taken
kept 1..2 zipkin-json []
budget 1
answers 503
flow held 503
sent 503 p:1 zipkin-json []
left 1..2 zipkin-json []

as many as numbers go
kept 1..2 zipkin-json []
budget 18446744073709551615
answers 202 202
flow empty
sent 202*2 p:1 zipkin-json []

a peer that fails at once
kept 1..2 zipkin-json []
answers 202 202
peer-fails 1
flow peer failed
left 1..2 zipkin-json []

a peer that fails at the second body
kept 1..2 zipkin-json []
answers 202 202
peer-fails 2
flow peer failed
sent 202 p:1 zipkin-json []
left 2 zipkin-json []

a peer that fails at a call that never comes
kept 1..2 zipkin-json []
answers 202 202
peer-fails 3
flow empty
sent 202*2 p:1 zipkin-json []

a peer without an answer
kept 1 zipkin-json []
flow peer failed
left 1 zipkin-json []

a keeper that doesn't give the first body
kept 1..2 zipkin-json []
answers 202 202
keeper-fails 3
flow keeper failed
left 1..2 zipkin-json []

a keeper that doesn't drop it
kept 1..2 zipkin-json []
answers 202 202
keeper-fails 4
flow keeper failed
sent 202 p:1 zipkin-json []
left 1..2 zipkin-json []

a keeper that doesn't give the second body
kept 1..2 zipkin-json []
answers 202 202
keeper-fails 5
flow keeper failed
sent 202 p:1 zipkin-json []
left 2 zipkin-json []

a keeper that doesn't drop the second body
kept 1..2 zipkin-json []
answers 202 202
keeper-fails 6
flow keeper failed
sent 202*2 p:1 zipkin-json []
left 2 zipkin-json []

a keeper that doesn't say that none is left
kept 1..2 zipkin-json []
answers 202 202
keeper-fails 7
flow keeper failed
sent 202*2 p:1 zipkin-json []

a keeper whose failing call never comes
kept 1..2 zipkin-json []
answers 202 202
keeper-fails 8
flow empty
sent 202*2 p:1 zipkin-json []

a body that isn't taken isn't dropped
kept 1 zipkin-json []
answers 503
keeper-fails 3
flow held 503
sent 503 p:1 zipkin-json []
left 1 zipkin-json []

another address
address [::1]:4318
kept 1 zipkin-json []
answers 202
flow empty
sent 202 [::1]:4318 zipkin-json []

the lowest and the highest character of an address
address !~
kept 1 zipkin-json []
answers 202
flow empty
sent 202 !~ zipkin-json []
"#;

const KEYS: [&str; 9] = [
    "kept",
    "keeper-fails",
    "answers",
    "peer-fails",
    "address",
    "budget",
    "flow",
    "sent",
    "left",
];

// Whether sending ends as a text tells.
fn is_flow(row: &Row, flow: Result<Flow, FlowFault>, text: &str) -> Result<bool, Fail> {
    match (flow, text) {
        (Ok(Flow::Empty), "empty")
        | (Ok(Flow::Spent), "spent")
        | (Err(FlowFault::Keeper), "keeper failed")
        | (Err(FlowFault::Peer), "peer failed") => Ok(true),
        (Ok(Flow::Held(status)), text) => match text.strip_prefix("held ") {
            Some(number) => Ok(u64::from(status) == row.number_in(number)?),
            None => Ok(false),
        },
        _ => Ok(false),
    }
}

// Sends so many bodies to an address.
fn sent_on(
    rt: &impl Abort,
    keeper: &mut MemKeeper,
    peer: &mut MemPeer,
    address: &str,
    budget: u64,
) -> Result<Flow, FlowFault> {
    assert!(rt; is_address(address.as_bytes()) && 1 <= budget);
    forward(keeper, peer, address, budget)
}

// Sends the bodies of a row, and looks at how that ends.
fn expect_end(
    rt: &impl Abort,
    row: &Row,
    keeper: &mut MemKeeper,
    peer: &mut MemPeer,
    address: &str,
) -> Result<(), Fail> {
    let budget = row.number_if_any("budget")?.unwrap_or(1_000);
    let flow = sent_on(rt, keeper, peer, address, budget);
    let holds = is_flow(row, flow, row.text("flow")?)?;
    expect(rt, row, "end", holds);
    Ok(())
}

// The same with all that became of them.
fn expect_flow(rt: &impl Abort, alloc: Global, row: &Row) -> Result<(), Fail> {
    row.expect_keys(&KEYS)?;
    let address = row.text_if_any("address")?.unwrap_or("p:1");
    let mut keeper = keeper_of(alloc, row)?;
    let mut peer = peer_of(alloc, row)?;
    expect_end(rt, row, &mut keeper, &mut peer, address)?;
    let sent = are_sent(alloc, row, peer.sent())?;
    let left = are_left(alloc, row, keeper.rows())?;
    expect(rt, row, "sent", sent);
    expect(rt, row, "rows", left);
    Ok(())
}

#[test]
fn sends_each_body(rt: HostRuntime) -> Result<(), Fail> {
    for row in &rows(rt.alloc(), FLOWS)? {
        expect_flow(&rt, rt.alloc(), row)?;
    }
    Ok(())
}
