//! A move to a form and back: what was written is what the form of the input holds as well, so that it is written again.
use crate::bench::{Bench, NO_FAILS, WHOLE};
use row_tables::{Row, rows};
use std::alloc::Global;
use std::process::Abort;
use std::test::Fail;

// The forms to which each text goes: none of these moves is a fault.
const TARGETS: [&str; 5] = [
    "otlp-proto",
    "otlp-json",
    "jaeger-binary",
    "jaeger-compact",
    "zipkin-json",
];

const STARTS: &str = r#"
a request as an SDK writes it
form otlp-proto
text-hex @SDK_REQUEST

a batch of the same span
form jaeger-binary
text-hex @SDK_BATCH

a batch as a client writes it
form jaeger-compact
text-hex @CLIENT_COMPACT

a root with two references to its own trace
form jaeger-compact
text-hex @ROOT_COMPACT

the flags 3
form jaeger-compact
text-hex @FLAGS_COMPACT

a span and its service alone
form jaeger-binary
text-hex @SPAN_BATCH

a span of Zipkin as a client writes it
form zipkin-json
text @CLIENT_SPANS

attributes under each key that a form reserves, and behind the front
form otlp-json
text @MEMBERS
text "attributes":[{"key":"error","value":{"stringValue":"1"}},{"key":"event","value":{"stringValue":"2"}},{"key":"otel.attr.",
 "value":{"stringValue":"0"}},{"key":"otel.attr.error","value":{"stringValue":"-1"}},{"key":"otel.attr.event",
 "value":{"stringValue":"-2"}},{"key":"otel.attr.otel.attr.error","value":{"stringValue":"x"}},
 {"key":"otel.attr.otel.dropped_attributes_count","value":{"stringValue":"-3"}},{"key":"otel.attr.otel.dropped_events_count",
 "value":{"stringValue":"-4"}},{"key":"otel.attr.otel.dropped_links_count","value":{"stringValue":"-5"}},
 {"key":"otel.attr.otel.library.name","value":{"stringValue":"-6"}},{"key":"otel.attr.otel.library.version",
 "value":{"stringValue":"-7"}},{"key":"otel.attr.otel.resource.a","value":{"stringValue":"-8"}},
 {"key":"otel.attr.otel.scope.name","value":{"stringValue":"-9"}},{"key":"otel.attr.otel.scope.version",
 "value":{"stringValue":"-10"}},{"key":"otel.attr.otel.status_code","value":{"stringValue":"-11"}},
 {"key":"otel.attr.otel.status_description","value":{"stringValue":"-12"}},{"key":"otel.attr.span.kind",
 "value":{"stringValue":"-13"}},{"key":"otel.attr.w3c.tracestate","value":{"stringValue":"-14"}},
 {"key":"otel.dropped_attributes_count","value":{"stringValue":"3"}},{"key":"otel.dropped_events_count",
 "value":{"stringValue":"4"}},{"key":"otel.dropped_links_count","value":{"stringValue":"5"}},{"key":"otel.library.name",
 "value":{"stringValue":"6"}},{"key":"otel.library.version","value":{"stringValue":"7"}},{"key":"otel.resource.a",
 "value":{"stringValue":"8"}},{"key":"otel.scope.name","value":{"stringValue":"9"}},{"key":"otel.scope.version",
 "value":{"stringValue":"10"}},{"key":"otel.status_code","value":{"stringValue":"11"}},{"key":"otel.status_description",
 "value":{"stringValue":"12"}},{"key":"span.kind","value":{"stringValue":"13"}},{"key":"w3c.tracestate",
 "value":{"stringValue":"14"}}],"events":[{"timeUnixNano":"1000","name":"e","attributes":[{"key":"error",
 "value":{"stringValue":"1"}},{"key":"event","value":{"stringValue":"2"}},{"key":"otel.attr.event",
 "value":{"stringValue":"3"}}]}]}]}]}]}

a batch of such tags
form jaeger-compact
text-hex 1c180173191c18056572726f7215001801780000191c1602160016041600180161250016001600197c18056572726f7215043100180a6f74656c2e617
 474722e150018013100180f6f74656c2e617474722e6572726f7215001801320018196f74656c2e617474722e6f74656c2e617474722e6572726f721500180133
 0018196f74656c2e617474722e6f74656c2e7265736f757263652e6115001801340018136f74656c2e617474722e7370616e2e6b696e64150018013500180f6f7
 4656c2e7265736f757263652e61150018013600191c1602193c18056576656e74150018016500180f6f74656c2e617474722e6576656e7415001801370018196f
 74656c2e617474722e6f74656c2e617474722e6576656e74150018013800000000

spans of Zipkin with such tags
form zipkin-json
text [{"annotations":[{"timestamp":1,"value":"\"e\":{\"event\":\"8\",\"otel.attr.event\":\"9\"}"}],"id":"0000000000000002",
 "name":"a","tags":{"error":"","otel.attr.":"1","otel.attr.error":"2","otel.attr.otel.attr.error":"3",
 "otel.attr.otel.resource.a":"4","otel.attr.span.kind":"5","otel.resource.a":"6","otel.status_code":"ERROR","span.kind":"7"},
 "traceId":"00000000000000000000000000000001"}]
"#;

// Converts the input of the bench to a form. What is written of it is the next input.
fn go(rt: &impl Abort, alloc: Global, bench: &mut Bench, name: &str, from: &str, to: &str) {
    bench.convert(rt, alloc, from, to);
    bench.run(rt, alloc, WHOLE, NO_FAILS);
    bench.expect_status(rt, name, 0);
    bench.input.clear();
    bench
        .input
        .append(bench.given.output.as_slice())
        .expect(rt, name);
}

// Converts a text to a form, back, and there again: the last output is the first one.
fn expect_again(
    rt: &impl Abort,
    alloc: Global,
    bench: &mut Bench,
    start: &Row,
    target: &str,
) -> Result<(), Fail> {
    let name = start.name();
    let form = start.text("form")?;
    bench.read_input(alloc, start, "text")?;
    go(rt, alloc, bench, name, form, target);
    bench.wanted.hold(rt, 0, bench.given.output.as_slice(), b"");
    go(rt, alloc, bench, name, target, form);
    go(rt, alloc, bench, name, form, target);
    bench.expect_answer(rt, name);
    Ok(())
}

fn expect_each_way(
    rt: &impl Abort,
    alloc: Global,
    bench: &mut Bench,
    start: &Row,
) -> Result<(), Fail> {
    start.expect_keys(&["form", "text", "text-hex"])?;
    for target in &TARGETS {
        expect_again(rt, alloc, bench, start, target)?;
    }
    Ok(())
}

#[test]
fn comes_there_again(rt: HostRuntime) -> Result<(), Fail> {
    let mut bench = Bench::new(&rt, rt.alloc());
    for start in &rows(rt.alloc(), STARTS)? {
        expect_each_way(&rt, rt.alloc(), &mut bench, start)?;
    }
    Ok(())
}
