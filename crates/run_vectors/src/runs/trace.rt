//! One trace in each form.
use super::CUTS;
use crate::bench::{Bench, NO_FAILS};
use row_tables::{Row, rows};
use std::alloc::Global;
use std::process::Abort;
use std::test::Fail;

// The trace: each text is what is written of each.
const TRACE: &str = r#"
otlp-proto
text-hex 0add010a2b0a110a09686f73742e6e616d6512040a026e310a160a0c736572766963652e6e616d6512060a0473686f7012ad010a0a0a036c69
 621203312e30129e010a100af7651916cd43dd8448eb211c80319c1208b7ad6b71692033311a03613d62220800f067aa0ba902b72a09474554202f6361
 727430033900ca853dfe9c97174100ab7b43fe9c97174a1c0a13687474702e726571756573742e6d6574686f6412050a0347455450015a200900c21542
 fe9c9717120572657472791a0e0a07617474656d707412030a0132600270037a0c12086465636c696e65641802

otlp-json
text {"resourceSpans":[{"resource":{"attributes":[{"key":"host.name","value":{"stringValue":"n1"}},{"key":"service.name",
 "value":{"stringValue":"shop"}}]},"scopeSpans":[{"scope":{"name":"lib","version":"1.0"},
 "spans":[{"attributes":[{"key":"http.request.method","value":{"stringValue":"GET"}}],"droppedAttributesCount":1,
 "droppedEventsCount":2,"droppedLinksCount":3,"endTimeUnixNano":"1700000000223456000",
 "events":[{"attributes":[{"key":"attempt","value":{"stringValue":"2"}}],"name":"retry",
 "timeUnixNano":"1700000000200000000"}],"kind":3,"name":"GET /cart","parentSpanId":"00f067aa0ba902b7",
 "spanId":"b7ad6b7169203331","startTimeUnixNano":"1700000000123456000","status":{"code":2,"message":"declined"},
 "traceId":"0af7651916cd43dd8448eb211c80319c","traceState":"a=b"}]}]}]}

jaeger-binary
text-hex 0c00010b00010000000473686f700f00020c000000010b000100000009686f73742e6e616d65080002000000000b0003000000026e3100000f
 00020c000000010a00018448eb211c80319c0a00020af7651916cd43dd0a0003b7ad6b71692033310a000400f067aa0ba902b70b000500000009474554
 202f63617274080007000000000a000800060a24182022400a000900000000000186a00f000a0c0000000b0b0001000000056572726f72080002000000
 0202000501000b000100000013687474702e726571756573742e6d6574686f64080002000000000b000300000003474554000b00010000001d6f74656c
 2e64726f707065645f617474726962757465735f636f756e74080002000000030a00060000000000000001000b0001000000196f74656c2e64726f7070
 65645f6576656e74735f636f756e74080002000000030a00060000000000000002000b0001000000186f74656c2e64726f707065645f6c696e6b735f63
 6f756e74080002000000030a00060000000000000003000b00010000000f6f74656c2e73636f70652e6e616d65080002000000000b0003000000036c69
 62000b0001000000126f74656c2e73636f70652e76657273696f6e080002000000000b000300000003312e30000b0001000000106f74656c2e73746174
 75735f636f6465080002000000000b0003000000054552524f52000b0001000000176f74656c2e7374617475735f6465736372697074696f6e08000200
 0000000b0003000000086465636c696e6564000b0001000000097370616e2e6b696e64080002000000000b000300000006636c69656e74000b00010000
 000e7733632e74726163657374617465080002000000000b000300000003613d62000f000b0c000000010a000100060a2418214d400f00020c00000002
 0b000100000007617474656d7074080002000000000b00030000000132000b0001000000056576656e74080002000000000b0003000000057265747279
 00000000

jaeger-compact
text-hex 1c180473686f70191c1809686f73742e6e616d65150018026e310000191c16c7b9feb7dcb78ab7f70116ba8feaeca2c6b2f715169db3feedd2
 a3cad2900116ee8ac8bac1eab3f0011809474554202f63617274250016808981828389850616c09a0c19bc18056572726f72150431001813687474702e
 726571756573742e6d6574686f641500180347455400181d6f74656c2e64726f707065645f617474726962757465735f636f756e74150646020018196f
 74656c2e64726f707065645f6576656e74735f636f756e74150646040018186f74656c2e64726f707065645f6c696e6b735f636f756e74150646060018
 0f6f74656c2e73636f70652e6e616d65150018036c69620018126f74656c2e73636f70652e76657273696f6e15001803312e300018106f74656c2e7374
 617475735f636f6465150018054552524f520018176f74656c2e7374617475735f6465736372697074696f6e150018086465636c696e65640018097370
 616e2e6b696e6415001806636c69656e7400180e7733632e7472616365737461746515001803613d6200191c1680b58a8283898506192c180761747465
 6d707415001801320018056576656e7415001805726574727900000000

zipkin-json
text [{"annotations":[{"timestamp":1700000000200000,"value":"\"retry\":{\"attempt\":\"2\"}"}],"duration":100000,
 "id":"b7ad6b7169203331","kind":"CLIENT","localEndpoint":{"serviceName":"shop"},"name":"GET /cart",
 "parentId":"00f067aa0ba902b7","tags":{"error":"declined","http.request.method":"GET","otel.dropped_attributes_count":"1",
 "otel.dropped_events_count":"2","otel.dropped_links_count":"3","otel.resource.host.name":"n1","otel.scope.name":"lib",
 "otel.scope.version":"1.0","otel.status_code":"ERROR","w3c.tracestate":"a=b"},"timestamp":1700000000123456,
 "traceId":"0af7651916cd43dd8448eb211c80319c"}]
"#;

// What `show` and `check` say of it, whichever form it is in.
const SHOWN: &str = "0af7651916cd43dd8448eb211c80319c b7ad6b7169203331 00f067aa0ba902b7 CLIENT \
    1700000000123456000 1700000000223456000 ERROR \"GET /cart\"\n";

const CHECKED: &str = "units 1, spans 1, remarks 0\n";

// Runs the words of the bench on the trace in a form.
fn expect_run(rt: &impl Abort, alloc: Global, bench: &mut Bench, from: &Row) -> Result<(), Fail> {
    from.expect_keys(&["text", "text-hex"])?;
    bench.read_input(alloc, from, "text")?;
    bench.expect_cuts(rt, alloc, from.name(), &CUTS, NO_FAILS);
    Ok(())
}

fn expect_each(
    rt: &impl Abort,
    alloc: Global,
    bench: &mut Bench,
    from: &Row,
    forms: &[Row],
) -> Result<(), Fail> {
    for to in forms {
        bench.convert(rt, alloc, from.name(), to.name());
        bench.read_output(alloc, to, "text")?;
        expect_run(rt, alloc, bench, from)?;
    }
    Ok(())
}

#[test]
fn converts_each_form_to_each(rt: HostRuntime) -> Result<(), Fail> {
    let mut bench = Bench::new(&rt, rt.alloc());
    let forms = rows(rt.alloc(), TRACE)?;
    for from in &forms {
        expect_each(&rt, rt.alloc(), &mut bench, from, forms.as_slice())?;
    }
    Ok(())
}

fn expect_report(
    rt: &impl Abort,
    alloc: Global,
    bench: &mut Bench,
    from: &Row,
    (mode, told): (&str, &str),
) -> Result<(), Fail> {
    bench.report(rt, alloc, mode, from.name());
    bench.wanted.hold(rt, 0, told.as_bytes(), b"");
    expect_run(rt, alloc, bench, from)
}

#[test]
fn reports_each_form(rt: HostRuntime) -> Result<(), Fail> {
    let mut bench = Bench::new(&rt, rt.alloc());
    for from in &rows(rt.alloc(), TRACE)? {
        expect_report(&rt, rt.alloc(), &mut bench, from, ("show", SHOWN))?;
        expect_report(&rt, rt.alloc(), &mut bench, from, ("check", CHECKED))?;
    }
    Ok(())
}
