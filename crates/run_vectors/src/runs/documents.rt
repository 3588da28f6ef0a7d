//! Documents in JSON that differ in one place, and the line that is noted of each.
use crate::bench::{Bench, NO_FAILS, WHOLE};
use crate::told::append_bytes;
use row_tables::{Row, rows};
use std::alloc::Global;
use std::process::Abort;
use std::test::Fail;

// Documents of a form that differ in one place, with what stands before and behind it. They are converted to requests.
const DOCUMENTS: &str = r#"
documents of spans, BadJson of unit 0
form zipkin-json
stops 3 unit 0: cause 10 BadJson
text [1,]

documents of spans, BadShape of unit 0
form zipkin-json
stops 3 unit 0: cause 11 BadShape
text {}
text null

documents of spans, BadShape of unit 1
form zipkin-json
stops 3 unit 1: cause 11 BadShape
text [null]
text [{"traceId":"1","id":1}]
text [{"traceId":"1","id":"1","timestamp":-0}]
text [{"traceId":"1","id":"1","timestamp":1.0}]
text [{"traceId":"1","id":"1","timestamp":1e3}]
text [{"traceId":"1","id":"1","timestamp":"1"}]
text [{"traceId":"1","id":"1","localEndpoint":{"port":65536}}]
text [{"traceId":"1","id":"1","annotations":[null]}]
text [{"traceId":"1","id":"1","tags":{"a":null,"b":1}}]

documents of spans, Missing of unit 1
form zipkin-json
stops 3 unit 1: cause 8 Missing
text [{"id":"1"}]
text [{"traceId":"1"}]
text [{"traceId":null,"id":"1"}]
text [{"traceId":"1","id":"1","annotations":[{"value":"a"}]}]
text [{"id":1,"name":2}]

documents of spans, BadId of unit 1
form zipkin-json
stops 3 unit 1: cause 12 BadId
text [{"traceId":"0","id":"1"}]
text [{"traceId":"1","id":"+1"}]
text [{"traceId":"1","id":"00000000000000001"}]
text [{"traceId":"1","id":"1","parentId":""}]

documents of spans, BadEnum of unit 1
form zipkin-json
stops 3 unit 1: cause 13 BadEnum
text [{"traceId":"1","id":"1","kind":"client"}]
text [{"traceId":"1","id":"1","kind":""}]
text [{"traceId":"1","id":"1","timestamp":18446744073709551,"duration":1,"kind":"x"}]

documents of spans, BadTime of unit 1
form zipkin-json
stops 3 unit 1: cause 16 BadTime
text [{"traceId":"1","id":"1","timestamp":-1}]
text [{"traceId":"1","id":"1","timestamp":18446744073709552}]
text [{"traceId":"1","id":"1","timestamp":18446744073709551,"duration":1}]
text [{"traceId":"1","id":"1","timestamp":18446744073709551,"duration":1,"debug":0}]

documents of spans, BadId of unit 2
form zipkin-json
stops 3 unit 2: cause 12 BadId
text [{"traceId":"1","id":"1"},{"traceId":"1","id":"0"}]

documents of groups, BadJson of unit 0
form otlp-json
stops 3 unit 0: cause 10 BadJson
text {"resourceSpans":[]
text {"resour

documents of groups that are read
form otlp-json
text {"resourceSpans":null}
text {"resourceSpans":[{"resource":{"attributes":[{"value":{"doubleValue":null,"stringValue":""}}]}}]}
text {"resourceSpans":[{"resource":{"attributes":[{"value":{"arrayValue":{"values":[{"arrayValue":{"values":[{"arrayValue":{
 "values":[{"arrayValue":{"values":[{"arrayValue":{"values":[{"arrayValue":{"values":[{"arrayValue":{"values":[{
 "arrayValue":{"values":[{"arrayValue":{"values":[{"arrayValue":{"values":[{"arrayValue":{"values":[{"arrayValue":{"values":
 [{"arrayValue":{"values":[{"arrayValue":{"values":[{"arrayValue":{"values":[
 {}]}}]}}]}}]}}]}}]}}]}}]}}]}}]}}]}}]}}]}}]}}]}}}]}}]}
text {"resourceSpans":[{"resource":{"attributes":[{"value":{"arrayValue":{"values":[{"arrayValue":{"values":[{"arrayValue":{
 "values":[{"arrayValue":{"values":[{"arrayValue":{"values":[{"arrayValue":{"values":[{"arrayValue":{"values":[{
 "arrayValue":{"values":[{"arrayValue":{"values":[{"arrayValue":{"values":[{"arrayValue":{"values":[{"arrayValue":{"values":
 [{"arrayValue":{"values":[{"arrayValue":{"values":[{"arrayValue":{"values":[{"arrayValue":{"values":[
 {}]}}]}}]}}]}}]}}]}}]}}]}}]}}]}}]}}]}}]}}]}}]}}]}}}]}}]}

documents of groups, BadShape of unit 2
form otlp-json
stops 3 unit 2: cause 11 BadShape
text {"resourceSpans":[{},{"schemaUrl":1}]}
text {"resourceSpans":[{},7]}

documents of groups, BadId of unit 2
form otlp-json
stops 3 unit 2: cause 12 BadId
text {"resourceSpans":[{},{"scopeSpans":[{"spans":[{}]}]}]}

documents of groups, DoubleInJson of unit 1
form otlp-json
stops 3 unit 1: cause 15 DoubleInJson
text {"resourceSpans":[{"resource":{"attributes":[{"value":{"doubleValue":1}}]}}]}
text {"resourceSpans":[{"scopeSpans":[{"spans":[{}],"scope":{"attributes":[{"value":{"doubleValue":1}}]}}]}]}

documents of groups, BadShape of unit 1
form otlp-json
stops 3 unit 1: cause 11 BadShape
text {"resourceSpans":[{"scopeSpans":1},{"scopeSpans":[{"spans":[{}]}]}]}
text {"resourceSpans":[{"resource":{"attributes":[{"value":{"doubleValue":1,"stringValue":""}}]}}]}

documents of groups, TooDeep of unit 1
form otlp-json
stops 3 unit 1: cause 5 TooDeep
text {"resourceSpans":[{"resource":{"attributes":[{"value":{"arrayValue":{"values":[{"arrayValue":{"values":[{"arrayValue":{
 "values":[{"arrayValue":{"values":[{"arrayValue":{"values":[{"arrayValue":{"values":[{"arrayValue":{"values":[{
 "arrayValue":{"values":[{"arrayValue":{"values":[{"arrayValue":{"values":[{"arrayValue":{"values":[{"arrayValue":{"values":
 [{"arrayValue":{"values":[{"arrayValue":{"values":[{"arrayValue":{"values":[{"arrayValue":{"values":[{"arrayValue":{
 "values":[{"arrayValue":{"values":[{"arrayValue":{"values":[{"arrayValue":{"values":[{"arrayValue":{"values":[{
 "arrayValue":{"values":[{"arrayValue":{"values":[{"arrayValue":{"values":[
 {}]}}]}}]}}]}}]}}]}}]}}]}}]}}]}}]}}]}}]}}]}}]}}]}}]}}]}}]}}]}}]}}]}}]}}]}}}]}}]}

members of a span that are read
form otlp-json
front @MEMBERS
back }]}]}]}
text "traceId":"0AF7651916CD43DD8448EB211C80319C"
text "parentSpanId":""
text "parentSpanId":"0000000000000000"
text "kind":5
text "status":{"code":2}
text "links":[{}]
text "attributes":[{"value":{"bytesValue":"AA=="}}]

members of a span, BadId of unit 1
form otlp-json
front @MEMBERS
back }]}]}]}
stops 3 unit 1: cause 12 BadId
text "traceId":null
text "traceId":"00000000000000000000000000000000"
text "traceId":"8448eb211c80319c"
text "traceId":"CvdlGRbNQ92ESOshHIAxnA=="
text "spanId":"t61rcWkgMzE="
text "parentSpanId":"0"
text "links":[{"spanId":"0"}]
text "traceId":""
text "traceId":"0000000000000000000000000000001"
text "spanId":"000000000000002g"
text "spanId":"00000000000000002"
text "spanId":"AAAAAAAAAAI="
text "parentSpanId":"2"
text "parentSpanId":"AAAAAAAAAAI="
text "links":[{"traceId":"0"}]
text "links":[{"spanId":"00000000000000000"}]

members of a span, BadShape of unit 1
form otlp-json
front @MEMBERS
back }]}]}]}
stops 3 unit 1: cause 11 BadShape
text "traceId":1
text "kind":3.0
text "kind":"SPAN_KIND_CLIENT"
text "events":[{"timeUnixNano":"1.0"}]
text "attributes":[{"value":{"bytesValue":"AA"}}]
text "attributes":[{"value":{"bytesValue":"AB=="}}]
text "attributes":[{"value":{"bytesValue":"-_8="}}]
text "attributes":{}
text "kind":"SPAN_KIND_SERVER"
text "kind":"1"
text "kind":1.0
text "status":{"code":"STATUS_CODE_OK"}
text "status":7
text "name":7
text "attributes":[null]
text "attributes":[{"key":1}]
text "traceId":7
text "flags":4294967296
text "flags":"4294967296"
text "flags":-1
text "flags":"-1"
text "droppedLinksCount":"4294967296"
text "events":[{"droppedAttributesCount":4294967296}]
text "startTimeUnixNano":18446744073709551616
text "startTimeUnixNano":"18446744073709551616"
text "endTimeUnixNano":-1
text "endTimeUnixNano":"-1"
text "events":[{"timeUnixNano":"340282366920938463463374607431768211456"}]
text "events":[{"timeUnixNano":-9223372036854775809}]
text "startTimeUnixNano":-0
text "startTimeUnixNano":1.0
text "startTimeUnixNano":1e3
text "startTimeUnixNano":"1.0"
text "startTimeUnixNano":"1e3"
text "startTimeUnixNano":"+1"
text "startTimeUnixNano":""
text "startTimeUnixNano":"-"
text "startTimeUnixNano":" 1"
text "startTimeUnixNano":"1 "
text "startTimeUnixNano":"0x1"
text "startTimeUnixNano":"١"
text "startTimeUnixNano":true
text "flags":9223372036854775807
text "flags":"9223372036854775807"
text "flags":9223372036854775808
text "flags":"9223372036854775808"
text "flags":18446744073709551615
text "flags":"18446744073709551615"
text "flags":18446744073709551616
text "flags":"18446744073709551616"
text "flags":-9223372036854775808
text "flags":"-9223372036854775808"
text "flags":-9223372036854775809
text "flags":"-9223372036854775809"
text "startTimeUnixNano":-1
text "startTimeUnixNano":"-1"
text "startTimeUnixNano":-9223372036854775808
text "startTimeUnixNano":"-9223372036854775808"
text "startTimeUnixNano":-9223372036854775809
text "startTimeUnixNano":"-9223372036854775809"
text "flags":"340282366920938463463374607431768211456"
text "startTimeUnixNano":"340282366920938463463374607431768211456"
text "flags":1.0
text "flags":1e3
text "flags":"1.0"
text "flags":"+1"
text "flags":" 1"
text "flags":"-"
text "flags":""

members of a span, BadEnum of unit 1
form otlp-json
front @MEMBERS
back }]}]}]}
stops 3 unit 1: cause 13 BadEnum
text "kind":6
text "kind":-1
text "status":{"code":3}
text "status":{"code":-1}

values of an attribute, DoubleInJson of unit 1
form otlp-json
front @VALUE
back }]}]}]}]}
stops 3 unit 1: cause 15 DoubleInJson
text {"doubleValue":1.5}
text {"doubleValue":"NaN"}

values of an attribute, BadShape of unit 1
form otlp-json
front @VALUE
back }]}]}]}]}
stops 3 unit 1: cause 11 BadShape
text {"doubleValue":1,"intValue":1}
text {"stringValue":7,"boolValue":"x"}
text "x"
text {"intValue":9223372036854775808}
text {"intValue":"-9223372036854775809"}
text {"boolValue":"true"}
text {"bytesValue":"/+9="}
text {"bytesValue":"_-8="}
text {"bytesValue":"/+8"}
text {"arrayValue":[]}
text {"arrayValue":{"values":[{"arrayValue":{"values":[{"arrayValue":{"values":[{"arrayValue":{"values":[{"arrayValue":{
 "values":[{"arrayValue":{"values":[{"arrayValue":{"values":[{"arrayValue":{"values":[{"arrayValue":{"values":[{
 "arrayValue":{"values":[{"arrayValue":{"values":[{"arrayValue":{"values":[{"arrayValue":{"values":[{"arrayValue":{"values":
 [{"arrayValue":{"values":[{"arrayValue":{"values":7}}]}}]}}]}}]}}]}}]}}]}}]}}]}}]}}]}}]}}]}}]}}]}}
text {"arrayValue":{"values":[{"boolValue":1},{"arrayValue":{"values":[{"arrayValue":{"values":[{"arrayValue":{"values":[{
 "arrayValue":{"values":[{"arrayValue":{"values":[{"arrayValue":{"values":[{"arrayValue":{"values":[{"arrayValue":{"values":
 [{"arrayValue":{"values":[{"arrayValue":{"values":[{"arrayValue":{"values":[{"arrayValue":{"values":[{"arrayValue":{
 "values":[{"arrayValue":{"values":[{"arrayValue":{"values":[{"arrayValue":{}}]}}]}}]}}]}}]}}]}}]}}]}}]}}]}}]}}]}}]}}]}}]}}]}}
text {"intValue":"9223372036854775808"}
text {"intValue":18446744073709551615}
text {"intValue":"18446744073709551615"}
text {"intValue":18446744073709551616}
text {"intValue":"18446744073709551616"}
text {"intValue":-9223372036854775809}
text {"intValue":"340282366920938463463374607431768211456"}
text {"intValue":1.0}
text {"intValue":1e3}
text {"intValue":"1.0"}
text {"intValue":"+1"}
text {"intValue":" 1"}
text {"intValue":"-"}
text {"intValue":""}
text {"arrayValue":{"values":[{"arrayValue":{"values":[{"arrayValue":{"values":[{"arrayValue":{"values":[{"arrayValue":{
 "values":[{"arrayValue":{"values":[{"arrayValue":{"values":[{"arrayValue":{"values":[{"arrayValue":{"values":[{
 "arrayValue":{"values":[{"arrayValue":{"values":[{"arrayValue":{"values":[{"arrayValue":{"values":[{"arrayValue":{"values":
 [{"arrayValue":{"values":[{"arrayValue":{"values":[{"arrayValue":{"values":[{"arrayValue":{"values":[{"arrayValue":{
 "values":[{"arrayValue":{"values":[{"arrayValue":{"values":[{"arrayValue":{"values":[{"arrayValue":{"values":[{
 "arrayValue":{"values":7}}]}}]}}]}}]}}]}}]}}]}}]}}]}}]}}]}}]}}]}}]}}]}}]}}]}}]}}]}}]}}]}}]}}]}}
text {"arrayValue":{"values":[{"boolValue":1},{"arrayValue":{"values":[{"arrayValue":{"values":[{"arrayValue":{"values":[{
 "arrayValue":{"values":[{"arrayValue":{"values":[{"arrayValue":{"values":[{"arrayValue":{"values":[{"arrayValue":{"values":
 [{"arrayValue":{"values":[{"arrayValue":{"values":[{"arrayValue":{"values":[{"arrayValue":{"values":[{"arrayValue":{
 "values":[{"arrayValue":{"values":[{"arrayValue":{"values":[{"arrayValue":{"values":[{"arrayValue":{"values":[{
 "arrayValue":{"values":[{"arrayValue":{"values":[{"arrayValue":{"values":[{"arrayValue":{"values":[{"arrayValue":{"values":
 [{"arrayValue":{"values":[{"arrayValue":{"values":[{"arrayValue":
 {}}]}}]}}]}}]}}]}}]}}]}}]}}]}}]}}]}}]}}]}}]}}]}}]}}]}}]}}]}}]}}]}}]}}]}}]}}]}}
text {"arrayValue":{"values":[{"arrayValue":{"values":[{"arrayValue":{"values":[{"arrayValue":{"values":[{"arrayValue":{
 "values":[{"arrayValue":{"values":[{"arrayValue":{"values":[{"arrayValue":{"values":[{"arrayValue":{"values":[{
 "arrayValue":{"values":[{"arrayValue":{"values":[{"arrayValue":{"values":[{"arrayValue":{"values":[{"arrayValue":{"values":
 [{"arrayValue":{"values":[{"arrayValue":{"values":[7]}}]}}]}}]}}]}}]}}]}}]}}]}}]}}]}}]}}]}}]}}]}}]}}
text {"arrayValue":{"values":[{"arrayValue":{"values":[{"arrayValue":{"values":[{"arrayValue":{"values":[{"arrayValue":{
 "values":[{"arrayValue":{"values":[{"arrayValue":{"values":[{"arrayValue":{"values":[{"arrayValue":{"values":[{
 "arrayValue":{"values":[{"arrayValue":{"values":[{"arrayValue":{"values":[{"arrayValue":{"values":[{"arrayValue":{"values":
 [{"arrayValue":{"values":[{"arrayValue":{"values":[{"arrayValue":{}}]}}]}}]}}]}}]}}]}}]}}]}}]}}]}}]}}]}}]}}]}}]}},{
 "boolValue":1}]}}

values of an attribute, TooDeep of unit 1
form otlp-json
front @VALUE
back }]}]}]}]}
stops 3 unit 1: cause 5 TooDeep
text {"arrayValue":{"values":[{"arrayValue":{"values":[{"arrayValue":{"values":[{"arrayValue":{"values":[{"arrayValue":{
 "values":[{"arrayValue":{"values":[{"arrayValue":{"values":[{"arrayValue":{"values":[{"arrayValue":{"values":[{
 "arrayValue":{"values":[{"arrayValue":{"values":[{"arrayValue":{"values":[{"arrayValue":{"values":[{"arrayValue":{"values":
 [{"arrayValue":{"values":[{"arrayValue":{"values":[{"arrayValue":{"values":[{"arrayValue":{"values":[{"arrayValue":{
 "values":[{"arrayValue":{"values":[{"arrayValue":{"values":[{"arrayValue":{"values":[{"arrayValue":{"values":[{
 "arrayValue":{"values":[{"arrayValue":{}}]}}]}}]}}]}}]}}]}}]}}]}}]}}]}}]}}]}}]}}]}}]}}]}}]}}]}}]}}]}}]}}]}}]}}]}}
text {"kvlistValue":{"values":[{"value":{"kvlistValue":{"values":[{"value":{"kvlistValue":{"values":[{"value":{
 "kvlistValue":{"values":[{"value":{"kvlistValue":{"values":[{"value":{"kvlistValue":{"values":[{"value":{"kvlistValue":{
 "values":[{"value":{"kvlistValue":{"values":[{"value":{"kvlistValue":{"values":[{"value":{"kvlistValue":{"values":[{
 "value":{"kvlistValue":{"values":[{"value":{"kvlistValue":{"values":[{"value":{"kvlistValue":{"values":[{"value":{
 "kvlistValue":{"values":[{"value":{"kvlistValue":{"values":[{"value":{"kvlistValue":{"values":[{"value":{"kvlistValue":{
 "values":[{"value":{"kvlistValue":{"values":[{"value":{"kvlistValue":{"values":[{"value":{"kvlistValue":{"values":[{
 "value":{"kvlistValue":{"values":[{"value":{"kvlistValue":{"values":[{"value":{"kvlistValue":{"values":[{"value":{
 "kvlistValue":{"values":[{"value":{"kvlistValue":
 {}}}]}}}]}}}]}}}]}}}]}}}]}}}]}}}]}}}]}}}]}}}]}}}]}}}]}}}]}}}]}}}]}}}]}}}]}}}]}}}]}}}]}}}]}}}]}}}]}}
text {"arrayValue":{"values":[{"arrayValue":{"values":[{"arrayValue":{"values":[{"arrayValue":{"values":[{"arrayValue":{
 "values":[{"arrayValue":{"values":[{"arrayValue":{"values":[{"arrayValue":{"values":[{"arrayValue":{"values":[{
 "arrayValue":{"values":[{"arrayValue":{"values":[{"arrayValue":{"values":[{"arrayValue":{"values":[{"arrayValue":{"values":
 [{"arrayValue":{"values":[{"arrayValue":{"values":[{"arrayValue":{"values":[{"arrayValue":{"values":[{"arrayValue":{
 "values":[{"arrayValue":{"values":[{"arrayValue":{"values":[{"arrayValue":{"values":[{"arrayValue":{"values":[{
 "arrayValue":{"values":[{}]}}]}}]}}]}}]}}]}}]}}]}}]}}]}}]}}]}}]}}]}}]}}]}}]}}]}}]}}]}}]}}]}}]}}]}}
text {"arrayValue":{"values":[{"arrayValue":{"values":[{"arrayValue":{"values":[{"arrayValue":{"values":[{"arrayValue":{
 "values":[{"arrayValue":{"values":[{"arrayValue":{"values":[{"arrayValue":{"values":[{"arrayValue":{"values":[{
 "arrayValue":{"values":[{"arrayValue":{"values":[{"arrayValue":{"values":[{"arrayValue":{"values":[{"arrayValue":{"values":
 [{"arrayValue":{"values":[{"arrayValue":{"values":[{"arrayValue":{"values":[{"arrayValue":{"values":[{"arrayValue":{
 "values":[{"arrayValue":{"values":[{"arrayValue":{"values":[{"arrayValue":{"values":[{"arrayValue":{"values":[{
 "arrayValue":{"values":[7]}}]}}]}}]}}]}}]}}]}}]}}]}}]}}]}}]}}]}}]}}]}}]}}]}}]}}]}}]}}]}}]}}]}}]}}
text {"kvlistValue":{"values":[{"value":{"kvlistValue":{"values":[{"value":{"kvlistValue":{"values":[{"value":{
 "kvlistValue":{"values":[{"value":{"kvlistValue":{"values":[{"value":{"kvlistValue":{"values":[{"value":{"kvlistValue":{
 "values":[{"value":{"kvlistValue":{"values":[{"value":{"kvlistValue":{"values":[{"value":{"kvlistValue":{"values":[{
 "value":{"kvlistValue":{"values":[{"value":{"kvlistValue":{"values":[{"value":{"kvlistValue":{"values":[{"value":{
 "kvlistValue":{"values":[{"value":{"kvlistValue":{"values":[{"value":{"kvlistValue":{"values":[{"value":{"kvlistValue":{
 "values":[{"value":{"kvlistValue":{"values":[{"value":{"kvlistValue":{"values":[{"value":{"kvlistValue":{"values":[{
 "value":{"kvlistValue":{"values":[{"value":{"kvlistValue":{"values":[{"value":{"kvlistValue":{"values":[{"value":{
 "kvlistValue":{"values":[{}]}}}]}}}]}}}]}}}]}}}]}}}]}}}]}}}]}}}]}}}]}}}]}}}]}}}]}}}]}}}]}}}]}}}]}}}]}}}]}}}]}}}]}}}]}}}]}}
text {"arrayValue":{"values":[{"arrayValue":{"values":[{"arrayValue":{"values":[{"arrayValue":{"values":[{"arrayValue":{
 "values":[{"arrayValue":{"values":[{"arrayValue":{"values":[{"arrayValue":{"values":[{"arrayValue":{"values":[{
 "arrayValue":{"values":[{"arrayValue":{"values":[{"arrayValue":{"values":[{"arrayValue":{"values":[{"arrayValue":{"values":
 [{"arrayValue":{"values":[{"arrayValue":{"values":[{"arrayValue":{"values":[{"arrayValue":{"values":[{"arrayValue":{
 "values":[{"arrayValue":{"values":[{"arrayValue":{"values":[{"arrayValue":{"values":[{"arrayValue":{"values":[{
 "arrayValue":{"values":[{"arrayValue":{}}]}}]}}]}}]}}]}}]}}]}}]}}]}}]}}]}}]}}]}}]}}]}}]}}]}}]}}]}}]}}]}}]}}]}},{
 "boolValue":1}]}}

values of an attribute that are read
form otlp-json
front @VALUE
back }]}]}]}]}
text {"arrayValue":{"values":[{"arrayValue":{"values":[{"arrayValue":{"values":[{"arrayValue":{"values":[{"arrayValue":{
 "values":[{"arrayValue":{"values":[{"arrayValue":{"values":[{"arrayValue":{"values":[{"arrayValue":{"values":[{
 "arrayValue":{"values":[{"arrayValue":{"values":[{"arrayValue":{"values":[{"arrayValue":{"values":[{"arrayValue":{"values":
 [{"arrayValue":{"values":[{"arrayValue":{"values":[{"arrayValue":{}}]}}]}}]}}]}}]}}]}}]}}]}}]}}]}}]}}]}}]}}]}}]}}]}}
text {"kvlistValue":{"values":[{"value":{"kvlistValue":{"values":[{"value":{"kvlistValue":{"values":[{"value":{
 "kvlistValue":{"values":[{"value":{"kvlistValue":{"values":[{"value":{"kvlistValue":{"values":[{"value":{"kvlistValue":{
 "values":[{"value":{"kvlistValue":{"values":[{"value":{"kvlistValue":{"values":[{"value":{"kvlistValue":{"values":[{
 "value":{"kvlistValue":{"values":[{"value":{"kvlistValue":{"values":[{"value":{"kvlistValue":{"values":[{"value":{
 "kvlistValue":{"values":[{"value":{"kvlistValue":{"values":[{"value":{"kvlistValue":{"values":[{"value":{"kvlistValue":
 {}}}]}}}]}}}]}}}]}}}]}}}]}}}]}}}]}}}]}}}]}}}]}}}]}}}]}}}]}}}]}}}]}}
text {"arrayValue":{"values":[{"arrayValue":{"values":[{"arrayValue":{"values":[{"arrayValue":{"values":[{"arrayValue":{
 "values":[{"arrayValue":{"values":[{"arrayValue":{"values":[{"arrayValue":{"values":[{"arrayValue":{"values":[{
 "arrayValue":{"values":[{"arrayValue":{"values":[{"arrayValue":{"values":[{"arrayValue":{"values":[{"arrayValue":{"values":
 [{"arrayValue":{"values":[{"arrayValue":{"values":[{}]}}]}}]}}]}}]}}]}}]}}]}}]}}]}}]}}]}}]}}]}}]}}]}}
text {"kvlistValue":{"values":[{"value":{"kvlistValue":{"values":[{"value":{"kvlistValue":{"values":[{"value":{
 "kvlistValue":{"values":[{"value":{"kvlistValue":{"values":[{"value":{"kvlistValue":{"values":[{"value":{"kvlistValue":{
 "values":[{"value":{"kvlistValue":{"values":[{"value":{"kvlistValue":{"values":[{"value":{"kvlistValue":{"values":[{
 "value":{"kvlistValue":{"values":[{"value":{"kvlistValue":{"values":[{"value":{"kvlistValue":{"values":[{"value":{
 "kvlistValue":{"values":[{"value":{"kvlistValue":{"values":[{"value":{"kvlistValue":{"values":[
 {}]}}}]}}}]}}}]}}}]}}}]}}}]}}}]}}}]}}}]}}}]}}}]}}}]}}}]}}}]}}}]}}
"#;

const KEYS: [&str; 5] = ["form", "front", "back", "stops", "text"];

// Converts the document with this text where documents differ.
fn expect_document(
    rt: &impl Abort,
    alloc: Global,
    bench: &mut Bench,
    row: &Row,
    text: &str,
) -> Result<(), Fail> {
    bench.read_input(alloc, row, "front")?;
    bench.input.append(text.as_bytes())?;
    append_bytes(alloc, row, "back", &mut bench.input)?;
    bench.run(rt, alloc, WHOLE, NO_FAILS);
    bench.expect_ending(rt, text);
    Ok(())
}

fn expect_documents(
    rt: &impl Abort,
    alloc: Global,
    bench: &mut Bench,
    row: &Row,
) -> Result<(), Fail> {
    row.expect_keys(&KEYS)?;
    bench.convert(rt, alloc, row.text("form")?, "otlp-proto");
    bench.read_ending(alloc, row)?;
    for field in row.fields() {
        if field.key() == "text" {
            expect_document(rt, alloc, bench, row, field.text())?;
        }
    }
    Ok(())
}

#[test]
fn reads_documents(rt: HostRuntime) -> Result<(), Fail> {
    let mut bench = Bench::new(&rt, rt.alloc());
    for row in &rows(rt.alloc(), DOCUMENTS)? {
        expect_documents(&rt, rt.alloc(), &mut bench, row)?;
    }
    Ok(())
}
