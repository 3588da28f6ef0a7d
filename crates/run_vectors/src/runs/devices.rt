//! Words, and devices that fail: what a run answers.

/// Notes that fail at a call keep what they gained, and change no status.
pub const CASES: &str = r#"
the first read fails
run convert --from otlp-proto --to otlp-proto
input-hex @ONE_SPAN
input-fails 1
stops 5 input failed

the second read fails
run convert --from otlp-proto --to otlp-proto
input-hex @ONE_SPAN
input-fails 2
output-hex @ONE_SPAN
stops 5 input failed

a write fails
run convert --from otlp-proto --to otlp-proto
input-hex @ONE_SPAN
output-fails 1
stops 6 output failed

the first call of the notes fails
run convert --from otlp-proto --to otlp-proto
input-hex 0a
notes-fail 1
status 3

the second call of the notes fails
run convert --from otlp-proto --to otlp-proto
input-hex 0a
notes-fail 2
status 3
note-lines unit\x20

the third call of the notes fails
run convert --from otlp-proto --to otlp-proto
input-hex 0a
notes-fail 3
status 3
note unit 1

the fourth call of the notes fails
run convert --from otlp-proto --to otlp-proto
input-hex 0a
notes-fail 4
status 3
note-lines unit 1: cause\x20

the fifth call of the notes fails
run convert --from otlp-proto --to otlp-proto
input-hex 0a
notes-fail 5
status 3
note unit 1: cause 1

the sixth call of the notes fails
run convert --from otlp-proto --to otlp-proto
input-hex 0a
notes-fail 6
status 3
note-lines unit 1: cause 1\x20

the seventh call of the notes fails
run convert --from otlp-proto --to otlp-proto
input-hex 0a
notes-fail 7
status 3
note unit 1: cause 1 Truncated

notes that fail where there is nothing to note
run convert --from otlp-proto --to otlp-proto
input-hex 0a00
notes-fail 1
output-hex 0a00

notes that fail at the usage
run --help
input-hex 0a00
notes-fail 1
status 2

notes that fail behind a read
run convert --from otlp-proto --to otlp-proto
input-hex 0a00
input-fails 1
notes-fail 1
status 5

notes that fail behind a write
run convert --from otlp-proto --to otlp-proto
input-hex 0a00
output-fails 1
notes-fail 1
status 6

options in the other order
run convert --to otlp-proto --from otlp-proto
input-hex @ONE_SPAN
output-hex @ONE_SPAN

no word
run
input-hex @ONE_SPAN
input-fails 1
output-fails 1
stops 2 usage: spanx convert|losses|show|check|headers|gauge|serve OPTIONS

no option
run convert
input-hex @ONE_SPAN
input-fails 1
output-fails 1
stops 2 usage: spanx convert|losses|show|check|headers|gauge|serve OPTIONS

no target
run convert --from otlp-proto
input-hex @ONE_SPAN
input-fails 1
output-fails 1
stops 2 usage: spanx convert|losses|show|check|headers|gauge|serve OPTIONS

an option twice
run convert --from otlp-proto --from otlp-proto
input-hex @ONE_SPAN
input-fails 1
output-fails 1
stops 2 usage: spanx convert|losses|show|check|headers|gauge|serve OPTIONS

no form
run convert --from otlp-proto --to otlp
input-hex @ONE_SPAN
input-fails 1
output-fails 1
stops 2 usage: spanx convert|losses|show|check|headers|gauge|serve OPTIONS

a word too many
run convert --from otlp-proto --to otlp-proto more
input-hex @ONE_SPAN
input-fails 1
output-fails 1
stops 2 usage: spanx convert|losses|show|check|headers|gauge|serve OPTIONS

a command in other letters
run Convert --from otlp-proto --to otlp-proto
input-hex @ONE_SPAN
input-fails 1
output-fails 1
stops 2 usage: spanx convert|losses|show|check|headers|gauge|serve OPTIONS

an option for a command
run --help
input-hex @ONE_SPAN
input-fails 1
output-fails 1
stops 2 usage: spanx convert|losses|show|check|headers|gauge|serve OPTIONS
"#;

/// The same of header lines.
pub const HEADER_CASES: &str = r#"
no option for headers
run headers
input-hex @ONE_SPAN
input-fails 1
output-fails 1
stops 2 usage: spanx convert|losses|show|check|headers|gauge|serve OPTIONS

no form of headers
run headers --to
input-hex @ONE_SPAN
input-fails 1
output-fails 1
stops 2 usage: spanx convert|losses|show|check|headers|gauge|serve OPTIONS

a form of spans for headers
run headers --to zipkin-json
input-hex @ONE_SPAN
input-fails 1
output-fails 1
stops 2 usage: spanx convert|losses|show|check|headers|gauge|serve OPTIONS

a form of headers in other letters
run headers --to B3
input-hex @ONE_SPAN
input-fails 1
output-fails 1
stops 2 usage: spanx convert|losses|show|check|headers|gauge|serve OPTIONS

a source for headers
run headers --from w3c --to b3
input-hex @ONE_SPAN
input-fails 1
output-fails 1
stops 2 usage: spanx convert|losses|show|check|headers|gauge|serve OPTIONS

an option of headers twice
run headers --to b3 --to b3
input-hex @ONE_SPAN
input-fails 1
output-fails 1
stops 2 usage: spanx convert|losses|show|check|headers|gauge|serve OPTIONS

a form of headers for spans
run convert --from otlp-proto --to b3
input-hex @ONE_SPAN
input-fails 1
output-fails 1
stops 2 usage: spanx convert|losses|show|check|headers|gauge|serve OPTIONS

the first read of headers fails
run headers --to b3
input-lines b3: 1\n
input-fails 1
stops 5 input failed

the second read of headers fails
run headers --to b3
input-lines b3\n
input-fails 2
stops 5 input failed

the write of headers fails
run headers --to b3
input-lines b3: 1\n
output-fails 1
stops 6 output failed

no write of headers that are refused
run headers --to b3
input-lines b3\n
output-fails 1
stops 3 cause 30 HeaderLine

the notes on headers fail
run headers --to b3
input-lines b3\n
notes-fail 1
status 3

headers, and nothing to note
run headers --to b3
input-lines b3: 1\n
notes-fail 1
output-lines b3: 1\n
"#;

/// The same of reports.
pub const REPORT_CASES: &str = r#"
no form to show
run show
input-hex @ONE_SPAN
input-fails 1
output-fails 1
stops 2 usage: spanx convert|losses|show|check|headers|gauge|serve OPTIONS

an option too many for show
run show --from otlp-proto --to otlp-proto
input-hex @ONE_SPAN
input-fails 1
output-fails 1
stops 2 usage: spanx convert|losses|show|check|headers|gauge|serve OPTIONS

the other option for check
run check --to otlp-proto
input-hex @ONE_SPAN
input-fails 1
output-fails 1
stops 2 usage: spanx convert|losses|show|check|headers|gauge|serve OPTIONS

a form of headers to check
run check --from b3
input-hex @ONE_SPAN
input-fails 1
output-fails 1
stops 2 usage: spanx convert|losses|show|check|headers|gauge|serve OPTIONS

the second read fails
run check --from otlp-proto
input-hex @ONE_SPAN
input-fails 2
stops 5 input failed

the one write of show fails
run show --from otlp-proto
input-hex @ONE_SPAN
output-fails 1
stops 6 output failed

no second write of show
run show --from otlp-proto
input-hex @ONE_SPAN
output-fails 2
output-lines 00000000000000000000000000000001 0000000000000002 - UNSPECIFIED 0 0 UNSET "a"\n

the one write of check fails
run check --from otlp-proto
input-hex @ONE_SPAN
output-fails 1
stops 6 output failed

no second write of check
run check --from otlp-proto
input-hex @ONE_SPAN
output-fails 2
output-lines units 1, spans 1, remarks 0\n
"#;

/// The same of losses.
pub const LOSS_CASES: &str = r#"
a source alone for losses
run losses --from otlp-proto
input-hex @ONE_SPAN
input-fails 1
output-fails 1
stops 2 usage: spanx convert|losses|show|check|headers|gauge|serve OPTIONS

a target alone for losses
run losses --to zipkin-json
input-hex @ONE_SPAN
input-fails 1
output-fails 1
stops 2 usage: spanx convert|losses|show|check|headers|gauge|serve OPTIONS

an option of losses twice
run losses --from otlp-proto --from otlp-proto
input-hex @ONE_SPAN
input-fails 1
output-fails 1
stops 2 usage: spanx convert|losses|show|check|headers|gauge|serve OPTIONS

a form of headers for losses
run losses --from otlp-proto --to b3
input-hex @ONE_SPAN
input-fails 1
output-fails 1
stops 2 usage: spanx convert|losses|show|check|headers|gauge|serve OPTIONS

options of losses in the other order
run losses --to zipkin-json --from otlp-proto
input-hex @ONE_SPAN
output-lines unit 1 span 1: kind\nlosses 1\n

the first read of losses fails
run losses --from otlp-proto --to zipkin-json
input-hex @ONE_SPAN
input-fails 1
stops 5 input failed

the read behind the first unit of losses fails
run losses --from otlp-proto --to zipkin-json
input-hex @ONE_SPAN
input-fails 2
output-lines unit 1 span 1: kind\n
stops 5 input failed

the first write of losses fails
run losses --from otlp-proto --to zipkin-json
input-hex @ONE_SPAN
output-fails 1
stops 6 output failed
"#;
