//! Runs of `gauge`, which reads nothing. The sizes are those that the tables and writers of bench/ give.

pub const GAUGES: &str = r#"
one span
run gauge --spans 1
input-fails 1
output-lines spans 1\ngroups 1\notlp-proto 123\notlp-json 432\njaeger-binary 286\njaeger-compact 125\nzipkin-json 245\n

a span with a parent
run gauge --spans 2
input-fails 1
output-lines spans 2\ngroups 1\notlp-proto 218\notlp-json 742\njaeger-binary 574\njaeger-compact 252\nzipkin-json 533\n

a whole group
run gauge --spans 100
input-fails 1
output-lines spans 100\ngroups 1\notlp-proto 9200\notlp-json 30738\njaeger-binary 25036\njaeger-compact 10829\n
 zipkin-json 27077\n

a group of one span behind it
run gauge --spans 101
input-fails 1
output-lines spans 101\ngroups 2\notlp-proto 9323\notlp-json 31157\njaeger-binary 25349\njaeger-compact 10972\n
 zipkin-json 27341\n

three groups
run gauge --spans 250
input-fails 1
output-lines spans 250\ngroups 3\notlp-proto 23137\notlp-json 77344\njaeger-binary 62596\njaeger-compact 27463\n
 zipkin-json 68157\n

no span
run gauge --spans 0
input-fails 1
stops 2 usage: spanx convert|losses|show|check|headers|gauge|serve OPTIONS

more than a million
run gauge --spans 1000001
input-fails 1
stops 2 usage: spanx convert|losses|show|check|headers|gauge|serve OPTIONS

a zero in front
run gauge --spans 01
input-fails 1
stops 2 usage: spanx convert|losses|show|check|headers|gauge|serve OPTIONS

a sign
run gauge --spans +1
input-fails 1
stops 2 usage: spanx convert|losses|show|check|headers|gauge|serve OPTIONS

a blank behind
run gauge --spans
last-word 1\x20
input-fails 1
stops 2 usage: spanx convert|losses|show|check|headers|gauge|serve OPTIONS

an empty word
run gauge --spans
last-word
input-fails 1
stops 2 usage: spanx convert|losses|show|check|headers|gauge|serve OPTIONS

more than 32 bits
run gauge --spans 4294967297
input-fails 1
stops 2 usage: spanx convert|losses|show|check|headers|gauge|serve OPTIONS

no number
run gauge --spans
input-fails 1
stops 2 usage: spanx convert|losses|show|check|headers|gauge|serve OPTIONS

another option
run gauge --to 1
input-fails 1
stops 2 usage: spanx convert|losses|show|check|headers|gauge|serve OPTIONS

a word behind the number
run gauge --spans 1 2
input-fails 1
stops 2 usage: spanx convert|losses|show|check|headers|gauge|serve OPTIONS

the output fails
run gauge --spans 1
input-fails 1
output-fails 1
stops 6 output failed
"#;
