//! Units and inputs at their limits, and beyond them by one byte: a row has a limit of a unit, of a whole binary input or of a
//! text in JSON that isn't the shipped one.

/// Units of requests. One that tells by its length that it is too long is refused where that is told.
pub const REQUESTS: &str = r"
a group of 64 bytes, which is the limit
forms otlp-proto otlp-proto
frame 64 @LONG_NAME
output @LONG_NAME
whole 1 1
unit 64

a group of 65 bytes, where 64 are the limit
forms otlp-proto otlp-proto
frame 0 @LONGER_NAME
stop 2 refused 1 UnitTooLong
unit 64

a group of 37 bytes, which is the limit
forms otlp-proto otlp-proto
frame 37 @ONE_SPAN
output @ONE_SPAN
whole 1 1
unit 37

a group of 37 bytes, where 36 are the limit
forms otlp-proto otlp-proto
frame 0 @ONE_SPAN
stop 2 refused 1 UnitTooLong
unit 36

a longer group behind two
forms otlp-proto otlp-proto
frame 37 @ONE_SPAN
frame 74 @ONE_SPAN
frame 74 @UNKNOWN_FIELDS
output @ONE_SPAN @ONE_SPAN
stop 76 refused 3 UnitTooLong
unit 37

a length in a longer spelling
forms otlp-proto otlp-proto
frame 2 0a8000
output 0a00
whole 1 0
unit 3

a length whose spelling is too long
forms otlp-proto otlp-proto
frame 0 0a8000
stop 2 refused 1 UnitTooLong
unit 2

a key that is a whole unit's bytes
forms otlp-proto otlp-proto
frame 0 0a00
stop 1 refused 1 UnitTooLong
unit 1

a longer record that is no group
forms otlp-proto otlp-proto
frame 2 0a00
frame 2 0801
frame 2 120100
output 0a00
stop 6 refused 2 UnitTooLong
unit 2

a longer number that is no group
forms otlp-proto otlp-proto
frame 2 0a00
frame 2 0d01020304
output 0a00
stop 6 refused 2 UnitTooLong
unit 4

a number of five bytes that is no group
forms otlp-proto otlp-proto
frame 2 0a00
frame 2 0d01020304
output 0a00
whole 1 0
unit 5

a longer group to spans of Zipkin
forms otlp-proto zipkin-json
frame 1 0a00
frame 1 @UNKNOWN_FIELDS
output [
stop 4 refused 2 UnitTooLong
unit 61

a wire type of no kind in the first byte of a unit
forms otlp-proto otlp-proto
frame 2 0a00
frame 2 0b
output 0a00
stop 3 refused 2 BadWire
unit 2

a group of 62 bytes, which is the limit
forms otlp-proto otlp-proto
frame 37 @UNKNOWN_FIELDS
frame 74 @UNKNOWN_FIELDS
output @ONE_SPAN @ONE_SPAN
whole 2 2
unit 62
";

/// Batches, which don't tell how long they are.
pub const BATCHES: &str = r"
a batch of 103 bytes, which is the limit
forms jaeger-binary jaeger-binary
frame 103 @SPAN_BATCH
output @SPAN_BATCH
whole 1 1
unit 103

a batch of 103 bytes, where 102 are the limit
forms jaeger-binary jaeger-binary
frame 0 @SPAN_BATCH
stop 102 refused 1 UnitTooLong
unit 102

a text that ends at the limit
forms jaeger-binary zipkin-json
frame 118 @SPAN_BATCH
frame 118 0c00010b00010000005d00
output [
output @SERVICE_ZIPKIN_SPAN
stop end refused 2 Truncated
unit 103

a text that ends a byte behind the limit
forms jaeger-binary zipkin-json
frame 118 @SPAN_BATCH
frame 118 0c00010b00010000005e00
output [
output @SERVICE_ZIPKIN_SPAN
stop 113 refused 2 UnitTooLong
unit 103

a batch of 43 bytes in the compact protocol, which is the limit
forms jaeger-compact jaeger-compact
frame 26 @SPAN_COMPACT
frame 69 @DOUBLE_COMPACT
output @SPAN_COMPACT @DOUBLE_COMPACT
whole 2 2
unit 43

a batch of 43 bytes in the compact protocol, where 42 are the limit
forms jaeger-compact jaeger-compact
frame 26 @SPAN_COMPACT
frame 26 @DOUBLE_COMPACT
output @SPAN_COMPACT
stop 68 refused 2 UnitTooLong
unit 42

a batch of a client, which is the limit
forms jaeger-compact jaeger-compact
frame 118 @CLIENT_COMPACT
output @CLIENT_COMPACT
whole 1 1
unit 118

a text in the compact protocol that ends at the limit
forms jaeger-compact jaeger-compact
frame 0 @CLIENT_COMPACT
stop 18 refused 1 UnitTooLong
unit 18

a text in the compact protocol that ends a byte behind the limit
forms jaeger-compact jaeger-compact
frame 0 @CLIENT_COMPACT
stop 10 refused 1 UnitTooLong
unit 17
";

/// Whole inputs. The units that end within the limit are written.
pub const INPUTS: &str = r"
an input of 74 bytes, which is the limit
forms otlp-proto otlp-proto
frame 37 @ONE_SPAN
frame 74 @ONE_SPAN
output @ONE_SPAN @ONE_SPAN
whole 2 2
binary 74

an input of 74 bytes, where 73 are the limit
forms otlp-proto otlp-proto
frame 37 @ONE_SPAN
frame 37 @ONE_SPAN
output @ONE_SPAN
stop 74 refused 2 InputTooLong
binary 73

a unit that ends at the limit of the input
forms otlp-proto otlp-proto
frame 37 @ONE_SPAN
frame 37 0b00
output @ONE_SPAN
stop 38 refused 2 InputTooLong
binary 37

a wire type of no kind in the last byte within the limit
forms otlp-proto otlp-proto
frame 37 @ONE_SPAN
frame 37 0b00
output @ONE_SPAN
stop 38 refused 2 BadWire
binary 38

an input of two bytes, where one is the limit
forms otlp-proto zipkin-json
frame 0 0a00
stop 2 refused 1 InputTooLong
binary 1

batches of 206 bytes, where 205 are the limit
forms jaeger-binary zipkin-json
frame 118 @SPAN_BATCH
frame 118 @SPAN_BATCH
output [
output @SERVICE_ZIPKIN_SPAN
stop 206 refused 2 InputTooLong
binary 205

a double in the last unit within the limit
forms jaeger-compact zipkin-json
frame 118 @SPAN_COMPACT
frame 118 @DOUBLE_COMPACT
frame 118 00
output [
output @SERVICE_ZIPKIN_SPAN
stop 69 fault 2 25
binary 69

a double whose last byte is beyond the limit
forms jaeger-compact zipkin-json
frame 118 @SPAN_COMPACT
frame 118 @DOUBLE_COMPACT
output [
output @SERVICE_ZIPKIN_SPAN
stop 69 refused 2 InputTooLong
binary 68

a text of 134 bytes, which is the limit
forms otlp-json otlp-proto
frame 0 @ONE_GROUP
output @ONE_SPAN
whole 1 1
json 134

a text of 134 bytes, where 133 are the limit
forms otlp-json otlp-proto
frame 0 @ONE_GROUP
stop 134 refused 0 InputTooLong
json 133

a byte that no text has, behind the limit
forms zipkin-json zipkin-json
frame 0 [}
stop 2 refused 0 InputTooLong
json 1
";
