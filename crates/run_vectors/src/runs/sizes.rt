//! Sizes that an input claims, and levels of what stands in it, at the limits that the program has and beyond them.
use super::{CUTS, expect_table};
use std::test::Fail;

// A claimed size takes no room: what isn't there is cut, whatever its size, and a unit that would be longer than
// 16,777,216 bytes is refused as soon as it says so.
const SIZES: &str = r"
a group of more than 2 GiB
run convert --from otlp-proto --to otlp-proto
input-hex 0affffffff07
stops 3 unit 1: cause 6 UnitTooLong

a group of 16,777,217 bytes
run convert --from otlp-proto --to otlp-proto
input-hex 0afcffff07
stops 3 unit 1: cause 6 UnitTooLong

a group of 16,777,216 bytes that is cut
run convert --from otlp-proto --to otlp-proto
input-hex 0afbffff07
stops 3 unit 1: cause 1 Truncated

a group of 64 bits of bytes
run convert --from otlp-proto --to otlp-proto
input-hex 0affffffffffffffffff01
stops 3 unit 1: cause 6 UnitTooLong

a record of 16,777,217 bytes that is no group
run convert --from otlp-proto --to otlp-proto
input-hex 12fcffff07
stops 3 unit 1: cause 6 UnitTooLong

a resource of more than 2 GiB in a group
run convert --from otlp-proto --to otlp-proto
input-hex 0a060affffffff07
stops 3 unit 1: cause 1 Truncated

a resource of 64 bits of bytes in a group
run convert --from otlp-proto --to otlp-proto
input-hex 0a0b0affffffffffffffffff01
stops 3 unit 1: cause 1 Truncated

a text of 2,147,483,647 bytes
run convert --from jaeger-binary --to otlp-proto
input-hex 0b00017fffffff
stops 3 unit 1: cause 6 UnitTooLong

a text of a negative length
run convert --from jaeger-binary --to otlp-proto
input-hex 0b000180000000
stops 3 unit 1: cause 4 BadSize

a text that ends behind 16,777,216 bytes
run convert --from jaeger-binary --to otlp-proto
input-hex 0b000100fffffa
stops 3 unit 1: cause 6 UnitTooLong

a text that ends with 16,777,216 bytes, cut
run convert --from jaeger-binary --to otlp-proto
input-hex 0b000100fffff9
stops 3 unit 1: cause 1 Truncated

a list of 2,147,483,647 spans that is cut
run convert --from jaeger-binary --to otlp-proto
input-hex 0f00020c7fffffff
stops 3 unit 1: cause 1 Truncated

a list of a negative size
run convert --from jaeger-binary --to otlp-proto
input-hex 0f00020cffffffff
stops 3 unit 1: cause 4 BadSize

a set of 2,147,483,647 structs that is cut
run convert --from jaeger-binary --to otlp-proto
input-hex 0e00020c7fffffff
stops 3 unit 1: cause 1 Truncated

a map of 2,147,483,647 pairs that is cut
run convert --from jaeger-binary --to otlp-proto
input-hex 0d00010b0b7fffffff
stops 3 unit 1: cause 1 Truncated

a map of a negative size
run convert --from jaeger-binary --to otlp-proto
input-hex 0d00010b0b80000000
stops 3 unit 1: cause 4 BadSize

a text of the compact protocol that ends behind 16,777,216 bytes
run convert --from jaeger-compact --to otlp-proto
input-hex 18fcffff07
stops 3 unit 1: cause 6 UnitTooLong

a text of the compact protocol that ends with 16,777,216 bytes, cut
run convert --from jaeger-compact --to otlp-proto
input-hex 18fbffff07
stops 3 unit 1: cause 1 Truncated

a list of 2,147,483,647 spans of the compact protocol that is cut
run convert --from jaeger-compact --to otlp-proto
input-hex 19fcffffffff07
stops 3 unit 1: cause 1 Truncated

a list of the compact protocol of 2,147,483,648 elements
run convert --from jaeger-compact --to otlp-proto
input-hex 19fc8080808008
stops 3 unit 1: cause 4 BadSize

a map of 2,147,483,647 pairs of the compact protocol that is cut
run convert --from jaeger-compact --to otlp-proto
input-hex 1bffffffff0788
stops 3 unit 1: cause 1 Truncated
";

// A batch is at level 1, and what stands in it at the levels behind. What no batch has is passed over.
const LEVELS: &str = r"
structs at levels 2 to 32 of a batch
run convert --from jaeger-binary --to jaeger-binary
input-hex 0c00010b00010000000173000f00020c000000000c00090c00010c00010c00010c00010c00010c00010c00010c00010c00010c00010c0001
 0c00010c00010c00010c00010c00010c00010c00010c00010c00010c00010c00010c00010c00010c00010c00010c00010c00010c00010c00010000000
 000000000000000000000000000000000000000000000000000000000
output-hex 0c00010b00010000000173000f00020c0000000000

structs at levels 2 to 33
run convert --from jaeger-binary --to jaeger-binary
input-hex 0c00010b00010000000173000f00020c000000000c00090c00010c00010c00010c00010c00010c00010c00010c00010c00010c00010c0001
 0c00010c00010c00010c00010c00010c00010c00010c00010c00010c00010c00010c00010c00010c00010c00010c00010c00010c00010c00010c00010
 00000000000000000000000000000000000000000000000000000000000000000
stops 3 unit 1: cause 5 TooDeep

lists at levels 2 to 32
run convert --from jaeger-binary --to jaeger-binary
input-hex 0c00010b00010000000173000f00020c000000000f00090f000000010f000000010f000000010f000000010f000000010f000000010f0000
 00010f000000010f000000010f000000010f000000010f000000010f000000010f000000010f000000010f000000010f000000010f000000010f00000
 0010f000000010f000000010f000000010f000000010f000000010f000000010f000000010f000000010f000000010f000000010f0000000103000000
 0000
output-hex 0c00010b00010000000173000f00020c0000000000

lists at levels 2 to 33
run convert --from jaeger-binary --to jaeger-binary
input-hex 0c00010b00010000000173000f00020c000000000f00090f000000010f000000010f000000010f000000010f000000010f000000010f0000
 00010f000000010f000000010f000000010f000000010f000000010f000000010f000000010f000000010f000000010f000000010f000000010f00000
 0010f000000010f000000010f000000010f000000010f000000010f000000010f000000010f000000010f000000010f000000010f000000010f000000
 01030000000000
stops 3 unit 1: cause 5 TooDeep

structs of the compact protocol at levels 2 to 32
run convert --from jaeger-compact --to jaeger-compact
input-hex 1c18017300190c7c1c1c1c1c1c1c1c1c1c1c1c1c1c1c1c1c1c1c1c1c1c1c1c1c1c1c1c1c1c1c000000000000000000000000000000000000
 0000000000000000000000000000
output-hex 1c18017300190c00

structs of the compact protocol at levels 2 to 33
run convert --from jaeger-compact --to jaeger-compact
input-hex 1c18017300190c7c1c1c1c1c1c1c1c1c1c1c1c1c1c1c1c1c1c1c1c1c1c1c1c1c1c1c1c1c1c1c1c0000000000000000000000000000000000
 00000000000000000000000000000000
stops 3 unit 1: cause 5 TooDeep

lists of the compact protocol at levels 2 to 32
run convert --from jaeger-compact --to jaeger-compact
input-hex 1c18017300190c791919191919191919191919191919191919191919191919191919191919190300
output-hex 1c18017300190c00

lists of the compact protocol at levels 2 to 33
run convert --from jaeger-compact --to jaeger-compact
input-hex 1c18017300190c79191919191919191919191919191919191919191919191919191919191919190300
stops 3 unit 1: cause 5 TooDeep

arrays of JSON at 128 levels
run convert --from zipkin-json --to otlp-proto
input [[[[[[[[[[[[[[[[[[[[[[[[[[[[[[[[[[[[[[[[[[[[[[[[[[[[[[[[[[[[[[[[[[[[[[[[[[[[[[[[[[[[[[[[[[[[[[[[[[[[[[[[[[[[[[[[[[[[
 [[[[[[[[[[[[]]]]]]]]]]]]]]]]]]]]]]]]]]]]]]]]]]]]]]]]]]]]]]]]]]]]]]]]]]]]]]]]]]]]]]]]]]]]]]]]]]]]]]]]]]]]]]]]]]]]]]]]]]]]]
 ]]]]]]]]]]]]]]]]]]]
stops 3 unit 0: cause 10 BadJson

arrays of JSON at 127 levels
run convert --from zipkin-json --to otlp-proto
input [[[[[[[[[[[[[[[[[[[[[[[[[[[[[[[[[[[[[[[[[[[[[[[[[[[[[[[[[[[[[[[[[[[[[[[[[[[[[[[[[[[[[[[[[[[[[[[[[[[[[[[[[[[[[[[[[[[[
 [[[[[[[[[[[]]]]]]]]]]]]]]]]]]]]]]]]]]]]]]]]]]]]]]]]]]]]]]]]]]]]]]]]]]]]]]]]]]]]]]]]]]]]]]]]]]]]]]]]]]]]]]]]]]]]]]]]]]]]]]
 ]]]]]]]]]]]]]]]]]
stops 3 unit 1: cause 11 BadShape
";

#[test]
fn keeps_sizes(rt: HostRuntime) -> Result<(), Fail> {
    expect_table(&rt, rt.alloc(), SIZES, &CUTS)
}

#[test]
fn keeps_levels(rt: HostRuntime) -> Result<(), Fail> {
    expect_table(&rt, rt.alloc(), LEVELS, &CUTS)
}
