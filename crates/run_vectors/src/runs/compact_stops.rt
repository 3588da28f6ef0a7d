//! What stops batches in the compact protocol.

/// What stops batches in the compact protocol.
pub const STOPPED: &str = r#"
own key
run convert --from otlp-proto --to jaeger-compact
input-hex 0a37123512330a1000000000000000000000000000000001120800000000000000022a01614a120a0c6a61656765722e666c61677312021001
stops 4 unit 1: fault 22 OwnKey "jaeger.flags"

containers 33 deep
run convert --from jaeger-compact --to jaeger-binary
input-hex 1c1c1c1c1c1c1c1c1c1c1c1c1c1c1c1c1c1c1c1c1c1c1c1c1c1c1c1c1c1c1c1c
stops 3 unit 1: cause 5 TooDeep

containers 31 deep, without an end
run convert --from jaeger-compact --to jaeger-binary
input-hex 1c1c1c1c1c1c1c1c1c1c1c1c1c1c1c1c1c1c1c1c1c1c1c1c1c1c1c1c1c1c1c
stops 3 unit 1: cause 1 Truncated

a list of spans of another type
run convert --from jaeger-compact --to jaeger-binary
input-hex 1c1801730019150000
stops 3 unit 1: cause 14 BadElement

nothing in a batch
run convert --from jaeger-compact --to jaeger-binary
input-hex 00
stops 3 unit 1: cause 8 Missing

a field of no type
run convert --from jaeger-compact --to jaeger-binary
input-hex 1d
stops 3 unit 1: cause 3 BadWire

a difference of ids without a type
run convert --from jaeger-compact --to jaeger-binary
input-hex 10
stops 3 unit 1: cause 3 BadWire

an id above 32767
run convert --from jaeger-compact --to jaeger-binary
input-hex 0c80800400
stops 3 unit 1: cause 3 BadWire

a number above 32 bits
run convert --from jaeger-compact --to jaeger-binary
input-hex 158080808010
stops 3 unit 1: cause 2 BadVarint

a number above 16 bits
run convert --from jaeger-compact --to jaeger-binary
input-hex 14808004
stops 3 unit 1: cause 2 BadVarint

a number in eleven bytes
run convert --from jaeger-compact --to jaeger-binary
input-hex 1680808080808080808002
stops 3 unit 1: cause 2 BadVarint

a number without its end
run convert --from jaeger-compact --to jaeger-binary
input-hex 16808080808080808080
stops 3 unit 1: cause 1 Truncated

a size above 2147483647
run convert --from jaeger-compact --to jaeger-binary
input-hex 188080808008
stops 3 unit 1: cause 4 BadSize

a binary longer than a unit
run convert --from jaeger-compact --to jaeger-binary
input-hex 18ffffffff07
stops 3 unit 1: cause 6 UnitTooLong

the size of a map above 2147483647
run convert --from jaeger-compact --to jaeger-binary
input-hex 1b8080808008
stops 3 unit 1: cause 4 BadSize

a map of a type that isn't there
run convert --from jaeger-compact --to jaeger-binary
input-hex 1b010d
stops 3 unit 1: cause 3 BadWire

a list of a type that isn't there
run convert --from jaeger-compact --to jaeger-binary
input-hex 191d
stops 3 unit 1: cause 3 BadWire

the same in the long spelling
run convert --from jaeger-compact --to jaeger-binary
input-hex 19fd01
stops 3 unit 1: cause 3 BadWire

a text that isn't UTF-8
run convert --from jaeger-compact --to otlp-proto
input-hex 1c18017300191c16021600160416001801ff2500160016000000
stops 3 unit 1: cause 9 NotText

a type of tag outside its table
run convert --from jaeger-compact --to jaeger-binary
input-hex 1c180000191c1602160016041600180161250016001600191c180f6f74656c2e617474722e6572726f72150a31000000
stops 3 unit 1: cause 13 BadEnum

a kind of reference outside its table
run convert --from jaeger-compact --to jaeger-binary
input-hex 1c18017300191c1602160016041606180161191c1504160216001608001500160016000000
stops 3 unit 1: cause 13 BadEnum

a field twice
run convert --from jaeger-compact --to otlp-proto
input-hex 1c18017300191c1602160016041600180161250016001600050e000000
stops 3 unit 1: cause 7 FieldTwice

a byte is missing
run convert --from jaeger-compact --to jaeger-compact
input-hex 1c18017300191c160216001604160018016125001600160000
stops 3 unit 1: cause 1 Truncated
"#;
