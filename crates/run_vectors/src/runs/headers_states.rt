//! Blocks of header lines with a `tracestate`.

/// Members of `tracestate`, and how they are written.
pub const STATES: &str = r##"
one member
run headers --to w3c
input-lines traceparent: 00-0af7651916cd43dd8448eb211c80319c-b7ad6b7169203331-01\ntracestate: a=1\n
output-lines traceparent: 00-0af7651916cd43dd8448eb211c80319c-b7ad6b7169203331-01\ntracestate: a=1\n

blanks round members
run headers --to w3c
input-lines traceparent: 00-0af7651916cd43dd8448eb211c80319c-b7ad6b7169203331-01\ntracestate: a=1 \t,\t b=2  \n
output-lines traceparent: 00-0af7651916cd43dd8448eb211c80319c-b7ad6b7169203331-01\ntracestate: a=1,b=2\n

empty members
run headers --to w3c
input-lines traceparent: 00-0af7651916cd43dd8448eb211c80319c-b7ad6b7169203331-01\ntracestate: ,a=1, ,,b=2,\t,\n
output-lines traceparent: 00-0af7651916cd43dd8448eb211c80319c-b7ad6b7169203331-01\ntracestate: a=1,b=2\n

no member
run headers --to w3c
input-lines traceparent: 00-0af7651916cd43dd8448eb211c80319c-b7ad6b7169203331-01\ntracestate: ,, ,\n
output-lines traceparent: 00-0af7651916cd43dd8448eb211c80319c-b7ad6b7169203331-01\n

no value
run headers --to w3c
input-lines traceparent: 00-0af7651916cd43dd8448eb211c80319c-b7ad6b7169203331-01\ntracestate:\n
output-lines traceparent: 00-0af7651916cd43dd8448eb211c80319c-b7ad6b7169203331-01\n

two lines
run headers --to w3c
input-lines traceparent: 00-0af7651916cd43dd8448eb211c80319c-b7ad6b7169203331-01\ntracestate: a=1,b=2\ntracestate: c=3\n
output-lines traceparent: 00-0af7651916cd43dd8448eb211c80319c-b7ad6b7169203331-01\ntracestate: a=1,b=2,c=3\n

two lines that end and begin with a comma
run headers --to w3c
input-lines traceparent: 00-0af7651916cd43dd8448eb211c80319c-b7ad6b7169203331-01\ntracestate: a=1,\ntracestate: ,c=3\n
output-lines traceparent: 00-0af7651916cd43dd8448eb211c80319c-b7ad6b7169203331-01\ntracestate: a=1,c=3\n

an empty line between two
run headers --to w3c
input-lines traceparent: 00-0af7651916cd43dd8448eb211c80319c-b7ad6b7169203331-01\ntracestate: a=1\ntracestate:\n
 tracestate: c=3\n
output-lines traceparent: 00-0af7651916cd43dd8448eb211c80319c-b7ad6b7169203331-01\ntracestate: a=1,c=3\n

lines around the traceparent
run headers --to w3c
input-lines tracestate: a=1\ntraceparent: 00-0af7651916cd43dd8448eb211c80319c-b7ad6b7169203331-01\nTraceState: b=2\n
output-lines traceparent: 00-0af7651916cd43dd8448eb211c80319c-b7ad6b7169203331-01\ntracestate: a=1,b=2\n

not sampled
run headers --to w3c
input-lines traceparent: 00-0af7651916cd43dd8448eb211c80319c-b7ad6b7169203331-00\ntracestate: a=1\n
output-lines traceparent: 00-0af7651916cd43dd8448eb211c80319c-b7ad6b7169203331-00\ntracestate: a=1\n

it goes in b3
run headers --to b3
input-lines traceparent: 00-0af7651916cd43dd8448eb211c80319c-b7ad6b7169203331-01\ntracestate: a=1\n
output-lines b3: 0af7651916cd43dd8448eb211c80319c-b7ad6b7169203331-1\n

32 members
run headers --to w3c
input-lines traceparent: 00-0af7651916cd43dd8448eb211c80319c-b7ad6b7169203331-01\n
 tracestate: k1=v,k2=v,k3=v,k4=v,k5=v,k6=v,k7=v,k8=v,k9=v,k10=v,k11=v,k12=v,k13=v,k14=v,k15=v,k16=v,k17=v,k18=v,k19=v,k20=v,
 k21=v,k22=v,k23=v,k24=v,k25=v,k26=v,k27=v,k28=v,k29=v,k30=v,k31=v,k32=v\n
output-lines traceparent: 00-0af7651916cd43dd8448eb211c80319c-b7ad6b7169203331-01\n
 tracestate: k1=v,k2=v,k3=v,k4=v,k5=v,k6=v,k7=v,k8=v,k9=v,k10=v,k11=v,k12=v,k13=v,k14=v,k15=v,k16=v,k17=v,k18=v,k19=v,k20=v,
 k21=v,k22=v,k23=v,k24=v,k25=v,k26=v,k27=v,k28=v,k29=v,k30=v,k31=v,k32=v\n

32 members in two lines, and empty ones
run headers --to w3c
input-lines traceparent: 00-0af7651916cd43dd8448eb211c80319c-b7ad6b7169203331-01\n
 tracestate: k1=v,k2=v,k3=v,k4=v,k5=v,k6=v,k7=v,k8=v,k9=v,k10=v,k11=v,k12=v,k13=v,k14=v,k15=v,k16=v,,\n
 tracestate: k17=v,k18=v,k19=v,k20=v,k21=v,k22=v,k23=v,k24=v,k25=v,k26=v,k27=v,k28=v,k29=v,k30=v,k31=v,k32=v\n
output-lines traceparent: 00-0af7651916cd43dd8448eb211c80319c-b7ad6b7169203331-01\n
 tracestate: k1=v,k2=v,k3=v,k4=v,k5=v,k6=v,k7=v,k8=v,k9=v,k10=v,k11=v,k12=v,k13=v,k14=v,k15=v,k16=v,k17=v,k18=v,k19=v,k20=v,
 k21=v,k22=v,k23=v,k24=v,k25=v,k26=v,k27=v,k28=v,k29=v,k30=v,k31=v,k32=v\n

equal values
run headers --to w3c
input-lines traceparent: 00-0af7651916cd43dd8448eb211c80319c-b7ad6b7169203331-01\ntracestate: a=1,b=1\n
output-lines traceparent: 00-0af7651916cd43dd8448eb211c80319c-b7ad6b7169203331-01\ntracestate: a=1,b=1\n

all characters of a key
run headers --to w3c
input-lines traceparent: 00-0af7651916cd43dd8448eb211c80319c-b7ad6b7169203331-01\ntracestate: a1_-*/z=1\n
output-lines traceparent: 00-0af7651916cd43dd8448eb211c80319c-b7ad6b7169203331-01\ntracestate: a1_-*/z=1\n

a key of one character
run headers --to w3c
input-lines traceparent: 00-0af7651916cd43dd8448eb211c80319c-b7ad6b7169203331-01\ntracestate: z=1\n
output-lines traceparent: 00-0af7651916cd43dd8448eb211c80319c-b7ad6b7169203331-01\ntracestate: z=1\n

a key of 256 characters
run headers --to w3c
input-lines traceparent: 00-0af7651916cd43dd8448eb211c80319c-b7ad6b7169203331-01\n
 tracestate: akkkkkkkkkkkkkkkkkkkkkkkkkkkkkkkkkkkkkkkkkkkkkkkkkkkkkkkkkkkkkkkkkkkkkkkkkkkkkkkkkkkkkkkkkkkkkkkkkkkkkkkkkkkkkk
 kkkkkkkkkkkkkkkkkkkkkkkkkkkkkkkkkkkkkkkkkkkkkkkkkkkkkkkkkkkkkkkkkkkkkkkkkkkkkkkkkkkkkkkkkkkkkkkkkkkkkkkkkkkkkkkkkkkkkkkkkkk
 kkkkkkkkkkkkkkkkkkkkkk=1\n
output-lines traceparent: 00-0af7651916cd43dd8448eb211c80319c-b7ad6b7169203331-01\n
 tracestate: akkkkkkkkkkkkkkkkkkkkkkkkkkkkkkkkkkkkkkkkkkkkkkkkkkkkkkkkkkkkkkkkkkkkkkkkkkkkkkkkkkkkkkkkkkkkkkkkkkkkkkkkkkkkkk
 kkkkkkkkkkkkkkkkkkkkkkkkkkkkkkkkkkkkkkkkkkkkkkkkkkkkkkkkkkkkkkkkkkkkkkkkkkkkkkkkkkkkkkkkkkkkkkkkkkkkkkkkkkkkkkkkkkkkkkkkkkk
 kkkkkkkkkkkkkkkkkkkkkk=1\n

a tenant of 241 characters and a system of 14
run headers --to w3c
input-lines traceparent: 00-0af7651916cd43dd8448eb211c80319c-b7ad6b7169203331-01\n
 tracestate: ttttttttttttttttttttttttttttttttttttttttttttttttttttttttttttttttttttttttttttttttttttttttttttttttttttttttttttttt
 ttttttttttttttttttttttttttttttttttttttttttttttttttttttttttttttttttttttttttttttttttttttttttttttttttttttttttttttttttttttttttt
 ttttttt@ssssssssssssss=1\n
output-lines traceparent: 00-0af7651916cd43dd8448eb211c80319c-b7ad6b7169203331-01\n
 tracestate: ttttttttttttttttttttttttttttttttttttttttttttttttttttttttttttttttttttttttttttttttttttttttttttttttttttttttttttttt
 ttttttttttttttttttttttttttttttttttttttttttttttttttttttttttttttttttttttttttttttttttttttttttttttttttttttttttttttttttttttttttt
 ttttttt@ssssssssssssss=1\n

a tenant that begins with a digit
run headers --to w3c
input-lines traceparent: 00-0af7651916cd43dd8448eb211c80319c-b7ad6b7169203331-01\ntracestate: 1_-*/@a_-*/2=1\n
output-lines traceparent: 00-0af7651916cd43dd8448eb211c80319c-b7ad6b7169203331-01\ntracestate: 1_-*/@a_-*/2=1\n

a tenant beside its system
run headers --to w3c
input-lines traceparent: 00-0af7651916cd43dd8448eb211c80319c-b7ad6b7169203331-01\ntracestate: a@b=1,a=2,b=3\n
output-lines traceparent: 00-0af7651916cd43dd8448eb211c80319c-b7ad6b7169203331-01\ntracestate: a@b=1,a=2,b=3\n

a value of 256 characters
run headers --to w3c
input-lines traceparent: 00-0af7651916cd43dd8448eb211c80319c-b7ad6b7169203331-01\n
 tracestate: a=vvvvvvvvvvvvvvvvvvvvvvvvvvvvvvvvvvvvvvvvvvvvvvvvvvvvvvvvvvvvvvvvvvvvvvvvvvvvvvvvvvvvvvvvvvvvvvvvvvvvvvvvvvvvv
 vvvvvvvvvvvvvvvvvvvvvvvvvvvvvvvvvvvvvvvvvvvvvvvvvvvvvvvvvvvvvvvvvvvvvvvvvvvvvvvvvvvvvvvvvvvvvvvvvvvvvvvvvvvvvvvvvvvvvvvvvvv
 vvvvvvvvvvvvvvvvvvvvvvvv\n
output-lines traceparent: 00-0af7651916cd43dd8448eb211c80319c-b7ad6b7169203331-01\n
 tracestate: a=vvvvvvvvvvvvvvvvvvvvvvvvvvvvvvvvvvvvvvvvvvvvvvvvvvvvvvvvvvvvvvvvvvvvvvvvvvvvvvvvvvvvvvvvvvvvvvvvvvvvvvvvvvvvv
 vvvvvvvvvvvvvvvvvvvvvvvvvvvvvvvvvvvvvvvvvvvvvvvvvvvvvvvvvvvvvvvvvvvvvvvvvvvvvvvvvvvvvvvvvvvvvvvvvvvvvvvvvvvvvvvvvvvvvvvvvvv
 vvvvvvvvvvvvvvvvvvvvvvvv\n

a value that begins with a space
run headers --to w3c
input-lines traceparent: 00-0af7651916cd43dd8448eb211c80319c-b7ad6b7169203331-01\ntracestate: a=  1\n
output-lines traceparent: 00-0af7651916cd43dd8448eb211c80319c-b7ad6b7169203331-01\ntracestate: a=  1\n

a value that ends in a space
run headers --to w3c
input-lines traceparent: 00-0af7651916cd43dd8448eb211c80319c-b7ad6b7169203331-01\ntracestate: a=1 ,b=2 \n
output-lines traceparent: 00-0af7651916cd43dd8448eb211c80319c-b7ad6b7169203331-01\ntracestate: a=1,b=2\n

a value of 256 characters and a space
run headers --to w3c
input-lines traceparent: 00-0af7651916cd43dd8448eb211c80319c-b7ad6b7169203331-01\n
 tracestate: a=vvvvvvvvvvvvvvvvvvvvvvvvvvvvvvvvvvvvvvvvvvvvvvvvvvvvvvvvvvvvvvvvvvvvvvvvvvvvvvvvvvvvvvvvvvvvvvvvvvvvvvvvvvvvv
 vvvvvvvvvvvvvvvvvvvvvvvvvvvvvvvvvvvvvvvvvvvvvvvvvvvvvvvvvvvvvvvvvvvvvvvvvvvvvvvvvvvvvvvvvvvvvvvvvvvvvvvvvvvvvvvvvvvvvvvvvvv
 vvvvvvvvvvvvvvvvvvvvvvvv ,b=2\n
output-lines traceparent: 00-0af7651916cd43dd8448eb211c80319c-b7ad6b7169203331-01\n
 tracestate: a=vvvvvvvvvvvvvvvvvvvvvvvvvvvvvvvvvvvvvvvvvvvvvvvvvvvvvvvvvvvvvvvvvvvvvvvvvvvvvvvvvvvvvvvvvvvvvvvvvvvvvvvvvvvvv
 vvvvvvvvvvvvvvvvvvvvvvvvvvvvvvvvvvvvvvvvvvvvvvvvvvvvvvvvvvvvvvvvvvvvvvvvvvvvvvvvvvvvvvvvvvvvvvvvvvvvvvvvvvvvvvvvvvvvvvvvvvv
 vvvvvvvvvvvvvvvvvvvvvvvv,b=2\n

a space inside a value
run headers --to w3c
input-lines traceparent: 00-0af7651916cd43dd8448eb211c80319c-b7ad6b7169203331-01\ntracestate: a=x y\n
output-lines traceparent: 00-0af7651916cd43dd8448eb211c80319c-b7ad6b7169203331-01\ntracestate: a=x y\n

marks of a value
run headers --to w3c
input-lines traceparent: 00-0af7651916cd43dd8448eb211c80319c-b7ad6b7169203331-01\n
 tracestate: a=!"#$%&'()*+-./:;<>?@[\\]^_`{|}~\n
output-lines traceparent: 00-0af7651916cd43dd8448eb211c80319c-b7ad6b7169203331-01\n
 tracestate: a=!"#$%&'()*+-./:;<>?@[\\]^_`{|}~\n
"##;

/// A `tracestate` that isn't of its form is dropped without a word.
pub const DROPPED: &str = r#"
33 members
run headers --to w3c
input-lines traceparent: 00-0af7651916cd43dd8448eb211c80319c-b7ad6b7169203331-01\n
 tracestate: k1=v,k2=v,k3=v,k4=v,k5=v,k6=v,k7=v,k8=v,k9=v,k10=v,k11=v,k12=v,k13=v,k14=v,k15=v,k16=v,k17=v,k18=v,k19=v,k20=v,
 k21=v,k22=v,k23=v,k24=v,k25=v,k26=v,k27=v,k28=v,k29=v,k30=v,k31=v,k32=v,k33=v\n
output-lines traceparent: 00-0af7651916cd43dd8448eb211c80319c-b7ad6b7169203331-01\n

33 members in two lines
run headers --to w3c
input-lines traceparent: 00-0af7651916cd43dd8448eb211c80319c-b7ad6b7169203331-01\n
 tracestate: k1=v,k2=v,k3=v,k4=v,k5=v,k6=v,k7=v,k8=v,k9=v,k10=v,k11=v,k12=v,k13=v,k14=v,k15=v,k16=v,k17=v,k18=v,k19=v,k20=v,
 k21=v,k22=v,k23=v,k24=v,k25=v,k26=v,k27=v,k28=v,k29=v,k30=v,k31=v,k32=v\ntracestate: k33=v\n
output-lines traceparent: 00-0af7651916cd43dd8448eb211c80319c-b7ad6b7169203331-01\n

equal keys
run headers --to w3c
input-lines traceparent: 00-0af7651916cd43dd8448eb211c80319c-b7ad6b7169203331-01\ntracestate: a=1,b=2,a=3\n
output-lines traceparent: 00-0af7651916cd43dd8448eb211c80319c-b7ad6b7169203331-01\n

equal members
run headers --to w3c
input-lines traceparent: 00-0af7651916cd43dd8448eb211c80319c-b7ad6b7169203331-01\ntracestate: a=1,a=1\n
output-lines traceparent: 00-0af7651916cd43dd8448eb211c80319c-b7ad6b7169203331-01\n

equal keys in two lines
run headers --to w3c
input-lines traceparent: 00-0af7651916cd43dd8448eb211c80319c-b7ad6b7169203331-01\ntracestate: a=1\ntracestate: a=2\n
output-lines traceparent: 00-0af7651916cd43dd8448eb211c80319c-b7ad6b7169203331-01\n

a bad member behind a good one
run headers --to w3c
input-lines traceparent: 00-0af7651916cd43dd8448eb211c80319c-b7ad6b7169203331-01\ntracestate: a=1,b\n
output-lines traceparent: 00-0af7651916cd43dd8448eb211c80319c-b7ad6b7169203331-01\n

a bad line behind a good one
run headers --to w3c
input-lines traceparent: 00-0af7651916cd43dd8448eb211c80319c-b7ad6b7169203331-01\ntracestate: a=1\ntracestate: B=2\n
output-lines traceparent: 00-0af7651916cd43dd8448eb211c80319c-b7ad6b7169203331-01\n

no equals sign
run headers --to w3c
input-lines traceparent: 00-0af7651916cd43dd8448eb211c80319c-b7ad6b7169203331-01\ntracestate: a\n
output-lines traceparent: 00-0af7651916cd43dd8448eb211c80319c-b7ad6b7169203331-01\n

no key
run headers --to w3c
input-lines traceparent: 00-0af7651916cd43dd8448eb211c80319c-b7ad6b7169203331-01\ntracestate: =1\n
output-lines traceparent: 00-0af7651916cd43dd8448eb211c80319c-b7ad6b7169203331-01\n

a key that begins with a digit
run headers --to w3c
input-lines traceparent: 00-0af7651916cd43dd8448eb211c80319c-b7ad6b7169203331-01\ntracestate: 1a=1\n
output-lines traceparent: 00-0af7651916cd43dd8448eb211c80319c-b7ad6b7169203331-01\n

a key that begins with a mark
run headers --to w3c
input-lines traceparent: 00-0af7651916cd43dd8448eb211c80319c-b7ad6b7169203331-01\ntracestate: _a=1\n
output-lines traceparent: 00-0af7651916cd43dd8448eb211c80319c-b7ad6b7169203331-01\n

a capital in a key
run headers --to w3c
input-lines traceparent: 00-0af7651916cd43dd8448eb211c80319c-b7ad6b7169203331-01\ntracestate: aB=1\n
output-lines traceparent: 00-0af7651916cd43dd8448eb211c80319c-b7ad6b7169203331-01\n

a dot in a key
run headers --to w3c
input-lines traceparent: 00-0af7651916cd43dd8448eb211c80319c-b7ad6b7169203331-01\ntracestate: a.b=1\n
output-lines traceparent: 00-0af7651916cd43dd8448eb211c80319c-b7ad6b7169203331-01\n

a space behind a key
run headers --to w3c
input-lines traceparent: 00-0af7651916cd43dd8448eb211c80319c-b7ad6b7169203331-01\ntracestate: a =1\n
output-lines traceparent: 00-0af7651916cd43dd8448eb211c80319c-b7ad6b7169203331-01\n

a key of 257 characters
run headers --to w3c
input-lines traceparent: 00-0af7651916cd43dd8448eb211c80319c-b7ad6b7169203331-01\n
 tracestate: akkkkkkkkkkkkkkkkkkkkkkkkkkkkkkkkkkkkkkkkkkkkkkkkkkkkkkkkkkkkkkkkkkkkkkkkkkkkkkkkkkkkkkkkkkkkkkkkkkkkkkkkkkkkkk
 kkkkkkkkkkkkkkkkkkkkkkkkkkkkkkkkkkkkkkkkkkkkkkkkkkkkkkkkkkkkkkkkkkkkkkkkkkkkkkkkkkkkkkkkkkkkkkkkkkkkkkkkkkkkkkkkkkkkkkkkkkk
 kkkkkkkkkkkkkkkkkkkkkkk=1\n
output-lines traceparent: 00-0af7651916cd43dd8448eb211c80319c-b7ad6b7169203331-01\n

a tenant of 242 characters
run headers --to w3c
input-lines traceparent: 00-0af7651916cd43dd8448eb211c80319c-b7ad6b7169203331-01\n
 tracestate: ttttttttttttttttttttttttttttttttttttttttttttttttttttttttttttttttttttttttttttttttttttttttttttttttttttttttttttttt
 ttttttttttttttttttttttttttttttttttttttttttttttttttttttttttttttttttttttttttttttttttttttttttttttttttttttttttttttttttttttttttt
 tttttttt@s=1\n
output-lines traceparent: 00-0af7651916cd43dd8448eb211c80319c-b7ad6b7169203331-01\n

a system of 15 characters
run headers --to w3c
input-lines traceparent: 00-0af7651916cd43dd8448eb211c80319c-b7ad6b7169203331-01\ntracestate: t@sssssssssssssss=1\n
output-lines traceparent: 00-0af7651916cd43dd8448eb211c80319c-b7ad6b7169203331-01\n

no tenant
run headers --to w3c
input-lines traceparent: 00-0af7651916cd43dd8448eb211c80319c-b7ad6b7169203331-01\ntracestate: @s=1\n
output-lines traceparent: 00-0af7651916cd43dd8448eb211c80319c-b7ad6b7169203331-01\n

no system
run headers --to w3c
input-lines traceparent: 00-0af7651916cd43dd8448eb211c80319c-b7ad6b7169203331-01\ntracestate: t@=1\n
output-lines traceparent: 00-0af7651916cd43dd8448eb211c80319c-b7ad6b7169203331-01\n

a system that begins with a digit
run headers --to w3c
input-lines traceparent: 00-0af7651916cd43dd8448eb211c80319c-b7ad6b7169203331-01\ntracestate: t@1=1\n
output-lines traceparent: 00-0af7651916cd43dd8448eb211c80319c-b7ad6b7169203331-01\n

a tenant that begins with a mark
run headers --to w3c
input-lines traceparent: 00-0af7651916cd43dd8448eb211c80319c-b7ad6b7169203331-01\ntracestate: _t@s=1\n
output-lines traceparent: 00-0af7651916cd43dd8448eb211c80319c-b7ad6b7169203331-01\n

two at signs
run headers --to w3c
input-lines traceparent: 00-0af7651916cd43dd8448eb211c80319c-b7ad6b7169203331-01\ntracestate: t@s@u=1\n
output-lines traceparent: 00-0af7651916cd43dd8448eb211c80319c-b7ad6b7169203331-01\n

no value behind the equals sign
run headers --to w3c
input-lines traceparent: 00-0af7651916cd43dd8448eb211c80319c-b7ad6b7169203331-01\ntracestate: a=\n
output-lines traceparent: 00-0af7651916cd43dd8448eb211c80319c-b7ad6b7169203331-01\n

spaces alone behind the equals sign
run headers --to w3c
input-lines traceparent: 00-0af7651916cd43dd8448eb211c80319c-b7ad6b7169203331-01\ntracestate: a=  ,b=2\n
output-lines traceparent: 00-0af7651916cd43dd8448eb211c80319c-b7ad6b7169203331-01\n

two equals signs
run headers --to w3c
input-lines traceparent: 00-0af7651916cd43dd8448eb211c80319c-b7ad6b7169203331-01\ntracestate: a=b=c\n
output-lines traceparent: 00-0af7651916cd43dd8448eb211c80319c-b7ad6b7169203331-01\n

a tab in a value
run headers --to w3c
input-lines traceparent: 00-0af7651916cd43dd8448eb211c80319c-b7ad6b7169203331-01\ntracestate: a=x\ty\n
output-lines traceparent: 00-0af7651916cd43dd8448eb211c80319c-b7ad6b7169203331-01\n

a tab before a value
run headers --to w3c
input-lines traceparent: 00-0af7651916cd43dd8448eb211c80319c-b7ad6b7169203331-01\ntracestate: a=\t1\n
output-lines traceparent: 00-0af7651916cd43dd8448eb211c80319c-b7ad6b7169203331-01\n

a value of 257 characters
run headers --to w3c
input-lines traceparent: 00-0af7651916cd43dd8448eb211c80319c-b7ad6b7169203331-01\n
 tracestate: a=vvvvvvvvvvvvvvvvvvvvvvvvvvvvvvvvvvvvvvvvvvvvvvvvvvvvvvvvvvvvvvvvvvvvvvvvvvvvvvvvvvvvvvvvvvvvvvvvvvvvvvvvvvvvv
 vvvvvvvvvvvvvvvvvvvvvvvvvvvvvvvvvvvvvvvvvvvvvvvvvvvvvvvvvvvvvvvvvvvvvvvvvvvvvvvvvvvvvvvvvvvvvvvvvvvvvvvvvvvvvvvvvvvvvvvvvvv
 vvvvvvvvvvvvvvvvvvvvvvvvv\n
output-lines traceparent: 00-0af7651916cd43dd8448eb211c80319c-b7ad6b7169203331-01\n

not even in debug
run headers --to w3c
input-lines traceparent: 00-0af7651916cd43dd8448eb211c80319c-b7ad6b7169203331-01\ntracestate: A=1\nb3: d\n
output-lines traceparent: 00-0af7651916cd43dd8448eb211c80319c-b7ad6b7169203331-01\n

a bad one in b3
run headers --to b3
input-lines traceparent: 00-0af7651916cd43dd8448eb211c80319c-b7ad6b7169203331-01\ntracestate: A=1\n
output-lines b3: 0af7651916cd43dd8448eb211c80319c-b7ad6b7169203331-1\n
"#;
