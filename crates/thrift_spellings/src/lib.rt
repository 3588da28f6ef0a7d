//! What Thrift's binary and compact protocol spell, read and write for each part of a text, and what follows of it for every text.
//! It has no code: `thrift_binary` and `thrift_compact` are proved to be what stands here.
#![tactic(auto)]
