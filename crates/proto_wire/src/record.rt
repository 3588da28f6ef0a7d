/// What a record holds, by its wire type: 0, 1, 2 and 5.
#[derive(Clone, Copy, PartialEq, Eq)]
pub enum Payload<'a> {
    Varint(u64),
    Fixed64(u64),
    Bytes(&'a [u8]),
    Fixed32(u32),
}

/// A field of a message: its number, 1 to 536,870,911, and what it holds.
#[derive(Clone, Copy, PartialEq, Eq)]
pub struct WireRecord<'a> {
    pub number: u32,
    pub payload: Payload<'a>,
}
