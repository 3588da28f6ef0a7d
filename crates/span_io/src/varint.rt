//! Varints of protobuf, and their shortest spelling.
ghost use Rattle.std.specs.Prelude.{◌≡◌};
ghost use Rattle.span_io.specs.Varint.{varint_text};
ghost use Rattle.span_io.specs.Zigzag as zigzags;

use std::marker::Model;

/// The shortest spelling of a number as a varint (proto3 wire format), which contracts see as its bytes.
#[derive(Drop)]
pub struct Varint {
    bytes: [u8; 10],
    size: usize,
}

impl Model for Varint {
    ghost use Rattle.std.specs.Prelude.{◌≤◌, ℕ, List, take};

    ghost Value = { List ℕ };

    ghost view = { λ v. take v.size v.bytes };

    ghost invariant = { λ v. v.size ≤ 10 };
}

impl Varint {
    pub fn new(n: u64) -> Varint
        ensures { result ≡ varint_text n }
    {
        let mut bytes = [0; 10];
        let mut rest = n;
        'groups: for passed in 0..9_usize {
            if rest < 128 {
                bytes[passed] = rest as u8;
                return Varint {
                    bytes,
                    size: passed + 1,
                };
            }
            bytes[passed] = (128 + rest % 128) as u8;
            rest /= 128;
        }
        bytes[9] = rest as u8;
        Varint { bytes, size: 10 }
    }

    pub fn as_slice(&self) -> &[u8]
        ensures { result.now ≡ self.now }
    {
        &self.bytes[..self.size]
    }
}

/// The number that stands for this one where a varint spells numbers that have a sign.
#[inline(always)]
pub fn zigzag(z: i64) -> u64
    ensures { result ≡ zigzags.zigzag z }
{
    if z < 0 {
        (-1 - z) as u64 * 2 + 1
    } else {
        z as u64 * 2
    }
}

// The number for which this one stands.
#[inline(always)]
pub(crate) fn unzigzag(n: u64) -> i64
    ensures { result ≡ zigzags.unzigzag n }
{
    let half = (n / 2) as i64;
    if n % 2 == 0 { half } else { -1 - half }
}
