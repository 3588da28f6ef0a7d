//! The identifier of a span.
ghost use Rattle.std.specs.Prelude.{◌≡◌, ℕ, List, ◌<◌, ◌^◌, ◌↔◌, IsOk, IfOk, IsErr, Ok, IsUtf8};
ghost use Rattle.std.specs.Int.{w64, to_be_bytes};
ghost use Rattle.hex.specs.Hex.{encode_lower};
ghost use Rattle.span_ids.specs.HexTexts.{IsIdHexText, SpellsInHex};
ghost use Rattle.span_ids.specs.declared.hex_text.IdRule.{IdRule};
ghost use Rattle.span_ids.specs.Identifiers.{IsSpanIdText, SpellsSpanId};

use crate::bad_id::BadId;
use crate::hex_text::{IdRule, hex_number};
use std::marker::Model;

/// The identifier of a span: 8 bytes, not all zero (OTLP `span_id`, W3C Trace Context
/// `parent-id`). Contracts see it as the number that the bytes are, the most significant one first.
#[derive(Clone, Copy, PartialEq, Eq, PartialOrd, Ord)]
pub struct SpanId {
    number: u64,
}

impl Model for SpanId {
    ghost use Rattle.std.specs.Prelude.{ℕ, ◌<◌, ◌^◌};

    ghost Value = { ℕ };

    ghost view = { λ id. id.number };

    ghost invariant = { λ id. (0 < id.number) × (id.number < 2 ^ 64) };

    ghost inverse = { λ n. record { number = n } };
}

impl SpanId {
    /// Reads an identifier in binary. Another length, or all zero, is `BadId`.
    pub fn from_bytes(bytes: &[u8]) -> Result<SpanId, BadId>
        ensures ok { IsOk result ↔ IsSpanIdText bytes.now }
        ensures value { IfOk result (λ id. SpellsSpanId bytes.now id) }
        // Whatever identifier the bytes spell is the answer.
        ensures only { (id : ℕ) → SpellsSpanId bytes.now id → result ≡ Ok id }
    {
        let Ok(array) = <[u8; 8]>::try_from(bytes) else {
            return Err(BadId);
        };
        let number = u64::from_be_bytes(array);
        if number == 0 {
            return Err(BadId);
        }
        Ok(SpanId { number })
    }

    /// The identifier of a number (jaeger.thrift `spanId`). Zero is `BadId`.
    pub fn from_number(n: u64) -> Result<SpanId, BadId>
        ensures bad { IsErr result ↔ (n ≡ 0) }
        ensures value { IfOk result (λ id. id ≡ n) }
    {
        if n == 0 {
            return Err(BadId);
        }
        Ok(SpanId { number: n })
    }

    /// The number of the identifier, which `from_number` takes back.
    pub fn number(&self) -> u64
        ensures { result ≡ self.now }
    {
        self.number
    }

    /// The 8 bytes of the identifier.
    pub fn to_bytes(&self) -> [u8; 8]
        ensures written { result ≡ to_be_bytes w64 self.now }
        // So that reading them gives the identifier back.
        ensures again { SpellsSpanId result self.now }
    {
        self.number.to_be_bytes()
    }

    /// Reads an identifier in hexadecimal. A text that isn't of the rule, or is zero, is `BadId`.
    pub fn read_hex(text: &[u8], rule: IdRule) -> Result<SpanId, BadId>
        ensures ok { IsOk result ↔ IsIdHexText rule 16 text.now }
        ensures value { IfOk result (λ id. SpellsInHex rule 16 text.now id) }
        // Whatever identifier the text spells is the answer.
        ensures only { (id : ℕ) → SpellsInHex rule 16 text.now id → result ≡ Ok id }
    {
        if !rule.takes(text, 16) {
            return Err(BadId);
        }
        let spelled = hex_number(text) as u64;
        if spelled == 0 {
            return Err(BadId);
        }
        Ok(SpanId { number: spelled })
    }

    /// Writes the 16 digits of the identifier, in lower case.
    pub fn write_hex(&self, out: &mut [u8; 16])
        ensures utf8 { IsUtf8 out.new }
        ensures written { out.new ≡ encode_lower (to_be_bytes w64 self.now) }
        // So that each rule reads it back.
        ensures again { (rule : IdRule) → SpellsInHex rule 16 out.new self.now }
        // There is no other text of all digits in lower case.
        ensures only { (text : List ℕ) → SpellsInHex IdRule.ExactLower 16 text self.now
            → text ≡ out.new }
    {
        self.known();
        hex::encode_to_slice(self.to_bytes(), out).unwrap();
    }

    /// Tells the range of an identifier: it does nothing, and its caller learns the contract.
    pub fn known(self)
        ensures positive { 0 < self }
        ensures fits { self < 2 ^ 64 }
    {
        // The type keeps it.
    }
}
