//! The identifier of a trace.
ghost use Rattle.std.specs.Prelude.{◌≡◌, ℕ, List, ◌<◌, ◌^◌, ◌↔◌, IsOk, IfOk, IsErr, Ok, IsUtf8};
ghost use Rattle.std.specs.Int.{w128, to_be_bytes};
ghost use Rattle.hex.specs.Hex.{encode_lower};
ghost use Rattle.span_ids.specs.Proper.{IsProperTraceId};
ghost use Rattle.span_ids.specs.HexTexts.{IsIdHexText, SpellsInHex};
ghost use Rattle.span_ids.specs.declared.hex_text.IdRule.{IdRule};
ghost use Rattle.span_ids.specs.Identifiers.{IsTraceIdText, SpellsTraceId, HasHalves};

use crate::bad_id::BadId;
use crate::hex_text::{IdRule, hex_number};
use std::marker::Model;

/// The identifier of a trace: 16 bytes, not all zero (OTLP `trace_id`, W3C Trace Context
/// `trace-id`). Contracts see it as the number that the bytes are, the most significant one first.
#[derive(Clone, Copy, PartialEq, Eq, PartialOrd, Ord)]
pub struct TraceId {
    number: u128,
}

impl Model for TraceId {
    ghost use Rattle.std.specs.Prelude.{ℕ, ◌<◌, ◌^◌};

    ghost Value = { ℕ };

    ghost view = { λ id. id.number };

    ghost invariant = { λ id. (0 < id.number) × (id.number < 2 ^ 128) };

    ghost inverse = { λ n. record { number = n } };
}

// What a high half counts.
const HALF: u128 = 1 << 64;

impl TraceId {
    /// Reads an identifier in binary. Another length, or all zero, is `BadId`.
    pub fn from_bytes(bytes: &[u8]) -> Result<TraceId, BadId>
        ensures ok { IsOk result ↔ IsTraceIdText bytes.now }
        ensures value { IfOk result (λ id. SpellsTraceId bytes.now id) }
        // Whatever identifier the bytes spell is the answer.
        ensures only { (id : ℕ) → SpellsTraceId bytes.now id → result ≡ Ok id }
    {
        let Ok(array) = <[u8; 16]>::try_from(bytes) else {
            return Err(BadId);
        };
        let number = u128::from_be_bytes(array);
        if number == 0 {
            return Err(BadId);
        }
        Ok(TraceId { number })
    }

    /// Joins the halves of an identifier (jaeger.thrift `traceIdHigh` and `traceIdLow`). Where both
    /// are zero it is `BadId`.
    pub fn from_halves(high: u64, low: u64) -> Result<TraceId, BadId>
        ensures bad { IsErr result ↔ ((high ≡ 0) × (low ≡ 0)) }
        ensures value { IfOk result (λ id. HasHalves id high low) }
        // Whatever identifier has these halves is the answer.
        ensures only { (id : ℕ) → 0 < id → HasHalves id high low → result ≡ Ok id }
    {
        if high == 0 && low == 0 {
            return Err(BadId);
        }
        let joined = u128::from(high) * HALF + u128::from(low);
        Ok(TraceId { number: joined })
    }

    /// The high and the low half of the identifier.
    pub fn halves(&self) -> (u64, u64)
        ensures value { HasHalves self.now result.0 result.1 }
        // There are no other halves, so those that were joined are given back.
        ensures only { (high low : ℕ) → HasHalves self.now high low
            → (result.0 ≡ high) × (result.1 ≡ low) }
    {
        ((self.number / HALF) as u64, (self.number % HALF) as u64)
    }

    /// The 16 bytes of the identifier.
    pub fn to_bytes(&self) -> [u8; 16]
        ensures written { result ≡ to_be_bytes w128 self.now }
        // So that reading them gives the identifier back.
        ensures again { SpellsTraceId result self.now }
    {
        self.number.to_be_bytes()
    }

    /// Reads an identifier in hexadecimal. A text that isn't of the rule, or is zero, is `BadId`.
    pub fn read_hex(text: &[u8], rule: IdRule) -> Result<TraceId, BadId>
        ensures ok { IsOk result ↔ IsIdHexText rule 32 text.now }
        ensures value { IfOk result (λ id. SpellsInHex rule 32 text.now id) }
        // Whatever identifier the text spells is the answer.
        ensures only { (id : ℕ) → SpellsInHex rule 32 text.now id → result ≡ Ok id }
    {
        if !rule.takes(text, 32) {
            return Err(BadId);
        }
        let spelled = hex_number(text);
        if spelled == 0 {
            return Err(BadId);
        }
        Ok(TraceId { number: spelled })
    }

    /// Writes the 32 digits of the identifier, in lower case.
    pub fn write_hex(&self, out: &mut [u8; 32])
        ensures utf8 { IsUtf8 out.new }
        ensures written { out.new ≡ encode_lower (to_be_bytes w128 self.now) }
        // So that each rule reads it back.
        ensures again { (rule : IdRule) → SpellsInHex rule 32 out.new self.now }
        // There is no other text of all digits in lower case.
        ensures only { (text : List ℕ) → SpellsInHex IdRule.ExactLower 32 text self.now
            → text ≡ out.new }
    {
        self.known();
        hex::encode_to_slice(self.to_bytes(), out).unwrap();
    }

    /// Tells the range of an identifier: it does nothing, and its caller learns the contract.
    pub fn known(self)
        ensures positive { 0 < self }
        ensures fits { self < 2 ^ 128 }
        // Both in one word.
        ensures proper { IsProperTraceId self }
    {
        // The type keeps it.
    }
}
