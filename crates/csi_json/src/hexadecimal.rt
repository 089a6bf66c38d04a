//! Bytes in hexadecimal, two lower-case digits a byte.
ghost use Rattle.std.specs.Prelude.{◌≡◌, ℕ, List, Some};
ghost use Rattle.std.specs.List.{list_any};
ghost use Rattle.hex.specs.Hex.{IsBytes, encode_lower};
ghost use Rattle.csi_json.specs.Private.Json.{Reads};
ghost use Rattle.csi_json.specs.Public.Hexadecimal.{is_upper_digit, hex_bytes as bytes_in};

use crate::values::Flaw;
use hex::FromHexError;
use std::alloc::Global;

fn has_upper_digit(digits: &[u8]) -> bool
    ensures { result ≡ list_any is_upper_digit digits.now }
{
    for digit in digits {
        if matches!(*digit, b'A'..=b'F') {
            return true;
        }
    }
    false
}

/// The bytes that a text says.
#[tactic(auto, unfolding(crate::specs::Public::Hexadecimal::hex_bytes))]
pub fn hex_bytes(alloc: Global, text: &str) -> Result<Vec<u8>, Flaw>
    ensures { Reads (λ bytes. bytes.items) result (bytes_in text.now) }
{
    if has_upper_digit(text.as_bytes()) {
        return Err(Flaw::Bad);
    }
    match hex::decode(alloc, text) {
        Ok(bytes) => Ok(bytes),
        Err(FromHexError::OutOfMemory) => Err(Flaw::NoMemory),
        Err(_) => Err(Flaw::Bad),
    }
}

/// A law, and nothing that runs: bytes that are written in hexadecimal are read again, and no other text is read as them. This
/// profile's own.
pub fn hexadecimal_law()
    ensures again { (bytes : List ℕ) → IsBytes bytes → bytes_in (encode_lower bytes) ≡ Some bytes }
    ensures only { (text bytes : List ℕ) → bytes_in text ≡ Some bytes → (text ≡ encode_lower bytes) × IsBytes bytes }
{}
