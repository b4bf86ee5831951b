// Bytes in lowercase hexadecimal, two digits each.
ghost use Rattle.std.specs.Prelude.{◌≡◌};
ghost use Rattle.corpus.specs.Digits.{digit_value};

use std::alloc::{AllocError, Global};

fn digit(c: u8) -> Option<u8>
    ensures { result ≡ digit_value c }
{
    match c {
        b'0'..=b'9' => Some(c - b'0'),
        b'a'..=b'f' => Some(c - b'a' + 10),
        _ => None,
    }
}

fn byte(digits: [u8; 2]) -> Option<u8> {
    let [high, low] = digits;
    Some(digit(high)? << 4 | digit(low)?)
}

// None where the text is not a whole number of bytes.
pub(super) fn decode(heap: Global, text: &[u8]) -> Result<Option<Vec<u8>>, AllocError> {
    let (pairs, []) = text.as_chunks::<2>() else {
        return Ok(None);
    };
    let mut bytes = Vec::new(heap);
    for pair in pairs {
        let Some(byte) = byte(*pair) else {
            return Ok(None);
        };
        bytes.push(byte)?;
    }
    Ok(Some(bytes))
}
