// Cases as lines of text: fields parted by tabs, bytes in hexadecimal.
#![tactic(auto)]

ghost use Rattle.std.specs.Prelude.{◌≡◌, ◌+◌, ◌<◌, ◌≤◌, min, List, drop, length, take, MatchOption, IfSome, ◌==◌};
ghost use Rattle.std.specs.List.{position_or_len};
ghost use Rattle.cases.specs.Hex.{digit_of, byte_of, bytes_of_hex};
ghost use Rattle.cases.specs.Decoding.{Decodes};

// What stands before a text's first mark, and what follows it; where there is no mark, all of it and nothing.
pub fn cut(text: &[u8], mark: u8) -> (&[u8], &[u8])
    ensures stop { length result.0.now ≡ position_or_len (λ b. b == mark) text.now }
    ensures before { result.0.now ≡ take (length result.0.now) text.now }
    ensures in_bounds { length result.0.now ≤ length text.now }
    ensures after { result.1.now ≡ drop (min (length result.0.now + 1) (length text.now)) text.now }
{
    match text.iter().position(|b| *b == mark) {
        Some(stop) => (&text[..stop], &text[stop + 1..]),
        None => (text, &[]),
    }
}

// Whether a line is a case and no remark.
pub fn is_case(line: &[u8]) -> bool {
    line.first().is_some_and(|b| *b != b'#')
}

// A digit's value. The library's `to_digit` takes capitals too.
#[tactic(auto, unfolding(crate::specs::Hex::digit_of))]
fn value(digit: u8) -> Option<u8>
    ensures { MatchOption result (digit_of digit ≡ 16) (λ v. (v ≡ digit_of digit) × (v < 16)) }
{
    match digit {
        b'0'..=b'9' => Some(digit - b'0'),
        b'a'..=b'f' => Some(digit - b'a' + 10),
        _ => None,
    }
}

// The byte of two digits.
#[tactic(auto, unfolding(crate::specs::Hex::byte_of))]
fn byte(high: u8, low: u8) -> Option<u8>
    ensures { MatchOption result (byte_of high low ≡ 256) (λ x. (x ≡ byte_of high low) × (x < 256)) }
{
    let a = value(high)?;
    let b = value(low)?;
    Some(16 * a + b)
}

// Bytes from their digits, to the start of a room; how many. Where they are wrong the room holds whatever was decoded before.
pub fn decode(digits: &[u8], room: &mut [u8]) -> Option<usize>
    ensures decodes { Decodes (bytes_of_hex digits.now) result room.old room.new }
    ensures fits { IfSome result (λ n. n ≤ length room.new) }
{
    let (pairs, rest) = digits.as_chunks::<2>();
    if !rest.is_empty() {
        return None;
    }
    if pairs.len() > room.len() {
        return None;
    }
    for (i, [high, low]) in pairs.iter().enumerate() {
        room[i] = byte(*high, *low)?;
    }
    Some(pairs.len())
}
