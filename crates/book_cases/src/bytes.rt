// Bytes as the table writes them.
ghost use Rattle.std.specs.Prelude.{◌<◌};

use std::alloc::AllocError;

// The number that the word gives, 0 where there is no number.
pub fn number(word: Option<&str>) -> usize {
    word.and_then(|text| text.parse().ok()).unwrap_or(0)
}

// The bytes of one word, as often as it says.
pub fn append(file: &mut Vec<u8>, word: &str) -> Result<(), AllocError> {
    let (digits, times) = word
        .split_once('x')
        .map_or((word, 1), |(digits, times)| (digits, number(Some(times))));
    for _ in 0..times {
        for pair in digits.as_bytes().chunks(2) {
            if let [high, low] = pair {
                file.push(digit(*high) * 16 + digit(*low))?;
            }
        }
    }
    Ok(())
}

fn digit(c: u8) -> u8
    ensures below_sixteen { result < 16 }
{
    match c {
        b'0'..=b'9' => c - b'0',
        b'a'..=b'f' => c - b'a' + 10,
        _ => 0,
    }
}
