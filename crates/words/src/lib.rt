// Words and numbers in a line of text: words have a space between them, numbers are decimal.
#![tactic(auto)]

ghost use Rattle.std.specs.Prelude.{◌≡◌, ◌==◌, position};
ghost use Rattle.words.specs.Words.{word_of, rest_of, seen, after_space, with_digit, numeral};

const SPACE: u8 = b' ';

// Numbers of more digits than this can hold are all the same to a reader: too large.
const LARGE: u32 = 100_000_000;

// Where the first space is.
fn first_space(line: &[u8]) -> Option<usize>
    ensures { result ≡ position (λ byte. byte == 32) line.now }
{
    line.iter().position(|byte| *byte == SPACE)
}

// The first word, and what is behind it, with the space.
pub fn split_word(line: &[u8]) -> (&[u8], &[u8])
    ensures word { result.0.now ≡ word_of line.now }
    ensures rest { result.1.now ≡ rest_of line.now }
{
    line.split_at(first_space(line).unwrap_or(line.len()))
}

// What is behind a space, if there is one in front.
pub fn after_space(rest: &[u8]) -> Option<&[u8]>
    ensures { seen result ≡ after_space rest.now }
{
    let [SPACE, behind @ ..] = rest else {
        return None;
    };
    Some(behind)
}

// A number with one decimal digit more.
pub fn with_digit(n: u32, byte: u8) -> Option<u32>
    ensures { result ≡ with_digit n byte }
{
    match byte {
        b'0'..=b'9' if n < LARGE => Some(n * 10 + u32::from(byte - b'0')),
        b'0'..=b'9' => Some(n),
        _ => None,
    }
}

// A number, by its decimal digits.
pub fn number(digits: &[u8]) -> Option<u32>
    ensures { result ≡ numeral digits.now }
{
    if digits.is_empty() {
        return None;
    }
    let mut n = 0;
    for digit in digits {
        n = with_digit(n, *digit)?;
    }
    Some(n)
}
