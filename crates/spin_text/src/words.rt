//! The lines of bytes, and the words of a line. Begin with [`first_line`] and [`word`].
ghost use Rattle.std.specs.Prelude.{◌≡◌, ◌<◌, ◌≤◌, ◌+◌, ◌*◌, ◌^◌, ◌∷◌, ◌==◌, [], length, IfSome, IfNone, None, option_map, map};
ghost use Rattle.std.specs.Char.{digit_value};
ghost use Rattle.std.specs.List.{slice_split};
ghost use Rattle.std.specs.Str.{bytes_eq};
ghost use Rattle.std.specs.Str.Parse.{AllDigits, digits_value};
ghost use Rattle.memchr.specs.Find.{IsFirstByte, is_byte};
ghost use Rattle.spin_text.specs.Lines.{words_by_line, words_of};
ghost use Rattle.spin_text.specs.Reading.{words_left, lines_left, has_ended, read_number, word_at, number_at, last_word, last_number, parts_left, named, only_named};

use memchr::memchr;

/// The rest of a line, or of all lines. `None` means that nothing is left. `Some` of no bytes is one empty
/// word, or line.
pub type Rest<'a> = Option<&'a [u8]>;

/// For this many bytes or more [`memchr`] is faster than a loop, since it compares several bytes at once.
const WIDE: usize = 32;

/// Returns the place of the first separator. For few bytes, such as those of a line, it uses a loop.
#[inline(always)]
fn first_place(separator: u8, bytes: &[u8]) -> Option<usize>
    ensures { IsFirstByte (is_byte separator) bytes.now result }
{
    if bytes.len() >= WIDE {
        return memchr(separator, bytes);
    }
    for i in 0..bytes.len() {
        if bytes[i] == separator {
            return Some(i);
        }
    }
    None
}

/// Returns the bytes before the first separator, and the bytes after it.
#[inline(always)]
fn cut(separator: u8, bytes: &[u8]) -> (&[u8], Rest<'_>)
    ensures parts { slice_split (λ b. b == separator) bytes.now ≡ result.0.now ∷ parts_left separator result.1 }
    ensures shorter { IfSome result.1 (λ rest. length rest.now < length bytes.now) }
{
    match first_place(separator, bytes) {
        None => (bytes, None),
        Some(at) => (&bytes[..at], Some(&bytes[at + 1..])),
    }
}

/// Returns the first line of the bytes without its line feed, and the lines after it.
///
/// # Contract
/// The first line and the lines left are together the lines of the bytes (`words_by_line`). The rest is
/// shorter than the bytes.
pub fn first_line(bytes: &[u8]) -> (&[u8], Rest<'_>)
    ensures lines { words_by_line bytes.now ≡ words_of result.0.now ∷ lines_left result.1 }
    ensures shorter { IfSome result.1 (λ rest. length rest.now < length bytes.now) }
{
    let (line, rest) = cut(b'\n', bytes);
    match rest {
        None => (line, None),
        Some(further) => (line, if further.is_empty() { None } else { rest }),
    }
}

/// Returns the first word of a line, and the words after it.
pub fn word(line: Rest) -> Option<(&[u8], Rest)>
    ensures { option_map (λ x. (x.0.now, words_left x.1)) result ≡ word_at (words_left line.entry) }
{
    Some(cut(b' ', line?))
}

/// Returns `true` if the word is `name`.
#[inline(always)]
pub fn is_word(word: &[u8], name: &[u8]) -> bool
    ensures { result ≡ bytes_eq word.now name.now }
{
    // If the name is a constant, `starts_with` compares in place. `==` calls a function for more than four
    // bytes.
    word.len() == name.len() && name.starts_with(word)
}

/// Returns `true` if no word of the line is left.
pub fn is_over(line: Rest) -> bool
    ensures { result ≡ has_ended (words_left line.entry) }
{
    match line {
        None => true,
        Some(_) => false,
    }
}

/// Returns `number` with one more digit, or `None` if that exceeds `u64::MAX`.
fn with_digit(number: u64, digit: u8) -> Option<u64>
    requires digit { digit_value digit < 10 }
    ensures fits { IfSome result (λ n. n < 2 ^ 64) }
    ensures some { IfSome result (λ n. n ≡ number * 10 + digit_value digit) }
    ensures none { IfNone result (2 ^ 64 ≤ number * 10 + digit_value digit) }
{
    number.checked_mul(10)?.checked_add((digit - b'0') as u64)
}

/// Returns the value of a line's first word, this word, and the words after it. The word has only digits. It may be
/// empty or have leading zeros. Returns `None` if the first word has another byte, or its value exceeds `u64::MAX`.
fn digits(line: &[u8]) -> Option<(u64, &[u8], Rest<'_>)>
    ensures fits { IfSome result (λ x. x.0 < 2 ^ 64) }
    ensures digits { IfSome result (λ x. AllDigits 10 x.1.now) }
    ensures value { IfSome result (λ x. digits_value 10 x.1.now ≡ x.0) }
    ensures parts { IfSome result (λ x. words_of line.now ≡ x.1.now ∷ words_left x.2) }
    ensures none { IfNone result (number_at (words_of line.now) ≡ None) }
{
    let mut number = 0u64;
    for at in 0..line.len() {
        let byte = line[at];
        if !byte.is_ascii_digit() {
            if byte == b' ' {
                return Some((number, &line[..at], Some(&line[at + 1..])));
            }
            return None;
        }
        number = with_digit(number, byte)?;
    }
    Some((number, line, None))
}

/// Returns the number that the first word spells, and the words after it.
pub fn number_then(line: Rest) -> Option<(u64, Rest)>
    ensures { option_map (λ x. (x.0, words_left x.1)) result ≡ number_at (words_left line.entry) }
{
    let (number, word, rest) = digits(line?)?;
    let has_leading_zero = word.len() > 1 && word[0] == b'0';
    if word.is_empty() || has_leading_zero {
        return None;
    }
    Some((number, rest))
}

/// Returns the only word of a line, or `None` if the line has more words or none.
#[tactic(auto, unfolding(crate::specs::Reading::last_word))]
fn only_word(line: Rest) -> Option<&[u8]>
    ensures { option_map (λ x. x.now) result ≡ last_word (words_left line.entry) }
{
    let (word, rest) = word(line)?;
    if is_over(rest) { Some(word) } else { None }
}

/// Returns the number that the only word of a line spells.
#[tactic(auto, unfolding(crate::specs::Reading::last_number))]
pub fn only_number(line: Rest) -> Option<u64>
    ensures { result ≡ last_number (words_left line.entry) }
{
    let (number, rest) = number_then(line)?;
    if is_over(rest) { Some(number) } else { None }
}

/// Returns the table's entry for a word.
#[tactic(auto, unfolding(crate::specs::Reading::named))]
pub fn named<C: Copy>(mut table: &[(&[u8], C)], word: &[u8]) -> Option<C>
    ensures { result ≡ named (map (λ row. (row.0.now, row.1)) table.entry.now) word.now }
{
    while let [row, further @ ..] = table {
        if is_word(word, row.0) {
            return Some(row.1);
        }
        table = further;
    }
    None
}

/// Returns the table's entry for the only word of a line.
#[tactic(auto, unfolding(crate::specs::Reading::only_named))]
pub fn only_named<C: Copy>(table: &[(&[u8], C)], line: Rest) -> Option<C>
    ensures { result ≡ only_named (map (λ row. (row.0.now, row.1)) table.now) (words_left line.entry) }
{
    named(table, only_word(line)?)
}
