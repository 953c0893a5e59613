//! Numbers as words. Begin with [`number`]; [`numbers_are_printed_texts`] says which words are numbers.
ghost use Rattle.std.specs.Prelude.{◌≡◌, ℕ, ◌<◌, ◌^◌, ◌↔◌, List, IfSome, IfNone, decimal};
ghost use Rattle.spin_text.specs.Numbers.{IsNumber};

use crate::words::only_number;

/// Returns the number that the word spells, or `None` if it spells none.
///
/// A number is decimal digits without a sign and without leading zeros, at most `u64::MAX`. `0` is allowed.
///
/// # Contract
/// The digits have this value (`IsNumber`). `None` means that the word spells no number below 2^64.
///
/// # Examples
/// ```
/// use spin_text::number;
///
/// assert_eq!(rt; number("18446744073709551615"), Some(u64::MAX));
/// assert_eq!(rt; number("18446744073709551616"), None);
/// assert_eq!(rt; number("07"), None);
/// ```
pub fn number(word: &str) -> Option<u64>
    ensures fits { IfSome result (λ n. n < 2 ^ 64) }
    ensures some { IfSome result (λ n. IsNumber word.now n) }
    ensures none { IfNone result ((n : ℕ) → n < 2 ^ 64 → ¬ (IsNumber word.now n)) }
{
    only_number(Some(word.as_bytes()))
}

/// States that a word spells a number exactly if that number prints as this word.
pub fn numbers_are_printed_texts()
    ensures { (word : List ℕ) (n : ℕ) → n < 2 ^ 64 → IsNumber word n ↔ (word ≡ decimal n) }
{}
