ghost use Rattle.std.specs.Prelude.{◌≡◌, ◌≤◌, ◌<◌, [], ◌∷◌, length, string_bytes};
ghost use Rattle.command_words.specs.Texts.{is_name, number_behind_digits, number_of, number_in};

/// Whether the word may name a file where no name stands before it.
pub(crate) fn is_name(word: &String) -> bool
    ensures { result ≡ is_name [] (string_bytes word.now) }
{
    match word.as_bytes() {
        [] => false,
        [first, ..] => *first != b'-',
    }
}

/// Whether the word may name a file behind one name.
pub(crate) fn is_second_name(word: &String, first: &String) -> bool
    ensures { result ≡ is_name (string_bytes first.now ∷ []) (string_bytes word.now) }
{
    is_name(word) && word.as_str() != first.as_str()
}

/// Whether the word may name a file behind two names.
pub(crate) fn is_third_name(word: &String, first: &String, second: &String) -> bool
    ensures { result ≡ is_name (string_bytes first.now ∷ string_bytes second.now ∷ []) (string_bytes word.now) }
{
    is_name(word) && word.as_str() != first.as_str() && word.as_str() != second.as_str()
}

fn number_behind_digits(start: u64, digits: &[u8]) -> Option<u64>
    requires one { start < 10 }
    requires few { length digits.now ≤ 12 }
    ensures { result ≡ number_behind_digits start digits.now }
{
    let mut number = start;
    for digit in digits {
        if !digit.is_ascii_digit() {
            return None;
        }
        number = number * 10 + u64::from(*digit - b'0');
    }
    Some(number)
}

fn number_of(word: &String) -> Option<u64>
    ensures { result ≡ number_of (string_bytes word.now) }
{
    let [first, digits @ ..] = word.as_bytes() else {
        return None;
    };
    if *first == b'0' && digits.is_empty() {
        Some(0)
    } else if *first >= b'1' && *first <= b'9' && digits.len() <= 12 {
        number_behind_digits(u64::from(*first - b'0'), digits)
    } else {
        None
    }
}

/// The number that the word writes, where it is in its range.
pub(crate) fn number_in(least: u64, greatest: u64, word: &String) -> Option<u64>
    ensures { result ≡ number_in least greatest (string_bytes word.now) }
{
    match number_of(word) {
        Some(number) if least <= number && number <= greatest => Some(number),
        _ => None,
    }
}
