//! Integers as text.
ghost use Rattle.std.specs.Prelude.{◌≡◌, ◌+◌, ◌-◌, ◌*◌, ◌^◌, take, drop, nat_lt, IsTrue, if◌then◌else◌, None};
ghost use Rattle.std.specs.List.{prefix_len};
ghost use Rattle.sql_text.specs.Word.{is_digit};
ghost use Rattle.sql_text.specs.Value as values;
ghost use Rattle.sql_text.specs.Value.{amount, value_of, signed, sign_len, integer_len, IsKept};

// Whether a minus begins the text.
fn is_negative(text: &[u8]) -> bool
    ensures { result ≡ values.is_negative text.now }
{
    match text {
        [] => false,
        [first, ..] => *first == b'-',
    }
}

// Whether a plus begins the text.
fn has_plus(text: &[u8]) -> bool
    ensures { result ≡ values.has_plus text.now }
{
    match text {
        [] => false,
        [first, ..] => *first == b'+',
    }
}

// Whether a minus begins the text, and what stands behind the sign, or the text where it has none.
fn split_sign(text: &[u8]) -> (bool, &[u8])
    ensures negative { result.0 ≡ values.is_negative text.now }
    ensures behind { result.1.now ≡ drop (sign_len text.now) text.now }
{
    if is_negative(text) {
        return (true, text.split_at(1).1);
    }
    if has_plus(text) {
        return (false, text.split_at(1).1);
    }
    (false, text)
}

// The amount with one more digit behind it, or the largest of 64 bits where no integer of 64 bits has that amount.
fn with_digit(amount: u64, digit: u8) -> u64
    requires { IsTrue (is_digit digit) }
    ensures { result ≡ (if nat_lt amount (2 ^ 60) then amount * 10 + (digit - 48) else 2 ^ 64 - 1) }
{
    if amount < 1 << 60 {
        amount * 10 + u64::from(digit - b'0')
    } else {
        u64::MAX
    }
}

// What `leading_amount` gives, for any number of digits.
fn long_amount(text: &[u8]) -> (u64, usize)
    ensures len { result.1 ≡ prefix_len is_digit text.now }
    ensures amount { IsKept result.0 (amount (take result.1 text.now)) }
{
    let mut amount = 0;
    for (i, byte) in text.iter().enumerate() {
        if !byte.is_ascii_digit() {
            return (amount, i);
        }
        amount = with_digit(amount, *byte);
    }
    (amount, text.len())
}

// The amount that the digits at the front write, as far as an integer of 64 bits can have it; and how many digits there are.
fn leading_amount(text: &[u8]) -> (u64, usize)
    ensures len { result.1 ≡ prefix_len is_digit text.now }
    ensures amount { IsKept result.0 (amount (take result.1 text.now)) }
{
    let mut amount = 0;
    for (i, byte) in text.iter().enumerate() {
        if !byte.is_ascii_digit() {
            return (amount, i);
        }
        if i == 18 {
            return long_amount(text);
        }
        amount = amount * 10 + u64::from(*byte - b'0');
    }
    (amount, text.len())
}

// The integer of an amount that so many digits write, negative or not, where there is a digit and the integer has 64 bits.
fn signed_value(digits: usize, negative: bool, amount: u64) -> Option<i64>
    ensures { result ≡ (if nat_lt 0 digits then signed negative amount else None) }
{
    if digits == 0 {
        return None;
    }
    if negative {
        0i64.checked_sub_unsigned(amount)
    } else {
        i64::try_from(amount).ok()
    }
}

/// Returns the integer at the front of a text, which is a sign or none and then digits, and what stands behind it. None says that
/// there is no digit, or that the integer does not have 64 bits. `+5`, `005` and `-0` are integers.
pub fn leading_i64(text: &[u8]) -> (Option<i64>, &[u8])
    ensures value { result.0 ≡ value_of (take (integer_len text.now) text.now) }
    ensures behind { result.1.now ≡ drop (integer_len text.now) text.now }
{
    let (negative, behind_sign) = split_sign(text);
    let (amount, digits) = leading_amount(behind_sign);
    (
        signed_value(digits, negative, amount),
        behind_sign.split_at(digits).1,
    )
}

/// Returns the integer that the text is: a sign or none, and digits, within 64 bits. `+5`, `005` and `-0` are integers.
pub fn read_i64(text: &[u8]) -> Option<i64>
    ensures { result ≡ value_of text.now }
{
    let (value, behind) = leading_i64(text);
    if behind.is_empty() { value } else { None }
}
