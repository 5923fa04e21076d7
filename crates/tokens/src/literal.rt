// Literals: hex digits, their worth, a literal's significant bytes, and whether it is zero.
ghost use Rattle.std.specs.Prelude.{◌≡◌, ◌-◌, ◌/◌, ◌%◌, ◌^◌, ◌≤◌, min, max, length, drop};
ghost use Rattle.tokens.specs.Byte.{is_hex, digit, all_hex, value_after};
ghost use Rattle.tokens.specs.Literal.{is_literal, literal_value, is_zero, significant};

// A hex digit of either case. No branch: which range a byte lies in can't be foreseen. `is_ascii_hexdigit` proves as well, but with
// its likes in lexer, `is_ascii_digit` and `is_ascii_alphanumeric`, a text of words took a fifth longer (bench/README.md).
#[tactic(auto, unfolding(crate::specs::Byte::is_hex))]
pub fn is_hex(c: u8) -> bool
    ensures { result ≡ is_hex c }
{
    let decimal = (b'0' <= c) & (c <= b'9');
    let small = (b'a' <= c) & (c <= b'f');
    let capital = (b'A' <= c) & (c <= b'F');
    decimal | small | capital
}

// What a hex digit is worth; any other byte 0, which the door lets through in no literal. No Option, and no `to_digit`: the promise, `digit` (specs/Byte), is named in
// docs/PROMISES.md, says 0, and has these three ranges.
#[tactic(auto, using(crate::proofs::LiteralLaws::inside, crate::proofs::LiteralLaws::under, crate::proofs::LiteralLaws::over), unfolding(crate::specs::Byte::digit))]
pub fn digit_value(c: u8) -> u64
    ensures { result ≡ digit c }
{
    match c {
        b'0'..=b'9' => u64::from(c - b'0'),
        b'a'..=b'f' => u64::from(c - b'a' + 10),
        b'A'..=b'F' => u64::from(c - b'A' + 10),
        _ => 0,
    }
}

// Every byte is a hex digit. All are looked at, many at once where the machine can: a text that has another is the rare case.
pub fn all_hex(name: &[u8]) -> bool
    ensures { result ≡ all_hex name.now }
{
    name.iter().fold(true, |all, c| all & is_hex(*c))
}

// 0x and 1 to 64 hex digits.
#[tactic(auto, using(crate::proofs::LiteralLaws::not_two, crate::proofs::LiteralLaws::not_zero, crate::proofs::LiteralLaws::not_x, crate::proofs::LiteralLaws::no_digit, crate::proofs::LiteralLaws::many_digits, crate::proofs::LiteralLaws::by_digits))]
pub fn is_literal(text: &[u8]) -> bool
    ensures { result ≡ is_literal text.now }
{
    let [b'0', b'x', digits @ ..] = text else {
        return false;
    };
    match digits.len() {
        1..=64 => all_hex(digits),
        _ => false,
    }
}

// The number that at most 16 digits write: a quarter of a literal. Unlike decimal numbers elsewhere it always fits, so no product is checked.
fn quarter(digits: &[u8]) -> u64
    requires { length digits.now ≤ 16 }
    ensures { result ≡ value_after 0 digits.now }
{
    let mut n: u64 = 0;
    for digit in digits {
        n = n * 16 + digit_value(*digit);
    }
    n
}

// The significant bytes of a quarter, from its leading zeros; zero has one byte too.
#[tactic(auto, using(crate::proofs::LiteralLaws::significant_zero, crate::proofs::LiteralLaws::from_leading_up))]
fn bytes_of(quarter: u64) -> usize
    ensures { result ≡ significant quarter }
{
    if quarter == 0 {
        return 1;
    }
    let zeros = quarter.leading_zeros() as usize;
    (64 - zeros).div_ceil(8)
}

// The place `back` digits before the end of a text, or where its digits begin.
fn before_end(end: usize, back: usize) -> usize
    ensures { result ≡ min end (max 2 (end - back)) }
{
    end.saturating_sub(back).max(2).min(end)
}

// The quarter of a literal that has `back` digits behind it.
#[tactic(auto, using(crate::proofs::LiteralLaws::quarter_value))]
fn quarter_at(literal: &[u8], back: usize) -> u64
    ensures { result ≡ value_after 0 (drop 2 literal.now) / 16 ^ back % 2 ^ 64 }
{
    let e = before_end(literal.len(), back);
    let a = before_end(e, 16);
    quarter(&literal[a..e])
}

// The significant bytes of a literal by all its quarters. Its last 64 digits are four quarters of 64 bits: the highest that is not zero decides, by its
// leading zeros, and all bytes behind it are significant.
#[tactic(auto, using(crate::proofs::LiteralLaws::significant_between, crate::proofs::LiteralLaws::quarter_found, crate::proofs::LiteralLaws::quarter_passed), unfolding(crate::specs::Literal::literal_value))]
fn bytes_of_four(literal: &[u8]) -> usize
    ensures { result ≡ significant (literal_value literal.now) }
{
    for i in (1..4).rev() {
        let quarter = quarter_at(literal, 16 * i);
        if quarter != 0 {
            return bytes_of(quarter) + 8 * i;
        }
    }
    bytes_of(quarter_at(literal, 0))
}

// A literal's significant bytes. One of at most 16 digits, as most are, is a single quarter.
#[tactic(auto, using(crate::proofs::LiteralLaws::short_value))]
pub fn significant_bytes(literal: &[u8]) -> usize
    ensures { result ≡ significant (literal_value literal.now) }
{
    match literal.len() {
        2..=18 => bytes_of(quarter(&literal[2..])),
        _ => bytes_of_four(literal),
    }
}

// A literal's value is zero, however many digits write it: all its quarters are. The last comes first, since it tells of most literals.
pub fn is_zero(literal: &[u8]) -> bool
    ensures { result ≡ is_zero literal.now }
{
    (0..4).all(|i| quarter_at(literal, 16 * i) == 0)
}
