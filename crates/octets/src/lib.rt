// Octets and text: the lowest layer. Reads past the end give 0, so a caller proves nothing of its places.
#![tactic(auto)]

ghost use Rattle.std.specs.Prelude.{◌≡◌, true, ◌≤◌, ◌+◌, ◌-◌, ◌*◌, drop};
ghost use Rattle.octets.specs.Pick.{both};
ghost use Rattle.octets.specs.Octets as octets;
ghost use Rattle.octets.specs.Text as text;
ghost use Rattle.octets.specs.Utf8 as unicode;
ghost use Rattle.octets.specs.Quoted.{closing_at, closing};
ghost use Rattle.octets.specs.Inner.Answers.{clip, grow_of, highest, between};

// What may come next in UTF-8: so many octets of a character, the next of them within bounds; or nothing.
pub type Awaiting = Option<(u8, u8, u8)>;

// The octet at a place, 0 past the end.
pub fn octet(s: &[u8], i: usize) -> u8
    ensures { result ≡ octets.octet s.now i }
{
    if s.len() <= i {
        return 0;
    }
    s[i]
}

// An octet as a wider number.
pub fn wide(b: u8) -> usize
    ensures { result ≡ b }
{
    b as usize
}

pub fn wide64(b: u8) -> u64
    ensures value { result ≡ b }
    ensures small { result ≤ 255 }
{
    b as u64
}

// Two octets as one number, big-endian.
pub fn wide_two(a: u8, b: u8) -> usize
    ensures { result ≡ a * 256 + b }
{
    a as usize * 256 + b as usize
}

// Up to n octets from a place on, as many as there are.
pub fn part(s: &[u8], at: usize, n: usize) -> &[u8]
    ensures { result.now ≡ octets.part s.now at n }
{
    if s.len() <= at {
        return &s[s.len()..];
    }
    if s.len() - at <= n {
        return &s[at..];
    }
    let end = at + n;
    &s[at..end]
}

// From place a up to place b; nothing where b is not further on.
pub fn between(s: &[u8], a: usize, b: usize) -> &[u8]
    ensures { result.now ≡ between s.now a b }
{
    part(s, a, b.saturating_sub(a))
}

// ---- the largest octet
// The largest octet, 0 where there is none. The loop has no early end, so that a machine can compare many octets at once.
pub fn highest(s: &[u8]) -> u8
    ensures { result ≡ highest s.now }
{
    let mut most = 0u8;
    for b in s {
        most = most.max(*b);
    }
    most
}

// ---- characters
// Whether an octet lies from one to another, both included.
pub fn within(least: u8, most: u8, b: u8) -> bool
    ensures { result ≡ text.within least most b }
{
    (least..=most).contains(&b)
}

#[tactic(auto, unfolding(crate::specs::Text::is_digit))]
pub fn is_digit(b: u8) -> bool
    ensures { result ≡ text.is_digit b }
{
    b.is_ascii_digit()
}

// A hexadecimal digit in either case.
#[tactic(auto, unfolding(crate::specs::Text::is_hex, crate::specs::Text::is_digit))]
pub fn is_hex(b: u8) -> bool
    ensures { result ≡ text.is_hex b }
{
    b.is_ascii_hexdigit()
}

// Its value.
#[tactic(auto, unfolding(crate::specs::Text::hex_value))]
pub fn hex_value(b: u8) -> u8
    ensures { result ≡ text.hex_value b }
{
    if b < b'A' {
        b.saturating_sub(b'0')
    } else if b < b'a' {
        b - b'A' + 10
    } else {
        b - b'a' + 10
    }
}

// Whether two octets are hexadecimal digits.
pub fn is_hex_pair(c: u8, d: u8) -> bool
    ensures { result ≡ both (text.is_hex c) (text.is_hex d) }
{
    is_hex(c) && is_hex(d)
}

// The octet that two hexadecimal digits stand for.
pub fn hex_octet(c: u8, d: u8) -> u8
    requires { both (text.is_hex c) (text.is_hex d) ≡ true }
    ensures { result ≡ text.hex_value c * 16 + text.hex_value d }
{
    hex_value(c) * 16 + hex_value(d)
}

#[tactic(auto, unfolding(crate::specs::Text::is_lower))]
pub fn is_lower(b: u8) -> bool
    ensures { result ≡ text.is_lower b }
{
    b.is_ascii_lowercase()
}

#[tactic(auto, unfolding(crate::specs::Text::is_letter, crate::specs::Text::is_lower, crate::specs::Text::is_upper))]
pub fn is_letter(b: u8) -> bool
    ensures { result ≡ text.is_letter b }
{
    b.is_ascii_alphabetic()
}

#[tactic(auto, unfolding(crate::specs::Text::is_alnum))]
pub fn is_alnum(b: u8) -> bool
    ensures { result ≡ text.is_alnum b }
{
    is_letter(b) || is_digit(b)
}

// Whether octet b may stand after another in a name.
#[tactic(auto, unfolding(crate::specs::Text::may_follow))]
pub fn may_follow(before: u8, b: u8) -> bool
    ensures { result ≡ text.may_follow before b }
{
    is_alnum(b) || b == b'-' && before != b'-'
}

// A to Z turned into a to z.
#[tactic(auto, unfolding(crate::specs::Text::lower, crate::specs::Text::is_upper))]
pub fn lower(b: u8) -> u8
    ensures { result ≡ text.lower b }
{
    b.to_ascii_lowercase()
}

// ---- words and spaces
// Whether a word stands at a place.
pub fn starts(s: &[u8], at: usize, w: &[u8]) -> bool
    ensures { result ≡ text.starts w.now (drop at s.now) }
{
    s[at.min(s.len())..].starts_with(w)
}

// The first place at or after this one that has no space.
pub fn skip(s: &[u8], at: usize) -> usize
    ensures { result ≡ text.skip s.now at }
{
    for i in at..s.len() {
        if s[i] != b' ' {
            return i;
        }
    }
    at.max(s.len())
}

// ---- decimal numbers
// Whether all octets are decimal digits.
pub fn all_digits(s: &[u8]) -> bool
    ensures { result ≡ octets.every text.is_digit s.now }
{
    s.iter().all(|b| is_digit(*b))
}

// Whether a text is a decimal number without leading zeros.
#[tactic(auto, unfolding(crate::specs::Text::is_number))]
pub fn is_number(s: &[u8]) -> bool
    ensures { result ≡ text.is_number s.now }
{
    match s {
        [] => false,
        [b'0', rest @ ..] => rest.is_empty(),
        _ => all_digits(s),
    }
}

// The value of a decimal digit.
pub fn digit(b: u8) -> u64
    ensures value { result ≡ b - 48 }
    ensures small { result ≤ 207 }
{
    u64::from(b.saturating_sub(b'0'))
}

// A number with one digit more.
pub fn grow(size: Option<u64>, d: u64) -> Option<u64>
    ensures { result ≡ grow_of size d }
{
    let Some(n) = size else {
        return None;
    };
    let Some(tens) = n.checked_mul(10) else {
        return None;
    };
    match tens.checked_add(d) {
        Some(grown) => Some(grown),
        None => None,
    }
}

// The number that decimal digits stand for.
pub fn decimal(s: &[u8]) -> Option<u64>
    ensures { result ≡ clip (text.decimal s.now) }
{
    let mut size = Some(0);
    for b in s {
        size = grow(size, digit(*b));
    }
    size
}

// ---- UTF-8
#[tactic(auto, unfolding(crate::specs::Utf8::after_first))]
fn after_first(b: u8) -> Awaiting
    ensures { result ≡ unicode.after_first b }
{
    if b.is_ascii() {
        return Some((0, 128, 191));
    }
    match b {
        194..=223 => Some((1, 128, 191)),
        224 => Some((2, 160, 191)),
        237 => Some((2, 128, 159)),
        225..=239 => Some((2, 128, 191)),
        240 => Some((3, 144, 191)),
        241..=243 => Some((3, 128, 191)),
        244 => Some((3, 128, 143)),
        _ => None,
    }
}

#[tactic(auto, unfolding(crate::specs::Utf8::after))]
pub fn after(a: Awaiting, b: u8) -> Awaiting
    ensures { result ≡ unicode.after a b }
{
    let Some((n, least, most)) = a else {
        return None;
    };
    if n == 0 {
        return after_first(b);
    }
    if !within(least, most, b) {
        return None;
    }
    Some((n - 1, 128, 191))
}

pub fn may_end(a: Awaiting) -> bool
    ensures { result ≡ unicode.may_end a }
{
    matches!(a, Some((0, _, _)))
}

// Whether octets are valid UTF-8. Text in which no octet is above 127 needs no more than the largest octet. The first octet that may not come ends the loop.
pub fn utf8(s: &[u8]) -> bool
    ensures { result ≡ unicode.utf8 s.now }
{
    if highest(s) < 128 {
        return true;
    }
    let mut a = Some((0, 128, 191));
    for b in s {
        a = after(a, *b);
        if a.is_none() {
            return false;
        }
    }
    may_end(a)
}

// ---- quoted strings
// The closing quote from a place on: the first quote that is not one of a doubled pair. A cursor: a pair is two octets.
fn find_closing(s: &[u8], at: usize) -> Option<usize>
    ensures { result ≡ closing (drop at s.now) at }
{
    let mut i = at;
    while i < s.len() {
        if s[i] != b'"' {
            i += 1;
        } else if s.len() - i < 2 {
            return Some(i);
        } else if s[i + 1] != b'"' {
            return Some(i);
        } else {
            i += 2;
        }
    }
    None
}

// The closing quote of the quoted string that opens at a place.
pub fn closing_at(s: &[u8], at: usize) -> Option<usize>
    ensures { result ≡ closing_at s.now at }
{
    if octet(s, at) != b'"' {
        return None;
    }
    find_closing(s, at + 1)
}

// ---- two texts
pub fn same(a: &[u8], b: &[u8]) -> bool
    ensures { result ≡ octets.same a.now b.now }
{
    a == b
}
