// Octet strings and bit strings in a value text: `'..'H` and `'..'B`.
#![tactic(auto)]

ghost use Rattle.std.specs.Prelude.{◌≡◌, ◌≤◌, ◌+◌, ◌-◌, ◌*◌, [], length, drop, leb};
ghost use Rattle.std.specs.Ordering.{nat_cmp};
ghost use Rattle.std.specs.Cmp.Lexicographic.{slice_cmp};
ghost use Rattle.octets.specs.Pick.{both};
ghost use Rattle.octets.specs.Octets as octets;
ghost use Rattle.der.specs.Meaning.{bits_of};
ghost use Rattle.digits.specs.Asserted as asserted;
ghost use Rattle.digits.specs.Named as named;
ghost use Rattle.digits.specs.Inner.Answers as answers;
ghost use Rattle.digits.specs.Inner.Masks as masks;
ghost use Rattle.digits.specs.Inner.Significant.{significant, ends_before};
ghost use Rattle.digits.specs.Inner.Alike.{alike, alike_number, padded};

use std::cmp::Ordering;

// The octet that two hexadecimal digits stand for, and the place after them.
#[derive(Clone, Copy)]
pub struct Pair {
    pub octet: usize,
    pub after: usize,
}

// Which bit of a hexadecimal digit comes next, from the top.
#[derive(Clone, Copy)]
pub enum Quarter {
    First,
    Second,
    Third,
    Fourth,
}

// A place among the bits of a text.
#[derive(Clone, Copy)]
pub struct Bits {
    pub at: usize,
    pub quarter: Quarter,
}

// A bit and the place after it.
#[derive(Clone, Copy)]
pub struct Drawn {
    pub bit: u8,
    pub after: Bits,
}

// ---- conforming
#[tactic(auto, unfolding(crate::specs::Asserted::in_quotes))]
fn in_quotes(letter: u8, t: &[u8]) -> bool
    ensures { result ≡ asserted.in_quotes letter t.now }
{
    matches!(t, [b'\'', .., b'\'', last] if *last == letter)
}

// The digits between the single quotes: what stored octets or bits are compared with.
pub fn operand(t: &[u8]) -> &[u8]
    ensures { result.now ≡ asserted.digits t.now }
{
    octets::part(t, 1, t.len().saturating_sub(3))
}

fn is_hex_digit(b: u8) -> bool
    ensures { result ≡ asserted.is_hex_digit b }
{
    octets::is_digit(b) || octets::within(b'A', b'F', b)
}

// Whether a text is hexadecimal digits, `'..'H`.
#[tactic(auto, unfolding(crate::specs::Asserted::is_hex_string))]
pub fn is_hex_string(t: &[u8]) -> bool
    ensures { result ≡ asserted.is_hex_string t.now }
{
    in_quotes(b'H', t) && operand(t).iter().all(|b| is_hex_digit(*b))
}

// Whether a text is binary digits, `'..'B`.
#[tactic(auto, unfolding(crate::specs::Asserted::is_bit_text))]
pub fn is_bit_text(t: &[u8]) -> bool
    ensures { result ≡ asserted.is_bit_text t.now }
{
    in_quotes(b'B', t) && operand(t).iter().all(|b| octets::within(b'0', b'1', *b))
}

// Whether a value text conforms to octets: `'..'H`, an even number of digits.
#[tactic(auto, unfolding(crate::specs::Asserted::is_octets))]
pub fn is_octets(t: &[u8]) -> bool
    ensures { result ≡ asserted.is_octets t.now }
{
    is_hex_string(t) && operand(t).len() % 2 == 0
}

// Whether a value text conforms to bits: `'..'B` or `'..'H`.
#[tactic(auto, unfolding(crate::specs::Asserted::is_bits))]
pub fn is_bits(t: &[u8]) -> bool
    ensures { result ≡ asserted.is_bits t.now }
{
    is_bit_text(t) || is_hex_string(t)
}

// ---- digits
fn nibble(b: u8) -> u8
    ensures { result ≡ octets.nibble b }
{
    if b < b'A' {
        b.saturating_sub(b'0')
    } else {
        b - b'A' + 10
    }
}

fn pair_value(a: u8, b: u8) -> usize
    ensures { result ≡ octets.nibble a * 16 + octets.nibble b }
{
    usize::from(nibble(a)) * 16 + usize::from(nibble(b))
}

fn read_pair(h: &[u8], j: usize) -> Option<Pair>
    ensures { answers.report_pair h.now result ≡ octets.paired (drop j h.now) }
{
    if h.len() <= j {
        return None;
    }
    if h.len() - j < 2 {
        return None;
    }
    Some(Pair {
        octet: pair_value(h[j], h[j + 1]),
        after: j + 2,
    })
}

// ---- octets, in order: stored ones against pairs of digits
fn order_octets(c: &[u8], h: &[u8]) -> Ordering
    ensures { result ≡ slice_cmp nat_cmp c.now (octets.paired h.now) }
{
    let mut j = 0;
    for b in c {
        let Some(pair) = read_pair(h, j) else {
            return Ordering::Greater;
        };
        let order = usize::from(*b).cmp(&pair.octet);
        if order.is_ne() {
            return order;
        }
        j = pair.after;
    }
    if read_pair(h, j).is_none() {
        Ordering::Equal
    } else {
        Ordering::Less
    }
}

// Whether stored octets are those of pairs of hexadecimal digits, or less.
pub fn same_hex(c: &[u8], h: &[u8]) -> bool
    ensures { result ≡ octets.same c.now (octets.paired h.now) }
{
    order_octets(c, h).is_eq()
}

pub fn less_hex(c: &[u8], h: &[u8]) -> bool
    ensures { result ≡ octets.below c.now (octets.paired h.now) }
{
    order_octets(c, h).is_lt()
}

// ---- bits of a text, one after another
fn bit_in(n: u8, at: usize, after: usize, quarter: Quarter) -> Drawn
    ensures { result ≡ answers.bit_in n at after quarter }
{
    let (bit, at, quarter) = match quarter {
        Quarter::First => (n / 8 % 2, at, Quarter::Second),
        Quarter::Second => (n / 4 % 2, at, Quarter::Third),
        Quarter::Third => (n / 2 % 2, at, Quarter::Fourth),
        Quarter::Fourth => (n % 2, after, Quarter::First),
    };
    Drawn {
        bit,
        after: Bits { at, quarter },
    }
}

fn next_bit(h: &[u8], hexed: bool, c: Bits) -> Option<Drawn>
    ensures { answers.report_bit hexed h.now result ≡ answers.rest_bits hexed h.now c }
{
    let at = c.at;
    let quarter = c.quarter;
    if h.len() <= at {
        return None;
    }
    if hexed {
        return Some(bit_in(nibble(h[at]), at, at + 1, quarter));
    }
    Some(Drawn {
        bit: h[at].saturating_sub(b'0'),
        after: Bits {
            at: at + 1,
            quarter,
        },
    })
}

fn same_bit_list(c: &[u8], h: &[u8], hexed: bool) -> bool
    requires { length c.now ≤ 65536 }
    ensures { result ≡ octets.same (bits_of c.now) (answers.bits_in hexed h.now) }
{
    let mut a = Bits {
        at: 0,
        quarter: Quarter::First,
    };
    for i in 0..der::bit_count(c) {
        let Some(drawn) = next_bit(h, hexed, a) else {
            return false;
        };
        if der::bit_at(c, i) != drawn.bit {
            return false;
        }
        a = drawn.after;
    }
    next_bit(h, hexed, a).is_none()
}

// Whether stored bits are those of hexadecimal digits (`hexed`), or of binary ones: equal in number and bit by bit. Of contents above 65,536 octets the
// answer is false.
pub fn same_bits(c: &[u8], h: &[u8], hexed: bool) -> bool
    ensures { result ≡ both (leb (length c.now) 65536) (octets.same (bits_of c.now) (answers.bits_in hexed h.now)) }
{
    c.len() <= 65536 && same_bit_list(c, h, hexed)
}

// ---- bits with names: trailing zero bits don't count
// A bit, 0 past the end, and the place after it.
fn draw_bit(h: &[u8], hexed: bool, a: Bits) -> Drawn
    ensures { answers.report_drawn hexed h.now result ≡ padded (answers.rest_bits hexed h.now a) }
{
    next_bit(h, hexed, a).unwrap_or(Drawn { bit: 0, after: a })
}

// How many digits stand up to the last that isn't 0.
pub fn significant(h: &[u8]) -> usize
    ensures { result ≡ significant (length h.now) h.now }
{
    for last in (0..h.len()).rev() {
        if h[last] != b'0' {
            return last + 1;
        }
    }
    0
}

// Whether the bits from a place on are all 0.
fn zeros_from(h: &[u8], hexed: bool, from: Bits) -> bool
    ensures { result ≡ alike [] (answers.rest_bits hexed h.now from) }
{
    // A cursor: each bit says where the next one stands.
    let mut a = from;
    while let Some(drawn) = next_bit(h, hexed, a) {
        if drawn.bit != 0 {
            return false;
        }
        a = drawn.after;
    }
    true
}

// The same; where the last digit isn't 0, no other is read.
fn only_zeros(h: &[u8], hexed: bool, from: Bits) -> bool
    ensures { result ≡ alike [] (answers.rest_bits hexed h.now from) }
{
    if h.len() <= from.at {
        return true;
    }
    let last = Bits {
        at: h.len() - 1,
        quarter: Quarter::First,
    };
    if from.at < last.at && !zeros_from(h, hexed, last) {
        return false;
    }
    zeros_from(h, hexed, from)
}

// Whether the bits of digits end before bit n, counted in whole digits.
fn ends_before(h: &[u8], hexed: bool, n: usize) -> bool
    ensures { result ≡ ends_before hexed h.now n }
{
    h.len() < if hexed { n / 4 } else { n }
}

// Whether stored bits are those of digits but for trailing zeros; where fewer are asserted than stored, the last stored one is read first.
fn alike_text(c: &[u8], h: &[u8], hexed: bool) -> bool
    requires { length c.now ≤ 65536 }
    ensures { result ≡ alike (bits_of c.now) (answers.bits_in hexed h.now) }
{
    let n = der::bit_count(c);
    if ends_before(h, hexed, n) && der::bit_at(c, n - 1) != 0 {
        return false;
    }
    let mut a = Bits {
        at: 0,
        quarter: Quarter::First,
    };
    for i in 0..n {
        let drawn = draw_bit(h, hexed, a);
        if der::bit_at(c, i) != drawn.bit {
            return false;
        }
        a = drawn.after;
    }
    only_zeros(h, hexed, a)
}

// Whether stored bits are those of hexadecimal digits (`hexed`), or of binary ones, trailing zero bits not counted on either side. Of contents above
// 65,536 octets the answer is false.
pub fn same_named_bits(c: &[u8], h: &[u8], hexed: bool) -> bool
    ensures { result ≡ both (leb (length c.now) 65536)
        (octets.same (named.trimmed (bits_of c.now)) (named.trimmed (answers.bits_in hexed h.now))) }
{
    c.len() <= 65536 && alike_text(c, h, hexed)
}

fn alike_mask(c: &[u8], mask: u64) -> bool
    requires { length c.now ≤ 65536 }
    ensures { result ≡ alike_number (bits_of c.now) mask }
{
    let n = der::bit_count(c);
    if 64 < n && der::bit_at(c, n - 1) != 0 {
        return false;
    }
    let mut rest = mask;
    for i in 0..n {
        if u64::from(der::bit_at(c, i)) != rest % 2 {
            return false;
        }
        rest /= 2;
    }
    rest == 0
}

// Whether stored bits are those of a set, trailing zero bits not counted.
pub fn same_mask(c: &[u8], mask: u64) -> bool
    ensures { result ≡ both (leb (length c.now) 65536)
        (octets.same (named.trimmed (bits_of c.now)) (named.trimmed (masks.mask_bits mask))) }
{
    c.len() <= 65536 && alike_mask(c, mask)
}
