// Asserted integers, of any size.
#![tactic(auto)]

ghost use Rattle.std.specs.Prelude.{◌≡◌, true, ◌≤◌, ◌<◌, length, drop, ltb, leb};
ghost use Rattle.std.specs.Ordering.{is_eq, is_lt};
ghost use Rattle.octets.specs.Pick.{both, no};
ghost use Rattle.octets.specs.Octets.{octet, same, bytes};
ghost use Rattle.octets.specs.Text.{is_number};
ghost use Rattle.der.specs.Meaning.{plus, integer_of};
ghost use Rattle.integers.specs.Asserted as asserted;
ghost use Rattle.integers.specs.Inner.Answers as answers;
ghost use Rattle.integers.specs.Inner.Bounds as bounds;

use std::cmp::Ordering;

// An asserted integer: its sign and size.
#[derive(Clone, Copy)]
pub struct Asked {
    pub minus: bool,
    pub size: Option<u64>,
}

// An asserted integer among those that can be stored: at one, lifted; or below or above all of them.
#[derive(Clone, Copy)]
pub enum Bound {
    At(u64),
    Under,
    Over,
}

// What stands after the first octet.
fn after_first(t: &[u8]) -> &[u8]
    ensures { result.now ≡ drop 1 t.now }
{
    octets::part(t, 1, t.len())
}

fn is_negative(t: &[u8]) -> bool
    ensures { result ≡ both (is_number (drop 1 t.now)) (no (same t.now (bytes "-0"))) }
{
    octets::is_number(after_first(t)) && !octets::same(t, b"-0")
}

// Whether a value text conforms: decimal digits without leading zeros, perhaps a minus before them, and not `-0`.
#[tactic(auto, unfolding(crate::specs::Asserted::is_integer))]
pub fn is_integer(t: &[u8]) -> bool
    ensures { result ≡ asserted.is_integer t.now }
{
    if octets::octet(t, 0) == b'-' {
        is_negative(t)
    } else {
        octets::is_number(t)
    }
}

// What a value text asserts.
#[tactic(auto, unfolding(crate::specs::Asserted::asserted_integer))]
fn read_asserted(t: &[u8]) -> Asked
    ensures { result ≡ answers.held_of (asserted.asserted_integer t.now) }
{
    let minus = octets::octet(t, 0) == b'-';
    Asked {
        minus,
        size: octets::decimal(if minus { after_first(t) } else { t }),
    }
}

// ---- integers as numbers that keep their order: plus 2^63
// Whether an INTEGER is below zero; those of up to eight octets fit.
fn is_below(c: &[u8]) -> bool
    requires least { 1 ≤ length c.now }
    requires most { length c.now ≤ 8 }
    ensures sign { result ≡ leb 128 (octet c.now 0) }
    ensures fits { bounds.fits (integer_of c.now) ≡ true }
{
    128 <= c[0]
}

// An INTEGER of up to eight octets.
pub fn lift(c: &[u8]) -> u64
    requires least { 1 ≤ length c.now }
    requires most { length c.now ≤ 8 }
    ensures value { result ≡ bounds.lifted (integer_of c.now) }
    ensures fits { bounds.fits (integer_of c.now) ≡ true }
{
    if is_below(c) {
        let i = der::read_integer(c);
        return 9223372036854775808 - i.size;
    }
    9223372036854775808 + der::plain(c)
}

// A count.
pub fn lift_count(n: u64) -> u64
    requires { n < 9223372036854775808 }
    ensures { result ≡ bounds.lifted (plus n) }
{
    9223372036854775808 + n
}

// ---- an asserted integer among those that can be stored
fn minus_bound(size: Option<u64>) -> Bound
    ensures { result ≡ bounds.minus_bound_of size }
{
    match size {
        Some(n) if n <= 9223372036854775808 => Bound::At(9223372036854775808 - n),
        _ => Bound::Under,
    }
}

fn plus_bound(size: Option<u64>) -> Bound
    ensures { result ≡ bounds.plus_bound_of size }
{
    match size {
        Some(n) if n < 9223372036854775808 => Bound::At(9223372036854775808 + n),
        _ => Bound::Over,
    }
}

// What a value text asserts, as a bound.
pub fn bound_of(t: &[u8]) -> Bound
    ensures { result ≡ bounds.bound_of (asserted.asserted_integer t.now) }
{
    let a = read_asserted(t);
    if a.minus {
        minus_bound(a.size)
    } else {
        plus_bound(a.size)
    }
}

// ---- a stored integer against a bound
fn order(n: u64, bound: Bound) -> Ordering
    ensures same { is_eq result ≡ bounds.same_bound n bound }
    ensures less { is_lt result ≡ bounds.less_bound n bound }
{
    match bound {
        Bound::At(m) => n.cmp(&m),
        Bound::Under => Ordering::Greater,
        Bound::Over => Ordering::Less,
    }
}

// Contents of an INTEGER, of one to eight octets; of others the answer is false.
#[tactic(auto, unfolding(crate::specs::Inner::Bounds::short_fits))]
pub fn same_contents(c: &[u8], bound: Bound) -> bool
    ensures value { result ≡ both (bounds.is_short c.now) (bounds.same_bound (bounds.lifted (integer_of c.now)) bound) }
    ensures fits { bounds.short_fits c.now ≡ true }
{
    matches!(c.len(), 1..=8) && order(lift(c), bound).is_eq()
}

#[tactic(auto, unfolding(crate::specs::Inner::Bounds::short_fits))]
pub fn less_contents(c: &[u8], bound: Bound) -> bool
    ensures value { result ≡ both (bounds.is_short c.now) (bounds.less_bound (bounds.lifted (integer_of c.now)) bound) }
    ensures fits { bounds.short_fits c.now ≡ true }
{
    matches!(c.len(), 1..=8) && order(lift(c), bound).is_lt()
}

// A count; of 2^63 and above the answer is false.
pub fn same_count(n: u64, bound: Bound) -> bool
    ensures { result ≡ both (ltb n 9223372036854775808) (bounds.same_bound (bounds.lifted (plus n)) bound) }
{
    n < 9223372036854775808 && order(lift_count(n), bound).is_eq()
}

pub fn less_count(n: u64, bound: Bound) -> bool
    ensures { result ≡ both (ltb n 9223372036854775808) (bounds.less_bound (bounds.lifted (plus n)) bound) }
{
    n < 9223372036854775808 && order(lift_count(n), bound).is_lt()
}
