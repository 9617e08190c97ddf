// OBJECT IDENTIFIERs in dotted form, arc by arc, with arcs of any size.
#![tactic(auto)]

ghost use Rattle.std.specs.Prelude.{◌≡◌, drop};
ghost use Rattle.octets.specs.Octets.{same};
ghost use Rattle.octets.specs.Text.{pieces};
ghost use Rattle.der.specs.Dotted.{every_number, dotted_arcs, is_dotted};
ghost use Rattle.der.specs.Meaning.{arcs_of};
ghost use Rattle.dotted.specs.Inner.Arcs as arcs;
ghost use Rattle.dotted.specs.Inner.Held as held;
ghost use Rattle.dotted.specs.Inner.Stored as stored;

use der::Sub;

// What the digits of an arc are so far: none, a single 0, a number without a leading 0, or no number.
#[derive(Clone, Copy)]
pub enum Form {
    Empty,
    Zero,
    Number,
    Broken,
}

// The digits of an arc so far: the number they stand for, and their form.
#[derive(Clone, Copy)]
pub struct Digits {
    pub size: Option<u64>,
    pub form: Form,
}

// Where the next stored arc stands: at the start, in the first subidentifier, whose second arc is left, or at a place.
#[derive(Clone, Copy)]
pub enum Held {
    Start,
    Second(u32, usize),
    At(usize),
}

// A stored arc and where the next one stands; or the end, true where the contents end and false where octets are no subidentifier.
#[derive(Clone, Copy)]
pub enum HeldStep {
    Next(u32, Held),
    End(bool),
}

// An arc: its number, whether it is written as one, and where the next arc starts, if there is one.
#[derive(Clone, Copy)]
pub struct Arc {
    pub size: Option<u64>,
    pub formed: bool,
    pub next: Option<usize>,
}

// An arc that a stored one may be: its number, below 2^32, and where the next arc starts, if there is one.
#[derive(Clone, Copy)]
pub struct SmallArc {
    pub number: u64,
    pub next: Option<usize>,
}

fn first_digit(b: u8) -> Form
    ensures { result ≡ arcs.first_digit b }
{
    if b == b'0' { Form::Zero } else { more_digit(b) }
}

fn more_digit(b: u8) -> Form
    ensures { result ≡ arcs.more_digit b }
{
    if octets::is_digit(b) {
        Form::Number
    } else {
        Form::Broken
    }
}

#[tactic(auto, unfolding(crate::specs::Inner::Arcs::after_digit))]
fn after_digit(f: Form, b: u8) -> Form
    ensures { result ≡ arcs.after_digit f b }
{
    match f {
        Form::Empty => first_digit(b),
        Form::Number => more_digit(b),
        Form::Zero | Form::Broken => Form::Broken,
    }
}

fn is_formed(f: Form) -> bool
    ensures { result ≡ arcs.is_formed f }
{
    matches!(f, Form::Zero | Form::Number)
}

// One digit more.
fn add_digit(d: Digits, b: u8) -> Digits
    ensures { result ≡ arcs.add_digit d b }
{
    Digits {
        size: octets::grow(d.size, octets::digit(b)),
        form: after_digit(d.form, b),
    }
}

fn arc_of(d: Digits, next: Option<usize>) -> Arc
    ensures { result ≡ arcs.arc_of d next }
{
    Arc {
        size: d.size,
        formed: is_formed(d.form),
        next,
    }
}

// The arc that starts at a place.
fn read_arc(t: &[u8], at: usize) -> Arc
    ensures { result ≡ arcs.arc_at t.now at }
{
    let mut d = Digits {
        size: Some(0),
        form: Form::Empty,
    };
    for i in at..t.len() {
        let b = t[i];
        if b == b'.' {
            return arc_of(d, Some(i + 1));
        }
        d = add_digit(d, b);
    }
    arc_of(d, None)
}

// The same as a stored one may be: its digits are read no further than the number stays below 2^32; above that it is none.
fn small_arc(t: &[u8], at: usize) -> Option<SmallArc>
    ensures { result ≡ arcs.small_at t.now at }
{
    let mut number: u64 = 0;
    for i in at..t.len() {
        let b = t[i];
        if b == b'.' {
            return Some(SmallArc {
                number,
                next: Some(i + 1),
            });
        }
        number = number * 10 + octets::digit(b);
        if 4294967295 < number {
            return None;
        }
    }
    Some(SmallArc { number, next: None })
}

// ---- dotted form
// Whether the first two arcs are within their bounds.
fn are_roots(a: Option<u64>, b: Option<u64>) -> bool
    ensures { result ≡ arcs.are_roots a b }
{
    let Some(m) = a else {
        return false;
    };
    m == 2 || m < 2 && matches!(b, Some(n) if n < 40)
}

// Whether each arc from a place on is a number.
fn all_numbers(t: &[u8], at: usize) -> bool
    ensures { result ≡ every_number (pieces (drop at t.now)) }
{
    let mut form = Form::Empty;
    for i in at..t.len() {
        let b = t[i];
        if b == b'.' {
            if !is_formed(form) {
                return false;
            }
            form = Form::Empty;
        } else {
            form = after_digit(form, b);
        }
    }
    is_formed(form)
}

// Whether the arcs from a place on are numbers and the first of them may stand under the root a.
fn dotted_under(t: &[u8], a: Option<u64>, at: usize) -> bool
    ensures { result ≡ arcs.dotted_under a (pieces (drop at t.now)) }
{
    let arc = read_arc(t, at);
    if !arc.formed {
        return false;
    }
    if !are_roots(a, arc.size) {
        return false;
    }
    let Some(p) = arc.next else {
        return true;
    };
    all_numbers(t, p)
}

// Whether a text begins with the arc 2: any number may stand under it.
#[tactic(auto, unfolding(crate::specs::Inner::Arcs::is_joint))]
fn is_joint(t: &[u8]) -> bool
    ensures { result ≡ arcs.is_joint t.now }
{
    matches!(t, [b'2', b'.', ..])
}

// Whether a text is an OBJECT IDENTIFIER in dotted form.
pub fn is_dotted(t: &[u8]) -> bool
    ensures { result ≡ is_dotted t.now }
{
    if is_joint(t) {
        return all_numbers(t, 2);
    }
    let arc = read_arc(t, 0);
    if !arc.formed {
        return false;
    }
    let Some(p) = arc.next else {
        return false;
    };
    dotted_under(t, arc.size, p)
}

// ---- stored arcs
// The first subidentifier gives two arcs.
fn first_arcs(n: u32, next: usize) -> HeldStep
    ensures { result ≡ held.first_step n next }
{
    if n < 40 {
        HeldStep::Next(0, Held::Second(n, next))
    } else if n < 80 {
        HeldStep::Next(1, Held::Second(n - 40, next))
    } else {
        HeldStep::Next(2, Held::Second(n - 80, next))
    }
}

fn held_start(c: &[u8]) -> HeldStep
    ensures { held.report_held c.now result ≡ held.rest_held c.now Held.Start }
{
    match der::read_sub(c, 0) {
        Sub::Value(n, next) => first_arcs(n, next),
        Sub::End => HeldStep::End(true),
        Sub::Broken => HeldStep::End(false),
    }
}

#[tactic(auto, unfolding(crate::specs::Inner::Held::rest_held))]
fn held_at(c: &[u8], at: usize) -> HeldStep
    ensures { held.report_held c.now result ≡ held.rest_held c.now (Held.At at) }
{
    match der::read_sub(c, at) {
        Sub::Value(n, next) => HeldStep::Next(n, Held::At(next)),
        Sub::End => HeldStep::End(true),
        Sub::Broken => HeldStep::End(false),
    }
}

#[tactic(auto, unfolding(crate::specs::Inner::Held::rest_held))]
fn next_held(c: &[u8], h: Held) -> HeldStep
    ensures { held.report_held c.now result ≡ held.rest_held c.now h }
{
    match h {
        Held::Start => held_start(c),
        Held::Second(b, next) => HeldStep::Next(b, Held::At(next)),
        Held::At(at) => held_at(c, at),
    }
}

fn is_over(step: HeldStep) -> bool
    ensures { result ≡ held.is_over step }
{
    matches!(step, HeldStep::End(true))
}

// Whether contents of an OBJECT IDENTIFIER have the arcs of a dotted text, arc by arc.
pub fn same_arcs(t: &[u8], c: &[u8]) -> bool
    ensures { result ≡ same (arcs_of c.now) (dotted_arcs t.now) }
{
    // Cursors on both sides: each arc says where the next one stands.
    let mut a = Some(0);
    let mut h = Held::Start;
    while let Some(at) = a {
        let HeldStep::Next(n, after) = next_held(c, h) else {
            return false;
        };
        let Some(arc) = small_arc(t, at) else {
            return false;
        };
        if arc.number != u64::from(n) {
            return false;
        }
        a = arc.next;
        h = after;
    }
    is_over(next_held(c, h))
}

// ---- a text whose arcs can be stored
// Whether the arcs of a dotted text can be stored ones: up to 33, each below 2^32.
pub fn fits_stored(t: &[u8]) -> bool
    ensures { result ≡ stored.fitting 33 (dotted_arcs t.now) }
{
    // A cursor: each arc says where the next one starts.
    let mut i = 0;
    for _left in (0..33_usize).rev() {
        let Some(arc) = small_arc(t, i) else {
            return false;
        };
        let Some(p) = arc.next else {
            return true;
        };
        i = p;
    }
    false
}
