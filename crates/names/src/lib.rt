// Distinguished names as text: what stands between the quotes of a value text, read as RFC 4514 has it. Two quotes are one.
#![tactic(auto)]

ghost use Rattle.std.specs.Prelude.{◌≡◌, ◌≤◌, ◌<◌, length};
ghost use Rattle.octets.specs.Pick.{is_some};
ghost use Rattle.octets.specs.Quoted.{undoubled};
ghost use Rattle.der.specs.Names.{most_pairs};
ghost use Rattle.names.specs.Rfc4514 as rfc;
ghost use Rattle.names.specs.Inner.Reading as reading;

use der::Name;
use octets::Awaiting;

// An octet that stands for itself or an escaped one, with the place after it; a backslash that escapes nothing; or the end.
#[derive(Clone, Copy)]
pub enum Letter {
    Bare(u8, usize),
    Escaped(u8, usize),
    Wrong,
    End,
}

// An attribute: the place of the `=` after its type, and the place where its value ends.
#[derive(Clone, Copy)]
pub struct Attribute {
    pub equals: usize,
    pub end: usize,
}

// ---- letters
// What has to be escaped wherever it stands, but ESC itself. An arm for each, so that they are tested all at once: in one arm, neighbours are tested as ranges.
#[tactic(auto, using(octets::proofs::Tests::tests), unfolding(crate::specs::Rfc4514::is_reserved))]
fn is_reserved(b: u8) -> bool
    ensures { result ≡ rfc.is_reserved b }
{
    match b {
        b'"' => true,
        b'+' => true,
        b',' => true,
        b';' => true,
        b'<' => true,
        b'>' => true,
        _ => false,
    }
}

// What may stand for itself after ESC.
#[tactic(auto, using(octets::proofs::Tests::tests), unfolding(crate::specs::Rfc4514::is_special))]
fn is_special(b: u8) -> bool
    ensures { result ≡ rfc.is_special b }
{
    matches!(b, b' ' | b'#' | b'=' | b'\\') || is_reserved(b)
}

// The place after the character at a place.
fn next_place(p: &[u8], at: usize) -> usize
    requires { at < length p.now }
    ensures { result ≡ reading.next_place p.now at }
{
    if p[at] != b'"' {
        return at + 1;
    }
    if p.len() - at < 2 {
        return at + 1;
    }
    if p[at + 1] != b'"' {
        return at + 1;
    }
    at + 2
}

// The letter whose backslash stands before a place.
fn escaped_letter(p: &[u8], at: usize) -> Letter
    ensures { result ≡ reading.escaped_at p.now at }
{
    if p.len() <= at {
        return Letter::Wrong;
    }
    let c = p[at];
    if is_special(c) {
        return Letter::Escaped(c, next_place(p, at));
    }
    let d = octets::octet(p, at + 1);
    if !octets::is_hex_pair(c, d) {
        return Letter::Wrong;
    }
    Letter::Escaped(octets::hex_octet(c, d), at + 2)
}

// The letter at a place.
fn next_letter(p: &[u8], at: usize) -> Letter
    ensures letters { reading.report_letter p.now result ≡ reading.letters_at p.now at }
    ensures stands { reading.Stands p.now at result }
{
    if p.len() <= at {
        return Letter::End;
    }
    let b = p[at];
    if b == b'\\' {
        return escaped_letter(p, at + 1);
    }
    Letter::Bare(b, next_place(p, at))
}

// ---- values
#[tactic(auto, using(octets::proofs::Tests::tests))]
fn ends_value(b: u8) -> bool
    ensures { result ≡ rfc.ends (rfc.bare b) }
{
    b == b'+' || b == b','
}

#[tactic(auto, using(octets::proofs::Tests::tests), unfolding(crate::specs::Rfc4514::is_string_char))]
fn is_string_char(b: u8) -> bool
    ensures { result ≡ rfc.is_string_char b }
{
    b != 0 && b != b'\\' && !is_reserved(b)
}

#[tactic(auto, using(octets::proofs::Tests::tests))]
fn may_lead(b: u8) -> bool
    ensures { result ≡ rfc.may_lead (rfc.bare b) }
{
    b != b' ' && b != b'#'
}

// Whether an octet may stand for itself in a value, as its first or later.
fn may_stand(first: bool, b: u8) -> bool
    ensures { result ≡ reading.stands_as first (rfc.bare b) }
{
    is_string_char(b) && (!first || may_lead(b))
}

// A value that ends at a place, if it may end there.
fn closed_value(trailing: bool, a: Awaiting, end: usize) -> Option<usize>
    ensures { result ≡ reading.closed_value trailing a end }
{
    (trailing && octets::may_end(a)).then_some(end)
}

// Where the value ends that starts at a place, or none where what stands there is no value.
fn value_end(p: &[u8], at: usize) -> Option<usize>
    requires { at ≤ length p.now }
    ensures value { reading.report_value p.now at result ≡ reading.value_from (reading.letters_at p.now at) }
    ensures places { reading.ValuePlaces at (length p.now) result }
{
    let mut i = at;
    let mut trailing = true;
    let mut a = Some((0, 128, 191));
    // A cursor: each letter says where the next one starts.
    loop {
        match next_letter(p, i) {
            Letter::End => {
                return closed_value(trailing, a, i);
            }
            Letter::Wrong => {
                return None;
            }
            Letter::Escaped(b, after) => {
                trailing = true;
                a = octets::after(a, b);
                i = after;
            }
            Letter::Bare(b, after) => {
                if ends_value(b) {
                    return closed_value(trailing, a, i);
                }
                if !may_stand(i == at, b) {
                    return None;
                }
                trailing = b != b' ';
                a = octets::after(a, b);
                i = after;
            }
        }
    }
}

// ---- attributes
// An octet of a dotted text.
#[tactic(auto, using(octets::proofs::Tests::tests))]
fn is_type_octet(b: u8) -> bool
    ensures { result ≡ reading.is_type_octet b }
{
    b == b'.' || octets::is_digit(b)
}

// The place of the `=` after the type that starts at a place; none where another octet than those of a dotted text comes first.
fn type_end(p: &[u8], at: usize) -> Option<usize>
    ensures read { reading.report_type p.now at result ≡ reading.plain_type (rfc.type_from (reading.letters_at p.now at)) }
    ensures places { reading.TypePlaces at (length p.now) result }
{
    for i in at..p.len() {
        let b = p[i];
        if b == b'=' {
            return Some(i);
        }
        if !is_type_octet(b) {
            return None;
        }
    }
    None
}

// The attribute that starts at a place, or none where what stands there is no attribute.
pub fn attribute_at(p: &[u8], at: usize) -> Option<Attribute>
    ensures attribute { reading.report_attribute p.now at result ≡ rfc.attribute_from (reading.letters_at p.now at) }
    ensures places { reading.AttributePlaces at (length p.now) result }
{
    let equals = type_end(p, at)?;
    if !dotted::is_dotted(octets::between(p, at, equals)) {
        return None;
    }
    let end = value_end(p, equals + 1)?;
    Some(Attribute { equals, end })
}

// ---- RDNs and names
// Where the RDN ends that starts at a place, or none where what stands there is no RDN.
fn rdn_end(p: &[u8], at: usize) -> Option<usize>
    ensures { reading.report_rest p.now result ≡ reading.rest_of (rfc.rdn_from most_pairs (reading.letters_at p.now at)) }
{
    let mut i = at;
    for _ in 0..Name::MAX_PAIRS {
        let end = attribute_at(p, i)?.end;
        if octets::octet(p, end) != b'+' {
            return Some(end);
        }
        i = end + 1;
    }
    None
}

// Whether what stands between quotes is one RDN.
pub fn is_rdn(p: &[u8]) -> bool
    ensures { result ≡ is_some (rfc.relative_distinguished_name (undoubled p.now)) }
{
    let Some(end) = rdn_end(p, 0) else {
        return false;
    };
    p.len() <= end
}

// Whether what stands between quotes is a name.
pub fn is_name(p: &[u8]) -> bool
    ensures { result ≡ is_some (rfc.distinguished_name (undoubled p.now)) }
{
    if p.is_empty() {
        return true;
    }
    let mut i = 0;
    for _ in 0..Name::MAX_RDNS {
        let Some(end) = rdn_end(p, i) else {
            return false;
        };
        if octets::octet(p, end) != b',' {
            return true;
        }
        i = end + 1;
    }
    false
}
