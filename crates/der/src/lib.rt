// DER values: tag octet, length, header, and the contents of the basic kinds. Where nothing is asked of a caller, reads past the end give 0.
#![tactic(auto)]

ghost use Rattle.std.specs.Prelude.{◌≡◌, ◌≤◌, ◌<◌, ◌+◌, ◌-◌, ◌*◌, ◌%◌, ◌^◌, eqb, length, drop, get_or};
ghost use Rattle.octets.specs.Pick.{both};
ghost use Rattle.octets.specs.Octets.{octet, two, base_from, every};
ghost use Rattle.octets.specs.Text.{decimal};
ghost use Rattle.octets.specs.Inner.Answers.{between};
ghost use Rattle.der.specs.Tag as tag;
ghost use Rattle.der.specs.Tag.{number};
ghost use Rattle.der.specs.Header as header;
ghost use Rattle.der.specs.Contents as contents;
ghost use Rattle.der.specs.Time as time;
ghost use Rattle.der.specs.Meaning as meaning;
ghost use Rattle.der.specs.Order.{not_above};
ghost use Rattle.der.specs.Names as names;
ghost use Rattle.der.specs.Legal.{legal};
ghost use Rattle.der.specs.Inner.Answers.{report_integer, report_sub, Forward, behind, four_printable, legal_after, Placed};

// A tag octet in parts: its class, whether it is constructed (1 or 0), its number.
#[derive(Clone, Copy)]
struct Tag {
    class: u8,
    constructed: u8,
    number: u8,
}

// A subidentifier and the place after it; the end of the contents; or octets that are none.
#[derive(Clone, Copy)]
pub enum Sub {
    Value(u32, usize),
    End,
    Broken,
}

// An integer of up to eight octets: its sign and size.
#[derive(Clone, Copy)]
pub struct Integer {
    pub minus: bool,
    pub size: u64,
}

// A time: its 14 digits as one number, and its fraction in billionths.
#[derive(Clone, Copy, PartialEq, Eq, PartialOrd, Ord)]
pub struct Time {
    pub stamp: u64,
    pub fraction: u64,
}

// The kinds of rows, by document 01's numbers and document 02's.
#[derive(Clone, Copy)]
pub struct Kind;

impl Kind {
    pub const BOOLEAN: u8 = 1;

    pub const INTEGER: u8 = 2;

    pub const ENUMERATED: u8 = 3;

    pub const NULL: u8 = 4;

    pub const OBJECT_IDENTIFIER: u8 = 5;

    pub const OCTET_STRING: u8 = 6;

    pub const BIT_STRING: u8 = 7;

    pub const UTF8_STRING: u8 = 8;

    pub const PRINTABLE_STRING: u8 = 9;

    pub const IA5_STRING: u8 = 10;

    pub const GENERALIZED_TIME: u8 = 11;

    pub const SEQUENCE: u8 = 12;

    pub const CHOICE: u8 = 13;

    pub const SEQUENCE_OF: u8 = 14;

    pub const SET_OF: u8 = 15;

    pub const MEMBER: u8 = 16;

    pub const NAMED_BIT_STRING: u8 = 17;

    pub const NAMED_BIT: u8 = 18;

    pub const RDN_SEQUENCE: u8 = 19;

    pub const RDN: u8 = 20;

    pub const LONG_MEMBER: u8 = 21;
}

// A distinguished name: how many RDNs it has at most, and one RDN pairs; the tag octets of an RDN, of a pair and of a pair's attribute type.
#[derive(Clone, Copy)]
pub struct Name;

impl Name {
    pub const MAX_RDNS: usize = 16;

    pub const MAX_PAIRS: usize = 4;

    pub const RDN_TAG: usize = 49;

    pub const PAIR_TAG: usize = 48;

    pub const TYPE_TAG: usize = 6;
}

// Where the contents of a pair's attribute type and of its value lie.
#[derive(Clone, Copy)]
pub struct PairParts {
    pub type_start: usize,
    pub type_end: usize,
    pub value_start: usize,
    pub value_end: usize,
}

// ---- tags
// The parts of a tag octet: two top bits class, the next constructed, five the tag number.
fn split(o: u8) -> Tag
    ensures { result ≡ tag.split o }
{
    Tag {
        class: o >> 6,
        constructed: (o >> 5) & 1,
        number: o & 31,
    }
}

// A tag by class and number, as one number.
#[tactic(auto, unfolding(crate::specs::Tag::tag_of))]
pub fn tag_of(o: u8) -> u8
    ensures { result ≡ tag.tag_of o }
{
    let tag = split(o);
    match tag.class {
        0 => tag.number,
        2 => 32 + tag.number,
        _ => 31,
    }
}

// The universal tag of a kind; 0 for a CHOICE and for what is no type's kind.
#[tactic(auto, unfolding(crate::specs::Tag::universal, crate::specs::Tag::universal_text))]
pub fn universal(kind: u8) -> u8
    ensures { result ≡ tag.universal kind }
{
    match kind {
        Kind::BOOLEAN => 1,
        Kind::INTEGER => 2,
        Kind::ENUMERATED => 10,
        Kind::NULL => 5,
        Kind::OBJECT_IDENTIFIER => 6,
        Kind::OCTET_STRING => 4,
        Kind::BIT_STRING | Kind::NAMED_BIT_STRING => 3,
        Kind::UTF8_STRING => 12,
        Kind::PRINTABLE_STRING => 19,
        Kind::IA5_STRING => 22,
        Kind::GENERALIZED_TIME => 24,
        Kind::SEQUENCE | Kind::SEQUENCE_OF | Kind::RDN_SEQUENCE => 16,
        Kind::SET_OF | Kind::RDN => 17,
        _ => 0,
    }
}

// The constructed bit of a kind's tag octet.
#[tactic(auto, unfolding(crate::specs::Kind::is_constructed))]
fn form(kind: u8) -> u8
    ensures { result ≡ tag.form kind }
{
    match kind {
        Kind::SEQUENCE | Kind::SEQUENCE_OF | Kind::SET_OF | Kind::RDN_SEQUENCE | Kind::RDN => 32,
        _ => 0,
    }
}

// The tag octet of a kind's values: its own, or with an implicit context tag; and that of an explicit wrapper.
pub fn own_octet(kind: u8) -> usize
    ensures { result ≡ tag.own_octet kind }
{
    usize::from(form(kind)) + usize::from(universal(kind))
}

pub fn implicit_octet(n: u8, kind: u8) -> usize
    ensures { result ≡ tag.implicit_octet n kind }
{
    128 + usize::from(form(kind)) + usize::from(n)
}

pub fn wrapper_octet(n: u8) -> usize
    ensures { result ≡ tag.wrapper_octet n }
{
    160 + usize::from(n)
}

// ---- headers
fn long_length(n: usize, least: usize, next: usize, end: usize) -> Option<(usize, usize)>
    ensures { result ≡ header.long_length n least next end }
{
    if end < next {
        return None;
    }
    if n < least {
        return None;
    }
    Some((n, next))
}

// The length at a place, whose octets lie before end.
fn read_length(s: &[u8], at: usize, end: usize) -> Option<(usize, usize)>
    ensures { result ≡ header.length_at s.now at end }
{
    if end <= at {
        return None;
    }
    let first = octets::octet(s, at);
    if first < 128 {
        return Some((octets::wide(first), at + 1));
    }
    if first == 129 {
        return read_one(s, at, end);
    }
    if first == 130 {
        return read_two(s, at, end);
    }
    None
}

// A length of one octet after 81.
fn read_one(s: &[u8], at: usize, end: usize) -> Option<(usize, usize)>
    requires { at < end }
    ensures { result ≡ header.long_length (octet s.now (at + 1)) 128 (at + 2) end }
{
    if end - at < 2 {
        return None;
    }
    let n = octets::wide(octets::octet(s, at + 1));
    long_length(n, 128, at + 2, end)
}

// A length of two octets after 82.
fn read_two(s: &[u8], at: usize, end: usize) -> Option<(usize, usize)>
    requires { at < end }
    ensures { result ≡ header.long_length (two s.now (at + 1)) 256 (at + 3) end }
{
    if end - at < 3 {
        return None;
    }
    let n = octets::wide_two(octets::octet(s, at + 1), octets::octet(s, at + 2));
    long_length(n, 256, at + 3, end)
}

// The contents behind a tag octet at a place, by their length of any form.
fn open_long(s: &[u8], at: usize, end: usize) -> Option<(usize, usize)>
    requires { at < end }
    ensures { result ≡ behind end (header.length_at s.now (at + 1) end) }
{
    let Some((n, next)) = read_length(s, at + 1, end) else {
        return None;
    };
    if end - next < n {
        return None;
    }
    Some((next, n))
}

// The header at a place of a value that lies before end. Where a length octet isn't usable, reading ends there.
pub fn read_header(s: &[u8], at: usize, end: usize) -> Option<(u8, usize, usize)>
    ensures { result ≡ header.header_at s.now at end }
{
    if end <= at {
        return None;
    }
    let first = octets::octet(s, at);
    let tag = split(first);
    if tag.number == 31 {
        return None;
    }
    let Some((start, n)) = open_long(s, at, end) else {
        return None;
    };
    Some((first, start, n))
}

// The contents behind a header whose tag octet was seen, before end: by its length.
pub fn open_seen(s: &[u8], at: usize, end: usize) -> Option<(usize, usize)>
    requires within { end ≤ length s.now }
    requires here { at < end }
    requires usable { number (octet s.now at) < 31 }
    ensures { result ≡ header.inside_at (octet s.now at) s.now at end }
{
    if end - at < 2 {
        return None;
    }
    let n = octets::wide(s[at + 1]);
    if 128 <= n {
        return open_long(s, at, end);
    }
    if end - at - 2 < n {
        return None;
    }
    Some((at + 2, n))
}

// The contents at a place behind a tag octet, before end, which lies within the octets.
pub fn open_within(tag: usize, s: &[u8], at: usize, end: usize) -> Option<(usize, usize)>
    requires within { end ≤ length s.now }
    requires usable { number tag < 31 }
    ensures { result ≡ header.inside_at tag s.now at end }
{
    if end <= at {
        return None;
    }
    if octets::wide(s[at]) != tag {
        return None;
    }
    open_seen(s, at, end)
}

// ---- contents of the basic kinds
#[tactic(auto, using(crate::proofs::ContentsSteps::boolean_many), unfolding(crate::specs::Contents::legal_boolean, octets::specs::Octets::same))]
fn legal_boolean(c: &[u8]) -> bool
    ensures { result ≡ contents.legal_boolean c.now }
{
    matches!(c, [0 | 255])
}

#[tactic(auto, unfolding(crate::specs::Contents::shortest))]
fn shortest(a: u8, b: u8) -> bool
    ensures { result ≡ contents.shortest a b }
{
    match a {
        0 => 128 <= b,
        255 => b < 128,
        _ => true,
    }
}

#[tactic(auto, unfolding(crate::specs::Contents::legal_integer))]
fn legal_integer(c: &[u8]) -> bool
    ensures { result ≡ contents.legal_integer c.now }
{
    (1..=8).contains(&c.len()) && (c.len() == 1 || shortest(c[0], c[1]))
}

#[tactic(auto, unfolding(crate::specs::Contents::legal_null))]
fn legal_null(c: &[u8]) -> bool
    ensures { result ≡ contents.legal_null c.now }
{
    c.is_empty()
}

// The subidentifier at a place: seven bits an octet, the top bit set on all but the last.
pub fn read_sub(c: &[u8], at: usize) -> Sub
    ensures told { report_sub c.now result ≡ contents.subidentifiers (drop at c.now) }
    ensures forward { Forward c.now at result }
{
    if c.len() <= at {
        return Sub::End;
    }
    if c[at] == 128 {
        return Sub::Broken;
    }
    let mut v: u32 = 0;
    for i in at..c.len() {
        let o = c[i];
        if 33554431 < v {
            return Sub::Broken;
        }
        v = (v << 7) | u32::from(o & 127);
        if o < 128 {
            return Sub::Value(v, i + 1);
        }
    }
    Sub::Broken
}

fn legal_oid(c: &[u8]) -> bool
    ensures { result ≡ contents.legal_oid c.now }
{
    // A cursor: each subidentifier says where the next one starts.
    let mut i = 0;
    let mut n: usize = 0;
    while i < c.len() {
        match read_sub(c, i) {
            Sub::Value(_, next) => {
                if n == 32 {
                    return false;
                }
                i = next;
                n += 1;
            }
            Sub::End => return 1 <= n,
            Sub::Broken => return false,
        }
    }
    1 <= n
}

fn unused_clear(u: u8, last: u8) -> bool
    requires { u ≤ 7 }
    ensures { result ≡ eqb (last % 2 ^ u) 0 }
{
    last % (1u8 << u) == 0
}

#[tactic(auto, unfolding(crate::specs::Contents::legal_bits))]
fn legal_bits(c: &[u8]) -> bool
    ensures { result ≡ contents.legal_bits c.now }
{
    match c {
        [] => false,
        [unused] => *unused == 0,
        [unused, .., last] => *unused <= 7 && unused_clear(*unused, *last),
    }
}

// Whether bits are legal without a trailing zero bit: there are none, or the last that is used is 1.
fn legal_named_bits(c: &[u8]) -> bool
    ensures { result ≡ contents.legal_named_bits c.now }
{
    legal_bits(c) && (c.len() == 1 || (c[c.len() - 1] >> c[0]) & 1 == 1)
}

// The characters of a PrintableString as sets of bits: those below 64, and those from 64 on.
const LOW_PRINTABLE: u64 = 12105670854864535552;

const HIGH_PRINTABLE: u64 = 576460743847706622;

fn is_printable(b: u8) -> bool
    ensures { result ≡ contents.is_printable b }
{
    if b < 64 {
        return (LOW_PRINTABLE >> b) & 1 == 1;
    }
    if b < 128 {
        let above = b % 64;
        return (HIGH_PRINTABLE >> above) & 1 == 1;
    }
    false
}

fn both_printable(a: u8, b: u8) -> bool
    ensures { result ≡ both (contents.is_printable a) (contents.is_printable b) }
{
    is_printable(a) && is_printable(b)
}

fn four_printable(c: &[u8], i: usize) -> bool
    requires { i + 4 ≤ length c.now }
    ensures { result ≡ four_printable c.now i }
{
    both_printable(c[i], c[i + 1]) && both_printable(c[i + 2], c[i + 3])
}

// A place before which there are only characters of a PrintableString: as far as whole fours of them go.
fn skip_printable(c: &[u8]) -> usize
    ensures within { result ≤ length c.now }
    ensures rest { every contents.is_printable (drop result c.now) ≡ every contents.is_printable c.now }
{
    // By index: four characters are tested at each step.
    let mut i = 0;
    while 4 <= c.len() - i {
        if !four_printable(c, i) {
            return i;
        }
        i += 4;
    }
    i
}

fn legal_printable(c: &[u8]) -> bool
    ensures { result ≡ contents.legal_printable c.now }
{
    c[skip_printable(c)..].iter().all(|b| is_printable(*b))
}

fn legal_ia5(c: &[u8]) -> bool
    ensures { result ≡ contents.legal_ia5 c.now }
{
    octets::highest(c) < 128
}

// ---- times
// The number that decimal digits stand for, of which there are few enough that it fits.
fn digits(p: &[u8]) -> u64
    requires { length p.now ≤ 14 }
    ensures value { result ≡ decimal p.now }
    ensures small { result + 23 ≤ 23 * 10 ^ length p.now }
{
    let mut v: u64 = 0;
    for b in p {
        v = v * 10 + octets::digit(*b);
    }
    v
}

// The number that n digits from a place on stand for.
fn digits_at(c: &[u8], at: usize, n: usize) -> u64
    requires { n ≤ 14 }
    ensures { result ≡ time.digits_at c.now at n }
{
    digits(octets::part(c, at, n))
}

// A fraction in billionths.
fn billionths(f: &[u8]) -> u64
    ensures { result ≡ time.billionths f.now }
{
    let kept = octets::part(f, 0, 9);
    digits(kept) * 10u64.pow(9 - kept.len() as u32)
}

#[tactic(auto, unfolding(crate::specs::Time::is_leap))]
fn is_leap(year: u64) -> bool
    ensures { result ≡ time.is_leap year }
{
    year % 4 == 0 && (year % 100 != 0 || year % 400 == 0)
}

#[tactic(auto, unfolding(crate::specs::Time::days_in, crate::specs::Time::has_thirty))]
fn days_in(year: u64, month: u64) -> u64
    ensures { result ≡ time.days_in year month }
{
    match month {
        2 => if is_leap(year) { 29 } else { 28 },
        4 | 6 | 9 | 11 => 30,
        _ => 31,
    }
}

#[tactic(auto, unfolding(crate::specs::Time::real_date))]
fn real_date(year: u64, month: u64, day: u64) -> bool
    ensures { result ≡ time.real_date year month day }
{
    (1..=12).contains(&month) && (1..=days_in(year, month)).contains(&day)
}

#[tactic(auto, unfolding(crate::specs::Time::real_time))]
fn real_time(hour: u64, minute: u64, second: u64) -> bool
    ensures { result ≡ time.real_time hour minute second }
{
    hour <= 23 && minute <= 59 && second <= 60
}

// The digits between the point and the `Z`.
#[tactic(auto, unfolding(crate::specs::Time::fraction_digits))]
fn fraction_digits(c: &[u8]) -> &[u8]
    ensures { result.now ≡ time.fraction_digits c.now }
{
    octets::part(c, 15, c.len().saturating_sub(16))
}

#[tactic(auto, unfolding(crate::specs::Time::fraction_formed))]
fn fraction_formed(f: &[u8]) -> bool
    ensures { result ≡ time.fraction_formed f.now }
{
    (1..=9).contains(&f.len()) && octets::all_digits(f) && f[f.len() - 1] != b'0'
}

#[tactic(auto, unfolding(crate::specs::Time::tail_formed))]
fn tail_formed(c: &[u8]) -> bool
    requires { 15 ≤ length c.now }
    ensures { result ≡ time.tail_formed c.now }
{
    c[c.len() - 1] == b'Z'
        && (c.len() == 15 || c[14] == b'.' && fraction_formed(fraction_digits(c)))
}

#[tactic(auto, unfolding(crate::specs::Time::real_moment))]
fn real_moment(c: &[u8]) -> bool
    ensures { result ≡ time.real_moment c.now }
{
    let date_is_real = real_date(digits_at(c, 0, 4), digits_at(c, 4, 2), digits_at(c, 6, 2));
    date_is_real && real_time(digits_at(c, 8, 2), digits_at(c, 10, 2), digits_at(c, 12, 2))
}

#[tactic(auto, unfolding(crate::specs::Time::legal_time))]
pub fn legal_time(c: &[u8]) -> bool
    ensures { result ≡ time.legal_time c.now }
{
    15 <= c.len() && octets::all_digits(&c[..14]) && tail_formed(c) && real_moment(c)
}

// What a time says.
pub fn read_time(c: &[u8]) -> Time
    ensures { result ≡ time.time_of c.now }
{
    let stamp = digits_at(c, 0, 14);
    let fraction = billionths(fraction_digits(c));
    Time { stamp, fraction }
}

#[tactic(auto, unfolding(crate::specs::Time::same_time))]
pub fn same_time(a: Time, b: Time) -> bool
    ensures { result ≡ time.same_time a b }
{
    a == b
}

// By date and time, then fraction.
#[tactic(auto, unfolding(crate::specs::Time::earlier))]
pub fn earlier(a: Time, b: Time) -> bool
    ensures { result ≡ time.earlier a b }
{
    a < b
}

// ---- stored names
// The tag octets of the three kinds of string that a value may be of.
const UTF8_TAG: u8 = 12;

const PRINTABLE_TAG: u8 = 19;

const IA5_TAG: u8 = 22;

// Whether contents are legal for the kind of string with a tag octet.
#[tactic(auto, using(crate::proofs::NameLaws::string_by_octet))]
fn legal_string(tag: u8, c: &[u8]) -> bool
    ensures { result ≡ names.legal_string tag c.now }
{
    match tag {
        UTF8_TAG => octets::utf8(c),
        PRINTABLE_TAG => legal_printable(c),
        IA5_TAG => legal_ia5(c),
        _ => false,
    }
}

// Whether a legal value stands at a place of a pair and ends with it.
fn legal_value(c: &[u8], at: usize) -> bool
    ensures { result ≡ names.legal_value c.now (header.header_at c.now at (length c.now)) }
{
    let Some((tag, start, n)) = read_header(c, at, c.len()) else {
        return false;
    };
    c.len() - start == n && legal_string(tag, octets::part(c, start, n))
}

// Whether the contents of a pair are legal: an attribute type, then a value.
fn legal_pair(c: &[u8]) -> bool
    ensures { result ≡ names.legal_pair c.now }
{
    let Some((start, n)) = open_within(Name::TYPE_TAG, c, 0, c.len()) else {
        return false;
    };
    legal_oid(octets::part(c, start, n)) && legal_value(c, start + n)
}

// Whether a pair, from place at up to end with its contents from start on, is legal and not below the one from place `before` up to it.
fn legal_after(c: &[u8], before: usize, at: usize, start: usize, end: usize) -> bool
    ensures { result ≡ legal_after c.now before at start end }
{
    not_above(octets::between(c, before, at), octets::between(c, at, end))
        && legal_pair(octets::between(c, start, end))
}

// Whether the contents of an RDN are legal: 1 to 4 pairs, none below the one before.
fn legal_rdn(c: &[u8]) -> bool
    ensures { result ≡ names.legal_rdn c.now }
{
    // A cursor: each element says where the next one starts.
    let mut n: usize = 0;
    let mut before: usize = 0;
    let mut at: usize = 0;
    while at < c.len() {
        if n == Name::MAX_PAIRS {
            return false;
        }
        let Some((start, len)) = open_within(Name::PAIR_TAG, c, at, c.len()) else {
            return false;
        };
        let end = start + len;
        if !legal_after(c, before, at, start, end) {
            return false;
        }
        n += 1;
        before = at;
        at = end;
    }
    0 < n
}

// Whether the contents of an RDNSequence are legal: up to 16 RDNs.
fn legal_rdn_sequence(c: &[u8]) -> bool
    ensures { result ≡ names.legal_rdn_sequence c.now }
{
    // A cursor: each element says where the next one starts.
    let mut n: usize = 0;
    let mut at: usize = 0;
    while at < c.len() {
        if n == Name::MAX_RDNS {
            return false;
        }
        let Some((start, len)) = open_within(Name::RDN_TAG, c, at, c.len()) else {
            return false;
        };
        if !legal_rdn(octets::part(c, start, len)) {
            return false;
        }
        n += 1;
        at = start + len;
    }
    true
}

// Where the parts of a pair lie in its contents: 0 for a part that doesn't fit, and for both where the attribute type doesn't.
pub fn pair_parts(c: &[u8]) -> PairParts
    ensures type_is { between c.now result.type_start result.type_end ≡ (names.pair_of c.now).type }
    ensures value_is { between c.now result.value_start result.value_end ≡ (names.pair_of c.now).value }
    ensures placed { Placed c.now result }
{
    let none = PairParts {
        type_start: 0,
        type_end: 0,
        value_start: 0,
        value_end: 0,
    };
    let Some((type_start, n)) = open_within(Name::TYPE_TAG, c, 0, c.len()) else {
        return none;
    };
    let type_end = type_start + n;
    let Some((_, value_start, m)) = read_header(c, type_end, c.len()) else {
        return PairParts {
            type_start,
            type_end,
            ..none
        };
    };
    PairParts {
        type_start,
        type_end,
        value_start,
        value_end: value_start + m,
    }
}

// ---- contents by kind
// Whether contents are legal for a basic kind.
#[tactic(auto, unfolding(crate::specs::Legal::legal, crate::specs::Contents::legal_text))]
pub fn legal_contents(kind: u8, c: &[u8]) -> bool
    ensures { result ≡ legal kind c.now }
{
    match kind {
        Kind::BOOLEAN => legal_boolean(c),
        Kind::INTEGER | Kind::ENUMERATED => legal_integer(c),
        Kind::NULL => legal_null(c),
        Kind::OBJECT_IDENTIFIER => legal_oid(c),
        Kind::OCTET_STRING => true,
        Kind::BIT_STRING => legal_bits(c),
        Kind::UTF8_STRING => octets::utf8(c),
        Kind::PRINTABLE_STRING => legal_printable(c),
        Kind::IA5_STRING => legal_ia5(c),
        Kind::GENERALIZED_TIME => legal_time(c),
        Kind::NAMED_BIT_STRING => legal_named_bits(c),
        Kind::RDN_SEQUENCE => legal_rdn_sequence(c),
        Kind::RDN => legal_rdn(c),
        _ => false,
    }
}

// The same of the octets from start up to end; the most usual kinds first.
#[tactic(auto, unfolding(crate::specs::Legal::legal, crate::specs::Contents::legal_text))]
pub fn legal(kind: u8, s: &[u8], start: usize, end: usize) -> bool
    requires ordered { start ≤ end }
    requires within { end ≤ length s.now }
    ensures { result ≡ legal kind (between s.now start end) }
{
    let c = &s[start..end];
    if kind == Kind::INTEGER {
        return legal_integer(c);
    }
    if kind == Kind::PRINTABLE_STRING {
        return legal_printable(c);
    }
    legal_contents(kind, c)
}

// The same of an element, one of many of its kind: contents that have few octets are seen without a call. An arm for each kind, so that one jump leads there.
#[tactic(auto, unfolding(crate::specs::Legal::legal, crate::specs::Contents::legal_text))]
pub fn legal_element(kind: u8, c: &[u8]) -> bool
    ensures { result ≡ legal kind c.now }
{
    match kind {
        Kind::BOOLEAN => legal_boolean(c),
        Kind::INTEGER => legal_integer(c),
        Kind::ENUMERATED => legal_integer(c),
        Kind::NULL => legal_null(c),
        Kind::OCTET_STRING => true,
        Kind::PRINTABLE_STRING => legal_printable(c),
        _ => legal_contents(kind, c),
    }
}

// ---- what contents mean
pub fn read_boolean(c: &[u8]) -> bool
    ensures { result ≡ meaning.boolean_of c.now }
{
    octets::octet(c, 0) != 0
}

// The contents as a number without a sign.
pub fn plain(c: &[u8]) -> u64
    requires { length c.now ≤ 8 }
    ensures { result ≡ base_from 0 c.now }
{
    let mut n: u64 = 0;
    for b in c {
        n = n * 256 + u64::from(*b);
    }
    n
}

// An INTEGER of up to eight octets, as a sign and a size.
pub fn read_integer(c: &[u8]) -> Integer
    requires { length c.now ≤ 8 }
    ensures { report_integer result ≡ meaning.integer_of c.now }
{
    if octets::octet(c, 0) < 128 {
        return Integer {
            minus: false,
            size: plain(c),
        };
    }
    let largest = u64::MAX >> (64 - 8 * c.len());
    Integer {
        minus: true,
        size: largest - plain(c) + 1,
    }
}

// The number of bits of a BIT STRING.
pub fn bit_count(c: &[u8]) -> usize
    requires { length c.now ≤ 65536 }
    ensures { result ≡ length (meaning.bits_of c.now) }
{
    let [unused, octets @ ..] = c else {
        return 0;
    };
    (8 * octets.len()).saturating_sub(usize::from(*unused))
}

// Its bit at an index, 0 past the end.
pub fn bit_at(c: &[u8], i: usize) -> u8
    requires { length c.now ≤ 65536 }
    ensures { result ≡ get_or (meaning.bits_of c.now) i 0 }
{
    if bit_count(c) <= i {
        return 0;
    }
    bit_of(octets::octet(c, 1 + i / 8), i % 8)
}

// A bit of an octet, from the top.
fn bit_of(o: u8, k: usize) -> u8
    requires { k < 8 }
    ensures { result ≡ get_or (meaning.octet_bits o) k 0 }
{
    let down = 7 - k;
    (o >> down) & 1
}

// Whether an encoding is not above another in X.690 order.
pub fn not_above(a: &[u8], b: &[u8]) -> bool
    ensures { result ≡ not_above a.now b.now }
{
    for (i, x) in a.iter().enumerate() {
        let y = octets::octet(b, i);
        if *x != y {
            return *x < y;
        }
    }
    true
}
