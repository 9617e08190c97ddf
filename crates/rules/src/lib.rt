// Matching rules: known rules, which rule is for which type, conforming value texts.
#![tactic(auto)]

ghost use Rattle.std.specs.Prelude.{◌≡◌, ◌<◌, true, false, eqb, length};
ghost use Rattle.octets.specs.Pick.{all, bind, is_some};
ghost use Rattle.octets.specs.Octets.{octet};
ghost use Rattle.octets.specs.Text.{lower, is_digit, is_upper};
ghost use Rattle.octets.specs.Quoted.{unquoted};
ghost use Rattle.der.specs.Kind.{is_string};
ghost use Rattle.names.specs.Compared.{asserted_name, asserted_rdn};
ghost use Rattle.rows.specs.Row.{members_at};
ghost use Rattle.table.specs.Inner.Rows.{table_rows, place_at, type_at};
ghost use Rattle.table.specs.Inner.Words.{Worded};
ghost use Rattle.reference.specs.Allowed.{of_type, of_count};
ghost use Rattle.rules.specs.Rule.{bit_strings, same_name, known_rules, rule_of};
ghost use Rattle.rules.specs.Suits as suiting;
ghost use Rattle.rules.specs.Asserted.{is_truth};
ghost use Rattle.rules.specs.Inner.Answers as answers;

use Rule::{Equal, Less, Present};
use Syntax::{
    BitStrings, Booleans, Integers, Names, ObjectIdentifiers, OctetStrings, Rdns, Strings, Times,
};
use der::Kind;

// What a rule compares; strings with letters folded (true) or as they are.
#[derive(Clone, Copy)]
pub enum Syntax {
    Booleans,
    Integers,
    ObjectIdentifiers,
    OctetStrings,
    BitStrings,
    Strings(bool),
    Times,
    Names,
    Rdns,
}

// presentMatch, an equality rule, an ordering rule.
#[derive(Clone, Copy)]
pub enum Rule {
    Present,
    Equal(Syntax),
    Less(Syntax),
}

// ---- known rules
// A to Z.
#[tactic(auto, unfolding(octets::specs::Text::is_upper))]
fn is_upper(b: u8) -> bool
    ensures { result ≡ is_upper b }
{
    octets::within(b'A', b'Z', b)
}

// Whether two octets are the same, or one letter in two cases.
fn same_letter(a: u8, b: u8) -> bool
    ensures { result ≡ eqb (lower a) (lower b) }
{
    if a == b {
        return true;
    }
    if is_upper(a) {
        return b == a + 32;
    }
    if is_upper(b) {
        return a == b + 32;
    }
    false
}

// Whether two names of one length are the same without regard to case. Not inlined: the loop over the table then compares lengths alone,
// and is unrolled.
#[inline(never)]
fn same_letters(a: &[u8], b: &[u8]) -> bool
    requires alike { length a.now ≡ length b.now }
    ensures { result ≡ same_name a.now b.now }
{
    for i in 0..a.len() {
        if !same_letter(a[i], b[i]) {
            return false;
        }
    }
    true
}

// Whether two names are the same without regard to case.
fn same_name(a: &[u8], b: &[u8]) -> bool
    ensures { result ≡ same_name a.now b.now }
{
    a.len() == b.len() && same_letters(a, b)
}

// Whether a text is a rule's name or OID. An OID begins with a digit and a name doesn't, so the text is compared with one of the two.
fn is_called(dotted: bool, t: &[u8], name: &[u8], oid: &[u8]) -> bool
    requires told { dotted ≡ is_digit (octet t.now 0) }
    requires word { is_digit (lower (octet name.now 0)) ≡ false }
    requires number { is_digit (octet oid.now 0) ≡ true }
    ensures { result ≡ answers.called t.now name.now oid.now }
{
    if dotted {
        octets::same(t, oid)
    } else {
        same_name(t, name)
    }
}

// The known rules: name, OID, rule.
const KNOWN_RULES: [(&[u8], &[u8], Rule); 14] = [
    (b"presentMatch", b"1.2.36.79672281.1.13.5", Present),
    (b"booleanMatch", b"2.5.13.13", Equal(Booleans)),
    (b"integerMatch", b"2.5.13.14", Equal(Integers)),
    (b"integerOrderingMatch", b"2.5.13.15", Less(Integers)),
    (
        b"objectIdentifierMatch",
        b"2.5.13.0",
        Equal(ObjectIdentifiers),
    ),
    (b"octetStringMatch", b"2.5.13.17", Equal(OctetStrings)),
    (
        b"octetStringOrderingMatch",
        b"2.5.13.18",
        Less(OctetStrings),
    ),
    (b"bitStringMatch", b"2.5.13.16", Equal(BitStrings)),
    (b"caseIgnoreMatch", b"2.5.13.2", Equal(Strings(true))),
    (b"caseExactMatch", b"2.5.13.5", Equal(Strings(false))),
    (b"generalizedTimeMatch", b"2.5.13.27", Equal(Times)),
    (b"generalizedTimeOrderingMatch", b"2.5.13.28", Less(Times)),
    (b"distinguishedNameMatch", b"2.5.13.1", Equal(Names)),
    (b"rdnMatch", b"1.2.36.79672281.1.13.3", Equal(Rdns)),
];

// The rule of a name or dotted OID: the first row of the table that has it.
pub fn rule_of(t: &[u8]) -> Option<Rule>
    ensures { answers.report_rule result ≡ rule_of known_rules t.now }
{
    let dotted = octets::is_digit(octets::octet(t, 0));
    for (name, oid, rule) in KNOWN_RULES.iter() {
        if is_called(dotted, t, name, oid) {
            return Some(*rule);
        }
    }
    None
}

// ---- conforming
fn is_of_bits(x: Syntax) -> bool
    ensures { result ≡ answers.of_bits (answers.syntax_of x) }
{
    matches!(x, BitStrings)
}

// Whether a rule's value texts are read by what the reference leads to: those of bits, which may have names there.
#[tactic(auto, unfolding(crate::specs::Inner::Answers::read_by_target))]
pub fn reads_by_target(rule: Rule) -> bool
    ensures { result ≡ answers.read_by_target (answers.meant rule) }
{
    match rule {
        Present => false,
        Equal(x) | Less(x) => is_of_bits(x),
    }
}

#[tactic(auto, unfolding(crate::specs::Asserted::is_truth))]
fn is_truth(t: &[u8]) -> bool
    ensures { result ≡ is_truth t.now }
{
    octets::same(t, b"TRUE") || octets::same(t, b"FALSE")
}

// Whether a value text is a quoted name, and a quoted RDN.
fn is_name(t: &[u8]) -> bool
    ensures { result ≡ is_some (bind (unquoted t.now) asserted_name) }
{
    strings::is_quoted(t) && names::is_name(strings::quoted_part(t))
}

fn is_rdn(t: &[u8]) -> bool
    ensures { result ≡ is_some (bind (unquoted t.now) asserted_rdn) }
{
    strings::is_quoted(t) && names::is_rdn(strings::quoted_part(t))
}

#[tactic(auto, unfolding(crate::specs::Inner::Answers::conforms_to))]
fn conforms_to(x: Syntax, t: &[u8]) -> bool
    ensures { result ≡ answers.conforms_to (answers.syntax_of x) t.now }
{
    match x {
        Booleans => is_truth(t),
        Integers => integers::is_integer(t),
        ObjectIdentifiers => dotted::is_dotted(t),
        OctetStrings => digits::is_octets(t),
        BitStrings => digits::is_bits(t),
        Strings(_) => strings::is_text(t),
        Times => times::is_time(t),
        Names => is_name(t),
        Rdns => is_rdn(t),
    }
}

// Whether a value text conforms to what a rule asserts, whatever the reference leads to; bits as without names.
#[tactic(auto, unfolding(crate::specs::Inner::Answers::conforms))]
pub fn conforms(rule: Rule, t: &[u8]) -> bool
    ensures { result ≡ answers.conforms (answers.meant rule) t.now }
{
    match rule {
        Present => octets::same(t, b"NULL"),
        Equal(x) | Less(x) => conforms_to(x, t),
    }
}

// ---- which rule is for which type
fn is_string(k: u8) -> bool
    ensures { result ≡ is_string k }
{
    octets::within(Kind::UTF8_STRING, Kind::IA5_STRING, k)
}

fn is_bit_kind(k: u8) -> bool
    ensures { result ≡ suiting.suits_kind bit_strings k }
{
    k == Kind::BIT_STRING || k == Kind::NAMED_BIT_STRING
}

fn suits_kind(x: Syntax, k: u8) -> bool
    ensures { result ≡ suiting.suits_kind (answers.syntax_of x) k }
{
    match x {
        Booleans => k == Kind::BOOLEAN,
        Integers => k == Kind::INTEGER,
        ObjectIdentifiers => k == Kind::OBJECT_IDENTIFIER,
        OctetStrings => k == Kind::OCTET_STRING,
        BitStrings => is_bit_kind(k),
        Strings(_) => is_string(k),
        Times => k == Kind::GENERALIZED_TIME,
        Names => k == Kind::RDN_SEQUENCE,
        Rdns => k == Kind::RDN,
    }
}

// Whether alternative j of row i has no tag and is a string.
fn is_string_row(t: &[u8], w: &[u64; 256], i: usize, j: usize) -> bool
    requires worded { Worded t.now w.now }
    requires here { i < length (table_rows t.now) }
    requires one { j < members_at t.now (place_at t.now i) }
    ensures { result ≡ answers.string_row t.now i j }
{
    let row = i + 1 + j;
    rows::mode_at(t, table::place(t, w, row)) == 0 && is_string(table::kind_of_type(t, w, row))
}

// Whether all n alternatives of row i are such.
fn all_strings(t: &[u8], w: &[u64; 256], i: usize, n: usize) -> bool
    requires worded { Worded t.now w.now }
    requires here { i < length (table_rows t.now) }
    requires count { n ≡ members_at t.now (place_at t.now i) }
    ensures { result ≡ all (answers.string_row t.now i) n }
{
    for j in 0..n {
        if !is_string_row(t, w, i, j) {
            return false;
        }
    }
    true
}

fn suits_row(x: Syntax, t: &[u8], w: &[u64; 256], i: usize) -> bool
    requires worded { Worded t.now w.now }
    requires here { i < length (table_rows t.now) }
    ensures { result ≡ suiting.suits_target (answers.syntax_of x) (of_type (type_at t.now i)) }
{
    let k = table::kind(t, w, i);
    if k != Kind::CHOICE {
        return suits_kind(x, k);
    }
    suits_kind(x, Kind::UTF8_STRING) && all_strings(t, w, i, table::members(t, w, i))
}

// Whether a rule is for the type of row i.
#[tactic(auto, unfolding(crate::specs::Suits::suits))]
pub fn suits(rule: Rule, t: &[u8], w: &[u64; 256], i: usize) -> bool
    requires worded { Worded t.now w.now }
    requires here { i < length (table_rows t.now) }
    ensures { result ≡ suiting.suits (answers.meant rule) (of_type (type_at t.now i)) }
{
    match rule {
        Present => true,
        Equal(x) | Less(x) => suits_row(x, t, w, i),
    }
}

// Whether a rule is for a count.
#[tactic(auto, unfolding(crate::specs::Suits::suits, crate::specs::Suits::suits_target))]
pub fn suits_count(rule: Rule) -> bool
    ensures { result ≡ suiting.suits (answers.meant rule) of_count }
{
    match rule {
        Present => true,
        Equal(x) | Less(x) => suits_kind(x, Kind::INTEGER),
    }
}
