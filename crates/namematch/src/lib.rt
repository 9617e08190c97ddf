// Stored distinguished names against asserted ones.
#![tactic(auto)]

ghost use Rattle.std.specs.Prelude.{◌≡◌, true, ◌≤◌, ◌<◌, ◌-◌, length};
ghost use Rattle.octets.specs.Octets.{octet, two, same};
ghost use Rattle.octets.specs.Inner.Answers.{between};
ghost use Rattle.der.specs.Tag.{number};
ghost use Rattle.der.specs.Meaning.{arcs_of};
ghost use Rattle.der.specs.Dotted.{dotted_arcs};
ghost use Rattle.der.specs.Names as names;
ghost use Rattle.strings.specs.Prepared.{prepared};
ghost use Rattle.strings.specs.Inner.Comparing.{folded};
ghost use Rattle.names.specs.Compared as compared;
ghost use Rattle.names.specs.Inner.Operand as operand;
ghost use Rattle.namematch.specs.Inner.Marks as marks;
ghost use Rattle.namematch.specs.Inner.Names as places;

use der::{Name, PairParts};

// Where an attribute of the operand lies: its type up to its value, and where its value ends.
#[derive(Clone, Copy)]
struct AttributeParts {
    type_start: usize,
    text_start: usize,
    text_end: usize,
}

// ---- stored elements
// How many elements fit to the end; 0 where they don't, or where there are more than `most`.
fn count(tag: usize, most: usize, c: &[u8]) -> usize
    requires usable { number tag < 31 }
    ensures { result ≡ length (names.elements_of (names.elements_from most tag c.now 0)) }
{
    let mut n: usize = 0;
    let mut at: usize = 0;
    // A cursor: each element says where the next one starts.
    while at < c.len() {
        if most <= n {
            return 0;
        }
        let Some((start, len)) = der::open_within(tag, c, at, c.len()) else {
            return 0;
        };
        n += 1;
        at = start + len;
    }
    n
}

// ---- the operand, from an end on backwards
// The length in the two octets that start k octets before an end.
fn length_before(x: &[u8], end: usize, k: usize) -> usize
    requires { 1 < k }
    ensures { result ≡ two x.now (end - k) }
{
    let i = end.saturating_sub(k);
    octets::wide_two(octets::octet(x, i), octets::octet(x, i + 1))
}

// The attribute that ends at a place.
fn attribute_parts(x: &[u8], end: usize) -> AttributeParts
    ensures type_from { result.type_start ≡ operand.type_start x.now end }
    ensures text_from { result.text_start ≡ operand.text_start x.now end }
    ensures text_to { result.text_end ≡ end - 4 }
{
    let text_end = end.saturating_sub(4);
    let text_start = text_end.saturating_sub(length_before(x, end, 2));
    let type_start = text_start.saturating_sub(length_before(x, end, 4));
    AttributeParts {
        type_start,
        text_start,
        text_end,
    }
}

// Where n attributes that end at a place start.
fn start_back(n: usize, x: &[u8], end: usize) -> usize
    ensures { result ≡ operand.start_back n x.now end }
{
    let mut start = end;
    for _ in 0..n {
        start = attribute_parts(x, start).type_start;
    }
    start
}

// How many attributes the RDN that ends at a place has.
fn attribute_count(x: &[u8], end: usize) -> usize
    ensures { result ≡ octet x.now (end - 1) }
{
    usize::from(octets::octet(x, end.saturating_sub(1)))
}

// ---- pairs
// Whether the type of a stored pair is that of an attribute.
fn same_type(c: &[u8], p: PairParts, x: &[u8], a: AttributeParts) -> bool
    ensures { result ≡ same (arcs_of (between c.now p.type_start p.type_end))
        (dotted_arcs (between x.now a.type_start a.text_start)) }
{
    dotted::same_arcs(
        octets::between(x, a.type_start, a.text_start),
        octets::between(c, p.type_start, p.type_end),
    )
}

// Whether its value as prepared is that of an attribute.
fn same_value(c: &[u8], p: PairParts, x: &[u8], a: AttributeParts) -> bool
    ensures { result ≡ same (prepared true (between c.now p.value_start p.value_end))
        (folded true (between x.now a.text_start a.text_end)) }
{
    strings::same_prepared(
        octets::between(c, p.value_start, p.value_end),
        octets::between(x, a.text_start, a.text_end),
        true,
    )
}

// Whether a stored pair is the same as the attribute that ends at a place: the values first, which differ more often than the types.
fn same_pair(c: &[u8], x: &[u8], end: usize) -> bool
    ensures { result ≡ compared.same_pair (compared.stored (names.pair_of c.now)) (operand.attribute_back x.now end) }
{
    let p = der::pair_parts(c);
    let a = attribute_parts(x, end);
    same_value(c, p, x, a) && same_type(c, p, x, a)
}

// The same, where the attribute isn't marked as used: the last bit of `rest` is its mark.
#[tactic(auto, using(octets::proofs::Tests::tests))]
fn same_unused(c: &[u8], x: &[u8], end: usize, rest: usize) -> bool
    ensures { result ≡ marks.same_unused (compared.stored (names.pair_of c.now)) (operand.attribute_back x.now end) rest }
{
    rest % 2 == 0 && same_pair(c, x, end)
}

// ---- RDNs
// The marks with that of the first unused attribute that a stored pair is the same as, of n attributes that end at a place; none where none is. Bit j marks the
// j-th from the end.
fn use_attribute(c: &[u8], x: &[u8], end: usize, n: usize, used: usize) -> Option<usize>
    requires few { n ≤ 4 }
    requires low { used ≤ 24 }
    ensures marked { result ≡ marks.marked (compared.stored (names.pair_of c.now))
        (operand.attributes_back n x.now end) used }
    ensures near { marks.Near used result }
{
    let mut place = end;
    let mut rest = used;
    let mut weight = 1;
    for _ in 0..n {
        if same_unused(c, x, place, rest) {
            return Some(used + weight);
        }
        place = attribute_parts(x, place).type_start;
        rest /= 2;
        weight *= 2;
    }
    None
}

// Whether the pairs of a stored RDN and n attributes that end at a place are the same, one to one.
fn same_rdn(c: &[u8], x: &[u8], end: usize, n: usize) -> bool
    ensures { result ≡ compared.same_rdn (compared.stored_rdn c.now) (operand.attributes_back n x.now end) }
{
    if count(Name::PAIR_TAG, Name::MAX_PAIRS, c) != n {
        return false;
    }
    let mut at = 0;
    let mut used = 0;
    for _ in 0..n {
        let Some((start, len)) = der::open_within(Name::PAIR_TAG, c, at, c.len()) else {
            return false;
        };
        let Some(more) = use_attribute(octets::part(c, start, len), x, end, n, used) else {
            return false;
        };
        used = more;
        at = start + len;
    }
    true
}

// Whether a stored RDN is the same as the one that ends at a place.
fn same_rdn_back(c: &[u8], x: &[u8], end: usize) -> bool
    ensures { result ≡ compared.same_rdn (compared.stored_rdn c.now) (operand.rdn_back x.now end) }
{
    same_rdn(c, x, end.saturating_sub(1), attribute_count(x, end))
}

// Where the RDN that ends at a place starts.
fn rdn_start(x: &[u8], end: usize) -> usize
    ensures { result ≡ operand.rdn_start x.now end }
{
    start_back(attribute_count(x, end), x, end.saturating_sub(1))
}

// ---- names
// Whether the last of n RDNs of a stored name is the same as the operand's, and the operand has no more.
fn same_last(c: &[u8], x: &[u8], n: usize) -> bool
    requires some { 0 < n }
    requires counted { n ≡ places.rdn_count c.now }
    ensures { result ≡ places.same_from c.now x.now (n - 1) }
{
    let last = n - 1;
    let mut place = 0;
    let mut reached = x.len();
    for _ in 0..last {
        if reached == 0 {
            return false;
        }
        let Some((start, len)) = der::open_within(Name::RDN_TAG, c, place, c.len()) else {
            return false;
        };
        reached = rdn_start(x, reached);
        place = start + len;
    }
    if reached == 0 {
        return false;
    }
    let Some((from, size)) = der::open_within(Name::RDN_TAG, c, place, c.len()) else {
        return false;
    };
    if rdn_start(x, reached) != 0 {
        return false;
    }
    same_rdn_back(octets::part(c, from, size), x, reached)
}

// Whether a stored name is the same as the operand, where those of its RDNs behind the first k are.
fn same_before(c: &[u8], x: &[u8], k: usize) -> bool
    requires within { k ≤ places.rdn_count c.now }
    requires rest { places.same_from c.now x.now k ≡ true }
    ensures { result ≡ compared.same_name (compared.stored_name c.now) (operand.operand_name x.now) }
{
    let mut at = 0;
    let mut end = x.len();
    for _ in 0..k {
        if end == 0 {
            return false;
        }
        let Some((start, len)) = der::open_within(Name::RDN_TAG, c, at, c.len()) else {
            return false;
        };
        if !same_rdn_back(octets::part(c, start, len), x, end) {
            return false;
        }
        end = rdn_start(x, end);
        at = start + len;
    }
    true
}

// ---- entries
// Whether a stored RDN is the same as the operand's.
pub fn same_single(c: &[u8], x: &[u8]) -> bool
    ensures { result ≡ compared.same_rdn (compared.stored_rdn c.now) (operand.operand_rdn x.now) }
{
    same_rdn_back(c, x, x.len())
}

// Whether a stored name is the same as the operand: the number of RDNs and the last one first, in which names differ most often.
pub fn same_name(c: &[u8], x: &[u8]) -> bool
    ensures { result ≡ compared.same_name (compared.stored_name c.now) (operand.operand_name x.now) }
{
    let n = count(Name::RDN_TAG, Name::MAX_RDNS, c);
    if n == 0 {
        return x.is_empty();
    }
    same_last(c, x, n) && same_before(c, x, n - 1)
}
