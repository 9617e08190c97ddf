// The operand of an asserted name: octets written once, in the order of the text, that are read from their end.
#![tactic(auto)]

ghost use Rattle.std.specs.Prelude.{◌≡◌, true, [], ◌∷◌, ◌++◌, ◌≤◌, ◌<◌, ◌+◌, ◌-◌, ◌*◌, length};
ghost use Rattle.octets.specs.Pick.{is_some};
ghost use Rattle.octets.specs.Octets.{part};
ghost use Rattle.octets.specs.Quoted.{undoubled};
ghost use Rattle.octets.specs.Inner.Answers.{between};
ghost use Rattle.der.specs.Names.{most_pairs};
ghost use Rattle.strings.specs.Inner.Escaped.{unescaped};
ghost use Rattle.names.specs.Rfc4514 as rfc;
ghost use Rattle.names.specs.Inner.Reading.{letters_at};
ghost use Rattle.names.specs.Inner.Operand as operand;
ghost use Rattle.nameoperand.specs.Inner.Writing as writing;

use strings::Form;

// Copies octets behind those that stand in memory up to a place, and answers the place after them.
fn copy(p: &[u8], from: usize, to: usize, n: usize, memory: &mut [u8; 5120]) -> usize
    requires ordered { from ≤ to }
    requires within { to ≤ length p.now }
    requires short { n + (to - from) ≤ 5120 }
    ensures written { part memory.new 0 result ≡ part memory.old 0 n ++ between p.now from to }
    ensures place { result ≡ n + (to - from) }
{
    // Octet by octet: `copy_from_slice` would be a call of the C library's memmove.
    for i in from..to {
        memory[n + (i - from)] = p[i];
    }
    n + (to - from)
}

// Writes a number in two octets, and answers the place after them.
fn put_two(k: usize, n: usize, memory: &mut [u8; 5120]) -> usize
    requires small { k < 65536 }
    requires short { n + 2 ≤ 5120 }
    ensures written { part memory.new 0 result ≡ part memory.old 0 n ++ operand.two_octets k }
    ensures place { result ≡ n + 2 }
{
    memory[n] = (k / 256) as u8;
    memory[n + 1] = (k % 256) as u8;
    n + 2
}

// Writes two numbers so, one behind the other.
fn put_lengths(a: usize, b: usize, n: usize, memory: &mut [u8; 5120]) -> usize
    requires first { a < 65536 }
    requires second { b < 65536 }
    requires short { n + 4 ≤ 5120 }
    ensures written { part memory.new 0 result ≡ part memory.old 0 n ++ (operand.two_octets a ++ operand.two_octets b) }
    ensures place { result ≡ n + 4 }
{
    let next = put_two(a, n, memory);
    put_two(b, next, memory)
}

// Writes an attribute whose type stands from a place up to the sign `=` and its value behind it up to an end, and answers the place after it.
fn write_attribute(
    p: &[u8],
    at: usize,
    equals: usize,
    end: usize,
    n: usize,
    memory: &mut [u8; 5120],
) -> usize
    requires dotted { at + 3 ≤ equals }
    requires valued { equals < end }
    requires within { end ≤ length p.now }
    requires short { length p.now ≤ 2048 }
    requires behind { 2 * n ≤ 5 * at }
    ensures written { part memory.new 0 result ≡ part memory.old 0 n
        ++ operand.attribute_octets (record { type = between p.now at equals; value = unescaped (between p.now (equals + 1) end) }) }
    ensures most { 2 * result + 6 ≤ 5 * end }
{
    let text = copy(p, at, equals, n, memory);
    let value = octets::between(p, equals + 1, end);
    let lengths = strings::prepare_behind(value, Form::Escaped, true, text, memory);
    put_lengths(equals - at, lengths - text, lengths, memory)
}

// Where an RDN ends in the text, and where its octets end in memory.
#[derive(Clone, Copy)]
pub struct Written {
    pub end: usize,
    pub place: usize,
}

// Writes the number of an RDN's attributes behind them.
fn put_count(count: usize, n: usize, memory: &mut [u8; 5120]) -> usize
    requires small { count < 256 }
    requires short { n < 5120 }
    ensures written { part memory.new 0 result ≡ part memory.old 0 n ++ (count ∷ []) }
    ensures place { result ≡ n + 1 }
{
    memory[n] = count as u8;
    n + 1
}

// Writes the RDN that starts at a place of a text behind what stands in memory.
fn write_from(p: &[u8], first: usize, from: usize, memory: &mut [u8; 5120]) -> Written
    requires short { length p.now ≤ 2048 }
    requires behind { 2 * from ≤ 5 * first }
    requires read { is_some (rfc.rdn_from most_pairs (letters_at p.now first)) ≡ true }
    ensures rdn { writing.RdnWritten p.now first from memory.old result memory.new }
{
    let mut at = first;
    let mut n = from;
    let mut count = 0;
    // A cursor: each attribute says where the next one starts.
    while let Some(a) = names::attribute_at(p, at) {
        let end = a.end;
        n = write_attribute(p, at, a.equals, end, n, memory);
        count += 1;
        if octets::octet(p, end) != b'+' {
            return Written {
                end,
                place: put_count(count, n, memory),
            };
        }
        at = end + 1;
    }
    Written { end: at, place: n }
}

// Writes the operand of an RDN that stands between quotes, and answers its length.
pub fn write_rdn(p: &[u8], memory: &mut [u8; 5120]) -> usize
    requires short { length p.now ≤ 2048 }
    requires read { is_some (rfc.relative_distinguished_name (undoubled p.now)) ≡ true }
    ensures { part memory.new 0 result ≡ operand.rdn_octets (operand.or_none (rfc.relative_distinguished_name (undoubled p.now))) }
{
    let written = write_from(p, 0, 0, memory);
    written.place
}

// Writes the operand of a name that stands between quotes, and answers its length.
pub fn write_name(p: &[u8], memory: &mut [u8; 5120]) -> usize
    requires short { length p.now ≤ 2048 }
    requires read { is_some (rfc.distinguished_name (undoubled p.now)) ≡ true }
    ensures { part memory.new 0 result ≡ operand.name_octets (operand.or_none (rfc.distinguished_name (undoubled p.now))) }
{
    if p.is_empty() {
        return 0;
    }
    let mut at = 0;
    let mut n = 0;
    // A cursor: each RDN says where the next one starts.
    loop {
        let written = write_from(p, at, n, memory);
        let end = written.end;
        n = written.place;
        if octets::octet(p, end) != b',' {
            return n;
        }
        at = end + 1;
    }
}
