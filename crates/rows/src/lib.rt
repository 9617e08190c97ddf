// The rows of a type table: where they start, their parts, and what their bodies are like. Reads past the end give 0.
#![tactic(auto)]

ghost use Rattle.std.specs.Prelude.{◌≡◌, true, ◌≤◌, ◌<◌, ◌+◌, ◌-◌, ◌*◌, length, drop, eqb};
ghost use Rattle.octets.specs.Pick.{both, all};
ghost use Rattle.octets.specs.Octets.{octet, two, part, every, same};
ghost use Rattle.der.specs.Kind as kinds;
ghost use Rattle.rows.specs.Row as row;
ghost use Rattle.rows.specs.Body as body;
ghost use Rattle.rows.specs.Inner.Numbers.{least_first};
ghost use Rattle.rows.specs.Inner.Sizes.{type_row_size, type_size, name_begun, fields_formed, formed_size, some_size, WholeName, WholeMember};
ghost use Rattle.rows.specs.Limits.{table_fits};
ghost use Rattle.rows.specs.Paper.{table_limits};

use der::Kind;

// A table: how many rows it has, and the limits of every table.
#[derive(Clone, Copy)]
pub struct Table {
    pub rows: usize,
}

impl Table {
    pub const MIN_BYTES: usize = 1;

    pub const MAX_BYTES: usize = 8064;

    pub const MAX_ROWS: usize = 128;

    pub const MAX_CHAIN: usize = 16;

    pub const MAX_MEMBERS: u8 = 16;

    // The octets of a name, and of its field; of a long one.
    pub const MAX_NAME: usize = 24;

    pub const MAX_LONG_NAME: usize = 48;

    // The octets of a member row, of one with a long name, and of the row of a named bit.
    pub const MEMBER_BYTES: usize = 39;

    pub const LONG_MEMBER_BYTES: usize = 63;

    pub const BIT_BYTES: usize = 26;

    // The highest number of a bit with a name.
    pub const MAX_BIT: u8 = 63;

    pub fn of(rows: usize) -> Self
        ensures { result.rows ≡ rows }
    {
        Self { rows }
    }

    // Whether a table may have so many octets.
    pub fn fits(table: &[u8]) -> bool
        ensures { result ≡ table_fits table_limits table.now }
    {
        (Self::MIN_BYTES..=Self::MAX_BYTES).contains(&table.len())
    }
}

// ---- reading
// The table from place p on.
fn from(t: &[u8], p: usize) -> &[u8]
    ensures { result.now ≡ drop p t.now }
{
    if t.len() <= p {
        return &t[t.len()..];
    }
    &t[p..]
}

// The octet k after place p.
fn field(t: &[u8], p: usize, k: usize) -> u8
    ensures { result ≡ octet t.now (p + k) }
{
    octets::octet(from(t, p), k)
}

// Up to n octets from k after place p on.
fn fields(t: &[u8], p: usize, k: usize, n: usize) -> &[u8]
    ensures { result.now ≡ part t.now (p + k) n }
{
    octets::part(from(t, p), k, n)
}

// Two octets, big-endian, from k after place p on.
fn number_after(t: &[u8], p: usize, k: usize) -> usize
    requires { k < 64 }
    ensures { result ≡ two t.now (p + k) }
{
    octets::wide_two(field(t, p, k), field(t, p, k + 1))
}

// ---- the parts of the row at p
pub fn kind_at(t: &[u8], p: usize) -> u8
    ensures { result ≡ row.kind_at t.now p }
{
    octets::octet(t, p)
}

// The row of a list's element.
pub fn element_at(t: &[u8], p: usize) -> usize
    requires { row.is_list (row.kind_at t.now p) ≡ true }
    ensures { result ≡ row.named_at t.now p }
{
    number_after(t, p, 1)
}

// The octets of a name's field in a row of a kind.
fn name_width(kind: u8) -> usize
    ensures width { result ≡ row.name_width kind }
    ensures least { 24 ≤ result }
    ensures most { result ≤ 48 }
{
    if kind == Kind::LONG_MEMBER {
        return Table::MAX_LONG_NAME;
    }
    Table::MAX_NAME
}

// A member's or a bit's name, with its fill.
pub fn name_at(t: &[u8], p: usize) -> &[u8]
    ensures { result.now ≡ row.name_at t.now p }
{
    fields(t, p, 1, name_width(kind_at(t, p)))
}

// The first octet of its field.
pub fn name_start(t: &[u8], p: usize) -> u8
    ensures { result ≡ octet t.now (p + 1) }
{
    field(t, p, 1)
}

// The number of a named bit.
pub fn bit_number_at(t: &[u8], p: usize) -> u8
    ensures { result ≡ row.bit_number_at t.now p }
{
    field(t, p, 25)
}

// The octet k behind the name of the row at p.
fn field_behind(t: &[u8], p: usize, k: usize) -> u8
    requires { k < 16 }
    ensures { result ≡ octet t.now (row.behind_name t.now p + k) }
{
    field(t, p, name_width(kind_at(t, p)) + 1 + k)
}

pub fn mode_at(t: &[u8], p: usize) -> u8
    ensures { result ≡ row.mode_at t.now p }
{
    field_behind(t, p, 2)
}

// A member's default contents, without their fill.
pub fn default_at(t: &[u8], p: usize) -> &[u8]
    ensures { result.now ≡ row.default_at t.now p }
{
    let size = usize::from(field_behind(t, p, 5));
    fields(t, p, name_width(kind_at(t, p)) + 7, size)
}

// ---- the parts of the member row at p, where it is whole
// The place behind its name.
fn behind_name(t: &[u8], p: usize) -> usize
    requires { WholeName t.now p }
    ensures { result ≡ row.behind_name t.now p }
{
    p + (1 + name_width(t[p]))
}

pub fn member_mode(t: &[u8], p: usize) -> u8
    requires { WholeMember t.now p }
    ensures { result ≡ row.mode_at t.now p }
{
    t[behind_name(t, p) + 2]
}

pub fn member_number(t: &[u8], p: usize) -> u8
    requires { WholeMember t.now p }
    ensures { result ≡ row.number_at t.now p }
{
    t[behind_name(t, p) + 3]
}

pub fn member_presence(t: &[u8], p: usize) -> u8
    requires { WholeMember t.now p }
    ensures { result ≡ row.presence_at t.now p }
{
    t[behind_name(t, p) + 4]
}

pub fn member_default_length(t: &[u8], p: usize) -> u8
    requires { WholeMember t.now p }
    ensures { result ≡ row.default_length_at t.now p }
{
    t[behind_name(t, p) + 5]
}

pub fn member_type_row(t: &[u8], p: usize) -> usize
    requires { WholeMember t.now p }
    ensures { result ≡ row.named_at t.now p }
{
    let q = behind_name(t, p);
    octets::wide_two(t[q], t[q + 1])
}

pub fn member_default(t: &[u8], p: usize) -> &[u8]
    requires { WholeMember t.now p }
    ensures { result.now ≡ row.default_at t.now p }
{
    let start = behind_name(t, p) + 6;
    let end = start + usize::from(member_default_length(t, p));
    &t[start..end]
}

// ---- the rows
pub fn is_type_kind(kind: u8) -> bool
    ensures { result ≡ row.is_type_kind kind }
{
    if octets::within(Kind::BOOLEAN, Kind::SET_OF, kind) {
        return true;
    }
    if kind == Kind::NAMED_BIT_STRING {
        return true;
    }
    octets::within(Kind::RDN_SEQUENCE, Kind::RDN, kind)
}

pub fn is_member(kind: u8) -> bool
    ensures { result ≡ row.is_member kind }
{
    kind == Kind::MEMBER || kind == Kind::LONG_MEMBER
}

pub fn is_group(kind: u8) -> bool
    ensures { result ≡ row.is_group kind }
{
    kind == Kind::SEQUENCE || kind == Kind::CHOICE
}

pub fn is_list(kind: u8) -> bool
    ensures { result ≡ row.is_list kind }
{
    kind == Kind::SEQUENCE_OF || kind == Kind::SET_OF
}

// The octets of a type row of a kind; none where no type has the kind.
fn type_row_size(kind: u8) -> Option<usize>
    ensures { result ≡ some_size (type_row_size kind) }
{
    if octets::within(Kind::BOOLEAN, Kind::GENERALIZED_TIME, kind) {
        return Some(1);
    }
    if is_group(kind) {
        return Some(2);
    }
    if is_list(kind) {
        return Some(3);
    }
    if kind == Kind::NAMED_BIT_STRING {
        return Some(2);
    }
    if octets::within(Kind::RDN_SEQUENCE, Kind::RDN, kind) {
        return Some(1);
    }
    None
}

// The kind of the rows that follow a row of a kind; 0 where none follow.
pub fn follower_kind(kind: u8) -> u8
    ensures { result ≡ row.follower_kind kind }
{
    if kind < Kind::SEQUENCE {
        return 0;
    }
    if is_group(kind) {
        return Kind::MEMBER;
    }
    if kind == Kind::NAMED_BIT_STRING {
        return Kind::NAMED_BIT;
    }
    0
}

// Whether a row of a kind may stand where one of kind `follower` has to follow another: a member with a long name stands as a member.
pub fn stands_as(kind: u8, follower: u8) -> bool
    ensures { result ≡ eqb (row.stands_as kind) follower }
{
    if kind == follower {
        return follower != Kind::LONG_MEMBER;
    }
    kind == Kind::LONG_MEMBER && follower == Kind::MEMBER
}

// How many rows follow a row, given their kind.
pub fn followers_at(t: &[u8], p: usize, follower: u8) -> usize
    requires { follower ≡ row.follower_kind (row.kind_at t.now p) }
    ensures { result ≡ row.followers_at t.now p }
{
    if follower == 0 {
        return 0;
    }
    usize::from(field(t, p, 1))
}

// How many names of bits stand after a row.
pub fn bit_names_at(t: &[u8], p: usize) -> usize
    ensures { result ≡ row.bit_names_at t.now p }
{
    if kind_at(t, p) == Kind::NAMED_BIT_STRING {
        return usize::from(field(t, p, 1));
    }
    0
}

// How many members stand after a row.
pub fn members_at(t: &[u8], p: usize) -> usize
    ensures { result ≡ row.members_at t.now p }
{
    if is_group(kind_at(t, p)) {
        return usize::from(field(t, p, 1));
    }
    0
}

// ---- bodies
fn count_formed(t: &[u8], p: usize) -> bool
    ensures { result ≡ body.count_formed table_limits.members t.now p }
{
    let kind = kind_at(t, p);
    if kind == Kind::SEQUENCE {
        return field(t, p, 1) <= Table::MAX_MEMBERS;
    }
    if kind == Kind::CHOICE {
        return octets::within(1, Table::MAX_MEMBERS, field(t, p, 1));
    }
    if kind == Kind::NAMED_BIT_STRING {
        return octets::within(1, Table::MAX_MEMBERS, field(t, p, 1));
    }
    true
}

fn follows(a: u8, b: u8) -> bool
    ensures { result ≡ body.follows a b }
{
    if a == 0 {
        return b == 0;
    }
    if b == 0 {
        return a != b'-';
    }
    octets::may_follow(a, b)
}

fn tag_formed(mode: u8, number: u8) -> bool
    ensures { result ≡ body.tagging_formed mode number }
{
    if 2 < mode {
        return false;
    }
    if 30 < number {
        return false;
    }
    if mode == 0 {
        return number == 0;
    }
    true
}

// ---- eight octets as one number, the least first
fn eight(t: &[u8], p: usize) -> u64
    requires { p + 8 ≤ length t.now }
    ensures { result ≡ least_first (part t.now p 8) }
{
    u64::from_le_bytes([
        t[p],
        t[p + 1],
        t[p + 2],
        t[p + 3],
        t[p + 4],
        t[p + 5],
        t[p + 6],
        t[p + 7],
    ])
}

// Whether the eight octets from one place on are those from another on.
fn same_eight(t: &[u8], p: usize, q: usize) -> bool
    requires one { p + 8 ≤ length t.now }
    requires other { q + 8 ≤ length t.now }
    ensures { result ≡ same (part t.now p 8) (part t.now q 8) }
{
    eight(t, p) == eight(t, q)
}

// Whether a field of eight octets at p is filled with zeros from its octet n on.
fn filled_8(t: &[u8], p: usize, n: usize) -> bool
    requires whole { p + 8 ≤ length t.now }
    requires within { n ≤ 8 }
    ensures { result ≡ every body.is_zero (part t.now (p + n) (8 - n)) }
{
    n == 8 || eight(t, p) >> (n * 8) == 0
}

// The same of a field of 16 octets, and of one of 24. Written out: with a loop over the eights, the check of a table takes more steps.
fn filled_16(t: &[u8], p: usize, n: usize) -> bool
    requires whole { p + 16 ≤ length t.now }
    requires within { n ≤ 16 }
    ensures { result ≡ every body.is_zero (part t.now (p + n) (16 - n)) }
{
    if 8 <= n {
        return filled_8(t, p + 8, n - 8);
    }
    if !filled_8(t, p, n) {
        return false;
    }
    filled_8(t, p + 8, 0)
}

fn filled_24(t: &[u8], p: usize, n: usize) -> bool
    requires whole { p + 24 ≤ length t.now }
    requires within { n ≤ 24 }
    ensures { result ≡ every body.is_zero (part t.now (p + n) (24 - n)) }
{
    if 8 <= n {
        return filled_16(t, p + 8, n - 8);
    }
    if !filled_8(t, p, n) {
        return false;
    }
    filled_16(t, p + 8, 0)
}

// ---- the body of a row that follows another
// Whether each of the 24 octets behind place p may follow the one before it in a name's field; a lowercase letter may follow any. Where the fill starts, all
// that is left of them has to be fill.
fn name_spelt(t: &[u8], p: usize) -> bool
    requires whole { p + (1 + row.short_width) ≤ length t.now }
    requires begins { 0 < octet t.now (p + 1) }
    ensures { result ≡ all (body.followed t.now p) (row.short_width - 1) }
{
    for j in 0..Table::MAX_NAME - 1 {
        let b = t[p + (j + 2)];
        if octets::is_lower(b) {
            continue;
        }
        if !follows(t[p + (j + 1)], b) {
            return false;
        }
        if b == 0 {
            return filled_24(t, p + 1, j + 1);
        }
    }
    true
}

// The first 24 octets of the name of the row at p.
fn name_begun(t: &[u8], p: usize) -> bool
    requires { p + row.bit_size ≤ length t.now }
    ensures { result ≡ name_begun t.now p }
{
    octets::is_lower(t[p + 1]) && name_spelt(t, p)
}

// Whether the long name of the row at p is formed, and has more octets than a field of 24: what is left of its field is spelt as a field of 24.
fn long_name_formed(t: &[u8], p: usize) -> bool
    requires long { row.kind_at t.now p ≡ kinds.long_member }
    requires whole { p + (1 + row.long_width) ≤ length t.now }
    requires begun { name_begun t.now p ≡ true }
    ensures { result ≡ both (body.name_formed t.now p) (body.length_formed t.now p) }
{
    if t[p + 25] == 0 {
        return false;
    }
    if t[p + 48] == b'-' {
        return false;
    }
    if !follows(t[p + 24], t[p + 25]) {
        return false;
    }
    name_spelt(t, p + 24)
}

fn default_filled(t: &[u8], q: usize, p: usize) -> bool
    requires behind { q ≡ row.behind_name t.now p }
    requires whole { row.behind_name t.now p + 14 ≤ length t.now }
    ensures { result ≡ body.default_filled t.now p }
{
    let n = usize::from(t[q + 5]);
    n <= 8 && filled_8(t, q + 6, n)
}

// The body of the member row at p from place q on, behind its name.
fn fields_formed(t: &[u8], q: usize, p: usize) -> bool
    requires behind { q ≡ row.behind_name t.now p }
    requires whole { row.behind_name t.now p + 14 ≤ length t.now }
    ensures { result ≡ fields_formed t.now p }
{
    if !tag_formed(t[q + 2], t[q + 3]) {
        return false;
    }
    if 2 < t[q + 4] {
        return false;
    }
    default_filled(t, q, p)
}

// ---- the size of a row that follows another, is whole and whose body is as the type table has it; none, or 0, where it isn't
// By its kind, where the first 24 octets of its name are as they have to be.
fn member_size(t: &[u8], p: usize) -> Option<usize>
    requires member { row.kind_at t.now p ≡ kinds.member }
    requires named { p + row.bit_size ≤ length t.now }
    requires begun { name_begun t.now p ≡ true }
    ensures { result ≡ some_size (formed_size table_limits.members t.now p) }
{
    if t.len() - p < Table::MEMBER_BYTES {
        return None;
    }
    if t[p + 24] == b'-' {
        return None;
    }
    if !fields_formed(t, p + 25, p) {
        return None;
    }
    Some(Table::MEMBER_BYTES)
}

fn long_member_size(t: &[u8], p: usize) -> Option<usize>
    requires long { row.kind_at t.now p ≡ kinds.long_member }
    requires named { p + row.bit_size ≤ length t.now }
    requires begun { name_begun t.now p ≡ true }
    ensures { result ≡ some_size (formed_size table_limits.members t.now p) }
{
    if t.len() - p < Table::LONG_MEMBER_BYTES {
        return None;
    }
    if !long_name_formed(t, p) {
        return None;
    }
    if !fields_formed(t, p + 49, p) {
        return None;
    }
    Some(Table::LONG_MEMBER_BYTES)
}

fn bit_size(t: &[u8], p: usize) -> Option<usize>
    requires bit { row.kind_at t.now p ≡ kinds.named_bit }
    requires named { p + row.bit_size ≤ length t.now }
    requires begun { name_begun t.now p ≡ true }
    ensures { result ≡ some_size (formed_size table_limits.members t.now p) }
{
    if t[p + 24] == b'-' {
        return None;
    }
    if Table::MAX_BIT < t[p + 25] {
        return None;
    }
    Some(Table::BIT_BYTES)
}

// Of any row of a kind that follows another.
pub fn follower_size(t: &[u8], p: usize) -> usize
    requires inside { p < length t.now }
    requires follows { row.is_follower (row.kind_at t.now p) ≡ true }
    ensures { result ≡ formed_size table_limits.members t.now p }
{
    if t.len() - p < Table::BIT_BYTES {
        return 0;
    }
    if !name_begun(t, p) {
        return 0;
    }
    let size = match t[p] {
        Kind::MEMBER => member_size(t, p),
        Kind::NAMED_BIT => bit_size(t, p),
        _ => long_member_size(t, p),
    };
    size.unwrap_or(0)
}

// ---- names of two rows that follow another and are whole
// Whether the 24 octets from one place on are those from another on.
fn same_24(t: &[u8], p: usize, q: usize) -> bool
    requires one { p + 24 ≤ length t.now }
    requires other { q + 24 ≤ length t.now }
    ensures { result ≡ same (part t.now p 24) (part t.now q 24) }
{
    for k in 0..3 {
        if !same_eight(t, p + 8 * k, q + 8 * k) {
            return false;
        }
    }
    true
}

// Whether the fields of two names are the same: of two widths they are not.
pub fn same_name(t: &[u8], p: usize, q: usize) -> bool
    requires one { WholeName t.now p }
    requires other { WholeName t.now q }
    ensures { result ≡ same (row.name_at t.now p) (row.name_at t.now q) }
{
    if !same_24(t, p + 1, q + 1) {
        return false;
    }
    if t[p] != Kind::LONG_MEMBER {
        return t[q] != Kind::LONG_MEMBER;
    }
    if t[q] != Kind::LONG_MEMBER {
        return false;
    }
    same_24(t, p + 25, q + 25)
}

// ---- the size of a type row that is whole and whose body is as the type table has it; 0 where it isn't
pub fn type_size(t: &[u8], p: usize) -> usize
    requires { p < length t.now }
    ensures size { result ≡ type_size table_limits.members t.now p }
    ensures inside { p + result ≤ length t.now }
{
    let Some(size) = type_row_size(t[p]) else {
        return 0;
    };
    if t.len() - p < size {
        return 0;
    }
    if !count_formed(t, p) {
        return 0;
    }
    size
}
