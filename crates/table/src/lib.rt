// Row words: two numbers for each row of a table, written by admission and read by what they say of the table.
#![tactic(auto)]

ghost use Rattle.std.specs.Prelude.{◌≡◌, Some, None, true, ◌≤◌, ◌<◌, ◌+◌, ◌-◌, ◌*◌, ◌^◌, length, get_or};
ghost use Rattle.std.specs.Int.Bits.{bit_or};
ghost use Rattle.octets.specs.Pick.{pick, all};
ghost use Rattle.octets.specs.Octets.{base_from};
ghost use Rattle.der.specs.Kind as kind;
ghost use Rattle.der.specs.Tag.{universal};
ghost use Rattle.rows.specs.Row as row;
ghost use Rattle.rows.specs.Inner.Sizes.{WholeMember};
ghost use Rattle.rows.specs.Paper.{table_limits};
ghost use Rattle.clauses.specs.Clauses.{later_type};
ghost use Rattle.clauses.specs.Inner.Work.{tallest};
ghost use Rattle.types.specs.Types.{untagged, tagging_of};
ghost use Rattle.types.specs.Check.{table_report};
ghost use Rattle.types.specs.Inner.Work.{apart_from, union_from, never, second_pass, row_count};
ghost use Rattle.table.specs.Check.{report, refusal_number};
ghost use Rattle.table.specs.Inner.Rows.{table_rows, MemberRow, TypeRow, place_at, tagging_at, member_kind_at};
ghost use Rattle.table.specs.Inner.Fields as field;
ghost use Rattle.table.specs.Inner.Words as word;
ghost use Rattle.table.specs.Inner.Words.{Worded};
ghost use Rattle.table.specs.Inner.Pass as pass;
ghost use Rattle.table.specs.Inner.Pass.{Next, Says};

use der::Kind;
use rows::Table;

// Why an entry gives no answer, in the order of checking but for the last two.
#[derive(Clone, Copy, Debug, PartialEq, Eq)]
pub enum Refusal {
    // A size or the budget is not within its limits.
    Size,
    // The table is not admitted.
    Table,
    // A filter is not of its form, or over depth or items; a reference is malformed or not allowed.
    Form,
    // The value is not one of the table's type; a part passes the value's end.
    Value,
    // The tests needed exceed the budget.
    Tests,
    // The room is under three numbers for each named value.
    Room,
}

impl Refusal {
    // Its number.
    pub fn number(self) -> u8
        ensures { result ≡ refusal_number self }
    {
        match self {
            Refusal::Size => 1,
            Refusal::Table => 2,
            Refusal::Form => 3,
            Refusal::Value => 4,
            Refusal::Tests => 5,
            Refusal::Room => 6,
        }
    }
}

// ---- the fields of a word
// The first word of a type row.
fn pack_type(kind: u8, first: usize, count: usize, target: usize, chain: usize, place: usize) -> u64
    requires first { first < 256 }
    requires count { count < 256 }
    requires target { target < 256 }
    requires chain { chain < 256 }
    requires place { place < 65536 }
    ensures { field.Packed result kind first count target chain 0 0 0 place }
{
    let low = octets::wide64(kind)
        + (first as u64) * 256
        + (count as u64) * 65536
        + (target as u64) * 16777216;
    let high = (chain as u64) + (place as u64) * 65536;
    low + high * 4294967296
}

// The first word of a member row of a kind, whose type is of kind typ.
fn pack_member(
    kind: u8,
    first: usize,
    target: usize,
    typ: u8,
    how: u8,
    presence: u8,
    size: usize,
    place: usize,
) -> u64
    requires first { first < 256 }
    requires target { target < 256 }
    requires how { how < 4 }
    requires presence { presence < 4 }
    requires size { size < 16 }
    requires place { place < 65536 }
    ensures { field.Packed result kind first 0 target typ how presence size place }
{
    let low = octets::wide64(kind) + (first as u64) * 256 + (target as u64) * 16777216;
    let tag = octets::wide64(how) + octets::wide64(presence) * 4 + (size as u64) * 16;
    let high = octets::wide64(typ) + tag * 256 + (place as u64) * 65536;
    low + high * 4294967296
}

fn kind_of(x: u64) -> u8
    ensures { result ≡ field.kind_of x }
{
    (x % 256) as u8
}

fn first_of(x: u64) -> usize
    ensures { result ≡ field.first_of x }
{
    ((x >> 8) % 256) as usize
}

fn count_of(x: u64) -> usize
    ensures { result ≡ field.count_of x }
{
    ((x >> 16) % 256) as usize
}

fn target_of(x: u64) -> usize
    ensures { result ≡ field.target_of x }
{
    ((x >> 24) % 256) as usize
}

fn type_of(x: u64) -> u8
    ensures { result ≡ field.type_of x }
{
    ((x >> 32) % 256) as u8
}

// The longest chain from a type row on, by its word.
fn chain_of(x: u64) -> usize
    ensures { result ≡ field.chain_of x }
{
    ((x >> 32) % 256) as usize
}

fn how_of(x: u64) -> u8
    ensures { result ≡ field.how_of x }
{
    ((x >> 40) % 4) as u8
}

fn presence_of(x: u64) -> u8
    ensures { result ≡ field.presence_of x }
{
    ((x >> 42) % 4) as u8
}

fn length_of(x: u64) -> usize
    ensures { result ≡ field.length_of x }
{
    ((x >> 44) % 16) as usize
}

fn place_of(x: u64) -> usize
    ensures { result ≡ field.place_of x }
{
    (x >> 48) as usize
}

// ---- the first word of a row
fn first_octet(mode: u8, number: u8, kind: u8) -> usize
    ensures { result ≡ word.first_octet (tagging_of mode number) kind }
{
    if mode == 1 {
        return der::wrapper_octet(number);
    }
    if mode != 0 {
        return der::implicit_octet(number, kind);
    }
    if kind == Kind::CHOICE {
        return 0;
    }
    der::own_octet(kind)
}

// Whether a kind is basic: no row of it has members or an element.
pub fn is_basic(kind: u8) -> bool
    ensures { result ≡ word.is_basic kind }
{
    if kind <= Kind::GENERALIZED_TIME {
        return true;
    }
    if kind == Kind::NAMED_BIT_STRING {
        return true;
    }
    octets::within(Kind::RDN_SEQUENCE, Kind::RDN, kind)
}

fn how(kind: u8, mode: u8) -> u8
    ensures { result ≡ word.how kind mode }
{
    if mode == 1 {
        return 1;
    }
    if is_basic(kind) {
        return 0;
    }
    2
}

// The word of the type row at p, which names the row `target`, and from which the longest chain has so many rows.
fn type_word(t: &[u8], p: usize, target: usize, chain: usize) -> u64
    requires count { row.members_at t.now p < 256 }
    requires named { target ≡ row.named_at t.now p }
    requires target { target < 256 }
    requires chain { chain < 256 }
    requires place { p < 65536 }
    ensures { field.Packed result (row.kind_at t.now p) (word.first_octet untagged (row.kind_at t.now p))
        (row.members_at t.now p) (row.named_at t.now p) chain 0 0 0 p }
{
    let kind = rows::kind_at(t, p);
    pack_type(
        kind,
        first_octet(0, 0, kind),
        rows::members_at(t, p),
        target,
        chain,
        p,
    )
}

// The word of the member row at p, whose type is of a kind.
fn member_word(t: &[u8], p: usize, kind: u8) -> u64
    requires whole { WholeMember t.now p }
    requires number { row.number_at t.now p ≤ 30 }
    requires target { row.named_at t.now p < table_limits.rows }
    requires size { length (row.default_at t.now p) ≤ 8 }
    requires presence { row.presence_at t.now p ≤ 2 }
    requires place { p < 65536 }
    ensures { word.MemberWord t.now p kind result }
{
    let mode = rows::member_mode(t, p);
    let first = first_octet(mode, rows::member_number(t, p), kind);
    let target = rows::member_type_row(t, p);
    let size = rows::member_default(t, p).len();
    pack_member(
        rows::kind_at(t, p),
        first,
        target,
        kind,
        how(kind, mode),
        rows::member_presence(t, p),
        size,
        p,
    )
}

// ---- the second pass: what it reads of the words of later rows
fn first_at(w: &[u64; 256], j: usize) -> u64
    ensures { result ≡ pass.first_at w.now j }
{
    if j < Table::MAX_ROWS { w[2 * j] } else { 0 }
}

fn second_at(w: &[u64; 256], j: usize) -> u64
    ensures { result ≡ pass.second_at w.now j }
{
    if j < Table::MAX_ROWS { w[2 * j + 1] } else { 0 }
}

// The set of tags of member row j.
fn set_at(w: &[u64; 256], j: usize) -> u64
    ensures { result ≡ pass.set_at w.now j }
{
    let x = first_at(w, j);
    let first = first_of(x);
    if first < 128 {
        return second_at(w, target_of(x));
    }
    types::context_bit((first % 32) as u8)
}

// The longest chain from the type of member row j on.
fn type_chain(w: &[u64; 256], j: usize) -> usize
    ensures { result ≡ pass.type_chain w.now j }
{
    chain_of(first_at(w, target_of(first_at(w, j))))
}

fn is_mandatory(w: &[u64; 256], j: usize) -> bool
    ensures { result ≡ pass.mandatory_in w.now j }
{
    presence_of(first_at(w, j)) == 0
}

// ---- the n members from row first on
// The longest chain from their types on.
fn longest(w: &[u64; 256], first: usize, n: usize) -> usize
    requires { first + n ≤ table_limits.rows }
    ensures { result ≡ tallest (pass.chain_after w.now first) n }
{
    let mut most: usize = 0;
    for j in 0..n {
        most = most.max(type_chain(w, first + j));
    }
    most
}

fn all_mandatory(w: &[u64; 256], first: usize, n: usize) -> bool
    requires { first + n ≤ table_limits.rows }
    ensures { result ≡ all (pass.mandatory_after w.now first) n }
{
    (0..n).all(|j| is_mandatory(w, first + j))
}

// The tags gathered behind member row j, whose own are `more`: none behind a mandatory member.
fn gathered(w: &[u64; 256], j: usize, set: u64, more: u64) -> u64
    ensures { result ≡ pick (pass.mandatory_in w.now j) 0 (bit_or set more) }
{
    if is_mandatory(w, j) {
        return 0;
    }
    set | more
}

// Whether tags differ in each run of members and the mandatory one after it.
fn runs_differ(w: &[u64; 256], first: usize, n: usize) -> bool
    requires { first + n ≤ table_limits.rows }
    ensures { result ≡ apart_from (pass.set_at w.now) (pass.mandatory_in w.now) n first 0 }
{
    let last = first + n;
    let mut set = 0;
    for j in first..last {
        let more = set_at(w, j);
        if set & more != 0 {
            return false;
        }
        set = gathered(w, j, set, more);
    }
    true
}

// The tags of alternatives, where they differ.
fn choice_tags(w: &[u64; 256], first: usize, n: usize) -> Option<u64>
    requires { first + n ≤ table_limits.rows }
    ensures { result
        ≡ pick (apart_from (pass.set_at w.now) never n first 0) (Some (union_from (pass.set_at w.now) n first 0)) None }
{
    let last = first + n;
    let mut set = 0;
    for j in first..last {
        let more = set_at(w, j);
        if set & more != 0 {
            return None;
        }
        set |= more;
    }
    Some(set)
}

// ---- one row of n, row i at p: the rows after it are done
// Whether row j is a later row of a type.
fn later_type(t: &[u8], w: &[u64; 256], n: usize, i: usize, p: usize, j: usize) -> bool
    requires { Next t.now w.now n i p }
    ensures { result ≡ later_type t.now (table_rows t.now) i j }
{
    if j <= i {
        return false;
    }
    if n <= j {
        return false;
    }
    rows::is_type_kind(kind_of(first_at(w, j)))
}

fn implicit_choice(t: &[u8], p: usize, kind: u8) -> bool
    requires { WholeMember t.now p }
    ensures { result ≡ pass.implicit_choice t.now p kind }
{
    rows::member_mode(t, p) == 2 && kind == Kind::CHOICE
}

// Whether the member row at p, whose type is of a kind, may be tagged and have a default as it has.
fn member_allowed(t: &[u8], p: usize, kind: u8) -> bool
    requires { WholeMember t.now p }
    ensures { result ≡ pass.member_allowed t.now p kind }
{
    if implicit_choice(t, p, kind) {
        return false;
    }
    if rows::member_presence(t, p) == 2 {
        return clauses::default_allowed(kind, rows::member_default(t, p));
    }
    rows::member_default_length(t, p) == 0
}

// The second word of the member row at p, whose type's row has the second word y.
fn member_second(t: &[u8], p: usize, y: u64) -> u64
    requires whole { WholeMember t.now p }
    requires size { length (row.default_at t.now p) ≤ 8 }
    ensures { result ≡ pass.member_second t.now p y }
{
    if rows::member_presence(t, p) == 2 {
        return der::plain(rows::member_default(t, p));
    }
    y
}

fn member_row(t: &[u8], w: &[u64; 256], n: usize, i: usize, p: usize) -> Option<(u64, u64)>
    requires next { Next t.now w.now n i p }
    requires member { row.is_member (row.kind_at t.now p) ≡ true }
    ensures { Says t.now w.now i result }
{
    let j = rows::member_type_row(t, p);
    if !later_type(t, w, n, i, p, j) {
        return None;
    }
    let kind = kind_of(first_at(w, j));
    if !member_allowed(t, p, kind) {
        return None;
    }
    Some((
        member_word(t, p, kind),
        member_second(t, p, second_at(w, j)),
    ))
}

// The set of the universal tag of the type row at p.
fn own_set(t: &[u8], p: usize) -> u64
    ensures { result ≡ 2 ^ universal (row.kind_at t.now p) }
{
    types::bit(der::universal(rows::kind_at(t, p)))
}

fn basic_row(t: &[u8], w: &[u64; 256], n: usize, i: usize, p: usize) -> Option<(u64, u64)>
    requires next { Next t.now w.now n i p }
    requires basic { pass.Basic (row.kind_at t.now p) }
    ensures { Says t.now w.now i result }
{
    Some((type_word(t, p, 0, 1), own_set(t, p)))
}

fn list_row(t: &[u8], w: &[u64; 256], n: usize, i: usize, p: usize) -> Option<(u64, u64)>
    requires next { Next t.now w.now n i p }
    requires list { row.is_list (row.kind_at t.now p) ≡ true }
    ensures { Says t.now w.now i result }
{
    let j = rows::element_at(t, p);
    if !later_type(t, w, n, i, p, j) {
        return None;
    }
    let below = chain_of(first_at(w, j));
    if Table::MAX_CHAIN <= below {
        return None;
    }
    Some((type_word(t, p, j, below + 1), own_set(t, p)))
}

fn sequence_row(t: &[u8], w: &[u64; 256], n: usize, i: usize, p: usize) -> Option<(u64, u64)>
    requires next { Next t.now w.now n i p }
    requires sequence { row.kind_at t.now p ≡ kind.sequence }
    ensures { Says t.now w.now i result }
{
    let count = rows::members_at(t, p);
    let below = longest(w, i + 1, count);
    if Table::MAX_CHAIN <= below {
        return None;
    }
    if !runs_differ(w, i + 1, count) {
        return None;
    }
    Some((type_word(t, p, 0, below + 1), own_set(t, p)))
}

fn choice_row(t: &[u8], w: &[u64; 256], n: usize, i: usize, p: usize) -> Option<(u64, u64)>
    requires next { Next t.now w.now n i p }
    requires choice { row.kind_at t.now p ≡ kind.choice }
    ensures { Says t.now w.now i result }
{
    let count = rows::members_at(t, p);
    let below = longest(w, i + 1, count);
    if Table::MAX_CHAIN <= below {
        return None;
    }
    if !all_mandatory(w, i + 1, count) {
        return None;
    }
    let Some(set) = choice_tags(w, i + 1, count) else {
        return None;
    };
    Some((type_word(t, p, 0, below + 1), set))
}

fn one_row(t: &[u8], w: &[u64; 256], n: usize, i: usize, p: usize) -> Option<(u64, u64)>
    requires next { Next t.now w.now n i p }
    ensures { Says t.now w.now i result }
{
    let kind = rows::kind_at(t, p);
    if rows::is_member(kind) {
        return member_row(t, w, n, i, p);
    }
    if kind == Kind::SEQUENCE {
        return sequence_row(t, w, n, i, p);
    }
    if kind == Kind::CHOICE {
        return choice_row(t, w, n, i, p);
    }
    if rows::is_list(kind) {
        return list_row(t, w, n, i, p);
    }
    basic_row(t, w, n, i, p)
}

// ---- all rows
// Whether the clauses hold that the second pass decides. Where they do, the words of all n rows are written.
fn write_rows(t: &[u8], w: &mut [u64; 256], n: usize) -> bool
    requires going { pass.Going t.now w.old n }
    requires count { n ≡ length (table_rows t.now) }
    ensures told { result ≡ second_pass table_limits.chain t.now (table_rows t.now) }
    ensures left { result ≡ true → Worded t.now w.new }
{
    for i in (0..n).rev() {
        let p = first_at(w, i) as usize;
        let Some((x, y)) = one_row(t, w, n, i, p) else {
            return false;
        };
        w[2 * i] = x;
        w[2 * i + 1] = y;
    }
    true
}

// How many rows an admitted table has, with their words; 0 where it is not admitted.
pub fn admit_table(t: &[u8], w: &mut [u64; 256]) -> usize
    ensures count { result ≡ row_count table_limits t.now }
    ensures leaves { pass.Leaves t.now w.new result }
{
    let n = clauses::scan(t, w);
    if n == 0 {
        return 0;
    }
    if !write_rows(t, w, n) {
        return 0;
    }
    n
}

// The table check: any octets.
pub fn check_table(table: &[u8]) -> Result<Table, Refusal>
    ensures { report result ≡ table_report table_limits table.now }
{
    if !Table::fits(table) {
        return Err(Refusal::Size);
    }
    let mut w = [0u64; 256];
    let n = admit_table(table, &mut w);
    if n == 0 {
        return Err(Refusal::Table);
    }
    Ok(Table::of(n))
}

// ---- what the words of an admitted table say
fn first_word(w: &[u64; 256], i: usize) -> u64
    requires { i < table_limits.rows }
    ensures { result ≡ get_or w.now (2 * i) 0 }
{
    w[2 * i]
}

// The second word of row i.
pub fn second_word(w: &[u64; 256], i: usize) -> u64
    requires { i < table_limits.rows }
    ensures { result ≡ get_or w.now (2 * i + 1) 0 }
{
    w[2 * i + 1]
}

// The place of row i.
pub fn place(t: &[u8], w: &[u64; 256], i: usize) -> usize
    requires worded { Worded t.now w.now }
    requires here { i < length (table_rows t.now) }
    ensures { result ≡ place_at t.now i }
{
    place_of(first_word(w, i))
}

// The kind of row i.
pub fn kind(t: &[u8], w: &[u64; 256], i: usize) -> u8
    requires worded { Worded t.now w.now }
    requires here { i < length (table_rows t.now) }
    ensures { result ≡ row.kind_at t.now (place_at t.now i) }
{
    kind_of(first_word(w, i))
}

// How many members stand after row i.
pub fn members(t: &[u8], w: &[u64; 256], i: usize) -> usize
    requires worded { Worded t.now w.now }
    requires here { i < length (table_rows t.now) }
    ensures { result ≡ row.members_at t.now (place_at t.now i) }
{
    count_of(first_word(w, i))
}

// The row that row i names: of a list its element's, of a member its type's; 0 where it names none.
pub fn named(t: &[u8], w: &[u64; 256], i: usize) -> usize
    requires worded { Worded t.now w.now }
    requires here { i < length (table_rows t.now) }
    ensures { result ≡ row.named_at t.now (place_at t.now i) }
{
    target_of(first_word(w, i))
}

// The tag octet of values of type row i; 0 of a CHOICE.
pub fn own_first(t: &[u8], w: &[u64; 256], i: usize) -> usize
    requires worded { Worded t.now w.now }
    requires here { i < length (table_rows t.now) }
    requires typed { TypeRow t.now i }
    ensures { result ≡ word.first_octet untagged (row.kind_at t.now (place_at t.now i)) }
{
    first_of(first_word(w, i))
}

// The tag octet of values of member row i; 0 of an untagged CHOICE.
pub fn first(t: &[u8], w: &[u64; 256], i: usize) -> usize
    requires worded { Worded t.now w.now }
    requires here { i < length (table_rows t.now) }
    requires member { MemberRow t.now i }
    ensures { result ≡ word.first_octet (tagging_at t.now i) (member_kind_at t.now i) }
{
    first_of(first_word(w, i))
}

// The kind of the type of member row i.
pub fn kind_of_type(t: &[u8], w: &[u64; 256], i: usize) -> u8
    requires worded { Worded t.now w.now }
    requires here { i < length (table_rows t.now) }
    requires member { MemberRow t.now i }
    ensures { result ≡ member_kind_at t.now i }
{
    type_of(first_word(w, i))
}

// How member row i is tagged.
pub fn tagged(t: &[u8], w: &[u64; 256], i: usize) -> u8
    requires worded { Worded t.now w.now }
    requires here { i < length (table_rows t.now) }
    requires member { MemberRow t.now i }
    ensures { result ≡ word.how (member_kind_at t.now i) (row.mode_at t.now (place_at t.now i)) }
{
    how_of(first_word(w, i))
}

// The presence of member row i.
pub fn presence(t: &[u8], w: &[u64; 256], i: usize) -> u8
    requires worded { Worded t.now w.now }
    requires here { i < length (table_rows t.now) }
    requires member { MemberRow t.now i }
    ensures { result ≡ row.presence_at t.now (place_at t.now i) }
{
    presence_of(first_word(w, i))
}

// The length of the default of member row i.
pub fn default_length(t: &[u8], w: &[u64; 256], i: usize) -> usize
    requires worded { Worded t.now w.now }
    requires here { i < length (table_rows t.now) }
    requires member { MemberRow t.now i }
    ensures { result ≡ length (row.default_at t.now (place_at t.now i)) }
{
    length_of(first_word(w, i))
}

// The contents of the default of member row i, as a number.
pub fn default_number(t: &[u8], w: &[u64; 256], i: usize) -> u64
    requires worded { Worded t.now w.now }
    requires here { i < length (table_rows t.now) }
    requires member { MemberRow t.now i }
    requires stored { row.presence_at t.now (place_at t.now i) ≡ 2 }
    ensures { result ≡ base_from 0 (row.default_at t.now (place_at t.now i)) }
{
    second_word(w, i)
}
