// The check of a stored value: whether the octets are one value of the type of row 0, and the octets of a part of it.
#![tactic(auto)]

ghost use Rattle.std.specs.Prelude.{◌≡◌, true, false, ◌≤◌, ◌<◌, ◌+◌, ◌-◌, length};
ghost use Rattle.octets.specs.Pick.{is_some};
ghost use Rattle.octets.specs.Octets.{octet, part, same};
ghost use Rattle.der.specs.Tag.{number, tag_of};
ghost use Rattle.der.specs.Legal.{legal};
ghost use Rattle.rows.specs.Row.{kind_at, named_at, members_at, is_list, mode_at, presence_at, default_at};
ghost use Rattle.types.specs.Begins.{member_begins};
ghost use Rattle.table.specs.Inner.Rows.{table_rows, MemberRow, TypeRow, place_at, type_at, members_after};
ghost use Rattle.table.specs.Inner.Rows.{member_at, tagging_at, member_type_at, member_kind_at};
ghost use Rattle.table.specs.Inner.Words.{first_octet, is_basic, how, Worded};
ghost use Rattle.value.specs.Decode.{starts_here, alternative_from, decode, stored_value};
ghost use Rattle.value.specs.Paper.{value_limits};
ghost use Rattle.value.specs.Check.{report, value_fits, storage, value_report};
ghost use Rattle.value.specs.Part as parts;
ghost use Rattle.value.specs.Inner.Work as work;
ghost use Rattle.rows.specs.Paper.{table_limits};

use der::Kind;
use rows::Table;
use table::Refusal;

// A stored value: the limits of every one.
#[derive(Clone, Copy)]
pub struct Value;

impl Value {
    pub const MIN_BYTES: usize = 2;

    pub const MAX_BYTES: usize = 4096;

    // Whether a value may have so many octets.
    pub fn fits(value: &[u8]) -> bool
        ensures { result ≡ value_fits value_limits value.now }
    {
        (Self::MIN_BYTES..=Self::MAX_BYTES).contains(&value.len())
    }
}

// ---- octets that can begin a value
// Whether tag octets have one class and number.
fn same_tag(a: usize, b: usize) -> bool
    ensures { result ≡ work.same_tag a b }
{
    a & 31 == b & 31 && a >> 6 == b >> 6
}

// Whether a value can begin with an octet: by its first tag octet; where that is 0, by its set of tags.
fn opens(first: usize, set: u64, o: u8) -> bool
    ensures { result ≡ work.opens_by first set o }
{
    if first == 0 {
        return types::has_tag(set, o);
    }
    same_tag(first, octets::wide(o))
}

// Whether the member of a row can begin with an octet.
fn begins_with(t: &[u8], w: &[u64; 256], row: usize, o: u8) -> bool
    requires worded { Worded t.now w.now }
    requires here { row < length (table_rows t.now) }
    requires member { MemberRow t.now row }
    ensures { result ≡ member_begins (member_at t.now row) (member_type_at t.now row) (tag_of o) }
{
    opens(table::first(t, w, row), table::second_word(w, row), o)
}

// Whether it can begin with the octet at i, which has to lie before stop.
pub fn member_starts(t: &[u8], w: &[u64; 256], v: &[u8], row: usize, stop: usize, i: usize) -> bool
    requires worded { Worded t.now w.now }
    requires here { row < length (table_rows t.now) }
    requires member { MemberRow t.now row }
    requires inside { stop ≤ length v.now }
    ensures { result ≡ starts_here (member_at t.now row) (member_type_at t.now row) v.now stop i }
{
    i < stop && begins_with(t, w, row, v[i])
}

// ---- members that are not there, and defaults; each check answers the place after what it checked, or none
// The member of a row where it is not there: a mandatory one has to be.
fn absent(t: &[u8], w: &[u64; 256], row: usize, i: usize) -> Option<usize>
    requires worded { Worded t.now w.now }
    requires here { row < length (table_rows t.now) }
    requires member { MemberRow t.now row }
    ensures { result ≡ work.absent_checked t.now (place_at t.now row) i }
{
    if table::presence(t, w, row) == 0 {
        return None;
    }
    Some(i)
}

// The members of the SEQUENCE of a row from a number on, at a place, where none of them is there: none may be mandatory, and the place is the end.
// Not inlined, so that the loop of `check_fields` has the registers.
#[inline(never)]
fn rest_absent(
    t: &[u8],
    w: &[u64; 256],
    row: usize,
    from: usize,
    i: usize,
    stop: usize,
) -> Option<usize>
    requires worded { Worded t.now w.now }
    requires here { row < length (table_rows t.now) }
    ensures { result ≡ work.rest_absent (work.members_on t.now row from) stop i }
{
    let n = table::members(t, w, row);
    for j in from..n {
        if table::presence(t, w, row + 1 + j) == 0 {
            return None;
        }
    }
    if i != stop {
        return None;
    }
    Some(stop)
}

// Whether contents are the default of the member of a row, which has one.
fn equals_default(t: &[u8], w: &[u64; 256], row: usize, c: &[u8]) -> bool
    requires worded { Worded t.now w.now }
    requires here { row < length (table_rows t.now) }
    requires member { MemberRow t.now row }
    requires stored { presence_at t.now (place_at t.now row) ≡ 2 }
    ensures { result ≡ same c.now (default_at t.now (place_at t.now row)) }
{
    c.len() == table::default_length(t, w, row) && der::plain(c) == table::default_number(t, w, row)
}

// Whether the n octets from start on are the contents of the default of the member of a row.
fn is_default(t: &[u8], w: &[u64; 256], row: usize, v: &[u8], start: usize, n: usize) -> bool
    requires worded { Worded t.now w.now }
    requires here { row < length (table_rows t.now) }
    requires member { MemberRow t.now row }
    requires inside { start + n ≤ length v.now }
    ensures { result ≡ work.is_default_at t.now (place_at t.now row) v.now start n }
{
    if table::presence(t, w, row) == 2 {
        let stop = start + n;
        return equals_default(t, w, row, &v[start..stop]);
    }
    false
}

// ---- values of one header
// Contents of a basic kind, from start up to stop.
fn check_basic(kind: u8, v: &[u8], start: usize, stop: usize) -> Option<usize>
    requires ordered { start ≤ stop }
    requires inside { stop ≤ length v.now }
    ensures { result ≡ work.up_to stop (legal kind (part v.now start (stop - start))) }
{
    if der::legal(kind, v, start, stop) {
        return Some(stop);
    }
    None
}

// The same of an element, which is one of many of its kind.
fn check_element(kind: u8, v: &[u8], start: usize, stop: usize) -> Option<usize>
    requires ordered { start ≤ stop }
    requires inside { stop ≤ length v.now }
    ensures { result ≡ work.up_to stop (legal kind (part v.now start (stop - start))) }
{
    if der::legal_element(kind, &v[start..stop]) {
        return Some(stop);
    }
    None
}

// A value of the basic type of a row, of a kind, at a place, before an end, behind a tag octet. Inlined, as `check_alike` is.
#[inline(always)]
fn check_leaf(
    t: &[u8],
    w: &[u64; 256],
    v: &[u8],
    row: usize,
    kind: u8,
    tag: usize,
    at: usize,
    end: usize,
) -> Option<usize>
    requires worded { Worded t.now w.now }
    requires here { row < length (table_rows t.now) }
    requires kinded { kind ≡ kind_at t.now (place_at t.now row) }
    requires basic { is_basic (kind_at t.now (place_at t.now row)) ≡ true }
    requires inside { end ≤ length v.now }
    requires usable { number tag < 31 }
    ensures { work.Answers (type_at t.now row) (kind_at t.now (place_at t.now row)) tag v.now at end result }
{
    let Some((start, n)) = der::open_within(tag, v, at, end) else {
        return None;
    };
    check_element(kind, v, start, start + n)
}

// The plain member of a row, at a place where its tag octet was seen: one header, contents of the kind, and not its default.
fn check_plain(
    t: &[u8],
    w: &[u64; 256],
    v: &[u8],
    row: usize,
    at: usize,
    end: usize,
) -> Option<usize>
    requires worded { Worded t.now w.now }
    requires here { row < length (table_rows t.now) }
    requires member { MemberRow t.now row }
    requires plain { how (member_kind_at t.now row) (mode_at t.now (place_at t.now row)) ≡ 0 }
    requires inside { end ≤ length v.now }
    requires before { at < end }
    requires seen { octet v.now at ≡ first_octet (tagging_at t.now row) (member_kind_at t.now row) }
    ensures { result
        ≡ work.plain_checked t.now (place_at t.now row) (member_kind_at t.now row) (tagging_at t.now row)
        v.now at end }
{
    let Some((start, n)) = der::open_seen(v, at, end) else {
        return None;
    };
    if is_default(t, w, row, v, start, n) {
        return None;
    }
    check_basic(table::kind_of_type(t, w, row), v, start, start + n)
}

// The plain member of a row at a place, before stop: by its first octet alone.
fn check_plain_member(
    t: &[u8],
    w: &[u64; 256],
    v: &[u8],
    row: usize,
    i: usize,
    stop: usize,
) -> Option<usize>
    requires worded { Worded t.now w.now }
    requires here { row < length (table_rows t.now) }
    requires member { MemberRow t.now row }
    requires plain { how (member_kind_at t.now row) (mode_at t.now (place_at t.now row)) ≡ 0 }
    requires inside { stop ≤ length v.now }
    ensures { result ≡ work.member_checked (member_at t.now row) (member_type_at t.now row) v.now stop i }
{
    if stop <= i {
        return absent(t, w, row, i);
    }
    let first = table::first(t, w, row);
    let o = octets::wide(v[i]);
    if o == first {
        return check_plain(t, w, v, row, i, stop);
    }
    if same_tag(first, o) {
        return None;
    }
    absent(t, w, row, i)
}

// ---- a default that is stored in a wrapper
// The contents of the member of a row inside its wrapper.
fn wrapped_contents(
    t: &[u8],
    w: &[u64; 256],
    v: &[u8],
    row: usize,
    at: usize,
    end: usize,
) -> Option<(usize, usize)>
    requires worded { Worded t.now w.now }
    requires here { row < length (table_rows t.now) }
    requires member { MemberRow t.now row }
    requires explicit { mode_at t.now (place_at t.now row) ≡ 1 }
    requires inside { end ≤ length v.now }
    ensures { result ≡ work.contents_at (tagging_at t.now row) (member_kind_at t.now row) v.now at end }
{
    let Some((start, n)) = der::open_within(table::first(t, w, row), v, at, end) else {
        return None;
    };
    der::open_within(
        der::own_octet(table::kind_of_type(t, w, row)),
        v,
        start,
        start + n,
    )
}

// Whether they are its default, which it has.
fn wrapped_default(t: &[u8], w: &[u64; 256], v: &[u8], row: usize, at: usize, end: usize) -> bool
    requires worded { Worded t.now w.now }
    requires here { row < length (table_rows t.now) }
    requires member { MemberRow t.now row }
    requires explicit { mode_at t.now (place_at t.now row) ≡ 1 }
    requires stored { presence_at t.now (place_at t.now row) ≡ 2 }
    requires inside { end ≤ length v.now }
    ensures { result
        ≡ work.holds v.now (default_at t.now (place_at t.now row))
        (work.contents_at (tagging_at t.now row) (member_kind_at t.now row) v.now at end) }
{
    let Some((start, n)) = wrapped_contents(t, w, v, row, at, end) else {
        return false;
    };
    let stop = start + n;
    equals_default(t, w, row, &v[start..stop])
}

// Whether the default of the member of a row, which is not plain, stands at a place.
fn stored_default(t: &[u8], w: &[u64; 256], v: &[u8], row: usize, at: usize, end: usize) -> bool
    requires worded { Worded t.now w.now }
    requires here { row < length (table_rows t.now) }
    requires member { MemberRow t.now row }
    requires other { how (member_kind_at t.now row) (mode_at t.now (place_at t.now row)) ≡ 0 → ⊥ }
    requires inside { end ≤ length v.now }
    ensures { result ≡ work.stored_default t.now (table_rows t.now) (place_at t.now row) v.now at end }
{
    table::presence(t, w, row) == 2 && wrapped_default(t, w, v, row, at, end)
}

// Whether neighbours in a list are in order: those of a SET OF, each not above the next.
fn in_order(kind: u8, v: &[u8], before: usize, i: usize, next: usize) -> bool
    requires low { before ≤ i }
    requires high { i ≤ next }
    requires inside { next ≤ length v.now }
    ensures { result ≡ work.neighbours kind v.now before i next }
{
    kind == Kind::SEQUENCE_OF || der::not_above(&v[before..i], &v[i..next])
}

// Whether the type of a member row is a CHOICE in no wrapper, so that its value is that of one of its own alternatives.
fn is_nested(t: &[u8], w: &[u64; 256], row: usize) -> bool
    requires worded { Worded t.now w.now }
    requires here { row < length (table_rows t.now) }
    requires member { MemberRow t.now row }
    ensures { result ≡ work.is_nested (member_kind_at t.now row) (mode_at t.now (place_at t.now row)) }
{
    table::kind_of_type(t, w, row) == Kind::CHOICE && table::tagged(t, w, row) != 1
}

// The member row of the first alternative of the CHOICE of a row that can begin here, or none.
fn choose(t: &[u8], w: &[u64; 256], v: &[u8], row: usize, at: usize, end: usize) -> Option<usize>
    requires worded { Worded t.now w.now }
    requires here { row < length (table_rows t.now) }
    requires inside { end ≤ length v.now }
    ensures { work.Chooses t.now v.now row at end result }
{
    let n = table::members(t, w, row);
    for j in 0..n {
        let member = row + 1 + j;
        if member_starts(t, w, v, member, end, at) {
            return Some(member);
        }
    }
    None
}

// The same; where it is a CHOICE in no wrapper, the alternative of that one, in turn.
fn choose_inner(
    t: &[u8],
    w: &[u64; 256],
    v: &[u8],
    row: usize,
    at: usize,
    end: usize,
) -> Option<usize>
    requires worded { Worded t.now w.now }
    requires here { row < length (table_rows t.now) }
    requires inside { end ≤ length v.now }
    ensures { work.Chooses t.now v.now row at end result }
{
    let mut choice = row;
    loop {
        let member = choose(t, w, v, choice, at, end)?;
        if !is_nested(t, w, member) {
            return Some(member);
        }
        choice = table::named(t, w, member);
    }
}

// Whether the elements of the list of a row are of a basic type.
fn has_leaves(t: &[u8], w: &[u64; 256], row: usize) -> bool
    requires worded { Worded t.now w.now }
    requires here { row < length (table_rows t.now) }
    requires list { is_list (kind_at t.now (place_at t.now row)) ≡ true }
    ensures { result
        ≡ is_basic (kind_at t.now (place_at t.now (named_at t.now (place_at t.now row)))) }
{
    table::is_basic(table::kind(t, w, table::named(t, w, row)))
}

// The elements of the list of a row, whose type is basic, of a kind, from start up to stop: without a call of the recursion for each. Inlined, so that
// the loop is compiled for the kind that a caller names.
#[inline(always)]
fn check_alike(
    t: &[u8],
    w: &[u64; 256],
    v: &[u8],
    row: usize,
    element_kind: u8,
    start: usize,
    stop: usize,
) -> Option<usize>
    requires worded { Worded t.now w.now }
    requires here { row < length (table_rows t.now) }
    requires list { is_list (kind_at t.now (place_at t.now row)) ≡ true }
    requires kinded { element_kind ≡ kind_at t.now (place_at t.now (named_at t.now (place_at t.now row))) }
    requires basic { is_basic (kind_at t.now (place_at t.now (named_at t.now (place_at t.now row)))) ≡ true }
    requires ordered { start ≤ stop }
    requires inside { stop ≤ length v.now }
    ensures { result
        ≡ work.elements_checked (kind_at t.now (place_at t.now row))
        (type_at t.now (named_at t.now (place_at t.now row))) v.now stop start }
{
    let kind = table::kind(t, w, row);
    let element = table::named(t, w, row);
    let tag = table::own_first(t, w, element);
    let mut before = start;
    let mut i = start;
    // A cursor: each element says where the next one starts.
    while i < stop {
        let next = check_leaf(t, w, v, element, element_kind, tag, i, stop)?;
        if !in_order(kind, v, before, i, next) {
            return None;
        }
        before = i;
        i = next;
    }
    Some(stop)
}

// The same, by the kind that the row of their type has; the most usual kinds have a loop each. Not inlined, so that `check` has the registers.
#[inline(never)]
fn check_leaves(
    t: &[u8],
    w: &[u64; 256],
    v: &[u8],
    row: usize,
    start: usize,
    stop: usize,
) -> Option<usize>
    requires worded { Worded t.now w.now }
    requires here { row < length (table_rows t.now) }
    requires list { is_list (kind_at t.now (place_at t.now row)) ≡ true }
    requires basic { is_basic (kind_at t.now (place_at t.now (named_at t.now (place_at t.now row)))) ≡ true }
    requires ordered { start ≤ stop }
    requires inside { stop ≤ length v.now }
    ensures { result
        ≡ work.elements_checked (kind_at t.now (place_at t.now row))
        (type_at t.now (named_at t.now (place_at t.now row))) v.now stop start }
{
    let element_kind = table::kind(t, w, table::named(t, w, row));
    if element_kind == Kind::INTEGER {
        return check_alike(t, w, v, row, Kind::INTEGER, start, stop);
    }
    if element_kind == Kind::PRINTABLE_STRING {
        return check_alike(t, w, v, row, Kind::PRINTABLE_STRING, start, stop);
    }
    check_alike(t, w, v, row, element_kind, start, stop)
}

// ---- "a nested value is checked as its row says, one level deeper"
// The elements of the list of a row, from start up to stop.
#[cycle(check)]
fn check_elements(
    t: &[u8],
    w: &[u64; 256],
    v: &[u8],
    row: usize,
    start: usize,
    stop: usize,
) -> Option<usize>
    requires worded { Worded t.now w.now }
    requires here { row < length (table_rows t.now) }
    requires list { is_list (kind_at t.now (place_at t.now row)) ≡ true }
    requires ordered { start ≤ stop }
    requires inside { stop ≤ length v.now }
    ensures { result
        ≡ work.elements_checked (kind_at t.now (place_at t.now row))
        (type_at t.now (named_at t.now (place_at t.now row))) v.now stop start }
{
    if has_leaves(t, w, row) {
        return check_leaves(t, w, v, row, start, stop);
    }
    let kind = table::kind(t, w, row);
    let element = table::named(t, w, row);
    let tag = table::own_first(t, w, element);
    let mut before = start;
    let mut i = start;
    // A cursor: each element says where the next one starts.
    while i < stop {
        let next = check(t, w, v, element, tag, i, stop)?;
        if !in_order(kind, v, before, i, next) {
            return None;
        }
        before = i;
        i = next;
    }
    Some(stop)
}

// The members of the SEQUENCE of a row, from start up to stop.
#[cycle(check)]
fn check_fields(
    t: &[u8],
    w: &[u64; 256],
    v: &[u8],
    row: usize,
    start: usize,
    stop: usize,
) -> Option<usize>
    requires worded { Worded t.now w.now }
    requires here { row < length (table_rows t.now) }
    requires inside { stop ≤ length v.now }
    ensures { result ≡ work.fields_checked (members_after t.now row) v.now stop start }
{
    let n = table::members(t, w, row);
    let mut i = start;
    for j in 0..n {
        if stop <= i {
            return rest_absent(t, w, row, j, i, stop);
        }
        i = check_member(t, w, v, row + 1 + j, i, stop)?;
    }
    if i != stop {
        return None;
    }
    Some(stop)
}

// The member of a row at a place, before stop: where it is there it has to be a value of its type, and not its default.
#[cycle(check)]
fn check_member(
    t: &[u8],
    w: &[u64; 256],
    v: &[u8],
    row: usize,
    i: usize,
    stop: usize,
) -> Option<usize>
    requires worded { Worded t.now w.now }
    requires here { row < length (table_rows t.now) }
    requires member { MemberRow t.now row }
    requires inside { stop ≤ length v.now }
    ensures { result ≡ work.member_checked (member_at t.now row) (member_type_at t.now row) v.now stop i }
{
    if table::tagged(t, w, row) == 0 {
        return check_plain_member(t, w, v, row, i, stop);
    }
    if !member_starts(t, w, v, row, stop, i) {
        return absent(t, w, row, i);
    }
    if stored_default(t, w, v, row, i, stop) {
        return None;
    }
    check_tagged(t, w, v, row, i, stop)
}

// A value of the type of a member row, under its tag mode.
#[cycle(check)]
fn check_tagged(
    t: &[u8],
    w: &[u64; 256],
    v: &[u8],
    row: usize,
    at: usize,
    end: usize,
) -> Option<usize>
    requires worded { Worded t.now w.now }
    requires here { row < length (table_rows t.now) }
    requires member { MemberRow t.now row }
    requires inside { end ≤ length v.now }
    ensures { result ≡ work.checked (decode (member_type_at t.now row) (tagging_at t.now row) v.now at end) }
{
    let target = table::named(t, w, row);
    let first = table::first(t, w, row);
    if table::tagged(t, w, row) == 1 {
        return check_wrapped(t, w, v, target, first, at, end);
    }
    check(t, w, v, target, first, at, end)
}

// A value of the type of a row in the wrapper of a tag octet, which it fills.
#[cycle(check)]
fn check_wrapped(
    t: &[u8],
    w: &[u64; 256],
    v: &[u8],
    row: usize,
    tag: usize,
    at: usize,
    end: usize,
) -> Option<usize>
    requires worded { Worded t.now w.now }
    requires here { row < length (table_rows t.now) }
    requires typed { TypeRow t.now row }
    requires inside { end ≤ length v.now }
    requires usable { number tag < 31 }
    ensures { work.Wraps (type_at t.now row) tag v.now at end result }
{
    let Some((start, n)) = der::open_within(tag, v, at, end) else {
        return None;
    };
    let stop = start + n;
    let own = table::own_first(t, w, row);
    let next = check(t, w, v, row, own, start, stop)?;
    if next != stop {
        return None;
    }
    Some(next)
}

// The value of the CHOICE of a row: that of its alternative.
#[cycle(check)]
fn check_choice(
    t: &[u8],
    w: &[u64; 256],
    v: &[u8],
    row: usize,
    at: usize,
    end: usize,
) -> Option<usize>
    requires worded { Worded t.now w.now }
    requires here { row < length (table_rows t.now) }
    requires inside { end ≤ length v.now }
    ensures { result ≡ work.checked (alternative_from (members_after t.now row) v.now at end) }
{
    let member = choose_inner(t, w, v, row, at, end)?;
    check_tagged(t, w, v, member, at, end)
}

// The value of the type of a row at a place, before an end, behind a tag octet.
#[cycle(check)]
fn check(
    t: &[u8],
    w: &[u64; 256],
    v: &[u8],
    row: usize,
    tag: usize,
    at: usize,
    end: usize,
) -> Option<usize>
    requires worded { Worded t.now w.now }
    requires here { row < length (table_rows t.now) }
    requires inside { end ≤ length v.now }
    requires usable { number tag < 31 }
    ensures { work.Answers (type_at t.now row) (kind_at t.now (place_at t.now row)) tag v.now at end result }
{
    let kind = table::kind(t, w, row);
    if kind == Kind::CHOICE {
        return check_choice(t, w, v, row, at, end);
    }
    let Some((start, n)) = der::open_within(tag, v, at, end) else {
        return None;
    };
    let stop = start + n;
    if kind == Kind::SEQUENCE {
        return check_fields(t, w, v, row, start, stop);
    }
    if rows::is_list(kind) {
        return check_elements(t, w, v, row, start, stop);
    }
    check_basic(kind, v, start, stop)
}

// ---- the value check
// Whether the whole buffer is one value of the type of row 0.
pub fn is_stored(t: &[u8], w: &[u64; 256], v: &[u8]) -> bool
    requires worded { Worded t.now w.now }
    ensures { result ≡ is_some (stored_value (type_at t.now 0) v.now) }
{
    let tag = table::own_first(t, w, 0);
    let Some(next) = check(t, w, v, 0, tag, 0, v.len()) else {
        return false;
    };
    next == v.len()
}

// The check of a table and a value of admitted sizes.
fn check_storage(table: &[u8], value: &[u8]) -> Result<(), Refusal>
    ensures { report result ≡ storage table_limits table.now value.now }
{
    let mut w = [0u64; 256];
    if table::admit_table(table, &mut w) == 0 {
        return Err(Refusal::Table);
    }
    if !is_stored(table, &w, value) {
        return Err(Refusal::Value);
    }
    Ok(())
}

// The value check: any octets for both.
pub fn check_value(table: &[u8], value: &[u8]) -> Result<(), Refusal>
    ensures { report result ≡ value_report table_limits value_limits table.now value.now }
{
    if !Table::fits(table) {
        return Err(Refusal::Size);
    }
    if !Value::fits(value) {
        return Err(Refusal::Size);
    }
    check_storage(table, value)
}

// ---- the fifth entry
// The octets of a stored value, from place and length. Place plus length is compared by differences, so that no sum can pass the largest number.
pub fn part<'a>(value: &'a [u8], place: usize, length: usize) -> Result<&'a [u8], Refusal>
    ensures { parts.report result ≡ parts.part_report value_limits value.now place length }
{
    let fits = Value::fits(value);
    if !fits {
        return Err(Refusal::Size);
    }
    if value.len() < place {
        return Err(Refusal::Value);
    }
    if value.len() - place < length {
        return Err(Refusal::Value);
    }
    Ok(octets::part(value, place, length))
}

// The refusal number of the fifth entry, 0 for none, for callers that take no result apart.
pub fn part_number(value: &[u8], place: usize, length: usize) -> u8
    ensures { result ≡ (parts.part_report value_limits value.now place length).refusal }
{
    match part(value, place, length) {
        Ok(_) => 0,
        Err(refusal) => refusal.number(),
    }
}

// The octets of the fifth entry, none with a refusal, for callers that take no result apart.
pub fn part_bytes<'a>(value: &'a [u8], place: usize, length: usize) -> &'a [u8]
    ensures { result.now ≡ (parts.part_report value_limits value.now place length).octets }
{
    match part(value, place, length) {
        Ok(octets) => octets,
        Err(_) => &value[..0],
    }
}
