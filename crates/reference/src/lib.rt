// Component references: reading one, and whether a type allows it. The definitions are in specs/.
#![tactic(auto)]

ghost use Rattle.std.specs.Prelude.{◌≡◌, true, ◌≤◌, ◌<◌, ◌+◌, ◌-◌, length};
ghost use Rattle.octets.specs.Octets.{same};
ghost use Rattle.octets.specs.Inner.Answers.{between};
ghost use Rattle.octets.specs.Text.{is_name, decimal};
ghost use Rattle.rows.specs.Row.{name_at, unfilled};
ghost use Rattle.reference.specs.Reference as reference;
ghost use Rattle.reference.specs.Reference.{name};
ghost use Rattle.reference.specs.Inner.Work as work;

// One component identifier: a name or an index, or none. A number beyond the largest is held as the largest.
#[derive(Clone, Copy)]
enum Piece {
    Name,
    Position(usize),
    FromEnd(usize),
    Count,
    All,
    Bad,
}

// The next identifier of a reference and the place where those after it start; a name by its first place and its end. Or no more, or no identifier.
#[derive(Clone, Copy)]
pub enum Step {
    Name(usize, usize, usize),
    Position(usize, usize),
    FromEnd(usize, usize),
    Count(usize),
    All(usize),
    End,
    Bad,
}

// What a reference leads to, where it is well formed and allowed: the type of a row, or the count of a list.
#[derive(Clone, Copy)]
pub enum Target {
    Row(usize),
    Count,
}

// ---- one identifier
fn is_name(p: &[u8]) -> bool
    ensures { result ≡ is_name p.now }
{
    let mut a = octets::octet(p, 0);
    if !octets::is_lower(a) {
        return false;
    }
    // Most octets of names are letters: these first.
    for i in 1..p.len() {
        let b = p[i];
        if !octets::is_letter(b) && !octets::may_follow(a, b) {
            return false;
        }
        a = b;
    }
    a != b'-'
}

fn is_position(p: &[u8]) -> bool
    ensures { result ≡ reference.is_position p.now }
{
    if p.is_empty() {
        return false;
    }
    if p[0] == b'0' {
        return false;
    }
    octets::all_digits(p)
}

// The number that digits stand for, at most the largest.
fn number_of(p: &[u8]) -> usize
    ensures { result ≡ work.cap (decimal p.now) }
{
    let Some(n) = octets::decimal(p) else {
        return usize::MAX;
    };
    n as usize
}

// A name, or nothing.
fn read_word(p: &[u8]) -> Piece
    ensures { work.report_piece p.now result ≡ work.capped_id (work.word_id p.now) }
{
    if is_name(p) {
        return Piece::Name;
    }
    Piece::Bad
}

// A position from the end, a name, or nothing.
fn read_other(p: &[u8]) -> Piece
    ensures { work.report_piece p.now result ≡ work.capped_id (work.other_id p.now) }
{
    if octets::octet(p, 0) != b'-' {
        return read_word(p);
    }
    let q = octets::part(p, 1, p.len());
    if is_position(q) {
        return Piece::FromEnd(number_of(q));
    }
    read_word(p)
}

fn read_number(p: &[u8]) -> Piece
    ensures { work.report_piece p.now result ≡ work.capped_id (work.number_id p.now) }
{
    if is_position(p) {
        return Piece::Position(number_of(p));
    }
    read_other(p)
}

fn read_id(p: &[u8]) -> Piece
    ensures { work.report_piece p.now result ≡ work.capped_id (reference.id_of p.now) }
{
    if octets::same(p, b"*") {
        return Piece::All;
    }
    if octets::same(p, b"0") {
        return Piece::Count;
    }
    read_number(p)
}

// ---- one step
// The first dot from a place on, or the end.
fn end_at(r: &[u8], k: usize) -> usize
    requires { k ≤ length r.now }
    ensures value { result ≡ work.end_at r.now k }
    ensures after { k ≤ result }
    ensures within { result ≤ length r.now }
{
    for i in k..r.len() {
        if r[i] == b'.' {
            return i;
        }
    }
    r.len()
}

fn step_of(piece: Piece, a: usize, b: usize, next: usize) -> Step
    ensures { result ≡ work.step_of piece a b next }
{
    match piece {
        Piece::Name => Step::Name(a, b, next),
        Piece::Position(n) => Step::Position(n, next),
        Piece::FromEnd(n) => Step::FromEnd(n, next),
        Piece::Count => Step::Count(next),
        Piece::All => Step::All(next),
        Piece::Bad => Step::Bad,
    }
}

// The identifier that starts at a place of a reference.
pub fn next_id(r: &[u8], k: usize) -> Step
    ensures step { work.report_id_step r.now result ≡ work.head_capped (work.ids_at r.now k) }
    ensures rises { work.advances r.now k result ≡ true }
{
    if r.len() < k {
        return Step::End;
    }
    let e = end_at(r, k);
    let piece = read_id(octets::part(r, k, e - k));
    step_of(piece, k, e, e + 1)
}

// ---- names
// Whether a name's field has these octets, and then its fill or its end.
fn has_name(field: &[u8], x: &[u8]) -> bool
    ensures { result ≡ same (unfilled field.now) x.now }
{
    if field.len() < x.len() {
        return false;
    }
    if octets::octet(field, x.len()) != 0 {
        return false;
    }
    for (i, b) in x.iter().enumerate() {
        if field[i] != *b || *b == 0 {
            return false;
        }
    }
    true
}

// Whether the member row at p has the name that stands from a to b. Most names differ in their first octet.
pub fn is_named(t: &[u8], p: usize, r: &[u8], a: usize, b: usize) -> bool
    ensures { result ≡ same (unfilled (name_at t.now p)) (between r.now a b) }
{
    let x = octets::between(r, a, b);
    if rows::name_start(t, p) != octets::octet(x, 0) {
        return false;
    }
    has_name(rows::name_at(t, p), x)
}
