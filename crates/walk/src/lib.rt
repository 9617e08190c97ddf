// The walk along a plan on a stored value, with one task: count, list, test. Headers are read and not doubted.
#![tactic(auto)]

ghost use Rattle.std.specs.Prelude.{◌≡◌, ◌≤◌, ◌<◌, ◌+◌, ◌-◌, length, []};
ghost use Rattle.rows.specs.Row.{members_at};
ghost use Rattle.table.specs.Inner.Rows.{table_rows, MemberRow, place_at, tagging_at};
ghost use Rattle.table.specs.Inner.Words.{Worded};
ghost use Rattle.reference.specs.Numbers.{by_count};
ghost use Rattle.plan.specs.Inner.Sort as sort;
ghost use Rattle.plan.specs.Inner.Task.{task_of};
ghost use Rattle.plan.specs.Inner.Plan as plan;
ghost use Rattle.walk.specs.Inner.Raw.{start_of, next_after};
ghost use Rattle.walk.specs.Inner.Stands.{within, InList, InRow};
ghost use Rattle.walk.specs.Inner.Leads as leads;
ghost use Rattle.walk.specs.Inner.Run as run;
ghost use Rattle.walk.specs.Inner.Walk as walk;

use plan::Sort;

// Where a walk stands: going on after so many components; stopped at an accepted one, after so many tests; over, without room or budget.
#[derive(Clone, Copy)]
pub enum State {
    Going(usize),
    Accepted(usize),
    Over,
}

// A step of a plan, and the place of the value that it starts from.
#[derive(Clone, Copy)]
pub struct Place {
    pub step: usize,
    pub at: usize,
}

// A step of a plan, and the values that it starts from, one after another from start up to stop.
#[derive(Clone, Copy)]
pub struct Places {
    pub step: usize,
    pub start: usize,
    pub stop: usize,
}

// Where steps that lead to one value at most end: at a step that does not, and the place of the value that it starts from; at a step whose member is absent,
// and the place of its SEQUENCE; or they lead to nothing.
#[derive(Clone, Copy)]
pub enum Reached {
    At(usize, usize),
    Absent(usize, usize),
    Nothing,
}

// Where one step leads: to a value at a place; to a member that is absent; to nothing.
#[derive(Clone, Copy)]
pub enum Move {
    To(usize),
    Absent,
    Nothing,
}

// ---- headers
// Where the contents of a value start, and the place after it.
#[derive(Clone, Copy)]
pub struct Span {
    pub start: usize,
    pub end: usize,
}

// Those of the value at a place.
fn opened(v: &[u8], at: usize) -> Span
    requires { next_after v.now at ≤ length v.now }
    ensures start { result.start ≡ start_of v.now at }
    ensures end { result.end ≡ next_after v.now at }
{
    let n = octets::wide(v[at + 1]);
    if n < 128 {
        return Span {
            start: at + 2,
            end: at + 2 + n,
        };
    }
    if n == 129 {
        return Span {
            start: at + 3,
            end: at + 3 + octets::wide(v[at + 2]),
        };
    }
    Span {
        start: at + 4,
        end: at + 4 + octets::wide_two(v[at + 2], v[at + 3]),
    }
}

fn start_of(v: &[u8], at: usize) -> usize
    requires { next_after v.now at ≤ length v.now }
    ensures { result ≡ start_of v.now at }
{
    opened(v, at).start
}

fn next_after(v: &[u8], at: usize) -> usize
    requires { next_after v.now at ≤ length v.now }
    ensures { result ≡ next_after v.now at }
{
    opened(v, at).end
}

// ---- elements of a list, from start up to stop
// How many there are.
fn count(v: &[u8], start: usize, stop: usize) -> usize
    requires { InList v.now start stop }
    ensures { leads.Counts v.now start stop result }
{
    let mut i = start;
    let mut n = 0;
    // A cursor: each element says where the next one starts.
    while i < stop {
        i = next_after(v, i);
        n += 1;
    }
    n
}

// The one at a position from 1.
fn nth(v: &[u8], start: usize, stop: usize, n: usize) -> Move
    requires { InList v.now start stop }
    ensures { leads.FindsNth v.now start stop n result }
{
    let mut i = start;
    let mut left = n;
    // A cursor: each element says where the next one starts.
    while i < stop {
        if left == 1 {
            return Move::To(i);
        }
        left = left.saturating_sub(1);
        i = next_after(v, i);
    }
    Move::Nothing
}

// The one at a position from the end: they are counted first.
fn nth_last(v: &[u8], start: usize, stop: usize, n: usize) -> Move
    requires { InList v.now start stop }
    ensures { leads.FindsLast v.now start stop n result }
{
    let size = count(v, start, stop);
    if size < n {
        return Move::Nothing;
    }
    nth(v, start, stop, size - n + 1)
}

// ---- members
// Behind the wrapper of a member's row, where it has one.
fn inside(t: &[u8], w: &[u64; 256], v: &[u8], row: usize, i: usize) -> usize
    requires worded { Worded t.now w.now }
    requires here { row < length (table_rows t.now) }
    requires member { MemberRow t.now row }
    requires value { next_after v.now i ≤ length v.now }
    ensures { result ≡ within (tagging_at t.now row) v.now i }
{
    if table::tagged(t, w, row) == 1 {
        return start_of(v, i);
    }
    i
}

// The member at index j of the SEQUENCE of a row, among its members from start up to stop.
fn find_member(
    t: &[u8],
    w: &[u64; 256],
    v: &[u8],
    row: usize,
    j: usize,
    start: usize,
    stop: usize,
) -> Move
    requires worded { Worded t.now w.now }
    requires here { row < length (table_rows t.now) }
    requires one { j < members_at t.now (place_at t.now row) }
    requires members { InRow t.now v.now row start stop }
    ensures { leads.FindsMember t.now v.now row j start stop result }
{
    let mut i = start;
    for k in 0..j {
        if value::member_starts(t, w, v, row + 1 + k, stop, i) {
            i = next_after(v, i);
        }
    }
    if !value::member_starts(t, w, v, row + 1 + j, stop, i) {
        return Move::Absent;
    }
    Move::To(inside(t, w, v, row + 1 + j, i))
}

// The alternative of a member row, if it can begin at a place.
fn find_alternative(t: &[u8], w: &[u64; 256], v: &[u8], row: usize, at: usize) -> Move
    requires worded { Worded t.now w.now }
    requires here { row < length (table_rows t.now) }
    requires member { MemberRow t.now row }
    requires value { next_after v.now at ≤ length v.now }
    ensures { result ≡ leads.alternative_move t.now v.now row at }
{
    if !value::member_starts(t, w, v, row, v.len(), at) {
        return Move::Nothing;
    }
    Move::To(inside(t, w, v, row, at))
}

// ---- one step of a plan
fn to_member(t: &[u8], w: &[u64; 256], q: &[usize; 72], v: &[u8], k: usize, at: usize) -> Move
    requires worded { Worded t.now w.now }
    requires steps { walk.Steps t.now q.now v.now k at }
    requires sort { plan.sort_at q.now k ≡ sort.member }
    ensures { walk.Moves t.now q.now v.now k at result }
{
    let row = plan::first_at(q, k);
    let j = plan::second_at(q, k);
    let o = opened(v, at);
    find_member(t, w, v, row, j, o.start, o.end)
}

fn to_alternative(t: &[u8], w: &[u64; 256], q: &[usize; 72], v: &[u8], k: usize, at: usize) -> Move
    requires worded { Worded t.now w.now }
    requires steps { walk.Steps t.now q.now v.now k at }
    requires sort { plan.sort_at q.now k ≡ sort.alternative }
    ensures { walk.Moves t.now q.now v.now k at result }
{
    let row = plan::first_at(q, k);
    let j = plan::second_at(q, k);
    find_alternative(t, w, v, row + 1 + j, at)
}

fn to_position(t: &[u8], q: &[usize; 72], v: &[u8], k: usize, at: usize) -> Move
    requires steps { walk.Steps t.now q.now v.now k at }
    requires sort { plan.sort_at q.now k ≡ sort.position }
    ensures { walk.Moves t.now q.now v.now k at result }
{
    let o = opened(v, at);
    nth(v, o.start, o.end, plan::first_at(q, k))
}

fn to_last(t: &[u8], q: &[usize; 72], v: &[u8], k: usize, at: usize) -> Move
    requires steps { walk.Steps t.now q.now v.now k at }
    requires sort { plan.sort_at q.now k ≡ sort.from_end }
    ensures { walk.Moves t.now q.now v.now k at result }
{
    let o = opened(v, at);
    nth_last(v, o.start, o.end, plan::first_at(q, k))
}

fn one_move(t: &[u8], w: &[u64; 256], q: &[usize; 72], v: &[u8], k: usize, at: usize) -> Move
    requires worded { Worded t.now w.now }
    requires steps { walk.Steps t.now q.now v.now k at }
    requires sort { walk.IsMove (plan.sort_at q.now k) }
    ensures { walk.Moves t.now q.now v.now k at result }
{
    let sort = plan::sort_at(q, k);
    if sort == Sort::MEMBER {
        return to_member(t, w, q, v, k, at);
    }
    if sort == Sort::ALTERNATIVE {
        return to_alternative(t, w, q, v, k, at);
    }
    if sort == Sort::POSITION {
        return to_position(t, q, v, k, at);
    }
    to_last(t, q, v, k, at)
}

// ---- one component
fn count_one(limit: usize, n: usize) -> State
    ensures { result ≡ run.count_one limit n }
{
    if n < limit {
        return State::Going(n + 1);
    }
    State::Going(n)
}

fn test_one(budget: usize, accepted: bool, n: usize) -> State
    ensures { result ≡ run.test_one budget accepted n }
{
    if budget <= n {
        return State::Over;
    }
    if accepted {
        return State::Accepted(n + 1);
    }
    State::Going(n + 1)
}

// Three numbers for component n, where there is room.
fn list_one(source: u64, place: usize, number: usize, n: usize, out: &mut [u64]) -> State
    ensures { run.seen result out.new
        ≡ run.list_one (record { source = source; place = place; number = number }) n out.old }
{
    if out.len() / 3 <= n {
        return State::Over;
    }
    out[n * 3] = source;
    out[n * 3 + 1] = place as u64;
    out[n * 3 + 2] = number as u64;
    State::Going(n + 1)
}

// A component after n, by its three numbers; a test accepts it, or doesn't.
fn note(
    q: &[usize; 72],
    accepted: bool,
    source: u64,
    place: usize,
    number: usize,
    n: usize,
    out: &mut [u64],
) -> State
    ensures { run.seen result out.new
        ≡ run.noted (task_of q.now) accepted (record { source = source; place = place; number = number }) n out.old }
{
    let task = plan::task(q);
    if task == 0 {
        return count_one(plan::limit(q), n);
    }
    if task == 1 {
        return list_one(source, place, number, n, out);
    }
    test_one(plan::limit(q), accepted, n)
}

// The value at a place.
fn visit(q: &[usize; 72], v: &[u8], operand: &[u8], at: usize, n: usize, out: &mut [u64]) -> State
    requires { next_after v.now at ≤ length v.now }
    ensures { run.seen result out.new
        ≡ run.visited (task_of q.now) operand.now (run.value_at v.now at) n out.old }
{
    let o = opened(v, at);
    let contents = octets::part(v, o.start, o.end - o.start);
    let accepted = plan::passes_contents(q, operand, contents);
    note(q, accepted, 0, at, o.end - at, n, out)
}

// The count of the list at a place.
fn visit_count(q: &[usize; 72], at: usize, size: usize, n: usize, out: &mut [u64]) -> State
    ensures { run.seen result out.new ≡ run.visited (task_of q.now) [] (by_count at size) n out.old }
{
    note(q, plan::passes_count(q, size), 2, at, size, n, out)
}

// The absent member of step k, at the place of its SEQUENCE.
fn visit_absent(q: &[usize; 72], k: usize, at: usize, n: usize, out: &mut [u64]) -> State
    requires low { plan.Low k }
    requires fits { plan.first_at q.now k + 1 + plan.second_at q.now k < 18446744073709551616 }
    ensures { run.seen result out.new ≡ run.absent_run q.now k at n out.old }
{
    let absent = plan::absent_at(q, k);
    if absent == 0 {
        return State::Going(n);
    }
    let row = plan::first_at(q, k) + 1 + plan::second_at(q, k);
    note(q, absent == 2, 1, at, row, n, out)
}

// ---- the walk
// The count of the elements of the list at a place.
fn walk_count(
    t: &[u8],
    q: &[usize; 72],
    v: &[u8],
    operand: &[u8],
    k: usize,
    at: usize,
    n: usize,
    out: &mut [u64],
) -> State
    requires goes { walk.Goes t.now q.now operand.now v.now k at }
    requires sort { plan.sort_at q.now k ≡ sort.count }
    ensures { walk.Walks t.now q.now operand.now v.now k at n out.old
        (run.seen result out.new) }
{
    let o = opened(v, at);
    visit_count(q, at, count(v, o.start, o.end), n, out)
}

// Where the steps from a value that lead to one value at most end.
fn reach(t: &[u8], w: &[u64; 256], q: &[usize; 72], v: &[u8], here: Place) -> Reached
    requires worded { Worded t.now w.now }
    requires steps { walk.Steps t.now q.now v.now here.step here.at }
    ensures { walk.Reaches t.now q.now v.now here.step here.at result }
{
    let mut k = here.step;
    let mut at = here.at;
    loop {
        let sort = plan::sort_at(q, k);
        if sort == Sort::END {
            return Reached::At(k, at);
        }
        if sort == Sort::COUNT {
            return Reached::At(k, at);
        }
        if sort == Sort::ALL {
            return Reached::At(k, at);
        }
        match one_move(t, w, q, v, k, at) {
            Move::To(p) => {
                k += 1;
                at = p;
            }
            Move::Absent => return Reached::Absent(k, at),
            Move::Nothing => return Reached::Nothing,
        }
    }
}

// From a value where the plan ends, counts, or goes on with all elements.
#[cycle(walk)]
fn walk_on(
    t: &[u8],
    w: &[u64; 256],
    q: &[usize; 72],
    v: &[u8],
    operand: &[u8],
    here: Place,
    n: usize,
    out: &mut [u64],
) -> State
    requires worded { Worded t.now w.now }
    requires goes { walk.Goes t.now q.now operand.now v.now here.step here.at }
    requires stops { walk.Stops q.now here.step }
    ensures { walk.Walks t.now q.now operand.now v.now here.step here.at n out.old
        (run.seen result out.new) }
{
    let sort = plan::sort_at(q, here.step);
    if sort == Sort::END {
        return visit(q, v, operand, here.at, n, out);
    }
    if sort == Sort::COUNT {
        return walk_count(t, q, v, operand, here.step, here.at, n, out);
    }
    let o = opened(v, here.at);
    let each = Places {
        step: here.step + 1,
        start: o.start,
        stop: o.end,
    };
    walk_each(t, w, q, v, operand, each, n, out)
}

// From a value, along the steps of a plan, after n components.
#[cycle(walk)]
fn walk_one(
    t: &[u8],
    w: &[u64; 256],
    q: &[usize; 72],
    v: &[u8],
    operand: &[u8],
    here: Place,
    n: usize,
    out: &mut [u64],
) -> State
    requires worded { Worded t.now w.now }
    requires goes { walk.Goes t.now q.now operand.now v.now here.step here.at }
    ensures { walk.Walks t.now q.now operand.now v.now here.step here.at n out.old
        (run.seen result out.new) }
{
    match reach(t, w, q, v, here) {
        Reached::At(step, at) => walk_on(t, w, q, v, operand, Place { step, at }, n, out),
        Reached::Absent(k, at) => visit_absent(q, k, at, n, out),
        Reached::Nothing => State::Going(n),
    }
}

// From each of the values at some places.
#[cycle(walk)]
fn walk_each(
    t: &[u8],
    w: &[u64; 256],
    q: &[usize; 72],
    v: &[u8],
    operand: &[u8],
    here: Places,
    n: usize,
    out: &mut [u64],
) -> State
    requires worded { Worded t.now w.now }
    requires goes { walk.GoesEach t.now q.now operand.now v.now here.step here.start here.stop }
    ensures { walk.WalksEach t.now q.now operand.now v.now here.step here.start here.stop n
        out.old (run.seen result out.new) }
{
    let step = here.step;
    let stop = here.stop;
    let mut at = here.start;
    let mut made = n;
    // A cursor: each value says where the next one starts.
    while at < stop {
        match walk_one(t, w, q, v, operand, Place { step, at }, made, out) {
            State::Going(more) => {
                at = next_after(v, at);
                made = more;
            }
            State::Accepted(more) => return State::Accepted(more),
            State::Over => return State::Over,
        }
    }
    State::Going(made)
}

// ---- a stored value along a plan for its type
// Its components from number n on, in lent memory.
pub fn list(t: &[u8], w: &[u64; 256], q: &[usize; 72], v: &[u8], n: usize, out: &mut [u64]) -> State
    requires worded { Worded t.now w.now }
    requires asks { walk.Asks t.now q.now [] v.now }
    ensures { walk.Answers t.now q.now [] v.now n out.old (run.seen result out.new) }
{
    let whole = Places {
        step: 1,
        start: 0,
        stop: v.len(),
    };
    walk_each(t, w, q, v, b"", whole, n, out)
}

// Tests of its components, after n tests: with the operand, and no memory.
pub fn test(t: &[u8], w: &[u64; 256], q: &[usize; 72], v: &[u8], operand: &[u8], n: usize) -> State
    requires worded { Worded t.now w.now }
    requires asks { walk.Asks t.now q.now operand.now v.now }
    ensures { walk.Tests t.now q.now operand.now v.now n result }
{
    let mut out = [0u64; 0];
    let whole = Places {
        step: 1,
        start: 0,
        stop: v.len(),
    };
    walk_each(t, w, q, v, operand, whole, n, &mut out)
}

// How many they are, after n.
pub fn tally(t: &[u8], w: &[u64; 256], q: &[usize; 72], v: &[u8], n: usize) -> usize
    requires worded { Worded t.now w.now }
    requires asks { walk.Asks t.now q.now [] v.now }
    ensures { walk.Tallies t.now q.now v.now n result }
{
    match test(t, w, q, v, b"", n) {
        State::Going(k) => k,
        State::Accepted(k) => k,
        State::Over => n,
    }
}
