// Clauses of "Admitted" in one pass from the first row to the last: each row's body, where rows stand, names, numbers of bits.
#![tactic(auto)]

ghost use Rattle.std.specs.Prelude.{◌≡◌, true, ◌≤◌, ◌<◌, ◌+◌, length};
ghost use Rattle.octets.specs.Pick.{pick};
ghost use Rattle.rows.specs.Row as row;
ghost use Rattle.rows.specs.Inner.Sizes.{WholeFollower};
ghost use Rattle.clauses.specs.Clauses as clause;
ghost use Rattle.clauses.specs.Inner.Work as work;
ghost use Rattle.rows.specs.Paper.{table_limits};

use der::Kind;
use rows::Table;

// ---- the first pass: bodies, where rows stand, names and numbers
// Whether the row at p has another name than each from row `first` on and before row n.
fn new_name(t: &[u8], w: &[u64; 256], first: usize, n: usize, p: usize) -> bool
    requires few { n ≤ table_limits.rows }
    requires before { work.FollowersIn t.now w.now first n }
    requires here { WholeFollower t.now p }
    ensures { result ≡ work.new_name_at t.now w.now first n p }
{
    for i in first..n {
        if rows::same_name(t, w[2 * i] as usize, p) {
            return false;
        }
    }
    true
}

// Whether the bit at p has another number than each from row `first` on and before row n.
fn new_number(t: &[u8], w: &[u64; 256], first: usize, n: usize, p: usize) -> bool
    requires few { n ≤ table_limits.rows }
    requires before { work.FollowersIn t.now w.now first n }
    requires here { WholeFollower t.now p }
    ensures { result ≡ work.new_number_at t.now w.now first n p }
{
    let number = t[p + 25];
    for i in first..n {
        if t[w[2 * i] as usize + 25] == number {
            return false;
        }
    }
    true
}

// The octets of the row at p, of a kind that follows another, behind those from row `first` on and before row n; 0 where it isn't as it has to be.
fn follower_size(t: &[u8], w: &[u64; 256], first: usize, n: usize, p: usize) -> usize
    requires few { n ≤ table_limits.rows }
    requires before { work.FollowersIn t.now w.now first n }
    requires inside { p < length t.now }
    requires follows { row.is_follower (row.kind_at t.now p) ≡ true }
    ensures size { result ≡ work.follower_size t.now w.now first n p }
    ensures inside { p + result ≤ length t.now }
{
    let size = rows::follower_size(t, p);
    if size == 0 {
        return 0;
    }
    if !new_name(t, w, first, n, p) {
        return 0;
    }
    if t[p] == Kind::NAMED_BIT && !new_number(t, w, first, n, p) {
        return 0;
    }
    size
}

// How many rows a table has, with their places in every second number of w; 0 where a clause on bodies, on where rows stand, on names or on numbers doesn't
// hold.
pub fn scan(t: &[u8], w: &mut [u64; 256]) -> usize
    ensures count { result
        ≡ pick (work.first_pass table_limits t.now (row.rows table_limits.rows t.now))
        (length (row.rows table_limits.rows t.now)) 0 }
    ensures places { work.Placed t.now w.new result }
{
    let mut at = 0;
    let mut n = 0;
    let mut follower = 0;
    let mut due = 0;
    let mut first = 0;
    // A cursor: each row says where the next one starts.
    while at < t.len() {
        if n == Table::MAX_ROWS {
            return 0;
        }
        w[2 * n] = at as u64;
        let kind = t[at];
        if due != 0 {
            if !rows::stands_as(kind, follower) {
                return 0;
            }
            let size = follower_size(t, w, first, n, at);
            if size == 0 {
                return 0;
            }
            at += size;
            n += 1;
            due -= 1;
        } else {
            let size = rows::type_size(t, at);
            if size == 0 {
                return 0;
            }
            follower = rows::follower_kind(kind);
            due = rows::followers_at(t, at, follower);
            at += size;
            n += 1;
            first = n;
        }
    }
    if due != 0 {
        return 0;
    }
    n
}

// ---- defaults
// Whether a default of these contents is allowed on a kind.
pub fn default_allowed(k: u8, c: &[u8]) -> bool
    ensures { result ≡ clause.default_allowed k c.now }
{
    octets::within(Kind::BOOLEAN, Kind::ENUMERATED, k) && der::legal_contents(k, c)
}
