// The filter text: reading it, with its depth and its items within the limits. No tree is made of it.
#![tactic(auto)]

ghost use Rattle.std.specs.Prelude.{◌≡◌};
ghost use Rattle.assertion.specs.Spaces.{mark_at, open_brace};
ghost use Rattle.assertion.specs.Assertion.{assertion_at};
ghost use Rattle.filter.specs.Filter.{item};
ghost use Rattle.filter.specs.Parse as parsing;
ghost use Rattle.filter.specs.Inner.Answers as answers;
ghost use Rattle.filter.specs.Paper.{filter_limits};

// A filter: how many items it has, and the limits of every filter.
#[derive(Clone, Copy)]
pub struct Filter {
    pub items: usize,
}

impl Filter {
    pub const MIN_BYTES: usize = 1;

    pub const MAX_BYTES: usize = 2048;

    pub const MAX_DEPTH: usize = 16;

    pub const MAX_ITEMS: usize = 64;

    fn of(items: usize) -> Self
        ensures { result.items ≡ items }
    {
        Self { items }
    }

    // Whether a text has a filter's size.
    pub fn fits(text: &[u8]) -> bool
        ensures { result ≡ parsing.filter_fits filter_limits text.now }
    {
        (Self::MIN_BYTES..=Self::MAX_BYTES).contains(&text.len())
    }
}

#[derive(Clone, Copy)]
pub enum Join {
    And,
    Or,
}

// What a filter begins with: an assertion at a place, an empty list that ends at a place, a list whose first filter is at a place, or a
// filter under `not:` at a place.
#[derive(Clone, Copy)]
pub enum Head {
    Assertion(usize),
    EmptyList(Join, usize),
    OpenList(Join, usize),
    Negation(usize),
}

// What follows a filter in a list: another filter at a place, or the list's end before a place.
#[derive(Clone, Copy)]
pub enum Tail {
    Another(usize),
    Closed(usize),
}

// What is left behind a filter that was read: the place after it, and the items left of those allowed.
#[derive(Clone, Copy)]
struct Rest {
    after: usize,
    left: usize,
}

// ---- heads and tails
// What a list begins with, from its opening brace on.
fn list_head(s: &[u8], at: usize, join: Join) -> Option<Head>
    ensures { answers.report_head result ≡ parsing.in_braces s.now (answers.report_join join) (mark_at open_brace s.now at) }
{
    let p = assertion::mark_at(s, at, b'{')?;
    if octets::octet(s, p) != b'}' {
        return Some(Head::OpenList(join, p));
    }
    Some(Head::EmptyList(join, p + 1))
}

pub fn read_head(s: &[u8], at: usize) -> Option<Head>
    ensures { answers.report_head result ≡ parsing.head_at s.now at }
{
    if let Some(p) = assertion::word_at(s, at, b"item:") {
        return Some(Head::Assertion(p));
    }
    if let Some(p) = assertion::word_at(s, at, b"and:") {
        return list_head(s, p, Join::And);
    }
    if let Some(p) = assertion::word_at(s, at, b"or:") {
        return list_head(s, p, Join::Or);
    }
    if let Some(p) = assertion::word_at(s, at, b"not:") {
        return Some(Head::Negation(p));
    }
    None
}

pub fn read_tail(s: &[u8], at: usize) -> Option<Tail>
    ensures { answers.report_tail result ≡ parsing.tail_at s.now at }
{
    if let Some(q) = assertion::mark_at(s, at, b',') {
        return Some(Tail::Another(q));
    }
    let p = octets::skip(s, at);
    if octets::octet(s, p) != b'}' {
        return None;
    }
    Some(Tail::Closed(p + 1))
}

// ---- filters and lists
// The assertion of an item, one of the items that are left.
fn read_item(s: &[u8], at: usize, room: usize) -> Option<Rest>
    ensures { result ≡ answers.bounded 1 room (parsing.made item (assertion_at s.now at)) }
{
    if room == 0 {
        return None;
    }
    let parts = assertion::read_assertion(s, at)?;
    Some(Rest {
        after: parts.after,
        left: room - 1,
    })
}

// The filter at a place, within so much depth and so many items.
#[cycle(read)]
fn read_filter(s: &[u8], at: usize, depth: usize, room: usize) -> Option<Rest>
    ensures { result ≡ answers.bounded depth room (parsing.filter_at s.now at) }
{
    if depth == 0 {
        return None;
    }
    match read_head(s, at)? {
        Head::Assertion(p) => read_item(s, p, room),
        Head::EmptyList(_, p) => Some(Rest {
            after: p,
            left: room,
        }),
        Head::OpenList(_, p) => read_list(s, p, depth - 1, room),
        Head::Negation(p) => read_filter(s, p, depth - 1, room),
    }
}

// The filters of a list, from one of them on, within so much depth and so many items.
#[cycle(read)]
fn read_list(s: &[u8], at: usize, depth: usize, room: usize) -> Option<Rest>
    ensures { result ≡ answers.bounded_in depth room (answers.filters_at s.now at) }
{
    let mut i = at;
    let mut left = room;
    // A cursor: each filter says where the next one starts.
    loop {
        let rest = read_filter(s, i, depth, left)?;
        match read_tail(s, rest.after)? {
            Tail::Another(p) => {
                i = p;
                left = rest.left;
            }
            Tail::Closed(p) => return Some(Rest { after: p, ..rest }),
        }
    }
}

// ---- the whole text
// The filter that a text is; malformed, too deep and too many items are one refusal.
pub fn read(text: &[u8]) -> Option<Filter>
    ensures { answers.report result ≡ answers.items_of (parsing.parse filter_limits text.now) }
{
    if !octets::utf8(text) {
        return None;
    }
    let rest = read_filter(text, 0, Filter::MAX_DEPTH, Filter::MAX_ITEMS)?;
    if rest.after != text.len() {
        return None;
    }
    Some(Filter::of(Filter::MAX_ITEMS - rest.left))
}
