// The assertion of an item: where each of its parts stands in the text.
#![tactic(auto)]

ghost use Rattle.std.specs.Prelude.{◌≡◌, ◌<◌, length, drop};
ghost use Rattle.octets.specs.Octets.{every};
ghost use Rattle.octets.specs.Text.{trimmed};
ghost use Rattle.assertion.specs.Spaces as spaces;
ghost use Rattle.assertion.specs.ValueText as text;
ghost use Rattle.assertion.specs.Assertion as assertion;
ghost use Rattle.assertion.specs.Inner.Work as work;
ghost use Rattle.assertion.specs.Inner.Places as places;

// Where the two quotes of a component reference stand.
#[derive(Clone, Copy)]
pub struct Quotes {
    pub open: usize,
    pub close: usize,
}

// A rule or a value text: where it starts and ends, and where what follows it stands: the next part, or the closing brace.
#[derive(Clone, Copy)]
struct Part {
    start: usize,
    end: usize,
    after: usize,
}

// Where each part of an assertion stands, its component reference if it has one, and the place after the assertion.
#[derive(Clone, Copy)]
pub struct Parts {
    pub component: Option<Quotes>,
    pub defaults: bool,
    pub rule: usize,
    pub rule_end: usize,
    pub value: usize,
    pub value_end: usize,
    pub after: usize,
}

// ---- parts of a text
// What stands between two quotes, doubled quotes as they are.
pub fn within_quotes(s: &[u8], a: usize, b: usize) -> &[u8]
    ensures { result.now ≡ places.within_quotes s.now a b }
{
    if b <= a {
        return octets::part(s, a, 0);
    }
    octets::between(s, a + 1, b)
}

// ---- words, labels and marks
// The place after a word that stands at a place.
pub fn word_at(s: &[u8], at: usize, w: &[u8]) -> Option<usize>
    ensures { result ≡ places.word_at w.now s.now at }
{
    if !octets::starts(s, at, w) {
        return None;
    }
    Some(at + w.len())
}

// What follows a label at a place and the spaces after it, one at least.
fn label_at(s: &[u8], at: usize, w: &[u8]) -> Option<usize>
    ensures { result ≡ spaces.label_at w.now s.now at }
{
    let p = word_at(s, at, w)?;
    if octets::octet(s, p) != b' ' {
        return None;
    }
    Some(octets::skip(s, p))
}

// What follows a character at a place and any spaces after it.
pub fn mark_at(s: &[u8], at: usize, c: u8) -> Option<usize>
    requires { 0 < c }
    ensures { result ≡ spaces.mark_at c s.now at }
{
    if octets::octet(s, at) != c {
        return None;
    }
    Some(octets::skip(s, at + 1))
}

// ---- the value text
// The closing brace from a place on that is neither in double quotes nor paired with an opening one behind that place. Most octets are less than both braces,
// so that one comparison passes them by.
fn brace_at(s: &[u8], at: usize) -> Option<usize>
    ensures { result ≡ text.brace_at s.now at }
{
    let mut inner: usize = 0;
    let mut quoted = false;
    for i in at..s.len() {
        let b = s[i];
        if b == b'"' {
            quoted = !quoted;
        } else if b'{' <= b {
            match b {
                b'{' if !quoted => inner += 1,
                b'}' if !quoted => {
                    if inner == 0 {
                        return Some(i);
                    }
                    inner -= 1;
                }
                _ => {}
            }
        }
    }
    None
}

// The length of a text without its spaces at the end.
fn trimmed_length(t: &[u8]) -> usize
    ensures { result ≡ length (trimmed t.now) }
{
    t.iter().rposition(|b| *b != b' ').map_or(0, |i| i + 1)
}

// ---- the rule
// The first comma from a place on.
fn comma_at(s: &[u8], at: usize) -> Option<usize>
    ensures { result ≡ assertion.comma_from (drop at s.now) at }
{
    for i in at..s.len() {
        if s[i] == b',' {
            return Some(i);
        }
    }
    None
}

fn is_name_letter(b: u8) -> bool
    ensures { result ≡ assertion.is_name_letter b }
{
    octets::is_alnum(b) || b == b'-'
}

fn all_name_letters(t: &[u8]) -> bool
    ensures { result ≡ every assertion.is_name_letter t.now }
{
    t.iter().all(|b| is_name_letter(*b))
}

// A name: a letter, then letters, digits, hyphens.
#[tactic(auto, using(crate::proofs::Steps::rule_name_is))]
fn is_rule_name(t: &[u8]) -> bool
    ensures { result ≡ assertion.is_rule_name t.now }
{
    octets::is_letter(octets::octet(t, 0)) && all_name_letters(t)
}

// ---- `component`
fn quoted_part(s: &[u8], at: usize) -> Option<(Option<Quotes>, usize)>
    ensures { places.report_component_part s.now result ≡ assertion.quoted_part s.now at }
{
    let close = octets::closing_at(s, at)?;
    let p = mark_at(s, close + 1, b',')?;
    Some((Some(Quotes { open: at, close }), p))
}

fn component_part(s: &[u8], at: usize) -> Option<(Option<Quotes>, usize)>
    ensures { places.report_component_part s.now result ≡ assertion.component_at s.now at }
{
    let Some(p) = label_at(s, at, b"component") else {
        return Some((None, at));
    };
    quoted_part(s, p)
}

// ---- `useDefaultValues`
fn truth_followed(s: &[u8], at: usize, d: bool) -> Option<(bool, usize)>
    ensures { places.report_defaults_part result ≡ assertion.followed s.now at d }
{
    let p = mark_at(s, at, b',')?;
    Some((d, p))
}

fn truth_part(s: &[u8], at: usize) -> Option<(bool, usize)>
    ensures { places.report_defaults_part result ≡ assertion.truth_part s.now at }
{
    if let Some(p) = word_at(s, at, b"TRUE") {
        return truth_followed(s, p, true);
    }
    if let Some(p) = word_at(s, at, b"FALSE") {
        return truth_followed(s, p, false);
    }
    None
}

fn defaults_part(s: &[u8], at: usize) -> Option<(bool, usize)>
    ensures { places.report_defaults_part result ≡ assertion.defaults_at s.now at }
{
    let Some(p) = label_at(s, at, b"useDefaultValues") else {
        return Some((true, at));
    };
    truth_part(s, p)
}

// ---- `value`
fn value_text(s: &[u8], at: usize) -> Option<Part>
    ensures { places.report_value_part s.now result ≡ text.value_text_at s.now at }
{
    let brace = brace_at(s, at)?;
    let n = trimmed_length(octets::part(s, at, brace - at));
    if n == 0 {
        return None;
    }
    Some(Part {
        start: at,
        end: at + n,
        after: brace,
    })
}

fn value_part(s: &[u8], at: usize) -> Option<Part>
    ensures { places.report_value_part s.now result ≡ assertion.value_at s.now at }
{
    let p = label_at(s, at, b"value")?;
    value_text(s, p)
}

// ---- `rule`
#[tactic(auto, unfolding(crate::specs::Assertion::is_rule))]
fn is_rule(t: &[u8]) -> bool
    ensures { result ≡ assertion.is_rule t.now }
{
    is_rule_name(t) || dotted::is_dotted(t)
}

// The rule that starts at a place, up to its comma.
fn rule_from(s: &[u8], at: usize) -> Option<Part>
    ensures { places.report_rule_part s.now result ≡ work.rule_from s.now at }
{
    let end = comma_at(s, at)?;
    if !is_rule(octets::part(s, at, end - at)) {
        return None;
    }
    let after = mark_at(s, end, b',')?;
    Some(Part {
        start: at,
        end,
        after,
    })
}

fn rule_part(s: &[u8], at: usize) -> Option<Part>
    ensures { places.report_rule_part s.now result ≡ assertion.rule_at s.now at }
{
    let p = label_at(s, at, b"rule")?;
    rule_from(s, p)
}

// ---- the assertion
// Rule and value, behind a component and useDefaultValues.
fn read_values(s: &[u8], component: Option<Quotes>, defaults: bool, at: usize) -> Option<Parts>
    ensures { places.report_assertion s.now result ≡ work.values_at s.now (places.component_of s.now component) defaults at }
{
    let rule = rule_part(s, at)?;
    let value = value_part(s, rule.after)?;
    Some(Parts {
        component,
        defaults,
        rule: rule.start,
        rule_end: rule.end,
        value: value.start,
        value_end: value.end,
        after: value.after + 1,
    })
}

// The four parts, behind the opening brace.
fn read_parts(s: &[u8], at: usize) -> Option<Parts>
    ensures { places.report_assertion s.now result ≡ work.parts_at s.now at }
{
    let (component, p) = component_part(s, at)?;
    let (defaults, q) = defaults_part(s, p)?;
    read_values(s, component, defaults, q)
}

// The braced assertion at a place: where its parts stand.
pub fn read_assertion(s: &[u8], at: usize) -> Option<Parts>
    ensures { places.report_assertion s.now result ≡ assertion.assertion_at s.now at }
{
    let p = mark_at(s, at, b'{')?;
    read_parts(s, p)
}
