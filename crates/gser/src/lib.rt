// A GSER list of names in a value text: `{ print, perform }`.
#![tactic(auto)]

ghost use Rattle.std.specs.Prelude.{◌≡◌, ◌∷◌, ◌≤◌, ◌-◌, length, drop};
ghost use Rattle.octets.specs.Octets.{part};
ghost use Rattle.gser.specs.Listed as listed;
ghost use Rattle.gser.specs.Inner.Parts as parts;

// Whether a text stands in braces.
#[tactic(auto, unfolding(crate::specs::Listed::in_braces))]
pub fn in_braces(t: &[u8]) -> bool
    ensures { result ≡ listed.in_braces t.now }
{
    matches!(t, [b'{', .., b'}'])
}

// A text without the spaces after it.
fn before_spaces(s: &[u8]) -> &[u8]
    ensures { result.now ≡ listed.before_spaces s.now }
{
    for last in (0..s.len()).rev() {
        if s[last] != b' ' {
            return &s[..last + 1];
        }
    }
    &s[..0]
}

// What stands between the braces, without the spaces before the last.
#[tactic(auto, unfolding(crate::specs::Listed::inside))]
pub fn inside(t: &[u8]) -> &[u8]
    ensures { result.now ≡ listed.inside t.now }
{
    before_spaces(octets::part(t, 1, t.len().saturating_sub(2)))
}

// The first comma from a place on, or the end.
pub fn part_end(s: &[u8], at: usize) -> usize
    requires { at ≤ length s.now }
    ensures after { at ≤ result }
    ensures within { result ≤ length s.now }
    ensures parts { listed.parted (drop at s.now) ≡ part s.now at (result - at) ∷ parts.parted_behind s.now result }
{
    for i in at..s.len() {
        if s[i] == b',' {
            return i;
        }
    }
    s.len()
}

// The first place from `at` on, up to `end`, that is no space's.
pub fn skip_spaces(s: &[u8], at: usize, end: usize) -> usize
    requires ordered { at ≤ end }
    requires within { end ≤ length s.now }
    ensures after { at ≤ result }
    ensures before { result ≤ end }
    ensures rest { part s.now result (end - result) ≡ listed.after_spaces (part s.now at (end - at)) }
{
    for i in at..end {
        if s[i] != b' ' {
            return i;
        }
    }
    end
}
