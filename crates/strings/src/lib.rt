// Strings: quoted in a value text, prepared for comparing. A stored string is compared image by image, and never written as prepared.
#![tactic(auto)]

ghost use Rattle.std.specs.Prelude.{◌≡◌, true, false, ◌≤◌, ◌<◌, ◌+◌, ◌*◌, [], ◌∷◌, ◌++◌, length, drop};
ghost use Rattle.octets.specs.Pick.{is_some};
ghost use Rattle.octets.specs.Octets.{octet, same, part};
ghost use Rattle.octets.specs.Quoted.{undoubled, unquoted};
ghost use Rattle.strings.specs.Asserted as asserted;
ghost use Rattle.strings.specs.Prepared.{is_pair, images, after_space, prepared};
ghost use Rattle.strings.specs.Inner.Shapes as shapes;
ghost use Rattle.strings.specs.Inner.Comparing as inner;
ghost use Rattle.strings.specs.Inner.Escaped.{unescaped};
ghost use Rattle.strings.specs.declared.Form.{Form};

use std::ops::ControlFlow;

// How a string stands: stored; between quotes, two quotes for one; or there with escapes too (RFC 4514).
#[derive(Clone, Copy)]
pub enum Form {
    Stored,
    Quoted,
    Escaped,
}

// What stands before a place: no character yet, a character, or a space after one.
#[derive(Clone, Copy)]
pub enum Before {
    Nothing,
    Character,
    Space,
}

// The octets of an image, the first in the lowest bits, and their number.
#[derive(Clone, Copy)]
pub struct Octets {
    pub word: u64,
    pub count: usize,
}

// The image of a character: a space to be dropped or joined, or octets.
#[derive(Clone, Copy)]
pub enum Shape {
    Blank,
    Shown(Octets),
}

// The image of a character of a string, and the place after the character.
#[derive(Clone, Copy)]
pub struct Piece {
    pub shape: Shape,
    pub after: usize,
}

// The next image of a string that has octets: whether a space comes before it, its octets, and the place after its character.
#[derive(Clone, Copy)]
pub struct Found {
    pub space: bool,
    pub octets: Octets,
    pub after: usize,
}

// A stored string beside other octets: a place in each, and the octets of an image that come before what stands at the place in the string.
#[derive(Clone, Copy)]
pub struct Sides {
    pub at: usize,
    pub i: usize,
    pub word: u64,
    pub count: usize,
}

// ---- quoted strings
// What stands between the quotes of a text that is one quoted string; of any other text, nothing.
pub fn quoted_part(t: &[u8]) -> &[u8]
    ensures characters { undoubled result.now ≡ asserted.asserted_text t.now }
    ensures short { length result.now ≤ length t.now }
{
    let Some(close) = octets::closing_at(t, 0) else {
        return octets::part(t, 0, 0);
    };
    if t.len() <= close {
        return octets::part(t, 0, 0);
    }
    if t.len() - close != 1 {
        return octets::part(t, 0, 0);
    }
    if close == 0 {
        return octets::part(t, 1, 0);
    }
    octets::part(t, 1, close - 1)
}

// Whether a text is one quoted string.
pub fn is_quoted(t: &[u8]) -> bool
    ensures { result ≡ is_some (unquoted t.now) }
{
    let Some(close) = octets::closing_at(t, 0) else {
        return false;
    };
    close < t.len() && t.len() - close == 1
}

// Whether a value text conforms: one quoted string of at least one character.
pub fn is_text(t: &[u8]) -> bool
    ensures { result ≡ asserted.is_text t.now }
{
    let p = quoted_part(t);
    1 <= p.len()
}

// ---- octets of a string
// The octet at a place of a quoted string, where two quotes are one, and the place after it.
fn quoted_octet(s: &[u8], at: usize) -> Option<(u8, usize)>
    requires { at < length s.now }
    ensures { inner.report_octet Form.Quoted s.now result ≡ undoubled (drop at s.now) }
{
    if s[at] != b'"' {
        return Some((s[at], at + 1));
    }
    if s.len() - at < 2 {
        return Some((b'"', at + 1));
    }
    if s[at + 1] != b'"' {
        return Some((b'"', at + 1));
    }
    Some((b'"', at + 2))
}

// The octet behind a backslash at a place of an escaped string: what three octets, the backslash among them, stand for.
fn pair_octet(s: &[u8], at: usize) -> Option<(u8, usize)>
    requires here { at + 2 < length s.now }
    requires backslash { octet s.now at ≡ 92 }
    ensures { inner.report_octet Form.Escaped s.now result ≡ unescaped (drop at s.now) }
{
    let c = s[at + 1];
    let d = s[at + 2];
    if c == b'"' {
        if d == b'"' {
            return Some((b'"', at + 3));
        }
        return Some((b'"', at + 2));
    }
    if octets::is_hex_pair(c, d) {
        return Some((octets::hex_octet(c, d), at + 3));
    }
    Some((c, at + 2))
}

fn escaped_octet(s: &[u8], at: usize) -> Option<(u8, usize)>
    requires { at < length s.now }
    ensures { inner.report_octet Form.Escaped s.now result ≡ unescaped (drop at s.now) }
{
    if s[at] != b'\\' {
        return Some((s[at], at + 1));
    }
    if s.len() - at == 1 {
        return Some((b'\\', at + 1));
    }
    if s.len() - at == 2 {
        return Some((s[at + 1], at + 2));
    }
    pair_octet(s, at)
}

// The octet at a place of a string of a form. Inlined: a call hands its answer over in memory, which costs more than the reading.
#[inline(always)]
fn read_octet(s: &[u8], form: Form, at: usize) -> Option<(u8, usize)>
    ensures { inner.report_octet form s.now result ≡ inner.octets_of form (drop at s.now) }
{
    if s.len() <= at {
        return None;
    }
    match form {
        Form::Stored => Some((s[at], at + 1)),
        Form::Quoted => quoted_octet(s, at),
        Form::Escaped => escaped_octet(s, at),
    }
}

// Whether an octet of a string of a form stands for itself whatever comes after it.
fn is_itself(form: Form, b: u8) -> bool
    ensures { result ≡ inner.is_itself form b }
{
    match form {
        Form::Stored => true,
        Form::Quoted => b != b'"',
        Form::Escaped => b != b'\\',
    }
}

// The octet at a place of a string of a form; most stand for themselves.
fn read_letter(s: &[u8], form: Form, at: usize) -> Option<(u8, usize)>
    ensures { inner.report_octet form s.now result ≡ inner.octets_of form (drop at s.now) }
{
    if s.len() <= at {
        return None;
    }
    let b = s[at];
    if is_itself(form, b) {
        return Some((b, at + 1));
    }
    read_octet(s, form, at)
}

// An octet as it is compared.
fn fold_octet(fold: bool, b: u8) -> u8
    ensures { result ≡ inner.fold_octet fold b }
{
    if fold {
        return octets::lower(b);
    }
    b
}

// ---- images
fn several(word: u64, count: usize) -> Shape
    ensures { result ≡ shapes.several word count }
{
    Shape::Shown(Octets { word, count })
}

fn single(b: u8) -> Shape
    ensures shape { result ≡ shapes.single b }
    ensures octet { b ≤ 255 }
{
    several(u64::from(b), 1)
}

// The two octets of a character below U+0800.
fn double(c: u64) -> Shape
    requires { c < 2048 }
    ensures { result ≡ shapes.double c }
{
    several(c / 64 + 192 + (c % 64 + 128) * 256, 2)
}

fn control_shape(b: u8) -> Shape
    ensures { result ≡ shapes.control_shape b }
{
    if octets::within(9, 13, b) {
        return Shape::Blank;
    }
    several(0, 0)
}

// Up to U+007F.
#[tactic(auto, using(octets::proofs::Tests::tests), unfolding(crate::specs::Inner::Shapes::low_shape))]
fn low_shape(b: u8, fold: bool) -> Shape
    ensures { result ≡ shapes.low_shape fold b }
{
    if b == b' ' {
        return Shape::Blank;
    }
    if b < b' ' {
        return control_shape(b);
    }
    if b == 127 {
        return several(0, 0);
    }
    single(fold_octet(fold, b))
}

// Accents that stand alone, and fractions.
#[tactic(auto, using(octets::proofs::Tests::tests), unfolding(crate::specs::Inner::Shapes::mark_shape))]
fn mark_shape(c: u64) -> Shape
    requires { c < 2048 }
    ensures { result ≡ shapes.mark_shape c }
{
    match c {
        0xA8 => several(0x88CC20, 3),
        0xAF => several(0x84CC20, 3),
        0xB4 => several(0x81CC20, 3),
        0xB8 => several(0xA7CC20, 3),
        0xBC => several(0x348481E231, 5),
        0xBD => several(0x328481E231, 5),
        0xBE => several(0x348481E233, 5),
        _ => double(c),
    }
}

// U+00A1 to U+00BF.
#[tactic(auto, using(octets::proofs::Tests::tests), unfolding(crate::specs::Inner::Shapes::sign_shape))]
fn sign_shape(c: u64) -> Shape
    requires { c < 2048 }
    ensures { result ≡ shapes.sign_shape c }
{
    match c {
        0xAA => single(97),
        0xAD => several(0, 0),
        0xB2 => single(50),
        0xB3 => single(51),
        0xB5 => several(0xBCCE, 2),
        0xB9 => single(49),
        0xBA => single(111),
        _ => mark_shape(c),
    }
}

// U+0080 to U+00BF.
#[tactic(auto, using(octets::proofs::Tests::tests), unfolding(crate::specs::Inner::Shapes::middle_shape))]
fn middle_shape(c: u64) -> Shape
    requires { c < 2048 }
    ensures { result ≡ shapes.middle_shape c }
{
    if c == 0x85 {
        return Shape::Blank;
    }
    if c < 0xA0 {
        return several(0, 0);
    }
    if c == 0xA0 {
        return Shape::Blank;
    }
    sign_shape(c)
}

// From U+00C0 on, not folded.
#[tactic(auto, using(octets::proofs::Tests::tests), unfolding(crate::specs::Inner::Shapes::exact_shape))]
fn exact_shape(c: u64) -> Shape
    requires { c < 2048 }
    ensures { result ≡ shapes.exact_shape c }
{
    match c {
        0x0132 => several(0x4A49, 2),
        0x0133 => several(0x6A69, 2),
        0x013F => several(0xB7C24C, 3),
        0x0140 => several(0xB7C26C, 3),
        0x0149 => several(0x6EBCCA, 3),
        0x017F => single(115),
        _ => double(c),
    }
}

// Whether the small letter of a capital one comes next to it.
#[tactic(auto, using(octets::proofs::Tests::tests), unfolding(crate::specs::Inner::Shapes::is_capital))]
fn is_capital(c: u64) -> bool
    ensures { result ≡ shapes.is_capital c }
{
    if c < 0x0138 {
        return c % 2 == 0;
    }
    if c < 0x0149 {
        return c % 2 == 1;
    }
    if c < 0x0178 {
        return c % 2 == 0;
    }
    c % 2 == 1
}

fn paired_shape(c: u64) -> Shape
    requires { c < 2047 }
    ensures { result ≡ shapes.paired_shape c }
{
    if is_capital(c) {
        return double(c + 1);
    }
    exact_shape(c)
}

// From U+0100 on, folded.
#[tactic(auto, using(octets::proofs::Tests::tests), unfolding(crate::specs::Inner::Shapes::extended_shape))]
fn extended_shape(c: u64) -> Shape
    requires { c < 2047 }
    ensures { result ≡ shapes.extended_shape c }
{
    match c {
        0x0130 => several(0x87CC69, 3),
        0x0132 => several(0x6A69, 2),
        0x013F => several(0xB7C26C, 3),
        0x0178 => several(0xBFC3, 2),
        0x017F => single(115),
        _ => paired_shape(c),
    }
}

// U+00C0 to U+00FF, folded.
#[tactic(auto, using(octets::proofs::Tests::tests), unfolding(crate::specs::Inner::Shapes::latin_shape))]
fn latin_shape(c: u64) -> Shape
    requires { c < 2000 }
    ensures { result ≡ shapes.latin_shape c }
{
    if c == 0xD7 {
        return double(c);
    }
    if c < 0xDF {
        return double(c + 32);
    }
    if c == 0xDF {
        return several(0x7373, 2);
    }
    double(c)
}

// From U+0080 to U+017F.
#[tactic(auto, using(octets::proofs::Tests::tests), unfolding(crate::specs::Inner::Shapes::high_shape, crate::specs::Inner::Shapes::folded_shape))]
fn high_shape(c: u64, fold: bool) -> Shape
    requires { c < 2000 }
    ensures { result ≡ shapes.high_shape fold c }
{
    if c < 0xC0 {
        return middle_shape(c);
    }
    if !fold {
        return exact_shape(c);
    }
    if c < 0x0100 {
        return latin_shape(c);
    }
    extended_shape(c)
}

// Whether two octets are a character from U+0080 to U+017F.
fn is_pair(a: u8, b: u8) -> bool
    ensures { result ≡ is_pair a b }
{
    octets::within(194, 197, a) && octets::within(128, 191, b)
}

// ---- the images of a string, one after another
// An octet from 80 on and what stands after it.
fn read_high(s: &[u8], form: Form, fold: bool, a: u8, after: usize) -> Piece
    requires { 128 ≤ a }
    ensures image { inner.report_piece fold form s.now result ≡ images fold (a ∷ inner.octets_of form (drop after s.now)) }
    ensures on { inner.left form s.now result.after ≤ inner.left form s.now after }
{
    let Some((b, end)) = read_octet(s, form, after) else {
        return Piece {
            shape: single(a),
            after,
        };
    };
    if !is_pair(a, b) {
        return Piece {
            shape: single(a),
            after,
        };
    }
    let c = (u64::from(a) - 192) * 64 + (u64::from(b) - 128);
    Piece {
        shape: high_shape(c, fold),
        after: end,
    }
}

// An octet and what stands after it.
fn read_piece(s: &[u8], form: Form, fold: bool, a: u8, after: usize) -> Piece
    ensures image { inner.report_piece fold form s.now result ≡ images fold (a ∷ inner.octets_of form (drop after s.now)) }
    ensures on { inner.left form s.now result.after ≤ inner.left form s.now after }
{
    if a < 128 {
        return Piece {
            shape: low_shape(a, fold),
            after,
        };
    }
    read_high(s, form, fold, a, after)
}

// ---- the prepared string
fn after_space(p: Before) -> Before
    ensures { result ≡ after_space p }
{
    match p {
        Before::Nothing => Before::Nothing,
        Before::Character | Before::Space => Before::Space,
    }
}

fn is_space(p: Before) -> bool
    ensures { result ≡ inner.is_space p }
{
    matches!(p, Before::Space)
}

// The next image that has octets, from a place on.
fn next_image(s: &[u8], form: Form, fold: bool, first: usize, behind: Before) -> Option<Found>
    ensures rest { inner.report_found fold form s.now result ≡ inner.rest_at fold form s.now first behind }
    ensures on { inner.Further form s.now first result }
{
    let mut at = first;
    let mut before = behind;
    // A cursor: each character says where the next one starts.
    loop {
        let (b, after) = read_letter(s, form, at)?;
        let piece = read_piece(s, form, fold, b, after);
        let shape = piece.shape;
        match shape {
            Shape::Blank => {
                before = after_space(before);
            }
            Shape::Shown(o) => {
                if 0 < o.count {
                    return Some(Found {
                        space: is_space(before),
                        octets: o,
                        after: piece.after,
                    });
                }
            }
        }
        at = piece.after;
    }
}

// ---- a stored string against one that is prepared but for folding
// Whether an octet of a stored string is as prepared, but for folding: 21 to 7E; or a space before one of these, if it isn't the first of the string.
fn is_kept(c: &[u8], i: usize) -> bool
    requires { i < length c.now }
    ensures { result ≡ inner.is_kept i (drop i c.now) }
{
    if octets::within(33, 126, c[i]) {
        return true;
    }
    if c[i] != b' ' {
        return false;
    }
    if i == 0 {
        return false;
    }
    if c.len() - i < 2 {
        return false;
    }
    octets::within(33, 126, c[i + 1])
}

// The place after an octet, if it is the one at a place, folded.
fn after_octet(b: u8, x: &[u8], fold: bool, i: usize) -> Option<usize>
    ensures { result ≡ inner.after_first fold b i (drop i x.now) }
{
    if x.len() <= i {
        return None;
    }
    if b != fold_octet(fold, x[i]) {
        return None;
    }
    Some(i + 1)
}

// What stands before a place of a string whose octets before it are kept.
#[tactic(auto, using(octets::proofs::Tests::tests))]
fn before_at(i: usize) -> Before
    ensures { result ≡ inner.before_at i }
{
    if i == 0 {
        return Before::Nothing;
    }
    Before::Character
}

// An octet that is kept, beside the next one.
fn kept_turn(c: &[u8], x: &[u8], fold: bool, s: Sides) -> ControlFlow<bool, Sides>
    requires none { s.count ≤ 0 }
    requires inside { s.at < length c.now }
    requires kept { inner.is_kept s.at (drop s.at c.now) ≡ true }
    ensures same { inner.report_turn fold c.now x.now result ≡ inner.beside fold c.now x.now s }
    ensures on { inner.Less fold c.now s result }
{
    let at = s.at;
    let Some(next) = after_octet(fold_octet(fold, c[at]), x, fold, s.i) else {
        return ControlFlow::Break(false);
    };
    ControlFlow::Continue(Sides {
        at: at + 1,
        i: next,
        word: 0,
        count: 0,
    })
}

// The next image, with its octets to come; a space before it, beside the next octet.
fn image_turn(c: &[u8], x: &[u8], fold: bool, s: Sides) -> ControlFlow<bool, Sides>
    requires { s.count ≤ 0 }
    ensures same { inner.report_turn fold c.now x.now result ≡ inner.beside fold c.now x.now s }
    ensures on { inner.Less fold c.now s result }
{
    let Some(found) = next_image(c, Form::Stored, fold, s.at, before_at(s.at)) else {
        return ControlFlow::Break(x.len() <= s.i);
    };
    if !found.space {
        return ControlFlow::Continue(Sides {
            at: found.after,
            i: s.i,
            word: found.octets.word,
            count: found.octets.count,
        });
    }
    let Some(next) = after_octet(b' ', x, fold, s.i) else {
        return ControlFlow::Break(false);
    };
    ControlFlow::Continue(Sides {
        at: found.after,
        i: next,
        word: found.octets.word,
        count: found.octets.count,
    })
}

fn next_turn(c: &[u8], x: &[u8], fold: bool, s: Sides) -> ControlFlow<bool, Sides>
    ensures same { inner.report_turn fold c.now x.now result ≡ inner.beside fold c.now x.now s }
    ensures on { inner.Less fold c.now s result }
{
    if 0 < s.count {
        let Some(next) = after_octet((s.word % 256) as u8, x, fold, s.i) else {
            return ControlFlow::Break(false);
        };
        return ControlFlow::Continue(Sides {
            at: s.at,
            i: next,
            word: s.word / 256,
            count: s.count - 1,
        });
    }
    if c.len() <= s.at {
        return ControlFlow::Break(x.len() <= s.i);
    }
    if is_kept(c, s.at) {
        return kept_turn(c, x, fold, s);
    }
    image_turn(c, x, fold, s)
}

// Whether a stored string as prepared, from a place on, is the octets from there on, folded; those before the place are kept.
fn same_from(c: &[u8], x: &[u8], fold: bool, first: usize) -> bool
    ensures { result ≡ inner.same_from fold c.now x.now first }
{
    let mut s = Sides {
        at: first,
        i: first,
        word: 0,
        count: 0,
    };
    // A cursor: each turn says where both sides go on.
    loop {
        match next_turn(c, x, fold, s) {
            ControlFlow::Break(same) => return same,
            ControlFlow::Continue(next) => s = next,
        }
    }
}

// Whether a stored string as prepared is these octets, folded.
pub fn same_prepared(c: &[u8], x: &[u8], fold: bool) -> bool
    ensures { result ≡ same (prepared fold c.now) (inner.folded fold x.now) }
{
    for (i, b) in c.iter().enumerate() {
        if !is_kept(c, i) {
            return same_from(c, x, fold, i);
        }
        let Some(_) = after_octet(fold_octet(fold, *b), x, fold, i) else {
            return false;
        };
    }
    x.len() <= c.len()
}

// Whether an octet keeps what stands between quotes from being as prepared but for folding: a quote, a control, an octet from 7F on, or a space behind another
// or at the start.
#[tactic(auto, using(octets::proofs::Tests::tests))]
fn is_loose(space: bool, b: u8) -> bool
    ensures { result ≡ inner.is_loose space b }
{
    match b {
        b'"' => true,
        b' ' => space,
        _ => !octets::within(33, 126, b),
    }
}

// Whether what stands between quotes is as prepared but for folding: no quote, no control, nothing from U+007F on, no space first, last or twice.
pub fn is_plain(p: &[u8]) -> bool
    ensures { result ≡ inner.is_plain true p.now }
{
    let mut space = true;
    for b in p {
        if is_loose(space, *b) {
            return false;
        }
        space = *b == b' ';
    }
    !space
}

// Writes a space where one is due, and answers the place after it.
fn put_space(space: bool, n: usize, memory: &mut [u8; 5120]) -> usize
    requires { n + length (inner.gap space []) ≤ 5120 }
    ensures written { part memory.new 0 result ≡ part memory.old 0 n ++ inner.gap space [] }
    ensures place { result ≡ n + length (inner.gap space []) }
{
    if !space {
        return n;
    }
    memory[n] = b' ';
    n + 1
}

// Writes octets, and answers the place after them.
fn put_octets(o: Octets, n: usize, memory: &mut [u8; 5120]) -> usize
    requires { n + o.count ≤ 5120 }
    ensures written { part memory.new 0 result ≡ part memory.old 0 n ++ shapes.unpacked o.word o.count }
    ensures place { result ≡ n + o.count }
{
    let mut word = o.word;
    let end = n + o.count;
    for at in n..end {
        memory[at] = (word % 256) as u8;
        word /= 256;
    }
    end
}

// Writes a string as prepared behind what stands in memory up to a place, and answers the place after it.
pub fn prepare_behind(
    p: &[u8],
    form: Form,
    fold: bool,
    from: usize,
    memory: &mut [u8; 5120],
) -> usize
    requires { 2 * from + 5 * length p.now ≤ 10240 }
    ensures written { part memory.new 0 result ≡ part memory.old 0 from ++ prepared fold (inner.octets_of form p.now) }
    ensures place { result ≡ from + length (prepared fold (inner.octets_of form p.now)) }
    ensures most { 2 * result ≤ 2 * from + 5 * length p.now }
{
    let mut at = 0;
    let mut before = Before::Nothing;
    let mut n = from;
    // A cursor: each image says where the next one starts.
    while let Some(found) = next_image(p, form, fold, at, before) {
        let start = put_space(found.space, n, memory);
        n = put_octets(found.octets, start, memory);
        at = found.after;
        before = Before::Character;
    }
    n
}

// Writes what stands between quotes as prepared, and answers its length.
pub fn prepare(p: &[u8], fold: bool, memory: &mut [u8; 5120]) -> usize
    requires { length p.now ≤ 2048 }
    ensures { part memory.new 0 result ≡ prepared fold (undoubled p.now) }
{
    prepare_behind(p, Form::Quoted, fold, 0, memory)
}
