// The parts of a rule: its separators and the elements of its lists.
ghost use Rattle.std.specs.Prelude.{◌≡◌, false, ◌≤◌, length, drop};
ghost use Rattle.text.specs.Basics.{all};
ghost use Rattle.lines.specs.Block.{unmarked, front_all, PassedTo};
ghost use Rattle.lines.specs.Rule.{is_except};
ghost use Rattle.lines.specs.Parts.{separator_index, after_separator, element_span, first_element, after_element};

// Where an element starts and ends; both are the text's length where there is none.
#[derive(Clone, Copy)]
pub struct ElementSpan {
    pub start: usize,
    pub end: usize,
}

// Whether s has no colon and no opening bracket. No byte ends the loop, so that many are compared at once.
fn is_unmarked(s: &[u8]) -> bool
    ensures { result ≡ all unmarked s.now }
{
    let mut all = true;
    for &b in s {
        all = all & ((b != b':') & (b != b'['));
    }
    all
}

// Whether sixteen such bytes stand from i on.
fn unmarked_block(s: &[u8], i: usize) -> bool
    ensures { result ≡ front_all unmarked 16 (drop i s.now) }
{
    if s.len() < 16 {
        return false;
    }
    if s.len() - 16 < i {
        return false;
    }
    let end = i + 16;
    is_unmarked(&s[i..end])
}

// The place after the blocks of such bytes that stand at the front.
fn unmarked_end(s: &[u8]) -> usize
    ensures { PassedTo unmarked s.now 0 result }
{
    let mut i = 0;
    while unmarked_block(s, i) {
        i += 16;
    }
    i
}

// The place of the first separator, the length where there is none: what holds no mark is passed by blocks, then each byte is looked at.
pub fn separator(s: &[u8]) -> usize
    ensures place { result ≡ separator_index false s.now }
    ensures within { result ≤ length s.now }
{
    let mut i = unmarked_end(s);
    while i < s.len() {
        let b = s[i];
        if b == b':' {
            return i;
        }
        i += 1;
        if b == b'[' {
            let n = text::index_of(&s[i..], b']');
            i += n;
        }
    }
    i
}

// What follows the separator at i, empty where that is the end.
pub fn after_separator(s: &[u8], i: usize) -> &[u8]
    ensures { result.now ≡ after_separator i s.now }
{
    if s.len() <= i {
        let n = s.len();
        return &s[n..];
    }
    let a = i + 1;
    &s[a..]
}

// The first element of s, empty where there is none.
pub fn element(s: &[u8], at: ElementSpan) -> &[u8]
    requires { at ≡ element_span s.now }
    ensures { result.now ≡ first_element s.now }
{
    let a = at.start;
    let e = at.end;
    &s[a..e]
}

// What follows the first element of s.
pub fn after_element(s: &[u8], at: ElementSpan) -> &[u8]
    requires { at ≡ element_span s.now }
    ensures { result.now ≡ after_element s.now }
{
    let end = at.end;
    &s[end..]
}

// Whether w is the word EXCEPT.
pub fn is_except(w: &[u8]) -> bool
    ensures { result ≡ is_except w.now }
{
    text::equal_fold(b"EXCEPT", w)
}
