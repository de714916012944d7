// Logical lines of a text: finding one, its join, and whether it is a comment or blank.
//   scan_line(text, start) == the logical line that starts there
//   joined(s)              == how long s is when joined, and whether its bytes may stand in a line
//   join_into(out, s)      == s joined, written to the front of out
//   is_comment(raw), is_blank(raw) == of a line that is not joined yet
ghost use Rattle.std.specs.Prelude.{◌≡◌, not, ◌++◌, ◌≤◌, ◌<◌, length, drop};
ghost use Rattle.text.specs.Basics.{all};
ghost use Rattle.text.specs.Text.{among, first_among};
ghost use Rattle.lines.specs.Block.{printable, front_all, PassedTo};
ghost use Rattle.lines.specs.Line.{join, has_bad_byte};
ghost use Rattle.lines.specs.Scan.{span_at, scan_line, SpanBounds, slash_before, pair_at};

// A logical line that was found: its end, whether a newline stands there, how many pairs of a backslash and a newline are dropped
// from it, and whether every byte that remains is one that a line may hold.
#[derive(Clone, Copy)]
pub struct LineSpan {
    pub end: usize,
    pub ended: bool,
    pub joins: usize,
    pub clean: bool,
}

// How long a text is when joined, and whether every byte of it may stand in a line.
#[derive(Clone, Copy)]
pub struct JoinedText {
    pub len: usize,
    pub clean: bool,
}

// Whether every byte of s is printable. No byte ends the loop, so that many are compared at once.
fn is_printable(s: &[u8]) -> bool
    ensures { result ≡ all printable s.now }
{
    let mut all = true;
    for &b in s {
        all = all & ((b' ' <= b) & (b <= b'~'));
    }
    all
}

// Whether sixteen printable bytes stand from i on.
fn printable_block(text: &[u8], i: usize) -> bool
    ensures { result ≡ front_all printable 16 (drop i text.now) }
{
    if text.len() < 16 {
        return false;
    }
    if text.len() - 16 < i {
        return false;
    }
    let end = i + 16;
    is_printable(&text[i..end])
}

// The place after the blocks of printable bytes that stand from start on.
fn printable_end(text: &[u8], start: usize) -> usize
    requires { start ≤ length text.now }
    ensures { PassedTo printable text.now start result }
{
    let mut i = start;
    while printable_block(text, i) {
        i += 16;
    }
    i
}

// The logical line that starts at start: what is printable is passed by blocks, then each byte is looked at.
pub fn scan_line(text: &[u8], start: usize) -> LineSpan
    requires { start ≤ length text.now }
    ensures scanned { result ≡ span_at start (scan_line (drop start text.now)) }
    ensures bounds { SpanBounds (length text.now) start result }
{
    let mut joins = 0;
    let mut clean = true;
    for i in printable_end(text, start)..text.len() {
        let b = text[i];
        if (b' ' <= b) & (b <= b'~') {
            continue;
        }
        if b == b'\n' {
            if follows_slash(text, start, i) {
                joins += 1;
            } else {
                return LineSpan {
                    end: i,
                    ended: true,
                    joins,
                    clean,
                };
            }
        } else {
            clean = clean & (b == b'\t');
        }
    }
    LineSpan {
        end: text.len(),
        ended: false,
        joins,
        clean,
    }
}

// Whether a backslash stands before i, at start or after it.
fn follows_slash(text: &[u8], start: usize, i: usize) -> bool
    requires { i ≤ length text.now }
    ensures { result ≡ slash_before text.now start i }
{
    if start < i {
        let k = i - 1;
        text[k] == b'\\'
    } else {
        false
    }
}

// Whether a backslash stands at i, and a newline after it.
fn is_pair(s: &[u8], i: usize) -> bool
    requires { i < length s.now }
    ensures { result ≡ pair_at s.now i }
{
    if s[i] != b'\\' {
        return false;
    }
    let k = i + 1;
    if k < s.len() { s[k] == b'\n' } else { false }
}

// Measures s as joined, and looks at each byte that remains.
pub fn joined(s: &[u8]) -> JoinedText
    ensures { result ≡ record { len = length (join s.now); clean = not (has_bad_byte (join s.now)) } }
{
    let mut i = 0;
    let mut len = 0;
    let mut clean = true;
    while i < s.len() {
        if is_pair(s, i) {
            i += 2;
        } else {
            let b = s[i];
            clean = clean & ((b == b'\t') | ((b' ' <= b) & (b <= b'~')));
            len += 1;
            i += 1;
        }
    }
    JoinedText { len, clean }
}

// Writes s, joined, and answers its length.
pub fn join_into(out: &mut [u8], s: &[u8]) -> usize
    requires { length (join s.now) ≤ length out.old }
    ensures count { result ≡ length (join s.now) }
    ensures written { out.new ≡ join s.now ++ drop (length (join s.now)) out.old }
{
    let mut i = 0;
    let mut n = 0;
    while i < s.len() {
        if is_pair(s, i) {
            i += 2;
        } else {
            out[n] = s[i];
            n += 1;
            i += 1;
        }
    }
    n
}

// Whether a line, joined, begins with #.
pub fn is_comment(raw: &[u8]) -> bool
    ensures { result ≡ first_among "#" (join raw.now) }
{
    let mut i = 0;
    while i < raw.len() {
        if is_pair(raw, i) {
            i += 2;
        } else {
            return raw[i] == b'#';
        }
    }
    false
}

// Whether a line, joined, is only spaces and tabs.
pub fn is_blank(raw: &[u8]) -> bool
    ensures { result ≡ all (among " \t") (join raw.now) }
{
    let mut i = 0;
    while i < raw.len() {
        let b = raw[i];
        if (b == b' ') | (b == b'\t') {
            i += 1;
        } else if is_pair(raw, i) {
            i += 2;
        } else {
            return false;
        }
    }
    true
}
