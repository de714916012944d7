// Rules with the same lists, ignoring case. A line is handed over joined.
//   same_rule(a, t) == the rules of two lines have the same lists
//   matches_all(t)  == both lists are the single element ALL
//   bucket(t)       == a number below 2,048: rules with the same lists have one
ghost use Rattle.std.specs.Prelude.{◌≡◌, ◌≤◌, ◌<◌, length};
ghost use Rattle.text.specs.Scan.{span_len};
ghost use Rattle.lines.specs.Parts.{words, is_parting, is_element_byte, element_span, first_element, after_element};
ghost use Rattle.tidy.specs.Tidy.{same_list, all_alone};
ghost use Rattle.tidy.specs.Code.{daemons_part, clients_part, same_text, all_text, print_next, print_list, bucket_text};

use lines::rule;
use lines::rule::ElementSpan;

// Whether b parts elements.
fn is_parting(b: u8) -> bool
    ensures { result ≡ is_parting b }
{
    (b == b' ') | (b == b'\t') | (b == b',')
}

// How many bytes at the front of s part elements.
fn parting_length(s: &[u8]) -> usize
    ensures count { result ≡ span_len is_parting s.now }
    ensures within { result ≤ length s.now }
{
    let mut i = 0;
    while i < s.len() {
        if is_parting(s[i]) {
            i += 1;
        } else {
            return i;
        }
    }
    i
}

// How many bytes at the front of s belong to an element.
fn element_length(s: &[u8]) -> usize
    ensures count { result ≡ span_len is_element_byte s.now }
    ensures within { result ≤ length s.now }
{
    let mut i = 0;
    while i < s.len() {
        if is_parting(s[i]) {
            return i;
        }
        i += 1;
    }
    i
}

// Where the first element of s stands.
fn element_span(s: &[u8]) -> ElementSpan
    ensures { result ≡ element_span s.now }
{
    let start = parting_length(s);
    let n = element_length(&s[start..]);
    ElementSpan {
        start,
        end: start + n,
    }
}

// The first element of s, empty where there is none.
fn first_element(s: &[u8]) -> &[u8]
    ensures { result.now ≡ first_element s.now }
{
    rule::element(s, element_span(s))
}

// What follows the first element of s.
fn after_first(s: &[u8]) -> &[u8]
    ensures { result.now ≡ after_element s.now }
{
    rule::after_element(s, element_span(s))
}

// Whether two lists have the same elements and EXCEPTs in the same order.
fn same_list(a: &[u8], b: &[u8]) -> bool
    ensures { result ≡ same_list (words a.now) (words b.now) }
{
    let mut s = a;
    let mut t = b;
    loop {
        let w = first_element(s);
        let v = first_element(t);
        if w.len() == 0 {
            return v.len() == 0;
        }
        if !text::equal_fold(w, v) {
            return false;
        }
        let of_s = after_first(s);
        let of_t = after_first(t);
        s = of_s;
        t = of_t;
    }
}

// Whether a list is the single element ALL.
fn is_all_alone(s: &[u8]) -> bool
    ensures { result ≡ all_alone (words s.now) }
{
    let w = first_element(s);
    if !text::equal_fold(b"ALL", w) {
        return false;
    }
    let next = first_element(after_first(s));
    next.len() == 0
}

// The daemon list of the line t.
fn daemons_of(t: &[u8]) -> &[u8]
    ensures { result.now ≡ daemons_part t.now }
{
    let i = rule::separator(t);
    &t[..i]
}

// The client list of the line t.
fn clients_of(t: &[u8]) -> &[u8]
    ensures { result.now ≡ clients_part t.now }
{
    let i = rule::separator(t);
    let rest = rule::after_separator(t, i);
    let j = rule::separator(rest);
    &rest[..j]
}

// Whether the rules of two lines have the same lists.
pub(crate) fn same_rule(a: &[u8], t: &[u8]) -> bool
    ensures { result ≡ same_text a.now t.now }
{
    if same_list(daemons_of(a), daemons_of(t)) {
        return same_list(clients_of(a), clients_of(t));
    }
    false
}

// Whether both lists of the line t are the single element ALL.
pub(crate) fn matches_all(t: &[u8]) -> bool
    ensures { result ≡ all_text t.now }
{
    if is_all_alone(daemons_of(t)) {
        return is_all_alone(clients_of(t));
    }
    false
}

// A fingerprint with one byte more, unless it parts elements.
fn print_more(h: u64, b: u8) -> u64
    requires { h < 16777216 }
    ensures print { result ≡ print_next h b }
    ensures small { result < 16777216 }
{
    if is_parting(b) {
        return h;
    }
    (h * 131 + text::lower(b) as u64) % 16777216
}

// A fingerprint of the elements of a list, after that of what stands before it.
fn print_list(start: u64, s: &[u8]) -> u64
    requires { start < 16777216 }
    ensures print { result ≡ print_list start s.now }
    ensures small { result < 16777216 }
{
    let mut h = start;
    let mut i = 0;
    while i < s.len() {
        h = print_more(h, s[i]);
        i += 1;
    }
    h
}

// The bucket of the rule in the line t.
pub(crate) fn bucket(t: &[u8]) -> usize
    ensures number { result ≡ bucket_text t.now }
    ensures small { result < 2048 }
{
    let h = print_list(0, daemons_of(t));
    (print_list(h, clients_of(t)) % 2048) as usize
}
