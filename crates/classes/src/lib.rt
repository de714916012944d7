// The classes of bytes, and an element read with the classes of its bytes, in one loop.
//   classes()            == the class of every byte, made once and lent
//   element_at(class, s) == where the first element of s stands, and the classes of its bytes: a mask
// What a mask tells of an element: Describes in specs/Class, for what element_at answers law element-described.
#![tactic(auto)]

ghost use Rattle.std.specs.Prelude.{◌≡◌, ◌≤◌, length, drop};
ghost use Rattle.lines.specs.Parts.{is_parting, parting_length};
ghost use Rattle.classes.specs.Class.{class_of, Classes, span_from, element_at};

use lines::rule::ElementSpan;

// Where an element stands, and the classes of its bytes, one bit for each.
#[derive(Clone, Copy)]
pub struct ClassSpan {
    pub span: ElementSpan,
    pub mask: u8,
}

// The class of every byte.
pub fn classes() -> [u8; 256]
    ensures { Classes result }
{
    [
        32, 32, 32, 32, 32, 32, 32, 32, 32, 128, 32, 32, 32, 32, 32, 32, 32, 32, 32, 32, 32, 32,
        32, 32, 32, 32, 32, 32, 32, 32, 32, 32, 128, 32, 32, 32, 32, 32, 32, 32, 32, 32, 32, 32,
        128, 1, 4, 8, 2, 2, 2, 2, 2, 2, 2, 2, 2, 2, 32, 32, 32, 32, 32, 32, 16, 1, 1, 1, 1, 1, 1,
        1, 1, 1, 1, 1, 1, 1, 1, 1, 1, 1, 1, 1, 1, 1, 1, 1, 1, 1, 1, 32, 32, 32, 32, 1, 32, 1, 1, 1,
        1, 1, 1, 1, 1, 1, 1, 1, 1, 1, 1, 1, 1, 1, 1, 1, 1, 1, 1, 1, 1, 1, 1, 32, 32, 32, 32, 32,
        32, 32, 32, 32, 32, 32, 32, 32, 32, 32, 32, 32, 32, 32, 32, 32, 32, 32, 32, 32, 32, 32, 32,
        32, 32, 32, 32, 32, 32, 32, 32, 32, 32, 32, 32, 32, 32, 32, 32, 32, 32, 32, 32, 32, 32, 32,
        32, 32, 32, 32, 32, 32, 32, 32, 32, 32, 32, 32, 32, 32, 32, 32, 32, 32, 32, 32, 32, 32, 32,
        32, 32, 32, 32, 32, 32, 32, 32, 32, 32, 32, 32, 32, 32, 32, 32, 32, 32, 32, 32, 32, 32, 32,
        32, 32, 32, 32, 32, 32, 32, 32, 32, 32, 32, 32, 32, 32, 32, 32, 32, 32, 32, 32, 32, 32, 32,
        32, 32, 32, 32, 32, 32, 32, 32, 32, 32, 32, 32, 32,
    ]
}

// The class of b.
fn class_of(class: &[u8; 256], b: u8) -> u8
    requires { Classes class.now }
    ensures { result ≡ class_of b }
{
    let i = b as usize;
    class[i]
}

// Whether b parts elements.
fn is_parting(class: &[u8; 256], b: u8) -> bool
    requires { Classes class.now }
    ensures { result ≡ is_parting b }
{
    128 <= class_of(class, b)
}

// How many bytes at the front of s part elements.
fn parting_length(class: &[u8; 256], s: &[u8]) -> usize
    requires { Classes class.now }
    ensures count { result ≡ parting_length s.now }
    ensures within { result ≤ length s.now }
{
    for (i, &b) in s.iter().enumerate() {
        if !is_parting(class, b) {
            return i;
        }
    }
    s.len()
}

// The element that starts at i, up to a byte that parts or the end, with the classes of its bytes.
fn element_from(class: &[u8; 256], s: &[u8], i: usize) -> ClassSpan
    requires classes { Classes class.now }
    requires i_in_bounds { i ≤ length s.now }
    ensures { result ≡ span_from i (drop i s.now) }
{
    let mut mask: u8 = 0;
    for j in i..s.len() {
        let c = class_of(class, s[j]);
        if 128 <= c {
            return ClassSpan {
                span: ElementSpan { start: i, end: j },
                mask,
            };
        }
        mask = mask | c;
    }
    ClassSpan {
        span: ElementSpan {
            start: i,
            end: s.len(),
        },
        mask,
    }
}

// The first element of s, with the classes of its bytes; an empty one where there is none.
pub fn element_at(class: &[u8; 256], s: &[u8]) -> ClassSpan
    requires { Classes class.now }
    ensures { result ≡ element_at s.now }
{
    element_from(class, s, parting_length(class, s))
}
