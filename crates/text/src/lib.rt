// Bytes, texts and numbers: what every chapter is written in.
#![tactic(auto)]

ghost use Rattle.std.specs.Prelude.{◌≡◌, ◌&&◌, ◌+◌, ◌-◌, ◌≤◌, eqb, ltb, length, drop};
ghost use Rattle.text.specs.Text.{is_digit, is_letter};
ghost use Rattle.text.specs.Text.{lower as lowerOf, equal as equalTo, equal_fold};
ghost use Rattle.text.specs.Scan.{index_of, put_at};
ghost use Rattle.text.specs.Number.{decimal, read_decimal};

// b in lower case.
pub fn lower(b: u8) -> u8
    ensures { result ≡ lowerOf b }
{
    if b < b'A' {
        return b;
    }
    if b'Z' < b {
        return b;
    }
    b + 32
}

// Whether b is a digit.
pub fn is_digit(b: u8) -> bool
    ensures { result ≡ is_digit b }
{
    (b'0' <= b) & (b <= b'9')
}

// Whether b is an ASCII letter.
pub fn is_letter(b: u8) -> bool
    ensures { result ≡ is_letter b }
{
    ((b'A' <= b) & (b <= b'Z')) | ((b'a' <= b) & (b <= b'z'))
}

// Whether two texts are equal.
#[tactic(auto, using(crate::proofs::ScanLaws::pointwise_equal))]
pub fn equal(a: &[u8], b: &[u8]) -> bool
    ensures { result ≡ equalTo a.now b.now }
{
    a == b
}

// Whether two bytes are equal but for ASCII case. Most that are equal are the same byte.
fn same_letter(x: u8, y: u8) -> bool
    ensures { result ≡ eqb (lowerOf x) (lowerOf y) }
{
    if x == y {
        return true;
    }
    lower(x) == lower(y)
}

// Whether two texts are equal but for ASCII case.
pub fn equal_fold(a: &[u8], b: &[u8]) -> bool
    ensures { result ≡ equal_fold a.now b.now }
{
    a.len() == b.len() && a.iter().zip(b).all(|(x, y)| same_letter(*x, *y))
}

// The first place of b in s, the length where there is none.
pub fn index_of(s: &[u8], b: u8) -> usize
    ensures place { result ≡ index_of b s.now }
    ensures within { result ≤ length s.now }
{
    for (i, x) in s.iter().enumerate() {
        if *x == b {
            return i;
        }
    }
    s.len()
}

// Whether s is longer than the suffix and ends in it, ignoring ASCII case.
pub fn ends_with_fold(s: &[u8], suffix: &[u8]) -> bool
    ensures { result
        ≡ (ltb (length suffix.now) (length s.now) && equal_fold suffix.now
        (drop (length s.now - length suffix.now) s.now)) }
{
    if s.len() <= suffix.len() {
        return false;
    }
    let at = s.len() - suffix.len();
    equal_fold(suffix, &s[at..])
}

// The number of at most max that s writes in fewest decimal digits.
pub fn read_decimal(s: &[u8], max: u32) -> Option<u32>
    ensures { result ≡ read_decimal max s.now }
{
    if s.len() == 0 {
        return None;
    }
    if (s[0] == b'0') & (1 < s.len()) {
        return None;
    }
    let limit = max as u64;
    let mut n: u64 = 0;
    for &b in s {
        if b < b'0' {
            return None;
        }
        if b'9' < b {
            return None;
        }
        n = n * 10 + (b - b'0') as u64;
        if limit < n {
            return None;
        }
    }
    Some(n as u32)
}

// Writes s into out from at on, and answers the place after it.
#[tactic(auto, using(crate::proofs::PasteLaws::put_at_mid))]
pub fn put(out: &mut [u8], at: usize, s: &[u8]) -> usize
    requires { at + length s.now ≤ length out.old }
    ensures next { result ≡ at + length s.now }
    ensures written { out.new ≡ put_at out.old at s.now }
{
    let next = at + s.len();
    out[at..next].copy_from_slice(s);
    next
}

// How many digits n has in decimal.
pub fn decimal_len(n: u32) -> usize
    ensures { result ≡ length (decimal n) }
{
    match n.checked_ilog10() {
        Some(k) => k as usize + 1,
        None => 1,
    }
}

// Writes n in decimal into out from at on, its last digit first, and answers the place after it.
pub fn put_decimal(out: &mut [u8], at: usize, n: u32) -> usize
    requires { at + length (decimal n) ≤ length out.old }
    ensures next { result ≡ at + length (decimal n) }
    ensures written { out.new ≡ put_at out.old at (decimal n) }
{
    let k = decimal_len(n);
    let mut m = n;
    for j in (0..k).rev() {
        out[at + j] = b'0' + (m % 10) as u8;
        m = m / 10;
    }
    at + k
}
