// The command of a rule: trimming, and the bytes that a percent takes.
ghost use Rattle.std.specs.Prelude.{◌≡◌, ◌≤◌, length};
ghost use Rattle.text.specs.Text.{among};
ghost use Rattle.text.specs.Scan.{span_len};
ghost use Rattle.lines.specs.Parts.{is_blank_byte, unblanked_length, trim_blanks, any_bad_percent};

// Whether b is a space or a tab.
fn is_blank_byte(b: u8) -> bool
    ensures { result ≡ is_blank_byte b }
{
    (b == b' ') | (b == b'\t')
}

// How many spaces and tabs stand at the front of s.
fn blank_length(s: &[u8]) -> usize
    ensures count { result ≡ span_len is_blank_byte s.now }
    ensures within { result ≤ length s.now }
{
    s.iter().position(|b| !is_blank_byte(*b)).unwrap_or(s.len())
}

// How many bytes of s stand before the spaces and tabs at its end.
fn unblanked_length(s: &[u8]) -> usize
    ensures count { result ≡ unblanked_length s.now }
    ensures within { result ≤ length s.now }
{
    for k in (0..s.len()).rev() {
        if !is_blank_byte(s[k]) {
            return k + 1;
        }
    }
    0
}

// s without the spaces and tabs at either end.
pub fn trim(s: &[u8]) -> &[u8]
    ensures { result.now ≡ trim_blanks s.now }
{
    let a = blank_length(s);
    let t = &s[a..];
    let n = unblanked_length(t);
    &t[..n]
}

// Whether a percent may take b.
pub fn is_directive(b: u8) -> bool
    ensures { result ≡ among "aAnNhHucdsp%" b }
{
    (b == b'a')
        | (b == b'A')
        | (b == b'n')
        | (b == b'N')
        | (b == b'h')
        | (b == b'H')
        | (b == b'u')
        | (b == b'c')
        | (b == b'd')
        | (b == b's')
        | (b == b'p')
        | (b == b'%')
}

// Whether a percent of s stands at its end or takes a byte that none may.
pub fn has_bad_percent(s: &[u8]) -> bool
    ensures { result ≡ any_bad_percent s.now }
{
    let mut i = 0;
    while i < s.len() {
        if s[i] == b'%' {
            let k = i + 1;
            if s.len() <= k {
                return true;
            }
            if is_directive(s[k]) {
                i += 2;
            } else {
                return true;
            }
        } else {
            i += 1;
        }
    }
    false
}
