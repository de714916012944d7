// How a case is written: the head of crates/vectors/stdin says it. A line is read into a block, which is then one slice: how many fields
// there are, where each ends, two bytes each, and from START on their bytes one after the other.
#![tactic(auto)]

ghost use Rattle.std.specs.Prelude.{◌≡◌, ◌≤◌, length};

const START: usize = 66;

// The most fields of a line.
const MOST: usize = 31;

// More than any block has, and no number of 32 bits: where a malformed field ends.
const MALFORMED: usize = 5000000000;

// The part of s from a to e; empty where there is none.
pub fn part(s: &[u8], a: usize, e: usize) -> &[u8] {
    if s.len() < e {
        return &s[..0];
    }
    if e < a {
        return &s[..0];
    }
    &s[a..e]
}

// The first byte of s, 0 where it is empty.
pub fn first(s: &[u8]) -> u8 {
    if s.len() == 0 {
        return 0;
    }
    s[0]
}

// ## Reading a line

// Writes s into the block from at on, and answers the place after it.
fn put(block: &mut [u8], at: usize, s: &[u8]) -> usize {
    if block.len() < at {
        return MALFORMED;
    }
    if block.len() - at < s.len() {
        return MALFORMED;
    }
    text::put(block, at, s)
}

// The number of at most max that s writes.
fn number_to(s: &[u8], max: u32) -> usize {
    let r = text::read_decimal(s, max);
    match r {
        Some(n) => n as usize,
        None => MALFORMED,
    }
}

// <*N>: the last n bytes before at, repeated up to so many.
fn repeat(block: &mut [u8], at: usize, n: usize, many: usize) -> usize {
    if at < n {
        return MALFORMED;
    }
    let start = at - n;
    if block.len() < start {
        return MALFORMED;
    }
    if block.len() - start < many {
        return MALFORMED;
    }
    let end = start + many;
    for i in at..end {
        block[i] = block[i - n];
    }
    at.max(end)
}

// How many bytes <*N> repeats: those of the run before it, else one of its field.
fn last_item(run: &[u8], start: usize, at: usize) -> usize {
    if 0 < run.len() {
        return run.len();
    }
    if at == start {
        return MALFORMED;
    }
    1
}

// <@N>: the bytes of the kept text up to N, from as many on as the field has.
fn kept_to(block: &mut [u8], start: usize, at: usize, kept: &[u8], n: usize) -> usize {
    if at < start {
        return MALFORMED;
    }
    if kept.len() < n {
        return MALFORMED;
    }
    put(block, at, part(kept, at - start, n))
}

// <n> and <N>: a newline, any byte.
fn one_byte(block: &mut [u8], at: usize, name: &[u8]) -> usize {
    if (name.len() == 1) & (first(name) == b'n') {
        return put(block, at, b"\n");
    }
    let n = number_to(name, 255);
    if 255 < n {
        return MALFORMED;
    }
    put(block, at, &[n as u8])
}

// What stands between < and >, after a run of plain bytes.
fn special(
    block: &mut [u8],
    start: usize,
    at: usize,
    run: &[u8],
    name: &[u8],
    kept: &[u8],
) -> usize {
    if name.len() == 0 {
        return at;
    }
    let n = number_to(&name[1..], 65536);
    match name[0] {
        b'*' => repeat(block, at, last_item(run, start, at), n),
        b'@' => kept_to(block, start, at, kept, n),
        _ => one_byte(block, at, name),
    }
}

// A run of plain bytes, and what stands between < and > after it.
fn piece(block: &mut [u8], start: usize, at: usize, run: &[u8], rest: &[u8], kept: &[u8]) -> usize {
    let end = put(block, at, run);
    if rest.len() == 0 {
        return end;
    }
    let e = text::index_of(rest, b'>');
    if rest.len() == e {
        return MALFORMED;
    }
    special(block, start, end, run, part(rest, 1, e), kept)
}

// Reads a field into the block from start on, and answers the place after it.
fn read_field(block: &mut [u8], start: usize, raw: &[u8], kept: &[u8]) -> usize {
    let mut end = start;
    let mut i = 0;
    while i < raw.len() {
        let left = &raw[i..];
        let n = text::index_of(left, b'<');
        let rest = &left[n..];
        let m = text::index_of(rest, b'>');
        end = piece(block, start, end, part(left, 0, n), rest, kept);
        i = i + n + m + 1;
    }
    end
}

fn set(block: &mut [u8], i: usize, b: u8) {
    if i < block.len() {
        block[i] = b;
    }
}

// Notes how many fields there are up to end, where the next one starts.
fn set_fields(block: &mut [u8], k: usize, end: usize) {
    if MOST < k {
        set(block, 0, 0);
        return;
    }
    if 65535 < end {
        set(block, 0, 0);
        return;
    }
    let i = k + k + 2;
    set(block, i, (end / 256) as u8);
    set(block, i + 1, (end % 256) as u8);
    set(block, 0, k as u8);
}

// Reads a line into the block. Fields are parted by bars, and blanks around them do not count. A malformed line has no fields.
pub fn read_line(block: &mut [u8], line: &[u8], kept: &[u8]) {
    let mut end = START;
    set_fields(block, 0, end);
    // Each part ends with its bar, so that after a bar at the end of the line no field begins.
    for (k, with_bar) in line.split_inclusive(|b| *b == b'|').enumerate() {
        let raw = with_bar.strip_suffix(b"|").unwrap_or(with_bar);
        end = read_field(block, end, lines::command::trim(raw), kept);
        set_fields(block, k + 1, end);
    }
}

// ## The fields

fn wide(b: u8) -> usize
    ensures { result ≤ 255 }
{
    b as usize
}

pub fn fields(block: &[u8]) -> usize
    ensures { result ≤ 255 }
{
    wide(first(block))
}

// Where field k starts, and the one before it ends.
fn end(block: &[u8], k: usize) -> usize {
    if MOST < k {
        return 0;
    }
    if block.len() < START {
        return 0;
    }
    let i = k + k + 2;
    wide(block[i]) * 256 + wide(block[i + 1])
}

pub fn field(block: &[u8], k: usize) -> &[u8] {
    if fields(block) <= k {
        return &block[..0];
    }
    part(block, end(block, k), end(block, k + 1))
}

pub fn number(block: &[u8], k: usize) -> u32 {
    let r = text::read_decimal(field(block, k), 4294967295);
    match r {
        Some(n) => n,
        None => 0,
    }
}

// The numbers of the fields from k on; 0 where there are no more.
pub fn numbers(block: &[u8], k: usize) -> [u32; 32]
    ensures { 32 ≡ length result }
{
    let mut out = [0u32; 32];
    for (i, x) in out.iter_mut().enumerate() {
        *x = number(block, std::num::wrapping_add_usize(k, i));
    }
    out
}

// The first n of a list.
pub fn front(list: &[u32], n: usize) -> &[u32] {
    if list.len() < n {
        return &list[..0];
    }
    let a = 0;
    &list[a..n]
}

// How many fields there are from k on.
pub fn from(block: &[u8], k: usize) -> usize {
    let n = fields(block);
    if n < k {
        return 0;
    }
    n - k
}

// The bytes of a name, after the mark of its state.
pub fn name(block: &[u8], k: usize) -> &[u8] {
    let s = field(block, k);
    part(s, 1, s.len())
}

pub fn name_state(block: &[u8], k: usize) -> u32 {
    match first(field(block, k)) {
        b'?' => 0,
        b'!' => 1,
        b'=' => 2,
        _ => 3,
    }
}

pub fn user_state(block: &[u8], k: usize) -> u32 {
    match first(field(block, k)) {
        b'-' => 0,
        b'?' => 1,
        b'=' => 2,
        _ => 3,
    }
}

// The kind of an address that was read, or refused: `?` is unknown, any other text that is no address of no kind.
pub fn kind(refused: u32, read: u32, s: &[u8]) -> u32 {
    if refused == 0 {
        return read;
    }
    match first(s) {
        b'?' => 0,
        _ => 5,
    }
}

// ## The lent block

// The first n bytes of a lent block, all of it where it has fewer.
pub fn room(out: &mut [u8], n: u32) -> &mut [u8] {
    let e = n as usize;
    if out.len() < e {
        return out;
    }
    let a = 0;
    &mut out[a..e]
}

pub fn all_stops(s: &[u8]) -> bool {
    s.iter().all(|b| *b == b'.')
}

// ## The calls

// Whether a field is of a kind: n a number, . no field at all, any other letter a text.
fn is_kind(kind: u8, s: &[u8]) -> bool {
    match kind {
        b'n' => number_to(s, 4294967295) < MALFORMED,
        b'.' => false,
        _ => true,
    }
}

// The kind of field k: the last one stands for all that follow.
fn kind_of(kinds: &[u8], k: usize) -> u8 {
    if k < kinds.len() {
        return kinds[k];
    }
    if kinds.len() == 0 {
        return b'.';
    }
    let last = kinds.len() - 1;
    kinds[last]
}

// Whether a line has fields of these kinds.
fn are_kinds(kinds: &[u8], block: &[u8]) -> bool {
    let n = fields(block);
    (0..n).all(|k| is_kind(kind_of(kinds, k), field(block, k))) && kinds.len() <= n + 1
}

fn is_call(call: &[u8], block: &[u8]) -> bool {
    let n = text::index_of(call, b':');
    if text::equal(part(call, 0, n), field(block, 0)) {
        return are_kinds(&call[n..], block);
    }
    false
}

// The place among the calls of the one that a line is for; beyond them where there is none. Calls are parted by blanks, and written as
// a name, a colon and a letter for each field, the last of which stands for all that follow.
pub fn call(calls: &[u8], block: &[u8]) -> usize {
    match calls
        .split(|b| *b == b' ')
        .position(|one| is_call(one, block))
    {
        Some(place) => place,
        None => calls.split_inclusive(|b| *b == b' ').count(),
    }
}
