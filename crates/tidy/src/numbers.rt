// The numbers of lines as bytes, four to each, most significant first.
//   write_numbers(out, marks)    == the marked lines' numbers, written to the front of out
//   name_lines(marks, proposal)  == a proposal names marked lines alone; then they have the mark 2
ghost use Rattle.std.specs.Prelude.{◌≡◌, true, ◌+◌, ◌*◌, ◌≤◌, ◌<◌, length, take, drop};
ghost use Rattle.text.specs.Number.{to_digits, from_digits};
ghost use Rattle.text.specs.Words.{word_bytes};
ghost use Rattle.text.specs.Scan.{put_at, after};
ghost use Rattle.section.specs.Refusal.{written_of, within_room, lent_after};
ghost use Rattle.tidy.specs.Tidy.{numbers_of};
ghost use Rattle.tidy.specs.Code.{marked_here, marked_from, marked_bytes, names_marked, set_named};

use section::{Fault, Refusal};

// How many numbers line n adds.
fn mark_count(marks: &[u8], n: usize) -> usize
    requires { n < length marks.now }
    ensures count { result ≡ length (marked_here marks.now n) }
    ensures few { result ≤ 1 }
{
    if marks[n] == 1 {
        return 1;
    }
    0
}

// How many lines are marked.
fn count_marks(marks: &[u8]) -> usize
    ensures count { result ≡ length (marked_from marks.now (length marks.now) 0) }
    ensures few { result ≤ length marks.now }
{
    let mut count = 0;
    let mut n = 0;
    while n < marks.len() {
        count += mark_count(marks, n);
        n += 1;
    }
    count
}

// Writes a number from at on, and answers the place after it.
fn put_number(out: &mut [u8], at: usize, n: usize) -> usize
    requires { at + 4 ≤ length out.old }
    ensures next { result ≡ at + 4 }
    ensures written { out.new ≡ put_at out.old at (to_digits 256 4 n) }
{
    let number = [
        (n / 256 / 256 / 256 % 256) as u8,
        (n / 256 / 256 % 256) as u8,
        (n / 256 % 256) as u8,
        (n % 256) as u8,
    ];
    text::put(out, at, &number)
}

// Writes the number n from at on, if that line is marked, and answers the place after it.
fn put_marked(out: &mut [u8], at: usize, marks: &[u8], n: usize) -> usize
    requires n_in_bounds { n < length marks.now }
    requires n_in_bounds_2 { at + length (word_bytes (marked_here marks.now n)) ≤ length out.old }
    ensures next { result ≡ at + length (word_bytes (marked_here marks.now n)) }
    ensures written { out.new ≡ put_at out.old at (word_bytes (marked_here marks.now n)) }
{
    if marks[n] == 1 {
        return put_number(out, at, n);
    }
    at
}

// Writes the numbers of the marked lines at the front of out.
fn put_numbers(out: &mut [u8], marks: &[u8])
    requires { length (marked_bytes marks.now) ≤ length out.old }
    ensures { out.new ≡ after (marked_bytes marks.now) out.old }
{
    let mut at = 0;
    let mut n = 0;
    while n < marks.len() {
        let next = put_marked(out, at, marks, n);
        at = next;
        n += 1;
    }
}

// Writes the numbers of the marked lines, where there is room.
pub(crate) fn write_numbers(out: &mut [u8], marks: &[u8; 16385]) -> Result<usize, Refusal>
    ensures answer { result ≡ written_of (within_room (length out.old) (marked_bytes marks.now)) }
    ensures holds { out.new
        ≡ lent_after out.old (within_room (length out.old) (marked_bytes marks.now)) }
{
    let n = 4 * count_marks(marks);
    if out.len() < n {
        return Err(section::placeless(Fault::NoRoom));
    }
    put_numbers(out, marks);
    Ok(n)
}

// The number that s begins with.
fn read_number(s: &[u8]) -> usize
    requires { 4 ≤ length s.now }
    ensures { result ≡ from_digits 256 0 (take 4 s.now) }
{
    let first = s[0] as usize;
    let second = s[1] as usize;
    let third = s[2] as usize;
    let fourth = s[3] as usize;
    ((first * 256 + second) * 256 + third) * 256 + fourth
}

// Whether a proposal names marked lines alone; then each of them gets the mark 2.
pub(crate) fn name_lines(marks: &mut [u8], proposal: &[u8]) -> bool
    ensures answer { result ≡ names_marked marks.old proposal.now }
    ensures names { result ≡ true → marks.new ≡ set_named marks.old (numbers_of proposal.now) }
{
    let mut i = 0;
    while i < proposal.len() {
        if proposal.len() - i < 4 {
            return false;
        }
        let n = read_number(&proposal[i..]);
        if marks.len() <= n {
            return false;
        }
        if marks[n] == 0 {
            return false;
        }
        marks[n] = 2;
        i += 4;
    }
    true
}
