// A program that is given a file: it reads the file, makes one call, and tells on standard error what fails.
use std::alloc::Global;
use std::io;
use std::io::{Print, Read};
use std::rt::{Env, Files};

// Linux's number for bytes that are no text.
const NO_TEXT: i32 = 84;

// The front of the file of a name: all of it, or its first `most` bytes.
pub fn read_front<R: Files + AllocGlobal>(rt: &R, name: &[u8], most: u64) -> io::Result<Vec<u8>> {
    let Ok(path) = std::str::from_utf8(name) else {
        return Err(io::Error::from_raw_os_error(NO_TEXT));
    };
    let mut front = Vec::new(rt.alloc());
    std::fs::open(rt, path)?.take(most).read_to_end(&mut front)?;
    Ok(front)
}

// An error's text up to the number that std writes after the system's words.
fn reason(said: &str) -> &str {
    match said.split_once(" (os error ") {
        Some((reason, _)) => reason,
        None => said,
    }
}

// Writes a line: what failed, a colon and why, in the system's words.
pub fn tell_failure(
    to: &impl Print,
    alloc: Global,
    what: &[u8],
    error: io::Error,
) -> io::Result<()> {
    let said = format!(in alloc; "{error}")?;
    to.write_all(what)?;
    to.print(": ")?;
    to.println(reason(said.as_str()))
}

// Writes a line: a file's name, the number that it is refused by and the section, and why, with the colon before it and the newline.
pub fn tell_refusal(
    errors: &impl Print,
    name: &[u8],
    n: u32,
    section: u32,
    why: &str,
) -> io::Result<()> {
    errors.write_all(name)?;
    errors.print(": refused ")?;
    errors.print(n)?;
    errors.print(" section ")?;
    errors.print(section)?;
    errors.print(why)
}

// The first n bytes of s; none where it has fewer.
fn front(s: &[u8], n: usize) -> &[u8] {
    if s.len() < n {
        return &s[..0];
    }
    let a = 0;
    &s[a..n]
}

// Writes the first n bytes of an output.
pub fn write_front(to: &impl Print, out: &[u8], n: u64) -> io::Result<()> {
    to.write_all(front(out, n as usize))
}

fn answer_file<R: Files + AllocGlobal, F: FnOnce(&[u8], &[u8]) -> io::Result<()>>(
    rt: &R,
    errors: &impl Print,
    name: &[u8],
    most: u64,
    answer: F,
) -> io::Result<()>
    requires { F.IsAlwaysCallable answer }
{
    match read_front(rt, name, most) {
        Ok(bytes) => answer(name, &bytes),
        Err(e) => tell_failure(errors, rt.alloc(), name, e),
    }
}

fn answer_argument<R: Env + Files + AllocGlobal, F: FnOnce(&[u8], &[u8]) -> io::Result<()>>(
    rt: &R,
    errors: &impl Print,
    usage: &str,
    most: u64,
    answer: F,
) -> io::Result<()>
    requires { F.IsAlwaysCallable answer }
{
    let mut name = [0u8; 4096];
    match rt.arg(1, &mut name) {
        Ok(length) => answer_file(rt, errors, &name[..length], most, answer),
        Err(_) => errors.println(usage),
    }
}

// Runs a program: `answer` takes the name and the first `most` bytes of the file that the first argument names, and writes the answer.
// What can't be read is told before: an error that comes back is of a write.
pub fn run<R: Env + Files + AllocGlobal, F: FnOnce(&[u8], &[u8]) -> io::Result<()>>(
    rt: &R,
    errors: &impl Print,
    usage: &str,
    most: u64,
    answer: F,
)
    requires { F.IsAlwaysCallable answer }
{
    if let Err(e) = answer_argument(rt, errors, usage, most, answer) {
        let _ = tell_failure(errors, rt.alloc(), b"standard output", e);
    }
}
