// Where to begin to look for a name: a number of the name, and where the first table stands whose name has it.
//   key(name)                      == that number, below 256
//   note_starts(tables, made)      == where to begin, for each number
//   find_by(tables, starts, name)  == what find(tables, name) is
ghost use Rattle.std.specs.Prelude.{◌≡◌, ◌<◌, replicate};
ghost use Rattle.tables.specs.Code.{tables_in, place_named, SoughtFrom, key_of, Starts};

use super::entry::{after_count, after_entry, entry_name, entry_span, is_named, table_count};

// The number of a name, the same whatever its case, which changes none of the low five bits of a byte.
fn key(name: &[u8]) -> usize
    ensures number { result ≡ key_of name.now }
    ensures within { result < 256 }
{
    let mut made = 0;
    let mut i = 0;
    while i < name.len() {
        made = (made * 27 + (name[i] % 32) as usize) % 256;
        i += 1;
    }
    made
}

// Fills made: for each number of a name how many tables there are from the first on whose name has it, then for each the byte that they stand at.
pub fn note_starts(tables: &[u8], made: &mut [usize; 512])
    requires { made.old ≡ replicate 512 0 }
    ensures { Starts tables.now made.new }
{
    let n = table_count(tables);
    let mut rest = after_count(tables);
    let mut i = 0;
    while i < n {
        let span = entry_span(rest);
        if span.cut {
            return;
        }
        let k = key(entry_name(rest, span));
        if made[k] < n - i {
            made[k] = n - i;
            made[256 + k] = tables.len() - rest.len();
        }
        let next = after_entry(rest, span);
        rest = next;
        i += 1;
    }
}

// The place of the first table so named, from the place start on: from holds the tables from there, and none before it has the name.
fn find_from(tables: &[u8], name: &[u8], from: &[u8], start: usize) -> Option<usize>
    requires { SoughtFrom tables.now name.now from.now start }
    ensures { result ≡ place_named (tables_in tables.now) name.now }
{
    let n = table_count(tables);
    let mut rest = from;
    let mut i = start;
    while i < n {
        let span = entry_span(rest);
        if span.cut {
            return None;
        }
        if is_named(name, entry_name(rest, span)) {
            return Some(i);
        }
        let next = after_entry(rest, span);
        rest = next;
        i += 1;
    }
    None
}

// The place of the first table so named.
pub fn find_by(tables: &[u8], starts: &[usize; 512], name: &[u8]) -> Option<usize>
    requires { Starts tables.now starts.now }
    ensures { result ≡ place_named (tables_in tables.now) name.now }
{
    let k = key(name);
    let left = starts[k];
    if left == 0 {
        return None;
    }
    let at = starts[256 + k];
    find_from(tables, name, &tables[at..], table_count(tables) - left)
}
