// How many elements are looked at: numbers that stop at the largest of 64 bits.
//   add(a, b) == the sum of two counts
//   if_looked(look, n) == what an element counts that names a table in which n patterns are tried, if it is looked at
ghost use Rattle.std.specs.Prelude.{◌≡◌, ◌+◌};
ghost use Rattle.tables.specs.Tried.{capped};
ghost use Rattle.elements.specs.Code.{counted};

// The sum of two counts, as far as it goes.
pub fn add(a: u64, b: u64) -> u64
    ensures { result ≡ capped (a + b) }
{
    if 18446744073709551615 - a < b {
        return 18446744073709551615;
    }
    a + b
}

// The element itself and the n patterns that are tried in the table that it names, if it is looked at.
pub fn if_looked(look: bool, n: u64) -> u64
    ensures { result ≡ counted look (capped (1 + n)) }
{
    if look { add(1, n) } else { 0 }
}
