// Masks and prefixes: whole words compared, and only the last one under a mask; words of 32 bits for IPv4, of 64 for IPv6.
//   same_prefix_v4(a, b, n), same_prefix_v6(a_high, a_low, b_high, b_low, n) == the first n bits of two addresses are equal
//   in_net(net, mask, addr)                         == net is the bitwise AND of the address and the mask
//   clear_beyond_v4(n, len), clear_beyond_v6(..)    == no bit beyond the first len is set
ghost use Rattle.std.specs.Prelude.{◌≡◌, ◌+◌, ◌-◌, ◌*◌, ◌%◌, ◌^◌, ◌≤◌, eqb};
ghost use Rattle.std.specs.Int.Bits.{bit_and};
ghost use Rattle.address.specs.Address.{same_prefix};

// The word whose bits beyond the first n are ones. No shift is by the whole width.
fn mask_beyond(n: u32) -> u64
    requires { n ≤ 64 }
    ensures { result ≡ 2 ^ (64 - n) - 1 }
{
    if n == 64 {
        return 0;
    }
    18446744073709551615 >> n
}

// Whether two words agree in their first n bits.
fn same_word(a: u64, b: u64, n: u32) -> bool
    requires { n ≤ 64 }
    ensures { result ≡ same_prefix 64 n a b }
{
    let m = !mask_beyond(n);
    (a & m) == (b & m)
}

// Whether no bit of a word beyond the first n is set.
fn clear_word(a: u64, n: u32) -> bool
    requires { n ≤ 64 }
    ensures { result ≡ eqb (a % 2 ^ (64 - n)) 0 }
{
    (a & mask_beyond(n)) == 0
}

// Whether two IPv6 addresses agree in their first n bits.
pub fn same_prefix_v6(a_high: u64, a_low: u64, b_high: u64, b_low: u64, n: u32) -> bool
    requires { n ≤ 128 }
    ensures { result ≡ same_prefix 128 n (a_high * 2 ^ 64 + a_low) (b_high * 2 ^ 64 + b_low) }
{
    if n <= 64 {
        return same_word(a_high, b_high, n);
    }
    if a_high != b_high {
        return false;
    }
    same_word(a_low, b_low, n - 64)
}

// The word of 32 bits whose bits beyond the first n are ones. No shift is by the whole width.
fn mask_beyond_v4(n: u32) -> u32
    requires { n ≤ 32 }
    ensures { result ≡ 2 ^ (32 - n) - 1 }
{
    if n == 32 {
        return 0;
    }
    4294967295 >> n
}

// The word of 32 bits whose first n bits are ones: the mask of that length.
pub fn leading_ones_v4(n: u32) -> u32
    requires { n ≤ 32 }
    ensures { result ≡ 2 ^ 32 - 2 ^ (32 - n) }
{
    !mask_beyond_v4(n)
}

// Whether two IPv4 addresses agree in their first n bits.
pub fn same_prefix_v4(a: u32, b: u32, n: u32) -> bool
    requires { n ≤ 32 }
    ensures { result ≡ same_prefix 32 n a b }
{
    let m = !mask_beyond_v4(n);
    (a & m) == (b & m)
}

// Whether net is the bitwise AND of an IPv4 address and the mask. The net itself is never masked.
pub fn in_net(net: u32, mask: u32, addr: u32) -> bool
    ensures { result ≡ eqb net (bit_and addr mask) }
{
    net == (addr & mask)
}

// Whether no bit of an IPv4 address beyond the first len is set.
pub fn clear_beyond_v4(n: u32, len: u32) -> bool
    requires { len ≤ 32 }
    ensures { result ≡ eqb (n % 2 ^ (32 - len)) 0 }
{
    (n & mask_beyond_v4(len)) == 0
}

// Whether no bit of an IPv6 address beyond the first len is set.
pub fn clear_beyond_v6(high: u64, low: u64, len: u32) -> bool
    requires { len ≤ 128 }
    ensures { result ≡ eqb ((high * 2 ^ 64 + low) % 2 ^ (128 - len)) 0 }
{
    if 64 <= len {
        return clear_word(low, len - 64);
    }
    if low != 0 {
        return false;
    }
    clear_word(high, len)
}
