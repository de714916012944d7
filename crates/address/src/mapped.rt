// IPv6 addresses that stand for IPv4 ones.
//   unmapped(addr) == the address, held as IPv4 where it is such a one
ghost use Rattle.std.specs.Prelude.{◌≡◌};
ghost use Rattle.address.specs.declared.Addr.TheVariants.{V6};
ghost use Rattle.address.specs.Mapped.{is_mapped, unmapped as unmappedOf};

use super::Addr;

// Whether 80 zero bits and 16 ones come first.
fn is_mapped(high: u64, low: u64) -> bool
    ensures { result ≡ is_mapped (V6 high low) }
{
    (high == 0) & (low >> 32 == 65535)
}

pub fn unmapped(addr: Addr) -> Addr
    ensures { result ≡ unmappedOf addr }
{
    match addr {
        Addr::Unknown => Addr::Unknown,
        Addr::V4(n) => Addr::V4(n),
        Addr::V6(high, low) => {
            if is_mapped(high, low) {
                Addr::V4((low % 4294967296) as u32)
            } else {
                Addr::V6(high, low)
            }
        }
    }
}
