// Addresses as the source documents write them: the octant's digit and then one digit a level.
#![tactic(auto)]

ghost use Rattle.std.specs.Prelude.{◌≡◌};
ghost use Rattle.address.specs.Address.{number_from};

// The cell number of an address. The characters 0 to 7 leave their digits when divided by 8.
pub fn read(address: &[u8]) -> u32
    ensures { result ≡ number_from 0 address.now }
{
    let mut n: u32 = 0;
    for character in address {
        n = n % 0x1000_0000 * 4 + u32::from(*character % 8);
    }
    n
}
