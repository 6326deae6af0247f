// Bits of a byte.
#![tactic(auto)]

ghost use Rattle.std.specs.Prelude.{◌≡◌, ◌<◌};
ghost use Rattle.bits.specs.Bits.{bit, put_bit};

// Whether bit k of b is 1.
pub fn has_bit(b: u8, k: u8) -> bool
    requires { k < 8 }
    ensures { result ≡ bit k b }
{
    (b >> k) % 2 == 1
}

// The byte b with bit k made 1 where v holds, 0 where not.
pub fn put_bit(b: u8, k: u8, v: bool) -> u8
    requires { k < 8 }
    ensures { result ≡ put_bit k v b }
{
    if v {
        return b | (1u8 << k);
    }
    b & !(1u8 << k)
}
