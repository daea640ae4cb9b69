// Floats of 32 bits: a sign, 8 bits of exponent, 23 of fraction.
ghost use Rattle.std.specs.Prelude.{◌≡◌};
ghost use Rattle.std.specs.Float.{binary32};
ghost use Rattle.std.specs.Float.Ieee.{of_bits};

// The worth of the sign's bit.
pub const SIGN: u32 = 0x8000_0000;

// The bits of infinity. With the sign's bit taken off, those above it are not a number.
const INFINITY: u32 = 0x7f80_0000;

// The float of any 32 bits. `from_bits` does not take those that are not a number: 0 / 0 stands for them all.
pub fn float_of(bits: u32) -> f32
    ensures { result ≡ of_bits binary32 bits }
{
    if bits % SIGN > INFINITY {
        return 0.0 / 0.0;
    }
    f32::from_bits(bits)
}
