//! The laws of the field, each as a function with nothing to do, whose contract is the law.

ghost use Rattle.std.specs.Prelude.{◌≡◌, bit_xor};
ghost use Rattle.nc_gf256.specs.Field.{mul};
ghost use Rattle.nc_gf256.specs.Laws.{Commutes, Associates, Distributes, HasInverse};

/// Addition is commutative and associative, 0 is neutral, and each byte is its own negative.
pub fn add_laws(a: u8, b: u8, c: u8)
    ensures commutative { Commutes bit_xor a b }
    ensures associative { Associates bit_xor a b c }
    ensures zero { bit_xor a 0 ≡ a }
    ensures negative { bit_xor a a ≡ 0 }
{}

/// The product is commutative and associative, 1 is neutral, and 0 absorbs.
pub fn mul_laws(a: u8, b: u8, c: u8)
    ensures commutative { Commutes mul a b }
    ensures associative { Associates mul a b c }
    ensures one { mul 1 a ≡ a }
    ensures zero { mul 0 a ≡ 0 }
{}

/// The product distributes over the sum.
pub fn distributes(a: u8, b: u8, c: u8)
    ensures { Distributes a b c }
{}

/// Each byte other than 0 has an inverse.
pub fn inverse(a: u8)
    ensures { HasInverse a }
{}
