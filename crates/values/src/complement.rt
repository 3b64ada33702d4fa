// The two's complement of 32 bits.
ghost use Rattle.std.specs.Prelude.{◌≡◌};
ghost use Rattle.values.specs.Complement.{twos_complement};

// The two's complement of a number.
#[tactic(auto, unfolding(crate::specs::Complement::twos_complement))]
pub fn twos_complement(v: i32) -> u32
    ensures { result ≡ twos_complement v }
{
    v.cast_unsigned()
}
