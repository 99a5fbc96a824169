//! One word of a bit map: its bits, counted from the least.

ghost use Rattle.std.specs.Prelude.{◌≡◌, ℕ, ◌%◌, ◌^◌, ◌<◌, true, false};
ghost use Rattle.fv_bits.specs.Bits.{bit_of_number};
ghost use Rattle.fv_bits.specs.Stored.{IsFirstBit, PutsBit};

/// Whether bit `k` is set.
#[tactic(auto, using(std::proofs::lemmas::Nat::Bits::shr_and_one), unfolding(crate::specs::Bits::bit_of_number))]
pub(crate) fn is_set(word: u64, k: u32) -> bool
    requires { k < 64 }
    ensures { result ≡ bit_of_number word k }
{
    (word >> k) & 1 == 1
}

/// The word with bit `k` set.
#[tactic(auto, using(crate::proofs::Numbers::set_bit))]
pub(crate) fn with_bit(word: u64, k: u32) -> u64
    requires { k < 64 }
    ensures { PutsBit word k true result }
{
    word | (1 << k)
}

/// The word with bit `k` clear.
#[tactic(auto, using(crate::proofs::Numbers::clear_bit))]
pub(crate) fn without_bit(word: u64, k: u32) -> u64
    requires { k < 64 }
    ensures { PutsBit word k false result }
{
    word & !(1 << k)
}

/// The lowest `k` bits of the word as a number.
#[tactic(auto, using(crate::proofs::Numbers::low_part))]
pub(crate) fn low_bits(word: u64, k: u32) -> u64
    requires { k < 64 }
    ensures { result ≡ word % 2 ^ k }
{
    word & ((1 << k) - 1)
}

/// The first bit from `k` on that is set, or 64.
#[tactic(auto, using(crate::proofs::Numbers::first_set_bit))]
pub(crate) fn first_set(word: u64, k: u32) -> u32
    requires { k < 64 }
    ensures { IsFirstBit word true k result }
{
    (k + (word >> k).trailing_zeros()).min(64)
}

/// The first bit from `k` on that is clear, or 64.

pub(crate) fn first_clear(word: u64, k: u32) -> u32
    requires { k < 64 }
    ensures { IsFirstBit word false k result }
{
    first_set(!word, k)
}
