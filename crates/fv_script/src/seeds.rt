//! The seed of a generated script, and how many commands of it are drawn, as words of a command line.

ghost use Rattle.std.specs.Prelude.{◌≡◌};
ghost use Rattle.fv_script.specs.CommandLine.{draws_of, seed_of};

use crate::values::{MOST_DIGITS, is_number, wide_value};

/// One more than the greatest seed.
const SEEDS: u128 = 1 << 64;

/// The most commands that are drawn.
const MOST_DRAWS: u128 = 1_000_000;

/// The seed that a word of a command line names: 1 to 20 decimal digits, below 2^64. Every other word names
/// none. It costs by the word's bytes and takes no memory.
#[tactic(auto, unfolding(crate::specs::CommandLine::seed_of))]
pub fn read_seed(word: &[u8]) -> Option<u64>
    ensures { result ≡ seed_of word.now }
{
    if !is_number(word) || word.len() > MOST_DIGITS {
        return None;
    }
    let seed = wide_value(word);
    if seed < SEEDS {
        Some(seed as u64)
    } else {
        None
    }
}

/// The number of drawn commands that a word of a command line names: 1 to 20 decimal digits, at most
/// 1,000,000. Every other word names none. It costs by the word's bytes and takes no memory.
#[tactic(auto, unfolding(crate::specs::CommandLine::draws_of))]
pub fn read_draws(word: &[u8]) -> Option<u32>
    ensures { result ≡ draws_of word.now }
{
    if !is_number(word) || word.len() > MOST_DIGITS {
        return None;
    }
    let draws = wide_value(word);
    if draws <= MOST_DRAWS {
        Some(draws as u32)
    } else {
        None
    }
}
