//! The words of the command line.

ghost use Rattle.std.specs.Prelude.{◌≡◌, map, string_bytes};
ghost use Rattle.std.specs.Option.{option_map};
ghost use Rattle.fv_script.specs.CommandLine.{blocks_of, draws_of, seed_of};
ghost use Rattle.fv_reference_run.specs.Meaning.{answer, printed, Means};

use fv_script::{read_blocks, read_draws, read_seed};

/// What the words of the command line ask for.
#[derive(Clone, Copy, Debug, PartialEq, Eq)]
pub enum Order {
    /// Answer the script of the source.
    Answer {
        /// The blocks of the machine, from 512 to 1,048,576.
        blocks: u32,
    },
    /// Print the script of a seed.
    Gen {
        /// The seed.
        seed: u64,
        /// How many commands are drawn, at most 1,000,000.
        count: u32,
    },
}

/// Why words ask for nothing.
#[derive(Clone, Copy, Debug, PartialEq, Eq)]
pub enum WordsFault {
    /// The words have no meaning.
    Usage,
}

/// What the words of the command line mean: `BLOCKS`, a number from 512 to 1,048,576; or `gen SEED COUNT`, with a seed below 2^64 and a
/// number of drawn commands of at most 1,000,000. A number is 1 to 20 decimal digits. Every other list of words is `Usage`. It costs by
/// the words' bytes and takes no memory.
pub fn read_words(words: &[String]) -> Result<Order, WordsFault>
    ensures { Means (map string_bytes words.now) result }
{
    match words {
        [size] => answer(size.as_bytes()).ok_or(WordsFault::Usage),
        [command, seed, count] if command.as_str() == "gen" => {
            printed(seed.as_bytes(), count.as_bytes()).ok_or(WordsFault::Usage)
        }
        _ => Err(WordsFault::Usage),
    }
}

fn answer(size: &[u8]) -> Option<Order>
    ensures { result ≡ option_map answer (blocks_of size.now) }
{
    let blocks = read_blocks(size)?;
    Some(Order::Answer { blocks })
}

fn printed(seed: &[u8], count: &[u8]) -> Option<Order>
    ensures { result ≡ printed (seed_of seed.now) (draws_of count.now) }
{
    let seed = read_seed(seed)?;
    let count = read_draws(count)?;
    Some(Order::Gen { seed, count })
}
