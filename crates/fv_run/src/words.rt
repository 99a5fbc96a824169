//! The words of the command line.

ghost use Rattle.std.specs.Prelude.{◌≡◌, map, string_bytes};
ghost use Rattle.std.specs.Option.{option_map};
ghost use Rattle.fv_script.specs.CommandLine.{blocks_of, draws_of, seed_of};
ghost use Rattle.fv_run.specs.Meaning.{create, generation, Means};

use fv_script::{read_blocks, read_draws, read_seed};

/// What the words of the command line ask for.
#[derive(Clone, Copy, Debug, PartialEq, Eq)]
pub enum Order {
    /// Make a new aggregate of so many blocks, from 512 to 1,048,576.
    Create {
        /// The blocks of the aggregate.
        blocks: u32,
    },
    /// Run the script of the source.
    Run,
    /// Check the aggregate.
    Check,
    /// Run the script of a seed.
    Gen {
        /// The seed.
        seed: u64,
        /// How many commands are drawn, at most 1,000,000.
        count: u32,
    },
}

/// Why words ask for nothing.
#[derive(Clone, Copy, Debug, PartialEq, Eq)]
pub enum WordsFault {
    /// The words have no meaning.
    Usage,
}

/// What the words of the command line mean: `create BLOCKS`, with a number from 512 to 1,048,576; `run`; `check`; or
/// `gen SEED COUNT`, with a seed below 2^64 and a number of drawn commands of at most 1,000,000. A number is 1 to 20 decimal
/// digits. Every other list of words is `Usage`. It costs by the words' bytes and takes no memory.
pub fn read_words(words: &[String]) -> Result<Order, WordsFault>
    ensures { Means (map string_bytes words.now) result }
{
    match words {
        [command] if command.as_str() == "run" => Ok(Order::Run),
        [command] if command.as_str() == "check" => Ok(Order::Check),
        [command, size] if command.as_str() == "create" => {
            create(size.as_bytes()).ok_or(WordsFault::Usage)
        }
        [command, seed, count] if command.as_str() == "gen" => {
            generation(seed.as_bytes(), count.as_bytes()).ok_or(WordsFault::Usage)
        }
        _ => Err(WordsFault::Usage),
    }
}

fn create(size: &[u8]) -> Option<Order>
    ensures { result ≡ option_map create (blocks_of size.now) }
{
    let blocks = read_blocks(size)?;
    Some(Order::Create { blocks })
}

fn generation(seed: &[u8], count: &[u8]) -> Option<Order>
    ensures { result ≡ generation (seed_of seed.now) (draws_of count.now) }
{
    let seed = read_seed(seed)?;
    let count = read_draws(count)?;
    Some(Order::Gen { seed, count })
}
