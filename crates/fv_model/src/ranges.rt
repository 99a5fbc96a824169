ghost use Rattle.std.specs.Prelude.{◌≡◌};
ghost use Rattle.fv_model.specs.Numbers.{is_size, is_reserve, is_index, is_step_count};

/// Whether a number of blocks can be a volume's size: 1 to 500,000.
pub fn in_size(n: u64) -> bool
    ensures { result ≡ is_size n }
{
    1 <= n && n <= 500_000
}

/// Whether a number of blocks can be a file's reserve or length: 0 to 2,097,152.
pub fn in_reserve(n: u64) -> bool
    ensures { result ≡ is_reserve n }
{
    n <= 2_097_152
}

/// Whether a number can be the index of a cell: 0 to 2,097,151.
pub fn in_index(n: u64) -> bool
    ensures { result ≡ is_index n }
{
    n <= 2_097_151
}

/// Whether a number of background steps can be asked for: 0 to 1,000,000.
pub fn in_steps(n: u64) -> bool
    ensures { result ≡ is_step_count n }
{
    n <= 1_000_000
}
