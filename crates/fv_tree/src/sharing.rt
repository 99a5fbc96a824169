//! Which blocks of a source another table has, too.

ghost use Rattle.std.specs.Prelude.{◌≡◌, ℕ, Bool};

use crate::blocks::Blocks;

/// The blocks of a volume of which some are shared: another table than the one that is changed, such as a snapshot's, has
/// their VVBNs, too. Such a block stays charged when the table that is changed lets it go.
pub trait Sharing: Blocks {
    /// Which VVBNs are shared.
    ghost shared: { Self → ℕ → Bool };

    /// Whether a VVBN is shared, whatever number it is. It makes no call that can fail and takes no memory.
    fn is_shared(&self, vvbn: u64) -> bool
        ensures { result ≡ shared self.now vvbn };

    /// A load leaves what is shared.
    ghost reads_share: { (old new : Self) → Self.Blocks.reads old new → (v : ℕ) → shared new v ≡ shared old v };
}
