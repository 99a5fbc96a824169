//! How many indexes a range holds.

ghost use Rattle.std.specs.Prelude.{◌≡◌, ◌^◌, ◌<◌, ◌≤◌};
ghost use Rattle.fv_model.specs.Trees.{fan};

/// How many pointers a node has.
pub const FAN: u32 = 128;

/// How many indexes a range of a level holds.
pub fn width(level: u8) -> u32
    requires { level ≤ 3 }
    ensures is { result ≡ fan ^ level }
    ensures some { 0 < result }
{
    match level {
        0 => 1,
        1 => 128,
        2 => 16_384,
        _ => 2_097_152,
    }
}
