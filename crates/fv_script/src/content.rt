//! The line of a block.

ghost use Rattle.std.specs.Prelude.{◌≡◌, ◌≤◌, ◌<◌, ◌^◌, ◌+◌, ◌*◌, flat_map, length, nat_eq, take, ◌++◌, ◌∷◌, []};
ghost use Rattle.std.specs.List.{list_all, suffix_len};
ghost use Rattle.fv_model.specs.Texts.{hex, hex_digit, or_dash, trimmed};
ghost use Rattle.fv_script.specs.Parts.{is_zero};

/// Lays the line of a block at the front of the bytes lent, and answers how long it is: the hexadecimal digits of the block without the zero
/// bytes at its end, or a dash.
#[tactic(auto, using(crate::proofs::Hexes::one_more))]
pub fn lay_line(line: &mut [u8], trimmed: &[u8]) -> usize
    requires { 2 * length trimmed.now + 2 ≤ length line.old }
    ensures spelled { take result line.new ≡ or_dash (flat_map hex trimmed.now) ++ 10 ∷ [] }
    ensures within { result ≤ length line.new }
{
    let end = lay_word(line, trimmed);
    line[end] = b'\n';
    end + 1
}

#[tactic(auto, using(crate::proofs::Hexes::a_dash, crate::proofs::Hexes::no_dash))]
fn lay_word(line: &mut [u8], trimmed: &[u8]) -> usize
    requires { 2 * length trimmed.now + 2 ≤ length line.old }
    ensures spelled { take result line.new ≡ or_dash (flat_map hex trimmed.now) }
    ensures within { result < length line.new }
{
    if trimmed.is_empty() {
        line[0] = b'-';
        return 1;
    }
    lay_digits(line, trimmed);
    2 * trimmed.len()
}

/// Two digits for each byte.
#[tactic(auto, using(crate::proofs::Hexes::begins, crate::proofs::Hexes::turn, crate::proofs::Hexes::ended))]
fn lay_digits(line: &mut [u8], bytes: &[u8])
    requires { 2 * length bytes.now ≤ length line.old }
    ensures spelled { take (2 * length bytes.now) line.new ≡ flat_map hex bytes.now }
    ensures long { length line.new ≡ length line.old }
{
    for i in 0..bytes.len() {
        line[2 * i] = digit(bytes[i] / 16);
        line[2 * i + 1] = digit(bytes[i] % 16);
    }
}

fn digit(value: u8) -> u8
    requires { value < 16 }
    ensures { result ≡ hex_digit value }
{
    if value < 10 {
        b'0' + value
    } else {
        b'a' + value - 10
    }
}

/// The bytes without the zero bytes at their end: whole pieces are passed over first.
#[tactic(auto, using(crate::proofs::Hexes::zeros_within))]
pub fn trimmed(bytes: &[u8]) -> &[u8]
    ensures bytes { result.now ≡ trimmed bytes.now }
    ensures short { length result.now ≤ length bytes.now }
{
    let front = without_zeros(without_zeros(bytes, 64), 8);
    &front[..front.len() - zeros_behind(front)]
}

/// The bytes without the whole pieces of zeros at their end.
#[tactic(auto, using(crate::proofs::Hexes::zeros_begin, crate::proofs::Hexes::zeros_passed))]
fn without_zeros(bytes: &[u8], piece: usize) -> &[u8]
    requires { 0 < piece }
    ensures same { trimmed result.now ≡ trimmed bytes.now }
    ensures short { length result.now ≤ length bytes.now }
{
    let mut front = bytes;
    while front.len() >= piece {
        let (left, last) = front.split_at(front.len() - piece);
        if !has_zeros_alone(last) {
            return front;
        }
        front = left;
    }
    front
}

/// It looks at each byte, also behind one that isn't zero, so that a compiler can look at many in one step.
#[tactic(auto, using(crate::proofs::Befores::tests_begin, crate::proofs::Befores::tests_more, crate::proofs::Befores::tests_end))]
fn has_zeros_alone(bytes: &[u8]) -> bool
    ensures { result ≡ list_all is_zero bytes.now }
{
    let mut all = true;
    for byte in bytes {
        all &= *byte == 0;
    }
    all
}

/// How many zero bytes stand at the end.
fn zeros_behind(bytes: &[u8]) -> usize
    ensures { result ≡ suffix_len is_zero bytes.now }
{
    bytes.iter().rev().take_while(|b| **b == 0).count()
}
