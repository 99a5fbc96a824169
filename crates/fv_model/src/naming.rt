ghost use Rattle.std.specs.Prelude.{◌≡◌, ◌≤◌, ◌-◌, ◌++◌, ◌∷◌, [], List, ℕ, cond, true, length, replicate, Some, None, OnOk, OnErr};
ghost use Rattle.std.specs.List.{list_all};
ghost use Rattle.std.specs.Ordering.{nat_cmp, as_partial_cmp, eq_by_cmp};
ghost use Rattle.std.specs.Cmp.Rules.{comparing};
ghost use Rattle.std.specs.Cmp.Lexicographic.{slice_cmp};
ghost use Rattle.std.proofs.Common.{rules};
ghost use Rattle.fv_model.specs.Spelling.{is_name, is_name_byte, name_cmp};

use std::alloc::{AllocError, Global};
use std::cmp::Ordering;
use std::marker::Model;

/// The greatest number of bytes of a name.
const LONGEST: usize = 64;

/// A name: 1 to 64 bytes of `a` to `z`, `0` to `9` and `_`. A contract sees the list of its bytes.
#[derive(Copy, Debug)]
pub struct Name {
    bytes: [u8; 64],
    len: usize,
}

impl Model for Name {
    ghost use Rattle.std.specs.Prelude.{◌++◌, ◌-◌, List, ℕ, length, replicate, take};
    ghost use Rattle.fv_model.specs.Spelling.{IsStored};
    ghost use Rattle.fv_model.specs.Stored.{stored_again};

    ghost Value = { List ℕ };

    ghost view = { λ n. take n.len n.bytes };

    ghost invariant = { λ n. IsStored n.bytes n.len };

    ghost inverse = { λ v. record { bytes = v ++ replicate (64 - length v) 0; len = length v } };

    ghost inverse_ok = { λ a h i. record { bytes = (stored_again a.bytes a.len h).0 i; len = (stored_again a.bytes a.len h).1 i } };
}

impl Name {
    /// The name that a word spells; `None` exactly where it spells none. Reads the word once.
    #[tactic(auto, using(crate::proofs::Padding::padded_is_stored))]
    pub fn read(word: &[u8]) -> Option<Name>
        ensures { result ≡ cond (is_name word.now) (Some word.now) None }
    {
        if !is_spelled(word) {
            return None;
        }
        let bytes = padded(word);
        Some(Name {
            bytes,
            len: word.len(),
        })
    }

    /// The name's bytes.
    pub fn as_bytes(&self) -> &[u8]
        ensures bytes { result.now ≡ self.now }
        ensures form { is_name self.now ≡ true }
    {
        &self.bytes[..self.len]
    }
}

/// The word with zero bytes after it.
fn padded(word: &[u8]) -> [u8; 64]
    requires { length word.now ≤ 64 }
    ensures { result ≡ word.now ++ replicate (64 - length word.now) 0 }
{
    let mut bytes = [0; 64];
    bytes[..word.len()].copy_from_slice(word);
    bytes
}

fn is_spelled(word: &[u8]) -> bool
    ensures { result ≡ is_name word.now }
{
    1 <= word.len() && word.len() <= LONGEST && has_letters_alone(word)
}

fn has_letters_alone(word: &[u8]) -> bool
    ensures { result ≡ list_all is_name_byte word.now }
{
    word.iter().all(|b| is_letter(*b))
}

fn is_letter(byte: u8) -> bool
    ensures { result ≡ is_name_byte byte }
{
    97 <= byte && byte <= 122 || 48 <= byte && byte <= 57 || byte == 95
}

impl Clone for Name {
    ghost use Rattle.std.specs.Prelude.{◌≡◌, ⊤};

    ghost is_clone = { λ x y. y ≡ x };

    ghost is_infallible = { λ _. ⊤ };

    fn clone(&self) -> Result<Name, AllocError> {
        Ok(*self)
    }
}

impl Ord for Name {
    ghost cmp = { slice_cmp nat_cmp };

    ghost total = { Prim.search (comparing, rules) };

    ghost matches_partial_cmp = { Prim.search (comparing, rules) };

    ghost matches_eq = { Prim.search (comparing, rules) };

    fn cmp(&self, other: &Name) -> Ordering {
        self.as_bytes().cmp(other.as_bytes())
    }
}

impl PartialOrd for Name {
    ghost partial_cmp = { as_partial_cmp (slice_cmp nat_cmp) };

    ghost laws = { Prim.search (comparing, rules) };

    fn partial_cmp(&self, other: &Name) -> Option<Ordering> {
        Some(self.cmp(other))
    }
}

impl PartialEq for Name {
    ghost eq = { eq_by_cmp (slice_cmp nat_cmp) };

    ghost laws = { Prim.search (comparing, rules) };

    fn eq(&self, other: &Name) -> bool {
        self.cmp(other) == Ordering::Equal
    }
}

impl Eq for Name {
    ghost laws = { Prim.search (comparing, rules) };
}

/// A list of names. A contract sees it as that list.
#[derive(Debug, Drop)]
pub struct Names {
    names: Vec<Name>,
}

impl Model for Names {
    ghost Value = { List (List ℕ) };

    ghost view = { λ n. n.names.items };
}

impl Names {
    /// No names. Takes no memory.
    pub fn new(alloc: Global) -> Names
        ensures { result ≡ [] }
    {
        Names {
            names: Vec::new(alloc),
        }
    }

    /// Adds a name at the end; where there is no memory for it the list stays.
    pub fn push(&mut self, name: &Name) -> Result<(), AllocError>
        ensures ok { OnOk result (self.new ≡ self.old ++ name.now ∷ []) }
        ensures err { OnErr result (self.new ≡ self.old) }
    {
        self.names.push(*name)?;
        Ok(())
    }

    /// The names in order.
    pub fn as_slice(&self) -> &[Name]
        ensures { result.now ≡ self.now }
    {
        self.names.as_slice()
    }
}
