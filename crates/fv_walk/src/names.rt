//! The names that a walk met.

ghost use Rattle.std.specs.Prelude.{◌≡◌, ◌≢◌, ◌++◌, ◌∷◌, [], List, ℕ, ◌<◌, ◌^◌, Some, OnOk};
ghost use Rattle.fv_codec.specs.declared.inode.InodeRecord.{InodeRecord};
ghost use Rattle.std.specs.List.{All};
ghost use Rattle.std.specs.BTreeMap as maps;
ghost use Rattle.fv_codec.specs.Blocks.{IsInodeRecord};
ghost use Rattle.fv_model.specs.Spelling.{name_cmp};
ghost use Rattle.fv_faults.specs.Walks.{name_lines, used_from};
ghost use Rattle.fv_walk.specs.Naming.{IsNamed, IsNames, name_of, twins};
ghost use Rattle.fv_walk.specs.Noting.{Notes};

use crate::notes::both;
use fv_codec::InodeRecord;
use fv_faults::{Fault, Lines};
use fv_model::Name;
use std::alloc::{AllocError, Global};
use std::collections::BTreeMap;

/// The names of the files that a walk met, each with the number of the first file that has it.
#[derive(Drop)]
pub(crate) struct Names {
    pub firsts: BTreeMap<Name, u64>,
}

impl Names {
    /// No names. It takes no memory.
    pub fn new(alloc: Global) -> Names
        ensures { IsNames [] result }
    {
        Names {
            firsts: BTreeMap::new(alloc),
        }
    }

    /// Notes a line of rule 4 for each used record of an inode block whose name was met before, and adds the others' names. The first
    /// record has the number `first`, and `block` is where the inode block lies.
    pub fn note_files(
        &mut self,
        lines: &mut Lines,
        block: u64,
        first: u64,
        files: &[InodeRecord; 16],
    ) -> Result<bool, AllocError>
        requires files { All IsInodeRecord files.now }
        requires first { first < 2 ^ 63 }
        ensures lines { (met : List (ℕ × InodeRecord)) → IsNames met self.old → Notes (name_lines block met (used_from first files.now)) lines.old lines.new result }
        ensures names { (met : List (ℕ × InodeRecord)) → IsNames met self.old → OnOk result (IsNames (met ++ used_from first files.now) self.new) }
    {
        let mut clean = true;
        for slot in 0..16usize {
            let noted = self.note_record(lines, block, first + slot as u64, &files[slot])?;
            clean = both(clean, noted);
        }
        Ok(clean)
    }

    /// The same of one record.
    fn note_record(
        &mut self,
        lines: &mut Lines,
        block: u64,
        number: u64,
        file: &InodeRecord,
    ) -> Result<bool, AllocError>
        requires { IsInodeRecord file.now }
        ensures lines { (met : List (ℕ × InodeRecord)) → IsNames met self.old → Notes (name_lines block met (used_from number (file.now ∷ []))) lines.old lines.new result }
        ensures names { (met : List (ℕ × InodeRecord)) → IsNames met self.old → OnOk result (IsNames (met ++ used_from number (file.now ∷ [])) self.new) }
    {
        if file.name_length == 0 {
            return Ok(true);
        }
        let Some(name) = name_in(file) else {
            return Ok(true);
        };
        let clean = self.note_name(lines, block, number, &name)?;
        Ok(clean)
    }

    /// The same of a name.
    fn note_name(
        &mut self,
        lines: &mut Lines,
        block: u64,
        number: u64,
        name: &Name,
    ) -> Result<bool, AllocError>
        ensures lines { Notes (twins block number (maps.get name_cmp self.old.firsts name.now)) lines.old lines.new result }
        ensures names { OnOk result (IsNamed self.old name.now number self.new) }
    {
        match self.firsts.get(name) {
            Some(first) => {
                lines.note(Fault {
                    rule: 4,
                    block,
                    want: *first,
                    found: number,
                })?;
                Ok(false)
            }
            None => {
                self.firsts.insert(*name, number)?;
                Ok(true)
            }
        }
    }
}

/// The name in a record that isn't free.
fn name_in(file: &InodeRecord) -> Option<Name>
    requires range { IsInodeRecord file.now }
    requires used { file.now.name_length ≢ 0 }
    ensures { result ≡ Some (name_of file.now) }
{
    Name::read(&file.name[..usize::from(file.name_length)])
}
