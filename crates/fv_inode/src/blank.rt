//! Taking the places out of an inode file's pointers, and out of the roots of files.

ghost use Rattle.fv_inode.specs.Blanking.{BlanksFiles};

use crate::file::InodeFile;

impl InodeFile {
    /// Takes the place out of each pointer that a later flush writes: out of the root, out of all pointers of each node in
    /// memory that changed, and out of the root of each file in an inode block in memory that changed, of files that
    /// didn't change, too. They get PVBN 0; all else stays, and each file is as before. A flush that hides places then
    /// writes unknown pointers alone. It goes once over what is in memory, takes no memory and loads nothing.
    pub fn blank(&mut self)
        ensures { BlanksFiles self.old.tree self.new.tree }
    {
        self.tree.blank();
        self.tree.blank_roots();
    }
}
