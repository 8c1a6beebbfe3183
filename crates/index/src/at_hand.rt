// The index that a call is given beside its journal: by value, or as a file.
ghost use Rattle.std.specs.Prelude.{◌≡◌, Bool};
ghost use Rattle.index.specs.Filing.{file_of};
ghost use Rattle.index.specs.Calls.{same, same_index};
ghost use Rattle.index.specs.declared.summary.Index.{Index};

use crate::filing::same_file;
use crate::summary::Index;

pub trait Kept {
    // Whether it is an index, to the last number or byte.
    ghost tells: { Self → Index → Bool };

    fn is(&self, it: &Index) -> bool
        ensures { result ≡ tells self.now it.now };

    // What is answered for it where the call is refused; `fresh` is what was worked out.
    ghost left: { Self → Index → Index };

    fn left(&self, fresh: Index) -> Index
        ensures { result ≡ left self.now fresh };
}

impl Kept for Index {
    ghost tells = { same_index };

    ghost left = { λ it fresh. it };

    fn is(&self, it: &Index) -> bool {
        *self == *it
    }

    fn left(&self, _fresh: Index) -> Index {
        *self
    }
}

impl<'a> Kept for &'a [u8] {
    ghost tells = { λ file it. same file.now (file_of it) };

    ghost left = { λ file fresh. fresh };

    fn is(&self, it: &Index) -> bool {
        same_file(self, *it)
    }

    fn left(&self, fresh: Index) -> Index {
        fresh
    }
}
