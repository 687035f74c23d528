//! Where the script that the command line names comes from.
ghost use Rattle.std.specs.Prelude.{ℕ, List, Option, ⊤};
ghost use Rattle.std.specs.Result.{result_ok};

use std::io::Read;
use std::rt::Files;
use std::{fs, io};

/// What scripts are opened in: the files of a runtime, or a substitute.
pub trait ScriptFiles {
    /// A script that is open.
    type Script: Read + Drop;

    /// That opening this path gave this script, or none. What that says of the path is up to each implementor.
    ghost opened: { Self → List ℕ → Option Self.Script → Type 0 };

    /// Opens the script of this path, to be read from its first byte on, or says why it can't be opened.
    fn open_script(&self, path: &str) -> io::Result<Self::Script>
        ensures { opened self.now path.now (result_ok result) };
}

/// Nothing is said of the files of a runtime: which file was opened is the runtime's matter.
impl<R: Files> ScriptFiles for R {
    type Script = R::File;

    ghost opened = { λ _ _ _. ⊤ };

    fn open_script(&self, path: &str) -> io::Result<R::File> {
        fs::open(self, path)
    }
}
