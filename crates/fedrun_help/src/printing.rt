ghost use Rattle.fedrun_words.specs.Pieces.{AppendsPrinted};
ghost use Rattle.fedrun_help.specs.About.{about_text, version_text};

use crate::about::{About, Version};
use fedrun_words::{AboutRequest, print_text};
use std::io::Write;

/// Prints what is asked for and hands it on, and says whether all of it was written.
pub fn print_about<O: Write>(asked: AboutRequest, out: &mut O) -> bool
    ensures { AppendsPrinted result (O.contents out.old) (O.contents out.new) (about_text asked) }
{
    let is_written = print_text(out, &About(asked));
    out.flush().is_ok() && is_written
}

/// Prints of which commit the program is and whether it is proved, as whoever built it says, and says whether all of it
/// was written.
pub fn print_version<O: Write>(commit: &str, proof: &str, out: &mut O) -> bool
    ensures { AppendsPrinted result (O.contents out.old) (O.contents out.new) (version_text commit.now proof.now) }
{
    let is_written = print_text(out, &Version { commit, proof });
    out.flush().is_ok() && is_written
}
