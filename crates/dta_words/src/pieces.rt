// The pieces of a text.
ghost use Rattle.std.specs.Prelude.{◌≡◌, IfOk};
ghost use Rattle.clap.specs.Walk.{texts};
ghost use Rattle.dta_words.specs.Pieces.{pieces_of};

use desk_io::Memory;
use std::alloc::Global;

/// The pieces of a text between semicolons.
pub(crate) fn pieces(alloc: Global, text: &str) -> Result<Vec<&str>, Memory>
    ensures { IfOk result (λ pieces. texts pieces.items ≡ pieces_of text.now) }
{
    text.split(';').collect(alloc)
}
