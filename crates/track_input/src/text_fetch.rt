ghost use Rattle.std.specs.Prelude.{IfOk};
ghost use Rattle.outside_io.specs.Outside.{OnlyLooks, files_before};
ghost use Rattle.track_input.specs.Reads.{FetchesText};

use mesh_base::Scale;
use outside_io::{Fetched, Outside, Stop};
use std::alloc::Global;

/// Fetches a file of at most the greatest length of a text of a job of this scale.
pub fn fetch_text<O: Outside>(
    alloc: Global,
    scale: Scale,
    outside: &mut O,
    name: &str,
) -> Result<Fetched, Stop>
    ensures source { IfOk result (FetchesText scale (files_before O.around outside) name.now) }
    ensures looks { OnlyLooks (O.around outside.old) (O.around outside.new) result }
{
    outside.fetch(alloc, name, scale.text_most())
}
