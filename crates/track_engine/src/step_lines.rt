ghost use Rattle.std.specs.Prelude.{◌∷◌, []};
ghost use Rattle.log_text.specs.declared.LogLine.TheVariants.{Block};
ghost use Rattle.step_choose.specs.Chosen.{way_of};
ghost use Rattle.track_engine.specs.Effects.{hit_lines, block_lines, move_lines, way_lines};
ghost use Rattle.log_write.specs.Written.{Says};

use crate::shift_sums::moves;
use grid_base::copy_of;
use log_text::LogLine;
use log_write::Listener;
use mesh_base::{Ids, PairName, ShiftOf, VertexId};
use outside_io::Stop;
use std::alloc::Global;
use step_choose::Choice;

// The line of a shift, where it is not zero.
fn say_move<O: Listener>(alloc: Global, s: &ShiftOf, outside: &mut O) -> Result<(), Stop>
    ensures { Says (move_lines (s.now ∷ []))
        (O.around outside.old) (O.around outside.new) result }
{
    if !moves(s) {
        return Ok(());
    }
    outside.tell(alloc, &LogLine::Move(*s))
}

// A line for each shift that is not zero.
fn say_moves<O: Listener>(alloc: Global, asked: &[ShiftOf], outside: &mut O) -> Result<(), Stop>
    ensures { Says (move_lines asked.now) (O.around outside.old) (O.around outside.new) result }
{
    for s in asked {
        say_move(alloc, s, outside)?;
    }
    Ok(())
}

/// A line for each pair.
pub(crate) fn say_hits<O: Listener>(
    alloc: Global,
    pairs: &[PairName],
    outside: &mut O,
) -> Result<(), Stop>
    ensures { Says (hit_lines pairs.now) (O.around outside.old) (O.around outside.new) result }
{
    for pair in pairs {
        outside.tell(alloc, &LogLine::Hit(*pair))?;
    }
    Ok(())
}

// The line of a block.
fn say_block<O: Listener>(alloc: Global, ids: &[VertexId], outside: &mut O) -> Result<(), Stop>
    ensures { Says (Block ids.now ∷ []) (O.around outside.old) (O.around outside.new) result }
{
    let ids = copy_of(alloc, ids)?;
    outside.tell(alloc, &LogLine::Block(ids))
}

// A line for each block.
fn say_blocks<O: Listener>(alloc: Global, blocks: &[Ids], outside: &mut O) -> Result<(), Stop>
    ensures { Says (block_lines blocks.now) (O.around outside.old) (O.around outside.new) result }
{
    for block in blocks {
        say_block(alloc, block.as_slice(), outside)?;
    }
    Ok(())
}

/// The lines of the blocks, of the shifts that are taken, and of the way.
pub(crate) fn say_way<O: Listener>(
    alloc: Global,
    choice: &Choice,
    outside: &mut O,
) -> Result<(), Stop>
    ensures { Says (way_lines (way_of choice.now))
        (O.around outside.old) (O.around outside.new) result }
{
    say_blocks(alloc, choice.blocks.as_slice(), outside)?;
    say_moves(alloc, choice.taken.as_slice(), outside)?;
    outside.tell(alloc, &LogLine::Moved(choice.how))?;
    Ok(())
}
