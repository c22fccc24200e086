//! What holds of all summaries. Each law is the contract of a function that does nothing.

ghost use Rattle.std.specs.Prelude.{List, ℕ, ◌≡◌, length};
ghost use Rattle.mesh_base.specs.Mesh.{IsLiveVertex};
ghost use Rattle.mesh_make.specs.Cubes.{IsRow};
ghost use Rattle.log_text.specs.declared.LogLine.{LogLine};
ghost use Rattle.log_text.specs.Lines.{text_of_lines};
ghost use Rattle.outside_io.specs.ToldLines.{lines_in, steps_in, whole_steps_in, splits_in};
ghost use Rattle.track_try.specs.Summary.{CountsLines, is_step_line, is_whole_step_line, is_split_line, replay_of_cubes, summary_of};

/// Of the text of any lines of a log, whatever their values are: as many lines of it have ended as there are, and as many of these tell a
/// step, a step that is taken with the asked shifts, or a split, as there are lines of that kind.
pub fn counts_of_a_text_are_those_of_its_lines()
    ensures lines { (log : List LogLine) → lines_in (text_of_lines log) ≡ length log }
    ensures steps { CountsLines steps_in is_step_line }
    ensures whole_steps { CountsLines whole_steps_in is_whole_step_line }
    ensures splits { CountsLines splits_in is_split_line }
{}

/// Vertex 1 lives in the mesh to which the log of each job of cubes leads, whatever its key. So each summary has the line that tells
/// where it stands.
pub fn each_summary_tells_where_vertex_1_stands()
    ensures { (n key : ℕ) → IsRow n → IsLiveVertex (replay_of_cubes n key).mesh 1 }
{}

/// Each summary has seven lines, each of which has ended.
pub fn each_summary_has_seven_lines()
    ensures { (n key : ℕ) → IsRow n → lines_in (summary_of n key) ≡ 7 }
{}
