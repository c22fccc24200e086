//! Laws of the logs that runs write. Each is the contract of a function that does nothing.
ghost use Rattle.log_fits.specs.Begun.{LogsCanBeBegun, HeadsMakeTheMesh, CallersBeginLogs, LogsAreOfTheirFiles};
ghost use Rattle.log_fits.specs.Closures.{ByClosures};
ghost use Rattle.log_fits.specs.Fitting.{LogsOfMeshesFit, LogsOfJobsFit};
ghost use Rattle.log_fits.specs.Histories.{CallersHaveLogs, CallersAreTold};
ghost use Rattle.log_fits.specs.Logs.{LogsAreRead, FirstPartsAreLogs, RunsHaveLogs};
ghost use Rattle.log_fits.specs.Taken.{LogsAreMeasured, LogsAreReplayed, LogsAreProved, ProofsAreVerified};
ghost use Rattle.log_fits.specs.Measured.{LogsOfRunsAreMeasured, MeshLinesTell};
ghost use Rattle.log_fits.specs.OneLog.{JobsHaveOneLog, JobsOfTheSameFilesHaveOneLog};
ghost use Rattle.log_fits.specs.Replayed.{LogsOfRunsAreReplayed, MeshesOfRunsAreStoredAgain};
ghost use Rattle.log_fits.specs.Proved.{LogsOfRunsAreProved, ProofsOfRunsAreVerified};

use grid_base::{Point, Shift};
use mesh_sizing::Band;

/// Every line of a job's log fits the lines before it, whatever the job and whatever fields and the sizing answer: a replay that
/// begins with the job's mesh takes each line in turn. So it does where the log ends with a refusal, and, of a mesh and directives as
/// they are read, from the line with the version on.
pub fn every_line_of_a_log_fits()
    ensures meshes { LogsOfMeshesFit }
    ensures jobs { LogsOfJobsFit }
{}

/// A `mesh` line that fits tells the numbers of the mesh that the lines before it make.
pub fn mesh_lines_tell()
    ensures { MeshLinesTell }
{}

/// The whole log that a run wrote of a clear mesh, no longer than a text may be, is measured to its end, from the same mesh and with the
/// same scale and decimals, whether the run came to its own end or a directive was refused: `measure` is done, or finds no memory, where
/// neither side fails.
pub fn logs_of_runs_are_measured<F: Fn(u8, Point) -> Shift, G: Fn(Point) -> Band>()
    ensures { ByClosures F.Fn G.Fn LogsOfRunsAreMeasured }
{}

/// The whole log that a run wrote of a clear mesh, no longer than a text may be, is proved: `prove` is done with it, from the same mesh
/// and with the same scale and decimals, or finds no memory, where neither side fails.
pub fn logs_of_runs_are_proved<F: Fn(u8, Point) -> Shift, G: Fn(Point) -> Band>()
    ensures { ByClosures F.Fn G.Fn LogsOfRunsAreProved }
{}

/// And the proof that `prove` writes of it, no longer than a text may be, is verified: `verify` is done with it, or finds no memory, where
/// neither side fails.
pub fn proofs_of_runs_are_verified<F: Fn(u8, Point) -> Shift, G: Fn(Point) -> Band>()
    ensures { ByClosures F.Fn G.Fn ProofsOfRunsAreVerified }
{}

/// The whole log that a run wrote of a clear mesh, no longer than a text may be, is replayed to its end, from the same mesh and with the
/// same scale and decimals: `replay` is done, or finds no memory, where neither side fails. The meshes that it then stores, where no one
/// of them is asked for, are those that the run stored by that log, byte for byte, under the prefix of the replay.
pub fn logs_of_runs_are_replayed<F: Fn(u8, Point) -> Shift, G: Fn(Point) -> Band>()
    ensures replayed { ByClosures F.Fn G.Fn LogsOfRunsAreReplayed }
    ensures meshes { ByClosures F.Fn G.Fn MeshesOfRunsAreStoredAgain }
{}

/// Whatever is asked of a tracker whose mesh is within the limits of a scale, call after call: directives, edits by ids, groups that are
/// closed or taken back, settings. Behind the first two lines of a log file, and before its last, the lines of the calls are a log of the
/// mesh: each is in its range and fits the lines before it; each motion and each edit that they tell can be done again by the log alone,
/// and is clear at each fraction; and every line leaves a mesh that is sound, closed and clear. What the calls told, one after another, is
/// the text of these lines.
pub fn callers_have_logs()
    ensures logs { CallersHaveLogs }
    ensures told { CallersAreTold }
{}

/// A caller's log may be begun at any time, at the mesh as it is, where the tracker goes on and no group is open: behind the first lines
/// that are told then, and before the last, the lines of the calls from there on are a log of the mesh that is read from the text of that
/// mesh. Of this the first lines make that mesh, with its ids, also where they are not dense, and its solid vertices.
pub fn logs_can_be_begun()
    ensures logs { LogsCanBeBegun }
    ensures heads { HeadsMakeTheMesh }
    ensures callers { CallersBeginLogs }
    ensures files { LogsAreOfTheirFiles }
{}

/// So is the log of a run whose files were read without a fault and whose mesh is clear.
pub fn runs_have_logs<F: Fn(u8, Point) -> Shift, G: Fn(Point) -> Band>()
    ensures { ByClosures F.Fn G.Fn RunsHaveLogs }
{}

/// The text of such a log is read as its lines, by the same scale; and its first lines, however many, are such a log, so that what a run
/// leaves is one wherever it was cut between two lines.
pub fn first_parts_are_logs()
    ensures read { LogsAreRead }
    ensures parts { FirstPartsAreLogs }
{}

/// The file of such a log, no longer than a text may be, is taken by each command that reads one, beside a mesh file of its mesh, where
/// neither side fails and there is memory: it is measured and replayed to its end, it is proved, and that proof is verified.
pub fn logs_are_taken()
    ensures measured { LogsAreMeasured }
    ensures replayed { LogsAreReplayed }
    ensures proved { LogsAreProved }
    ensures verified { ProofsAreVerified }
{}

/// Where each stored field has one answer for each number and point, and the sizing has one for each point, a job of which all directives
/// are answered has one log: two runs of the same files that came to the end of their log wrote the same. What a log tells of a file
/// that is too long is how much of it was seen, which is part of the job here.
pub fn jobs_have_one_log<F: Fn(u8, Point) -> Shift, G: Fn(Point) -> Band>()
    ensures { ByClosures F.Fn G.Fn JobsHaveOneLog }
{}

/// And two jobs of the same names where the same files lie, with the same scale and decimals, have one log, but for how much was seen of a
/// file that is too long. So what a run writes depends on the files and on these answers alone.
pub fn jobs_of_the_same_files_have_one_log<F: Fn(u8, Point) -> Shift, G: Fn(Point) -> Band>()
    ensures { ByClosures F.Fn G.Fn JobsOfTheSameFilesHaveOneLog }
{}
