ghost use Rattle.std.specs.Prelude.{◌≡◌, ◌↔◌, true, false, Ok, IfOk, IfSome, IsSome, IsTrue};
ghost use Rattle.mesh_journal.specs.Journal.{mesh_in};
ghost use Rattle.log_run.specs.States.{without_lines, with_line};
ghost use Rattle.log_run.specs.Steps.{step_shifts, HasMoves};
ghost use Rattle.log_run.specs.Fits.{LineFits, MayBeTried};
ghost use Rattle.log_run.specs.Laws.{IsValidState};
ghost use Rattle.log_run.specs.Motions.{IsCertified, IsJudged};

use crate::lines::take_line;
use crate::motions::{certify_line, judge_line};
use crate::open_marks::OpenMarks;
use crate::replay_state::{ReplayState, StepSoFar};
use grid_base::{Items, NoMemory};
use log_text::LogLine;
use mesh_base::Shifts;
use mesh_journal::JournalMesh;
use motion_proof::{Certificate, Made, Verdict};
use std::alloc::Global;
use std::marker::Model;

/// The replay of a log over a mesh, line by line. A contract sees where it stands.
#[derive(Drop)]
pub struct LogRun {
    alloc: Global,
    mesh: JournalMesh,
    at: ReplayState,
    taken: bool,
    spent: bool,
}

impl Model for LogRun {
    ghost use Rattle.log_run.specs.States.{LogState};

    ghost Value = { LogState };

    ghost use Rattle.log_run.specs.Coded.{state_code};
    ghost use Rattle.grid_base.specs.contracts.Point as point;
    ghost use Rattle.mesh_base.specs.contracts.ids.Corners as corners;
    ghost use Rattle.mesh_base.specs.contracts.limits.Limits as allowed;
    ghost use Rattle.mesh_base.specs.contracts.steps.ShiftOf as shift;

    ghost coded = { state_code point.the_row.coded corners.the_row.coded allowed.the_row.coded shift.the_row.coded };

    ghost use Rattle.mesh_journal.specs.Journal.{mesh_in, kept_in};
    ghost use Rattle.log_run.specs.Parts.{state_of, HoldsUnless};

    ghost view = { λ r. state_of (mesh_in r.mesh) (kept_in r.mesh) r.at r.taken r.spent };

    ghost invariant = { λ r. HoldsUnless r.spent 1 (mesh_in r.mesh) (kept_in r.mesh) r.at };
}

impl LogRun {
    /// The replay of no line yet. Takes no memory.
    pub fn new(alloc: Global, mesh: JournalMesh) -> LogRun
        ensures { result ≡ without_lines (mesh_in mesh) }
    {
        LogRun {
            alloc,
            mesh,
            at: ReplayState {
                marks: OpenMarks::none(alloc),
                step: StepSoFar {
                    moves: Shifts::new(alloc),
                    shifts: Shifts::new(alloc),
                    named: Items::new(alloc),
                },
                begun: false,
            },
            taken: false,
            spent: false,
        }
    }

    /// The mesh.
    pub fn mesh(&self) -> &JournalMesh
        ensures { mesh_in result.now ≡ self.now.replay.mesh }
    {
        &self.mesh
    }

    /// The shift of each live vertex in the step that is begun, by rising id, zero where no `move` line named it; None where no step is
    /// begun. The moves of the step name live vertices, none twice, and end in the box. Takes no memory.
    pub fn moves(&self) -> Option<&Shifts>
        ensures begun { IsSome result ↔ (self.now.is_begun ≡ true) }
        ensures shifts { self.now.is_spent ≡ false → IfSome result (λ all. all.now ≡ step_shifts self.now) }
        ensures told { self.now.is_spent ≡ false → IsSome result → HasMoves self.now }
    {
        if self.at.begun {
            Some(&self.at.step.shifts)
        } else {
            None
        }
    }

    /// Takes a line, where it fits the lines before it, and answers whether it does: then this is the replay with the line too. After any
    /// other answer it is spent, and nothing else is said of it, but that a mesh that was closed and clear before an edit is so still. The
    /// edit of which a line tells is done again, tested to the greatest depth, and has to come out as told. While no group is open, what
    /// the mesh keeps is given up from line to line.
    pub fn take(&mut self, line: &LogLine) -> Result<bool, NoMemory>
        requires unspent { self.old.is_spent ≡ false }
        requires tried { MayBeTried self.old.replay.mesh line.now }
        ensures fits { IfOk result (λ fits. IsTrue fits ↔ LineFits self.old line.now) }
        ensures taken { result ≡ Ok true → self.new ≡ with_line self.old line.now }
        ensures left { MayBeTried self.new.replay.mesh line.now }
        ensures spent { ¬ (result ≡ Ok true) → self.new.is_spent ≡ true }
    {
        self.spent = true;
        let fits = take_line(self.alloc, &mut self.mesh, &mut self.at, self.taken, line)?;
        if fits {
            self.taken = true;
            self.spent = false;
        }
        Ok(fits)
    }

    /// What the rule makes of the motion of a line that fits: of one that ends a step, that no pair of it meets at any fraction; of a
    /// done edit, that none meets at any, above zero or below one, by its kind. A certificate, or the first pair that does not pass its
    /// written test; None where the line does not fit, or tells of no motion. The line is not taken. Refuses only where there is no
    /// memory.
    pub fn certify(&mut self, line: &LogLine) -> Result<Option<Made>, NoMemory>
        requires unspent { self.old.is_spent ≡ false }
        requires valid { IsValidState self.old }
        ensures made { IfOk result (IsCertified self.old line.now) }
        ensures same { self.new ≡ self.old }
    {
        if !self.taken {
            return Ok(None);
        }
        certify_line(self.alloc, &mut self.mesh, &self.at, line)
    }

    /// What is found of a certificate for the motion of a line that fits: NoMotion where it is of another claim than `certify` would
    /// make, and else the verdict on it; None where the line does not fit, or tells of no motion. The line is not taken. Refuses only
    /// where there is no memory.
    pub fn judge(
        &mut self,
        line: &LogLine,
        proof: &Certificate,
    ) -> Result<Option<Verdict>, NoMemory>
        requires unspent { self.old.is_spent ≡ false }
        requires valid { IsValidState self.old }
        ensures verdict { IfOk result
            (IsJudged self.old line.now proof.now.claim proof.now.entries) }
        ensures same { self.new ≡ self.old }
    {
        if !self.taken {
            return Ok(None);
        }
        judge_line(self.alloc, &mut self.mesh, &self.at, line, proof)
    }
}
