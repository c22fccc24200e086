//! Directives that name a field: what it answers at each vertex is added to what is asked of it.
ghost use Rattle.std.specs.Prelude.{◌≡◌, ◌≤◌, ◌<◌, ◌+◌, ◌^◌, ℕ, length, IfOk, IfErr, IfSome, IsSome};
ghost use Rattle.grid_base.specs.declared.Shift.{Shift};
ghost use Rattle.mesh_base.specs.Shifts.{NameLive};
ghost use Rattle.mesh_field.specs.Stored.{MayAnswer, IsWellKept};
ghost use Rattle.track_engine.specs.Answered.{named_field, is_fit, IsAnswerAt, AreAnswersOf};
ghost use Rattle.track_engine.specs.Effects.{sum_of_all};
ghost use Rattle.track_engine.specs.Shifting.{Sums, AsksNow};
ghost use Rattle.track_engine.specs.State.{asked_in};

use crate::asked_shifts::AskedShifts;
use crate::engine::Engine;
use crate::shift_sums::{asked_in, summed_unless_solid};
use grid_base::{NO_SHIFT, NoMemory, Point, Shift};
use mesh_base::{ShiftOf, Shifts, Surface, UseWhy, VertexId, point_of};
use mesh_field::Fields;
use outside_io::Stop;
use std::alloc::Global;
use step_text::Directive;

/// Whether a directive asks the sizing.
pub(crate) fn is_fit(what: &Directive) -> bool
    ensures { result ≡ is_fit what.now }
{
    match what {
        Directive::Fit => true,
        _ => false,
    }
}

/// The number of the field that a directive names; None, where it names none that is there.
pub(crate) fn field_of<F: Fn(u8, Point) -> Shift>(
    fields: &Fields<F>,
    what: &Directive,
) -> Option<u8>
    ensures value { result ≡ named_field fields.now.names what.now }
    ensures within { IfSome result (λ which. which < length fields.now.names) }
{
    match what {
        Directive::Drive { name } => fields.find(name),
        _ => None,
    }
}

// What a field answers at a vertex, at the point where it stands. It is not asked at a solid one.
fn answer_at<S: Surface, F: Fn(u8, Point) -> Shift>(
    mesh: &S,
    fields: &Fields<F>,
    which: u8,
    v: VertexId,
) -> Shift
    requires there { which < length fields.now.names }
    requires kept { IsWellKept F.Fn fields.now }
    ensures { IsAnswerAt (MayAnswer F.Fn fields.now which) (S.mesh mesh.now) v result }
{
    if mesh.solid(v) {
        return NO_SHIFT;
    }
    fields.ask(which, point_of(mesh, v))
}

// What is asked of each vertex with the answer of a field added, but of solid ones, or the first vertex for which the sum is above the
// limit. The field is asked once for each vertex that is not solid, by rising id.
fn drive_all<S: Surface, F: Fn(u8, Point) -> Shift>(
    alloc: Global,
    mesh: &S,
    asked: &[ShiftOf],
    fields: &Fields<F>,
    which: u8,
) -> Result<Result<Shifts, VertexId>, NoMemory>
    requires there { which < length fields.now.names }
    requires kept { IsWellKept F.Fn fields.now }
    requires named { NameLive (S.mesh mesh.now) asked.now }
    ensures { IfOk result (λ sums. (by : ℕ → Shift)
        × AreAnswersOf (MayAnswer F.Fn fields.now which) (S.mesh mesh.now) by
        × Sums (S.mesh mesh.now) by asked.now sums) }
{
    let mut shifts = Shifts::new(alloc);
    let mut beyond = None;
    for s in asked {
        let by = answer_at(mesh, fields, which, s.v);
        match summed_unless_solid(mesh, *s, by) {
            Some(summed) => shifts.push(summed)?,
            None => beyond = beyond.or(Some(s.v)),
        }
    }
    match beyond {
        Some(v) => Ok(Err(v)),
        None => Ok(Ok(shifts)),
    }
}

impl<S: Surface> Engine<S> {
    /// The answers of a field are added to what is asked of each vertex that is not solid. No line is written.
    pub(crate) fn drive<F: Fn(u8, Point) -> Shift>(
        &mut self,
        alloc: Global,
        fields: &Fields<F>,
        which: u8,
    ) -> Result<Option<UseWhy>, Stop>
        requires there { which < length fields.now.names }
        requires kept { IsWellKept F.Fn fields.now }
        ensures asks { let m = S.mesh self.old.mesh in
            IfOk result (λ refused. (by : ℕ → Shift)
            × AreAnswersOf (MayAnswer F.Fn fields.now which) m by
            × AsksNow (sum_of_all m by (asked_in m self.old.run.asked))
            (asked_in m self.new.run.asked) refused) }
        ensures rest { let run = record self.old.run { asked = self.new.run.asked } in
            self.new ≡ record self.old { run = run } }
        ensures left { IfOk result (λ refused. IsSome refused → self.new ≡ self.old) }
        ensures stops { IfErr result (λ stop. stop ≡ Stop.NoMemory) }
    {
        let Ok(asked) = asked_in(alloc, &self.mesh, &self.run.asked) else {
            return Err(Stop::NoMemory);
        };
        match drive_all(alloc, &self.mesh, asked.as_slice(), fields, which) {
            Err(_) => Err(Stop::NoMemory),
            Ok(Err(v)) => Ok(Some(UseWhy::ShiftRange { v: v.0 })),
            Ok(Ok(sums)) => {
                self.run.asked = AskedShifts::of_all(sums);
                Ok(None)
            }
        }
    }
}
