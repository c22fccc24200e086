//! The directives of the job.

ghost use Rattle.std.specs.Prelude.{◌≡◌, ◌<◌, ◌≤◌, ◌++◌, ◌^◌, pos, length, IfOk, OnOk};
ghost use Rattle.mesh_make.specs.Cubes.{IsRow};
ghost use Rattle.mesh_make.specs.CubeSteps as spec;

use crate::lists::cube_count;
use edit_base::PassKind;
use grid_base::{Items, NoMemory, Shift};
use std::alloc::Global;
use step_text::{Directive, Directives, Placed};

// How far a cube moves in a step along an axis.
fn moved_along(key: u32, step: u32, number: u32, axis: u32) -> i32
    requires step { step ≤ 3 }
    requires number { number ≤ 1728 }
    requires axis { axis ≤ 2 }
    ensures value { result ≡ pos (spec.moved_along key step number axis) }
{
    let sum = u64::from(key) + u64::from(31 * step + 7 * number + 13 * axis);
    1 + (sum % 9) as i32
}

// The shift of a cube in a step.
fn cube_shift(key: u32, step: u32, number: u32) -> Shift
    requires step { step ≤ 3 }
    requires number { number ≤ 1728 }
    ensures { result ≡ spec.cube_shift key step number }
{
    Shift {
        x: moved_along(key, step, number, 0),
        y: moved_along(key, step, number, 1),
        z: moved_along(key, step, number, 2),
    }
}

// Appends the directives of a step.
fn push_step(directives: &mut Items<Directive>, n: u8, key: u32, step: u32) -> Result<(), NoMemory>
    requires row { IsRow n }
    requires step { step ≤ 3 }
    ensures { OnOk result (directives.new ≡ directives.old ++ spec.step_of n key step) }
{
    for i in 0..8 * cube_count(n) {
        let by = cube_shift(key, step, i / 8 + 1);
        directives.push(Directive::ShiftOne { v: i + 1, by })?;
    }
    directives.push(Directive::Step)?;
    Ok(())
}

// The directives, on no lines yet.
fn all_directives(alloc: Global, n: u8, key: u32) -> Result<Items<Directive>, NoMemory>
    requires { IsRow n }
    ensures { IfOk result (λ directives. directives ≡ spec.cubes_directives n key) }
{
    let mut directives = Items::new(alloc);
    push_step(&mut directives, n, key, 1)?;
    push_step(&mut directives, n, key, 2)?;
    push_step(&mut directives, n, key, 3)?;
    directives.push(Directive::Pass(PassKind::Split { over: 50 }))?;
    directives.push(Directive::Save)?;
    Ok(directives)
}

// Each directive on a line of its own.
fn on_lines(alloc: Global, directives: Items<Directive>) -> Result<Directives, NoMemory>
    requires { length directives < 2 ^ 32 }
    ensures { IfOk result (λ placed. placed ≡ spec.on_lines directives) }
{
    let mut placed = Items::new(alloc);
    let mut line = 0;
    for what in directives.into_vec() {
        line += 1;
        placed.push(Placed { line, what })?;
    }
    Ok(placed)
}

/// The directives of the job.
pub(crate) fn steps_of_cubes(alloc: Global, n: u8, key: u32) -> Result<Directives, NoMemory>
    requires { IsRow n }
    ensures { IfOk result (λ directives. directives ≡ spec.cubes_steps n key) }
{
    let directives = all_directives(alloc, n, key)?;
    on_lines(alloc, directives)
}
