// The shape of a job: the order of its fields.
ghost use Rattle.std.specs.Prelude.{◌≡◌};
ghost use Rattle.job.specs.Shape.{settings_at, acting_at, printing_at, placed, shape_at_end, shape_of};
ghost use Rattle.job.specs.Answers.{shape_numbers, shape_answer};

use crate::fields::each_field;
use crate::{Cause, Kind, WrongAt};
use cells::JOB_BYTES;

// A job opens with its settings, then fields act, then it prints.
#[derive(Clone, Copy)]
pub enum Stage {
    Opening,
    Acting,
    Printing,
}

fn settings_at(stage: Stage) -> Result<Stage, Cause>
    ensures { result ≡ settings_at stage }
{
    match stage {
        Stage::Opening => Ok(Stage::Acting),
        Stage::Acting | Stage::Printing => Err(Cause::Position),
    }
}

fn acting_at(stage: Stage) -> Result<Stage, Cause>
    ensures { result ≡ acting_at stage }
{
    match stage {
        Stage::Acting => Ok(Stage::Acting),
        Stage::Opening | Stage::Printing => Err(Cause::Position),
    }
}

fn printing_at(stage: Stage) -> Result<Stage, Cause>
    ensures { result ≡ printing_at stage }
{
    match stage {
        Stage::Opening => Err(Cause::Position),
        Stage::Acting | Stage::Printing => Ok(Stage::Printing),
    }
}

// The stage after a field, or why the field is wrong.
fn place_field(stage: Stage, kind: Result<Kind, Cause>) -> Result<Stage, Cause>
    ensures { result ≡ placed stage kind }
{
    match kind? {
        Kind::Settings => settings_at(stage),
        Kind::Issue { .. } | Kind::HandOver { .. } | Kind::Writes(_) => acting_at(stage),
        Kind::Prints(_) => printing_at(stage),
    }
}

fn shape_at_end(n: usize, stage: Stage) -> Result<(), WrongAt>
    ensures { result ≡ shape_at_end n stage }
{
    match stage {
        Stage::Opening | Stage::Acting => Err(WrongAt(n)),
        Stage::Printing => Ok(()),
    }
}

pub fn find_shape(job: &[u8]) -> Result<(), WrongAt>
    ensures shape { result ≡ shape_of job.now }
    ensures answer { shape_numbers result ≡ shape_answer job.now }
{
    let n = job.len();
    if JOB_BYTES < n {
        return Err(WrongAt(0));
    }
    let mut stage = Stage::Opening;
    for f in each_field(job) {
        stage = place_field(stage, f.kind).map_err(|_| WrongAt(f.place))?;
    }
    shape_at_end(n, stage)
}
