//! Options that don't go together.

ghost use Rattle.std.specs.Prelude.{◌↔◌, IsTrue};
ghost use Rattle.sandbox_places.specs.Clashing.{Clashes, HasTwoVolumes, HasWrongSteps, IsForCommand, IsForOneRun, IsMisgiven};

use sandbox_args::{Invocation, Run};

/// Whether a run has what is for one run alone: files of its streams, of its report or of its profile, a volume that stays, or tar
/// streams.
fn is_for_one_run(run: &Run<'_>) -> bool
    ensures { IsTrue result ↔ IsForOneRun run.now }
{
    run.stdin.is_some()
        || run.stdout.is_some()
        || run.stderr.is_some()
        || run.report.is_some()
        || run.volume.is_some()
        || run.volume_out.is_some()
        || run.profile.is_some()
        || run.image_from.is_some()
        || run.out_to.is_some()
}

/// Whether a run would begin with two volumes: one of its own, an image, or what a tar stream makes.
fn has_two_volumes(run: &Run<'_>) -> bool
    ensures { IsTrue result ↔ HasTwoVolumes run.now }
{
    (run.image.is_some() && run.volume.is_some())
        || (run.image_from.is_some() && (run.volume.is_some() || run.image.is_some()))
}

/// Whether what a run leaves would be given out twice, or out of a file that has it.
fn is_misgiven(run: &Run<'_>) -> bool
    ensures { IsTrue result ↔ IsMisgiven run.now }
{
    (run.volume_out.is_some() && run.image.is_none() && run.image_from.is_none())
        || (run.out_to.is_some() && (run.volume.is_some() || run.volume_out.is_some()))
}

/// Whether a run looks at its stack in steps that can't be, or for no profile.
fn has_wrong_steps(run: &Run<'_>) -> bool
    ensures { IsTrue result ↔ HasWrongSteps run.now }
{
    run.profile_every == Some(0) || (run.profile_every.is_some() && run.profile.is_none())
}

/// Whether a run has what tells of a command's run alone: a list of tests, a report or a profile.
fn is_for_command(run: &Run<'_>) -> bool
    ensures { IsTrue result ↔ IsForCommand run.now }
{
    run.tests.is_some() || run.report.is_some() || run.profile.is_some()
}

/// Whether a run has options that don't go together: two volumes, what its volume is to be handed out into without an image or a
/// tar stream to begin with, a seed beside random bytes, a list of tests beside what is for one run, steps of a profile that
/// isn't wanted, or a call of an exported function beside what tells of a command's run.
/// Or whether a volume is to be large and huge.
pub fn clashes(invocation: &Invocation<'_>) -> bool
    ensures { IsTrue result ↔ Clashes invocation.now }
{
    match invocation {
        Invocation::Run(run) => {
            has_two_volumes(run)
                || is_misgiven(run)
                || (run.seed.is_some() && run.random.is_some())
                || (run.tests.is_some() && is_for_one_run(run))
                || has_wrong_steps(run)
                || (run.invoke.is_some() && is_for_command(run))
        }
        Invocation::Format { large, huge, .. } => *large && *huge,
        _ => false,
    }
}
