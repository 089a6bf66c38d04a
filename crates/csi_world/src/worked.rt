//! Worked runs of events. Each function proves a statement, and does nothing.
ghost use Rattle.csi_world.specs.Private.Worked.{WorkedUse, UseIsSafe, UseIsMadeOfSteps};
ghost use Rattle.csi_world.specs.Private.Worked.{WorkedLateStage, WorkedLateDetach, WorkedLateReply, WorkedRestart, WorkedUndone, WorkedNothing};
ghost use Rattle.csi_world.specs.Private.Worked.{WorkedLostNode, WorkedMadeAgain, WorkedRefusedChanges, WorkedSettling};

use crate::laws::{runs_are_steps, runs_law};

fn use_a_volume()
    ensures { WorkedUse }
{}

fn use_is_safe()
    ensures { UseIsSafe }
{
    runs_law();
}

fn late_stage()
    ensures { WorkedLateStage }
{}

fn late_detach()
    ensures { WorkedLateDetach }
{}

fn late_reply()
    ensures { WorkedLateReply }
{}

fn restart()
    ensures { WorkedRestart }
{}

fn undone()
    ensures { WorkedUndone }
{}

fn lost_node()
    ensures { WorkedLostNode }
{}

fn made_again()
    ensures { WorkedMadeAgain }
{}

fn refused_changes()
    ensures { WorkedRefusedChanges }
{}

fn comes_to_rest()
    ensures { WorkedSettling }
{}

fn nothing()
    ensures { WorkedNothing }
{}

fn use_is_made_of_steps()
    ensures { UseIsMadeOfSteps }
{
    runs_are_steps();
}
