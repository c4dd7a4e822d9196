//! What holds of every rig.

ghost use Rattle.std.specs.Prelude.{ℕ, ◌-◌};
ghost use Rattle.run_law.specs.Devices.{Devices};
ghost use Rattle.run_law.specs.declared.RunEnd.{RunEnd};
ghost use Rattle.epoch_law.specs.Devices.{HasRun};
ghost use Rattle.thread_rig.specs.declared.rig.Rig.{Rig};
ghost use Rattle.thread_rig.specs.Rigs.{RigRan, EndsAgree};

use controller::controllers_keep_to_epochs;
use epoch_law::{
    actors_that_end_make_a_run, boards_have_run, hosts_have_sent, linked_ends_are_connected,
    pulses_have_run, words_that_are_taken_were_raised,
};
use epoch_links::ends_of_a_link_are_linked;
use link_ports::ports_of_a_link_agree;
use run_law::recorders_have_run;
use stream_host::hosts_have_run;

/// A rig whose actors ran until each was done, and whose ends agree, has done a whole run over epochs, in the form of its recorder,
/// whatever the order in which the steps of its threads came.
pub fn rigs_run()
    ensures { (room slots : ℕ) (before after : Devices) (was is : Rig room slots) (end : RunEnd) → RigRan before after was is end → EndsAgree is → HasRun was.host.side.host.attended room (slots - 1) was.recorder.side.recorder.form before after end }
{
    hosts_have_run();
    hosts_have_sent();
    controllers_keep_to_epochs();
    boards_have_run();
    pulses_have_run();
    recorders_have_run();
    ports_of_a_link_agree();
    ends_of_a_link_are_linked();
    words_that_are_taken_were_raised();
    linked_ends_are_connected();
    actors_that_end_make_a_run();
}
