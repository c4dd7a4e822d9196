//! A run in four threads: the actors, each with its ends of what they share.

ghost use Rattle.serial_ring.specs.Lists.{IsRoom};
ghost use Rattle.std.specs.Prelude.{◌≡◌, ◌≤◌, false, IfOk};
ghost use Rattle.host_journal.specs.Steps.{Journal};
ghost use Rattle.stream_host.specs.Hosts.{HostFits};
ghost use Rattle.stream_host.specs.Ran.{end_of};
ghost use Rattle.run_law.specs.Runs.{run_end};
ghost use Rattle.run_law.specs.Devices.{devices};
ghost use Rattle.thread_rig.specs.HostSides.{HostIsNew, HostRanAt};
ghost use Rattle.thread_rig.specs.MotionSides.{PulseIsNew, PulseRanAt, RecorderIsNew, RecorderRanAt};
ghost use Rattle.motion_pulse.specs.Pulses.{stepping_of};
ghost use Rattle.motion_pulse.specs.declared.pulse.Stepping.TheVariants.{Events, Subticks};
ghost use Rattle.thread_rig.specs.BoardSides.{BoardIsNew, BoardRunsAt, BoardRanAt};
ghost use Rattle.thread_rig.specs.declared.board.BoardSide.{BoardSide};
ghost use Rattle.thread_rig.specs.Rigs.{IsNew, EndsMeet, RigRan, EndsAgree};

use crate::apart::Apart;
use crate::board::{BoardSide, begin_board, run_board};
use crate::host::{HostSide, run_host};
use crate::motion::{PulseSide, RecorderSide, run_motion};
use controller::Controller;
use link_ports::{BoardLink, HostLink};
use motion_ports::{PiecePort, join_records, record_ring};
use motion_pulse::{MotionPulse, Stepping};
use motion_ring::{join_motion, motion};
use outside::{Gate, OutOfMemory, Sink, Source};
use realtime_flags::{flag_table, join_flags};
use run_law::RunEnd;
use serial_ring::{join_link, link};
use std::alloc::Global;
use std::sync::Wait;
use std::thread::{Threads, join_mut};
use step_record::{Form, Recorder};
use stream_host::Host;

/// The four actors of a run, each with its ends of the link, of the flags, and of the rings of pieces and of records. The link has
/// room for `RX` bytes, and the plan for `N` - 1 blocks.
#[derive(Drop)]
pub struct Rig<const RX: usize, const N: usize> {
    host: Apart<HostSide<RX>>,
    board: Apart<BoardSide<RX, N>>,
    pulse: Apart<PulseSide>,
    recorder: Apart<RecorderSide>,
}

impl<const RX: usize, const N: usize> Rig<RX, N> {
    /// A rig with which no turn was made, whose recorder has a form, and whose pulse steps the machine event by event. All room is
    /// taken here.
    pub fn new(alloc: Global, form: Form) -> Result<Rig<RX, N>, OutOfMemory>
        requires room { IsRoom RX }
        requires slots { (2 ≤ N) × (N ≤ 64) }
        ensures fresh { IfOk result (λ rig. IsNew rig) }
        ensures form { IfOk result (λ rig. rig.recorder.side.recorder.form ≡ form) }
        ensures stepping { IfOk result (λ rig. stepping_of rig.pulse.side.pulse ≡ Events) }
        ensures attended { IfOk result (λ rig. rig.host.side.host.attended ≡ false) }
    {
        Rig::stepping(alloc, form, Stepping::Events, false)
    }

    /// Such a rig whose pulse hands out the subticks of each event, so that slow axes step in between. All room is taken here.
    pub fn smooth(alloc: Global, form: Form) -> Result<Rig<RX, N>, OutOfMemory>
        requires room { IsRoom RX }
        requires slots { (2 ≤ N) × (N ≤ 64) }
        ensures fresh { IfOk result (λ rig. IsNew rig) }
        ensures form { IfOk result (λ rig. rig.recorder.side.recorder.form ≡ form) }
        ensures stepping { IfOk result (λ rig. stepping_of rig.pulse.side.pulse ≡ Subticks) }
        ensures attended { IfOk result (λ rig. rig.host.side.host.attended ≡ false) }
    {
        Rig::stepping(alloc, form, Stepping::Subticks, false)
    }

    /// Such a rig with a pulse of either kind, whose sender stands by or not.
    pub(crate) fn stepping(
        alloc: Global,
        form: Form,
        stepping: Stepping,
        attended: bool,
    ) -> Result<Rig<RX, N>, OutOfMemory>
        requires room { IsRoom RX }
        requires slots { (2 ≤ N) × (N ≤ 64) }
        ensures fresh { IfOk result (λ rig. IsNew rig) }
        ensures form { IfOk result (λ rig. rig.recorder.side.recorder.form ≡ form) }
        ensures stepping { IfOk result (λ rig. stepping_of rig.pulse.side.pulse ≡ stepping) }
        ensures attended { IfOk result (λ rig. rig.host.side.host.attended ≡ attended) }
    {
        let (host_end, board_end) = link::<RX>(alloc)?;
        let (raiser, taker) = flag_table(alloc)?;
        let (out, into) = motion(alloc)?;
        let (records_out, records_in) = record_ring(alloc)?;
        Ok(Rig {
            host: Apart::new(HostSide {
                host: Host::new(RX as u8, attended),
                link: HostLink {
                    end: host_end,
                    flags: raiser,
                },
            }),
            board: Apart::new(BoardSide {
                board: Controller::new(),
                link: BoardLink {
                    end: board_end,
                    flags: taker,
                    pieces: out,
                },
            }),
            pulse: Apart::new(PulseSide {
                pulse: MotionPulse::new(stepping),
                pieces: PiecePort { end: into },
                records: records_out,
            }),
            recorder: Apart::new(RecorderSide {
                recorder: Recorder::new(form),
                records: records_in,
            }),
        })
    }

    /// How the run ends, as its host tells, and whether a write of the steps failed.
    fn end(&self) -> RunEnd
        ensures { (h : Journal) → HostFits RX self.now.host.side.host h → result ≡ run_end (end_of h) self.now.recorder.side.recorder.writer.failed }
    {
        let host = &self.host.side.host;
        RunEnd {
            stop: host.stop(),
            answered: host.answered(),
            errors: host.errors(),
            source_failed: host.source_failed(),
            console_failed: host.console_failed(),
            steps_failed: self.recorder.side.recorder.failed(),
        }
    }

    /// Brings the ends together again. What one side has got is a front of what the other gave: the bytes taken of those
    /// stored, and all of them where the board found the link closed; the replies got of those answered; the pieces got of
    /// those published; the records taken of those put. Each flag was found down by as many raises as there are takes that
    /// had it, and by one more where it is up.
    pub fn join(self)
        requires { EndsMeet self }
        ensures { EndsAgree self.entry }
    {
        let Rig {
            host,
            board,
            pulse,
            recorder,
        } = self;
        let Apart { side, .. } = host;
        let HostSide { host: _, link } = side;
        let Apart { side, .. } = board;
        let BoardSide {
            board: _,
            link: board_link,
        } = side;
        let Apart { side, .. } = pulse;
        let PulseSide {
            pulse: _,
            pieces,
            records: records_out,
        } = side;
        let Apart { side, .. } = recorder;
        let RecorderSide {
            recorder: _,
            records: records_in,
        } = side;
        join_link(link.end, board_link.end);
        join_flags(link.flags, board_link.flags);
        join_motion(board_link.pieces, pieces.end);
        join_records(records_out, records_in);
    }
}

/// Runs a host and a board beside each other. The board has its first turn before the host has any.
fn run_link<
    R: Threads + Wait + Sync,
    J: Source + Send,
    C: Sink + Send,
    G: Gate + Sync,
    const RX: usize,
    const N: usize,
>(
    rt: &R,
    host: &mut HostSide<RX>,
    board: &mut BoardSide<RX, N>,
    job: &mut J,
    console: &mut C,
    gate: &G,
)
    requires host { HostIsNew host.old }
    requires board { BoardIsNew board.old }
    ensures host { HostRanAt (J.state job.old) (J.state job.new) (C.state console.old) (C.state console.new) host.old host.new }
    ensures board { BoardRanAt board.old board.new }
{
    begin_board(board, gate);
    join_mut(
        rt,
        &mut ||
            requires { HostIsNew host.now }
            ensures { HostRanAt (J.state job.entry.now) (J.state job.exit.now) (C.state console.entry.now) (C.state console.exit.now) host.entry.now host.exit.now }
        { run_host(rt, host, job, console, gate) },
        &mut ||
            requires { (before : BoardSide RX N) × BoardRunsAt before board.now }
            ensures { (before : BoardSide RX N) → BoardRunsAt before board.entry.now → BoardRanAt before board.exit.now }
        { run_board(rt, board, gate) },
    );
}

/// Runs the actors of a rig with which no turn was made, each in a thread of its own until it is done, and answers how the
/// run ends. Each actor has kept to its rules at its ends of the rig: what it stored, raised, got, took, answered, published
/// and put there is what it did, and what its devices gave and took since is what it read and wrote.
///
/// Each turn is made only once the gate is passed. Where a thread can't be started, its actor runs before or behind the other,
/// and such a run may wait for ever.
pub fn run_threads<
    R: Threads + Wait + Sync,
    J: Source + Send,
    C: Sink + Send,
    S: Sink + Send,
    G: Gate + Sync,
    const RX: usize,
    const N: usize,
>(rt: &R, rig: &mut Rig<RX, N>, job: &mut J, console: &mut C, steps: &mut S, gate: &G) -> RunEnd
    requires { IsNew rig.old }
    ensures ran { RigRan (devices (J.state job.old) (C.state console.old) (S.state steps.old)) (devices (J.state job.new) (C.state console.new) (S.state steps.new)) rig.old rig.new result }
    ensures meets { EndsMeet rig.new }
{
    let Rig {
        host,
        board,
        pulse,
        recorder,
    } = rig;
    join_mut(
        rt,
        &mut ||
            requires host { HostIsNew host.now.side }
            requires board { BoardIsNew board.now.side }
            ensures host { HostRanAt (J.state job.entry.now) (J.state job.exit.now) (C.state console.entry.now) (C.state console.exit.now) host.entry.now.side host.exit.now.side }
            ensures board { BoardRanAt board.entry.now.side board.exit.now.side }
        { run_link(rt, &mut host.side, &mut board.side, job, console, gate) },
        &mut ||
            requires pulse { PulseIsNew pulse.now.side }
            requires recorder { RecorderIsNew recorder.now.side }
            ensures pulse { PulseRanAt pulse.entry.now.side pulse.exit.now.side }
            ensures recorder { RecorderRanAt (S.state steps.entry.now) (S.state steps.exit.now) recorder.entry.now.side recorder.exit.now.side }
        { run_motion(rt, &mut pulse.side, &mut recorder.side, steps, gate) },
    );
    rig.end()
}
