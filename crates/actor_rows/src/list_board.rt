//! A board that is a plain list, and a host over it.

ghost use Rattle.std.specs.Prelude.{◌≡◌, ◌+◌, ◌≤◌, []};

use code_table::realtime_rows;
use outside::{MemSink, MemSource, OutOfMemory, Sink, Turn};
use overrides::Overrides;
use realtime_flags::Raised;
use serial_ring::{RECEIVE_ROOM, Stored};
use status_report::{Message, Reply, Report, State};
use std::alloc::Global;
use std::marker::Model;
use stream_host::{Host, HostPort};
use units::Nm3;

/// A board that takes each byte at once, also those that are raised. It tells the banner, reports where it was asked
/// to, answers the lines one by one, and says Bye once the link is closed and each line has its answer. A line may raise an
/// alarm: no line from there on has an answer. At a reset it says Bye, or drops the lines that have no answer and tells the
/// banner again. So many polls find no reply before each reply.
#[derive(Drop)]
pub(crate) struct Board<'a, const ROOM: usize> {
    taken: MemSink<'a>,
    /// Among what is taken stand a `<` for each report, a `=` for each answer, a `#` for an alarm and a `&` for the banner of a
    /// reset, at the place where they are told, and a `|` for each mark.
    pub(crate) marked: bool,
    /// A `?` was raised, and nothing is reported since.
    asked: bool,
    /// Lines that have no answer.
    owed: u32,
    told: u32,
    /// Every second line is refused.
    pub(crate) strict: bool,
    /// The number of the line that raises an alarm, or 0.
    pub(crate) limit: u32,
    /// An alarm is told, and its message is not.
    locks: bool,
    /// The banner is told again behind a reset.
    pub(crate) begins: bool,
    /// A reset was raised, and nothing is told of it.
    reset: bool,
    /// So many marks are stored, and of this number is that of the last banner.
    marks: u32,
    greeted: u32,
    pub(crate) pause: u32,
    polls: u32,
    pub(crate) shut: bool,
    over: bool,
}

impl<const ROOM: usize> Board<'_, ROOM> {
    ghost use Rattle.std.specs.Prelude.{◌≡◌, true, false};
    ghost use Rattle.status_report.specs.Replies.{IsReply};
    ghost use Rattle.status_report.specs.Answering.{is_answer, is_banner};

    /// What is answered to a line.
    fn answer(&self) -> Reply
        ensures text { IsReply result }
        ensures answers { is_answer result ≡ true }
        ensures other { is_banner result ≡ false }
    {
        if self.strict && self.told % 2 == 1 {
            Reply::Error(20)
        } else {
            Reply::Ok
        }
    }

    /// What is reported: a machine that stands.
    fn report(&self) -> Reply
        ensures text { IsReply result }
        ensures other { (is_answer result ≡ false) × (is_banner result ≡ false) }
    {
        let zero = Nm3 { x: 0, y: 0, z: 0 };
        Reply::Report(Report {
            state: State::Idle,
            machine: false,
            at: zero,
            buffer: None,
            f: 0,
            s: 0,
            wco: zero,
            ov: Overrides {
                feed: 100,
                rapid: 100,
                spindle: 100,
            },
        })
    }

    /// Notes that a reply is told.
    fn note(&mut self, byte: u8)
        ensures { self.new ≡ record self.old { taken = self.new.taken } }
    {
        if self.marked {
            let _ = self.taken.write(&[byte]);
        }
    }
}

impl<const ROOM: usize> HostPort for Board<'_, ROOM> {
    ghost use Rattle.actor_rows.specs.Boards.{HasTold};

    ghost Rest = { Unit {0} };

    ghost room = { ROOM };

    /// No more lines are owed an answer than were stored behind the mark of the last banner and have none, and each banner but
    /// the first is of a mark that is stored behind that of the one before.
    ghost stands = { λ board _ h. HasTold board.owed board.told board.marks board.greeted h };

    fn store(&mut self, byte: u8) -> Stored {
        let _ = self.taken.write(&[byte]);
        if byte == b'\n' {
            self.owed = self.owed.saturating_add(1);
        }
        Stored::Stored
    }

    fn mark(&mut self) {
        self.note(b'|');
        self.marks = self.marks.saturating_add(1);
    }

    fn raise(&mut self, byte: u8) -> Raised {
        let _ = self.taken.write(&[byte]);
        if byte == b'?' {
            self.asked = true;
        }
        if byte == 0x18 {
            self.reset = true;
        }
        match realtime_rows().find(u16::from(byte)) {
            Some(bit) if bit < 16 => Raised::Exec,
            Some(_) => Raised::Override,
            None if byte < 0x80 => Raised::Plain,
            None => Raised::Ignored,
        }
    }

    fn reply(&mut self) -> Option<Reply> {
        if self.polls < self.pause {
            self.polls += 1;
            return None;
        }
        self.polls = 0;
        if self.told == 0 {
            self.told = 1;
            return Some(Reply::Banner);
        }
        if self.reset {
            self.reset = false;
            self.asked = false;
            if self.begins && self.marks > self.greeted {
                self.greeted = self.marks;
                self.owed = 0;
                self.note(b'&');
                return Some(Reply::Banner);
            }
            self.over = true;
            return Some(Reply::Bye);
        }
        if self.asked {
            self.asked = false;
            self.note(b'<');
            return Some(self.report());
        }
        if self.locks {
            self.locks = false;
            return Some(Reply::Message(Message::ResetToContinue));
        }
        if self.owed > 0 && self.told == self.limit {
            self.owed = 0;
            self.locks = true;
            self.note(b'#');
            return Some(Reply::Alarm(2));
        }
        if self.owed > 0 {
            self.owed -= 1;
            self.note(b'=');
            self.told = self.told.saturating_add(1);
            return Some(self.answer());
        }
        if self.shut && !self.over {
            self.over = true;
            return Some(Reply::Bye);
        }
        None
    }

    fn close(&mut self) {
        self.shut = true;
    }
}

/// A host between two turns, with its board, its job and its console. The link has room for so many bytes.
#[derive(Drop)]
pub(crate) struct RoomyLine<'a, const ROOM: usize> {
    pub(crate) host: Host,
    pub(crate) board: Board<'a, ROOM>,
    pub(crate) job: MemSource<'a>,
    pub(crate) console: MemSink<'a>,
}

impl<'a, const ROOM: usize> Model for RoomyLine<'a, ROOM> {
    ghost use Rattle.host_journal.specs.Steps.{Journal, port_log};
    ghost use Rattle.actor_rows.specs.Boards.{HasTold};
    ghost use Rattle.stream_host.specs.Hosts.{HostFits, IsBetween};

    ghost Value = { Unit {0} };

    ghost view = { λ _. tt };

    ghost invariant = { λ l. (h : Journal) × HasTold l.board.owed l.board.told l.board.marks l.board.greeted (port_log h) × HostFits ROOM l.host h × IsBetween h };
}

/// One whose link has the standard room.
pub(crate) type Line<'a> = RoomyLine<'a, RECEIVE_ROOM>;

impl<'a, const ROOM: usize> RoomyLine<'a, ROOM> {
    ghost use Rattle.serial_ring.specs.Lists.{IsRoom};

    /// A new host with a job, of which so many bytes are read at once, and a board that finds so many polls before each
    /// reply but the banner. It accepts each line, and marks nothing.
    pub(crate) fn new(
        alloc: Global,
        job: &'a [u8],
        piece: usize,
        pause: u32,
    ) -> Result<RoomyLine<'a, ROOM>, OutOfMemory>
        requires { IsRoom ROOM }
    {
        let taken = MemSink::new(alloc, 400, &[])?;
        let console = MemSink::new(alloc, 1000, &[])?;
        let job = MemSource::new(job, piece.max(1), &[]);
        Ok(RoomyLine::over(taken, job, console, pause, false))
    }

    /// The same with a sender that stands by.
    pub(crate) fn attended(
        alloc: Global,
        job: &'a [u8],
        piece: usize,
        pause: u32,
    ) -> Result<RoomyLine<'a, ROOM>, OutOfMemory>
        requires { IsRoom ROOM }
    {
        let taken = MemSink::new(alloc, 400, &[])?;
        let console = MemSink::new(alloc, 1000, &[])?;
        let job = MemSource::new(job, piece.max(1), &[]);
        Ok(RoomyLine::over(taken, job, console, pause, true))
    }

    /// One with this job and this console.
    pub(crate) fn over(
        taken: MemSink<'a>,
        job: MemSource<'a>,
        console: MemSink<'a>,
        pause: u32,
        attended: bool,
    ) -> RoomyLine<'a, ROOM>
        requires { IsRoom ROOM }
    {
        RoomyLine {
            host: Host::new(ROOM as u8, attended),
            board: Board {
                taken,
                marked: false,
                asked: false,
                owed: 0,
                told: 0,
                strict: false,
                limit: 0,
                locks: false,
                begins: false,
                reset: false,
                marks: 0,
                greeted: 0,
                pause,
                polls: pause,
                shut: false,
                over: false,
            },
            job,
            console,
        }
    }

    pub(crate) fn turn(&mut self) -> Turn {
        self.host
            .turn(&mut self.board, &mut self.job, &mut self.console)
    }

    /// Turns until the host gives this answer, at most so often.
    pub(crate) fn run(&mut self, until: Turn, most: u32) -> Turn {
        for _ in 0..most {
            let last = self.turn();
            if last == until {
                return last;
            }
        }
        Turn::Did
    }

    /// What the board has taken, with its marks.
    pub(crate) fn taken(&self) -> &[u8] {
        self.board.taken.held()
    }
}
