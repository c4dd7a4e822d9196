//! Laws of runs over epochs.

ghost use Rattle.std.specs.Prelude.{◌≡◌, ℕ, ◌≤◌, Bool, true, List, length};
ghost use Rattle.motion_ring.specs.Sides.{ticks_published};
ghost use Rattle.outside.specs.Causes.{SourceState, SinkState};
ghost use Rattle.pulse_engine.specs.Logs.{PieceLog, RecordLog, end_is_put, records_put};
ghost use Rattle.pulse_engine.specs.Steps.{Pulsing};
ghost use Rattle.pulse_engine.specs.Turns.{PulseFits};
ghost use Rattle.realtime_flags.specs.Bits.{IsBalanced};
ghost use Rattle.run_law.specs.Ran.{RecorderRan};
ghost use Rattle.run_law.specs.Runs.{Sinks, run_end, slows_in};
ghost use Rattle.run_law.specs.SoFar.{RecorderRuns};
ghost use Rattle.run_rules.specs.States.{IsOpening};
ghost use Rattle.run_rules.specs.declared.State.{State};
ghost use Rattle.run_texts.specs.Fits.{FitsTexts};
ghost use Rattle.run_texts.specs.Fronts.{BeginsWith};
ghost use Rattle.run_texts.specs.Sent.{sent_of};
ghost use Rattle.step_line.specs.Asking.{ticks_among};
ghost use Rattle.step_line.specs.Logs.{NewestFirst};
ghost use Rattle.step_line.specs.declared.Record.{Record as AnyRecord};
ghost use Rattle.step_record.specs.declared.forms.Form.{Form};
ghost use Rattle.stream_host.specs.Conduct.{Conducted as HostConducted};
ghost use Rattle.stream_host.specs.Hosts.{TellsJob};
ghost use Rattle.stream_host.specs.Ran.{HostEnd, HasFinished, TellsConsole, end_of};
ghost use Rattle.host_journal.specs.Raises.{raises_in};
ghost use Rattle.host_journal.specs.Steps.{Journal as HostJournal, HostLog, is_attended, bytes_raised_in, scanned_of, raises_of};
ghost use Rattle.board_rules.specs.Conduct.{IsFinished};
ghost use Rattle.board_journal.specs.Ports.{BoardLog, known_in, sent_in};
ghost use Rattle.board_journal.specs.Steps.{Journal};
ghost use Rattle.board_journal.specs.Takes.{takes_in};
ghost use Rattle.board_epochs.specs.Epochs.{Closed, Epochs, AreEpochs, log_of, opening_behind};
ghost use Rattle.board_epochs.specs.Epochs.Epochs.{goes};
ghost use Rattle.epoch_courses.specs.Told.{without_byes};
ghost use Rattle.epoch_effects.specs.Words.{words_taken};
ghost use Rattle.epoch_links.specs.Drops.{AreAnsweredOver};
ghost use Rattle.epoch_links.specs.Links.{AreLinkedOver};
ghost use Rattle.epoch_law.specs.Joined.{AreConnected, ArePassed, ArePassedSome, ArePassedSoFar, ArePiecesPassed, AreRaisedFor, HasHaltedFor};
ghost use Rattle.epoch_law.specs.Journals.{host_did, board_did, pulse_did};
ghost use Rattle.epoch_law.specs.Ran.{HostDid, HasSent, BoardDid, BoardRan, PulseDid, PulseRan};
ghost use Rattle.epoch_law.specs.Runs.{IsRun};
ghost use Rattle.epoch_law.specs.SoFar.{Sending, BoardRuns, PulseRuns, IsSoFar};

/// Where a host, a board and a pulse have run over epochs, the board has taken what the host has stored, the host has got what the board
/// has answered, and the pulse has got or dropped what the board has published, the texts fit: the lines and resets that came of the job,
/// the replies got, without Bye, and the records put. The bytes scanned that may cut jogs are `!` and 0x85 outside comments.
pub fn actors_make_texts_that_fit()
    ensures { (attended : Bool) (room blocks : ℕ) (job_was job_is : SourceState) (console_was console_is : SinkState) (end : HostEnd) (h : HostDid) (b : BoardDid) (p : PulseDid) →
        (host : HasSent attended room job_was job_is console_was console_is h end) → BoardRan blocks b → PulseRan p → AreConnected room h b → ArePassed b p → h.got ≡ b.answered →
        FitsTexts (sent_of host.ran.lines host.rest) (slows_in host.ran.scanned) (without_byes h.got) p.put }
{}

/// So a host, a board, a pulse and a recorder that ran to their ends make a run of the job, if each has got what the other gave: what was
/// scanned is what the host has scanned, the replies are those that it got, and the records are those that the pulse has put, which has
/// halted where the epochs of the run end.
pub fn actors_make_a_run()
    ensures { (attended : Bool) (room blocks : ℕ) (form : Form) (job_was job_is : SourceState) (was is : Sinks) (end : HostEnd) (steps_failed : Bool) (h : HostDid) (b : BoardDid) (p : PulseDid) (records : List AnyRecord) →
        (host : HasSent attended room job_was job_is was.console is.console h end) → BoardRan blocks b → PulseRan p → RecorderRan form was.steps is.steps records steps_failed →
        AreConnected room h b → ArePassed b p → h.got ≡ b.answered → records ≡ p.put →
        (run : IsRun attended room blocks form job_was job_is was is (run_end end steps_failed)) × (run.scanned ≡ host.ran.scanned) × (run.replies ≡ h.got) × (run.records ≡ p.put) × HasHaltedFor run.epochs p }
{}

/// For that it is enough that each has got a front of what the other gave: nothing waits behind Bye but reports, nor behind the end.
pub fn actors_that_end_make_a_run()
    ensures { (attended : Bool) (room blocks : ℕ) (form : Form) (job_was job_is : SourceState) (was is : Sinks) (end : HostEnd) (steps_failed : Bool) (h : HostDid) (b : BoardDid) (p : PulseDid) (records : List AnyRecord) →
        (host : HasSent attended room job_was job_is was.console is.console h end) → BoardRan blocks b → PulseRan p → RecorderRan form was.steps is.steps records steps_failed →
        AreConnected room h b → ArePassedSome b p → BeginsWith b.answered h.got → BeginsWith p.put records →
        (run : IsRun attended room blocks form job_was job_is was is (run_end end steps_failed)) × (run.scanned ≡ host.ran.scanned) × (run.replies ≡ h.got) × (run.records ≡ p.put) × HasHaltedFor run.epochs p }
{}

/// The two ends of a link that are linked are connected, if what was taken of words of flags was raised: what each reset drops is few.
pub fn linked_ends_are_connected()
    ensures { (room : ℕ) (host : HostJournal) (blocks : ℕ) (state : State) (r : Epochs) → HostConducted room host → AreEpochs blocks state r → AreLinkedOver host r → AreAnsweredOver host r →
        AreRaisedFor (raises_of host) (words_taken (log_of r)) → AreConnected room (host_did host) (board_did r) }
{}

/// What a board has taken of words of flags was raised, by the logs of host and board, if each flag was found down by as many raises as
/// there are takes that had it, and by one more if it is up.
pub fn words_that_are_taken_were_raised()
    ensures { (words : List ℕ) (host : HostLog) (board : BoardLog) → IsBalanced words (raises_in host) (takes_in board) → AreRaisedFor (bytes_raised_in host) (words_taken board) }
{}

/// A board that keeps to its rules over epochs, has closed its run and has nothing left to do, has run.
pub fn boards_have_run()
    ensures { (blocks : ℕ) (state : State) (es : NewestFirst Closed) (h : Journal) → IsOpening state → AreEpochs blocks state (goes es h) → IsFinished (opening_behind blocks state es) h → BoardRan blocks (board_did (goes es h)) }
{}

/// A pulse that has put the end has run, whatever it halted.
pub fn pulses_have_run()
    ensures { (p : Pulsing) (h : PieceLog) (k : RecordLog) → PulseFits p h k → end_is_put k ≡ true → PulseRan (pulse_did h k) }
{}

/// A host that keeps to its rules, has got Bye, and has written all or met a write that failed, has run over epochs.
pub fn hosts_have_sent()
    ensures { (room : ℕ) (h : HostJournal) (job_was job_is : SourceState) (console_was console_is : SinkState) → HostConducted room h → HasFinished h → TellsJob h job_was job_is → TellsConsole h console_was console_is →
        (sent : HasSent (is_attended h) room job_was job_is console_was console_is (host_did h) (end_of h)) × (sent.ran.scanned ≡ scanned_of h) }
{}

/// Before it is done, a host that keeps to its rules is sending over epochs.
pub fn hosts_are_sending()
    ensures { (room : ℕ) (h : HostJournal) (job_was job_is : SourceState) (console_was console_is : SinkState) → HostConducted room h → TellsJob h job_was job_is → TellsConsole h console_was console_is →
        Sending (is_attended h) room job_was job_is console_was console_is (host_did h) }
{}

/// Before they end, a host, a board, a pulse and a recorder have done a run so far, if each has got a front of what the other gave; the pulse
/// may have halted once more than the board has seen.
pub fn actors_make_a_run_so_far()
    ensures { (attended : Bool) (room blocks : ℕ) (form : Form) (job_was job_is : SourceState) (was is : Sinks) (h : HostDid) (b : BoardDid) (p : PulseDid) (records : List AnyRecord) →
        Sending attended room job_was job_is was.console is.console h → BoardRuns blocks (length (ticks_among p.put)) b → PulseRuns p → RecorderRuns form was.steps is.steps records →
        AreConnected room h b → ArePassedSoFar (length (ticks_among p.put)) b p → BeginsWith b.answered h.got → BeginsWith p.put records → IsSoFar attended room blocks form job_was job_is was is }
{}

/// A board that keeps to its rules over epochs runs, at any time. So many ticks are put in all, at least those that it knows of, and no
/// more than it has published.
pub fn boards_run()
    ensures { (blocks : ℕ) (state : State) (ticks : ℕ) (es : Epochs) → IsOpening state → AreEpochs blocks state es → known_in (log_of es) ≤ ticks → ticks ≤ ticks_published (sent_in (log_of es)) →
        BoardRuns blocks ticks (board_did es) }
{}

/// A pulse runs at any time, whatever it halted.
pub fn pulses_run()
    ensures { (p : Pulsing) (h : PieceLog) (k : RecordLog) → PulseFits p h k → PulseRuns (pulse_did h k) }
{}

/// Where a ring has passed on what a board has published and a pulse has got, the pulse has put no fewer ticks than the board knows of (`known`),
/// and no more than it has published (`within`); and what it got and halted is as the run so far asks (`passed`).
pub fn rings_pass_pieces_so_far()
    ensures known { (blocks : ℕ) (state : State) (es : Epochs) (p : Pulsing) (h : PieceLog) (k : RecordLog) → AreEpochs blocks state es → PulseFits p h k → ArePiecesPassed (sent_in (log_of es)) (known_in (log_of es)) h →
        known_in (log_of es) ≤ length (ticks_among (records_put k)) }
    ensures within { (blocks : ℕ) (state : State) (es : Epochs) (p : Pulsing) (h : PieceLog) (k : RecordLog) → AreEpochs blocks state es → PulseFits p h k → ArePiecesPassed (sent_in (log_of es)) (known_in (log_of es)) h →
        length (ticks_among (records_put k)) ≤ ticks_published (sent_in (log_of es)) }
    ensures passed { (blocks : ℕ) (state : State) (es : Epochs) (p : Pulsing) (h : PieceLog) (k : RecordLog) → AreEpochs blocks state es → PulseFits p h k → ArePiecesPassed (sent_in (log_of es)) (known_in (log_of es)) h →
        ArePassedSoFar (length (ticks_among (records_put k))) (board_did es) (pulse_did h k) }
{}
