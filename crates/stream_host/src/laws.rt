//! Laws of hosts.

ghost use Rattle.std.specs.Prelude.{◌≡◌, ℕ, ◌+◌, ◌*◌, ◌≤◌, ◌<◌, ◌⊎◌, Bool, true, false, List, [], ◌∷◌, ◌++◌, length, map, take, drop, reverse};
ghost use Rattle.run_rules.specs.Lines.{lines_of, whole_lines};
ghost use Rattle.run_rules.specs.Readings.{largest_job, largest_piece};
ghost use Rattle.serial_ring.specs.declared.view.LinkStep.{LinkStep};
ghost use Rattle.serial_ring.specs.Logs.{greeted_in};
ghost use Rattle.serial_ring.specs.Marks.{Mark};
ghost use Rattle.host_journal.specs.Links.{behind_lf, on_link, AreInOrder};
ghost use Rattle.status_report.specs.Answering.{lfs_in, answers_in};
ghost use Rattle.host_journal.specs.Jobs.{cancels_in, is_cancel, is_reset, sent_text, marks_behind, served_in, ends_sending, lines_read, lines_to_send, stop_by, IsSent, IsSentSoFar};
ghost use Rattle.host_journal.specs.declared.Reading.{Reading};
ghost use Rattle.std.specs.List.{AllByRecursion, count_by, list_any};
ghost use Rattle.gcode_words.specs.Words.{Spells};
ghost use Rattle.gcode_words.specs.declared.Word.{Word};
ghost use Rattle.host_journal.specs.Holding.{is_pause, pauses};
ghost use Rattle.host_journal.specs.Steps.{Journal, stored_of, got_of, is_shut, answered_of, errors_of, live_of, unanswered_of, forgotten_of, over_of, marks_of, resets_of, banners_of, awaits_banner, read_of, reading_of, scanned_of, cut_of, to_store, begun_of, due_of, has_limit, job_stop_of, or_alarm, stop_of, port_log, is_attended, beginning, raises_of, line_raises_of, resumes_of, polls_of, all_empty_in, empty_polls};
ghost use Rattle.host_journal.specs.Steps.Step.{at_port};
ghost use Rattle.host_journal.specs.Steps.PortStep.{marked, raised};
ghost use Rattle.run_rules.specs.Reports.{AreReported};
ghost use Rattle.stream_host.specs.Conduct.{AwaitsSome, Conducted, MayStore, Waits, waits_for_lines};
ghost use Rattle.outside.specs.Causes.{SourceState, SinkState};
ghost use Rattle.stream_host.specs.declared.host.Host.{Host};
ghost use Rattle.stream_host.specs.Hosts.{HostFits, HostRests, TellsJob, TellsText};
ghost use Rattle.host_journal.specs.Ports.{AreGreeted, PortsAgree, SeemsFull};
ghost use Rattle.stream_host.specs.Epochs.{AreEnds, AreEpochs, ended_of, epoch_now, lines_now, got_now};
ghost use Rattle.stream_host.specs.Ran.{AreAwaited, AreBorders, AreMarks, AreRaised, HostRan, HostRuns, SentNoMore, HasFinished, TellsConsole, end_of};

/// What a host that keeps to its rules stores is what is kept of the lines that it cuts behind their last reset, each with LF.
/// These are the lines that are sent of the job, and what it scans, and why it stops, is what the job allows: so far, and all once
/// it has closed the link and got no alarm. Where the job gives no cause, an alarm is one, at the first line of the epoch
/// that has no answer.
pub fn hosts_send_their_lines()
    ensures stored { (room : ℕ) (h : Journal) → Conducted room h → stored_of h ++ to_store h ≡ on_link (cut_of h) }
    ensures so_far { (room : ℕ) (h : Journal) → Conducted room h → IsSentSoFar (read_of h) (reading_of h) (scanned_of h) (cut_of h) (job_stop_of h) }
    ensures stop { (room : ℕ) (h : Journal) → Conducted room h → stop_of h ≡ or_alarm (has_limit h) (over_of h) (stop_by (reading_of h) (scanned_of h)) }
    ensures whole { (room : ℕ) (h : Journal) → Conducted room h → is_shut h ≡ true → has_limit h ≡ false →
        IsSent (read_of h) (reading_of h) (scanned_of h) (cut_of h) (stop_of h) × (stored_of h ≡ on_link (cut_of h)) }
{}

/// The lines of the epoch that a host has sent and that have no answer take no more bytes than the link has room for, so that no byte
/// that it may store is dropped. What it reads, stores and counts is bounded.
pub fn hosts_keep_to_their_count()
    ensures count { (room : ℕ) (h : Journal) → Conducted room h → length (on_link (drop (answered_of h) (begun_of h))) ≤ room }
    ensures room { (room : ℕ) (b : ℕ) (h : Journal) → Conducted room h → MayStore room b h → (is_shut h ≡ false) × (SeemsFull room (port_log h) → ⊥) }
    ensures answers { (room : ℕ) (h : Journal) → Conducted room h → (errors_of h ≤ answered_of h) × (answered_of h ≤ length (live_of h)) × (length (cut_of h) ≤ largest_job) }
    ensures read { (room : ℕ) (h : Journal) → Conducted room h → (length (scanned_of h) ≤ largest_job) × (length (read_of h) ≤ length (scanned_of h) + largest_piece) }
    ensures bytes { (room : ℕ) (h : Journal) → Conducted room h → length (stored_of h) ≤ largest_job + 1 }
{}

/// The realtime bytes that a host scans are raised once, in order, or are due: none is while a byte of the line that it
/// stands in may be stored. What else is raised are its own resumes. Before each of them 4,096 polls in a row found no
/// reply, and no more. A `?` and the cancel of a jog are raised once each line before their own is answered: so no cancel is
/// raised behind the first line that is neither answered nor forgotten. Each line that asks for a report and has its answer has a
/// report, behind the answers to the lines before it.
///
/// In an attended run no byte waits for answers, nothing is said of where reports stand, and nothing is resumed while the link is
/// open, however many polls find no reply.
pub fn hosts_raise_what_they_scan()
    ensures raised { (room : ℕ) (h : Journal) → Conducted room h → AreRaised (scanned_of h) (raises_of h) (due_of h) (resumes_of h) }
    ensures in_order { (room : ℕ) (h : Journal) → Conducted room h → line_raises_of h ++ due_of h ≡ served_in (scanned_of h) }
    ensures first { (room : ℕ) (b : ℕ) (h : Journal) → Conducted room h → MayStore room b h → due_of h ≡ [] }
    ensures closed { (room : ℕ) (h : Journal) → Conducted room h → is_shut h ≡ true → has_limit h ≡ false → due_of h ≡ [] }
    ensures after { (room : ℕ) (b : ℕ) (h : Journal) (down : Bool) → is_attended h ≡ false → waits_for_lines b ≡ true → Conducted room (at_port (raised b down) ∷ h) → answers_in (got_now h) ≡ length (lines_now h) }
    ensures waited { (room : ℕ) (h : Journal) → Conducted room h → is_attended h ≡ false → count_by is_cancel (raises_of h) ≤ cancels_in (take (over_of h + 1) (lines_of (scanned_of h))) }
    ensures reported { (room : ℕ) (h : Journal) → Conducted room h → is_attended h ≡ false → AreReported (live_of h) (got_of h) }
    ensures tired { (room : ℕ) (h : Journal) → Conducted room h → (is_attended h ≡ false) ⊎ (is_shut h ≡ true) → polls_of h ≤ empty_polls }
    ensures alone { (room : ℕ) (h : Journal) → Conducted room h → is_attended h ≡ true → is_shut h ≡ false → resumes_of h ≡ 0 }
    ensures rested { (room : ℕ) (h : Journal) → Conducted room h → empty_polls * resumes_of h + polls_of h ≤ all_empty_in (port_log h) }
{}

/// What a host did is cut into epochs by the Banners that it got, and each that is over ends at its mark. The marks stored are
/// those of the resets that were scanned, each behind the lines before its own; the last may not be stored yet, but is where
/// nothing is due. A mark stands at the border of the lines stored, and the n-th reset is raised behind the n-th mark. A host that
/// has raised resets awaits one Banner more than these, and until it comes nothing is scanned, and all lines that were cut are
/// stored; those that have no answer then, which the epoch's beginning forgets, take no more bytes than the link
/// has room for.
pub fn hosts_begin_epochs()
    ensures borders { (room : ℕ) (h : Journal) → Conducted room h → AreBorders (marks_of h) (cut_of h) }
    ensures now { (room : ℕ) (h : Journal) → Conducted room (at_port marked ∷ h) → stored_of h ≡ on_link (cut_of h) }
    ensures marks { (room : ℕ) (h : Journal) → Conducted room h → (resets_of h ≤ length (marks_of h)) × (length (marks_of h) ≤ resets_of h + 1) }
    ensures behind { (room : ℕ) (b : ℕ) (down : Bool) (h : Journal) → is_reset b ≡ true → Conducted room (at_port (raised b down) ∷ h) → length (marks_of h) ≡ resets_of h + 1 }
    ensures awaits { (room : ℕ) (h : Journal) → Conducted room h → awaits_banner h ≡ true → (stored_of h ≡ on_link (cut_of h)) × (due_of h ≡ []) × (length (on_link (unanswered_of h)) ≤ room) }
    ensures banners { (room : ℕ) (h : Journal) → Conducted room h → (banners_of h ≤ length (marks_of h) + 1) × (0 < resets_of h → awaits_banner h ≡ false → resets_of h < banners_of h) }
    ensures lines { (room : ℕ) (h : Journal) → Conducted room h → length (cut_of h) ≡ length (live_of h) + forgotten_of h }
    ensures places { (room : ℕ) (h : Journal) → Conducted room h → AreMarks (marks_of h) (scanned_of h) × (due_of h ≡ [] → reverse (marks_of h) ≡ marks_behind 0 (lines_of (scanned_of h))) }
    ensures awaited { (room : ℕ) (h : Journal) → Conducted room h → AreAwaited (scanned_of h) (cut_of h) (banners_of h) }
    ensures ends { (room : ℕ) (h : Journal) → Conducted room h → (AreEnds (marks_of h) (ended_of h) ⊎ AreEnds (drop 1 (marks_of h)) (ended_of h)) × (awaits_banner h ≡ false → due_of h ≡ [] → AreEnds (marks_of h) (ended_of h)) }
    ensures epochs { (room : ℕ) (h : Journal) → Conducted room h → AreEpochs room (cut_of h) (live_of h) (got_of h) (ended_of h) (epoch_now h) × (answers_in (got_now h) ≤ length (lines_now h)) }
{}

/// The Banners that a host gets are of its marks, in order: the first is of the start of the link, and the n-th behind it of the n-th
/// mark. Of each mark that it stored it got the Banner, but for the latest at most. So it is of those that the board at the other
/// end has answered.
pub fn hosts_get_banners_in_order()
    ensures got { (room : ℕ) (h : Journal) (greeted : List Mark) → Conducted room h → AreGreeted (port_log h) greeted → AreInOrder (marks_of h) greeted }
    ensures answered { (room : ℕ) (h : Journal) (log : List LinkStep) (over : Bool) → Conducted room h → PortsAgree (port_log h) log over → AreInOrder (marks_of h) (greeted_in log) }
{}

/// Behind an alarm nothing more of the job is read, scanned, stored or raised, whatever is done later.
pub fn hosts_stop_at_an_alarm()
    ensures stays { (later h : Journal) → has_limit h ≡ true → has_limit (later ++ h) ≡ true }
    ensures no_more { (room : ℕ) (later h : Journal) → Conducted room (later ++ h) → has_limit h ≡ true → SentNoMore h (later ++ h) }
{}

/// A host whose link is open waits only where it awaits something: the first banner, the answer to a line that it has sent, a
/// report that it has asked for, or the Banner of a reset. Its rules always allow it one of its steps else.
pub fn hosts_wait_for_answers()
    ensures { (room : ℕ) (h : Journal) → 128 ≤ room → Conducted room h → Waits room h → is_shut h ≡ false → AwaitsSome h }
{}

/// A job in which no line ends the sending is sent whole. Lines come back from the link as what is kept of them. Behind the
/// lines that are answered stands at least what was not taken. A line asks for a pause exactly if what is sent of it has the word
/// `M0`, where that spells words.
pub fn links_carry_lines()
    ensures all { (r : Reading) (job : List ℕ) → AllByRecursion (λ l. ends_sending l ≡ false) (lines_read r job) → lines_to_send r job ≡ lines_read r job }
    ensures lines { (lines : List (List ℕ)) → whole_lines (on_link lines) ≡ map sent_text lines }
    ensures pauses { (line : List ℕ) (words : List Word) → Spells (sent_text line) words → pauses line ≡ list_any is_pause words }
    ensures untaken { (k : ℕ) (taken bytes : List ℕ) → k ≤ lfs_in taken → length bytes ≤ length (behind_lf k (taken ++ bytes)) }
{}

/// A host that keeps to its rules, has got Bye, and has written all or met a write that failed, has run: what it read,
/// stored and got, and what it tells at its end, is that of a whole run. Before, it is that of a run so far. A host that
/// is done has finished, and what it tells of its console is what its journal says.
pub fn hosts_have_run()
    ensures so_far { (room : ℕ) (h : Journal) (job_was job_is : SourceState) (console_was console_is : SinkState) →
        Conducted room h → TellsJob h job_was job_is → TellsConsole h console_was console_is →
        HostRuns (is_attended h) room job_was job_is console_was console_is (stored_of h) (marks_of h) (raises_of h) (got_of h) }
    ensures whole { (room : ℕ) (h : Journal) (job_was job_is : SourceState) (console_was console_is : SinkState) →
        Conducted room h → HasFinished h → TellsJob h job_was job_is → TellsConsole h console_was console_is →
        (ran : HostRan (is_attended h) room job_was job_is console_was console_is (stored_of h) (marks_of h) (is_shut h) (raises_of h) (got_of h) (end_of h)) × (ran.scanned ≡ scanned_of h) }
    ensures finished { (room : ℕ) (host : Host) (h : Journal) → HostFits room host h → HostRests host → HasFinished h }
    ensures console { (room : ℕ) (host : Host) (h : Journal) (was is : SinkState) → HostFits room host h → TellsText host.text h was is → TellsConsole h was is }
    ensures beginning { (attended : Bool) (job : SourceState) (console : SinkState) → TellsJob (beginning attended) job job × TellsConsole (beginning attended) console console }
{}
