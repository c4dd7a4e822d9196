//! Laws of a link over epochs.

ghost use Rattle.std.specs.Prelude.{◌≡◌, ◌⊎◌, ℕ, ◌≤◌, Bool, true, false, List, [], ◌∷◌, ◌++◌, length, map};
ghost use Rattle.run_rules.specs.declared.State.{State};
ghost use Rattle.run_rules.specs.Lines.{ended};
ghost use Rattle.run_texts.specs.Besides.{DropsAreFew};
ghost use Rattle.run_texts.specs.Courses.{Passed, Reset};
ghost use Rattle.run_texts.specs.Courses.Passed.{a_reset};
ghost use Rattle.run_texts.specs.Fronts.{BeginsWith};
ghost use Rattle.run_texts.specs.Sent.{Sent, behind_reset, sent_of};
ghost use Rattle.run_texts.specs.Sent.Sent.{a_text, a_stop};
ghost use Rattle.serial_ring.specs.Logs.{marked_in, taken_at_banners};
ghost use Rattle.serial_ring.specs.declared.view.LinkStep.{LinkStep as AnyStep};
ghost use Rattle.serial_ring.specs.Marks.{AreMarks, Mark as LinkMark};
ghost use Rattle.serial_ring.specs.Rule.{AreTied};
ghost use Rattle.status_report.specs.declared.Reply.{Reply as AnyReply};
ghost use Rattle.step_line.specs.Logs.{NewestFirst};
ghost use Rattle.stream_host.specs.Conduct.{Conducted as HostConducted};
ghost use Rattle.host_journal.specs.Ports.{PortsAgree};
ghost use Rattle.host_journal.specs.Steps.{Journal as HostJournal, forgotten_of, port_log, stored_of, stored_at_banners, marks_of, is_shut, has_limit, cut_of, raw_of, resets_of};
ghost use Rattle.board_journal.specs.Ports.{taken_in, link_steps, has_closed_in};
ghost use Rattle.board_epochs.specs.Epochs.{Closed, Epochs, AreClosed, AreEpochs, closed_log, log_of};
ghost use Rattle.epoch_links.specs.Links.{AreLinked, AreLinkedOver, AwaitsBanners, HasBanners, EndsEpochs, EndAtMarks, EndsHave, AreLastAtMost};
ghost use Rattle.epoch_links.specs.Pieces.{Pieces, joined, ends_behind, texts_in, items_closed, items_in, IsFrontOf, IsAllOf};
ghost use Rattle.epoch_links.specs.Taken.{taken_closed, taken_before, taken_by, resets_asked};
ghost use Rattle.epoch_links.specs.Drops.{AreAnsweredOver, DropFew, PassesLines, closed_of, dropped_by, lines_among};
ghost use Rattle.stream_host.specs.Epochs.{ended_of};

/// A host stores and marks a front of its lines and the resets among them: the lines that it has cut, and the resets of what is
/// scanned of the next. It awaits a Banner of each mark. If it has closed its link, and no alarm of a limit was got, it has stored and
/// marked all of them, and has got a Banner of each mark; and so it has stored and marked all while it awaits a Banner.
pub fn hosts_await_a_banner_of_each_mark()
    ensures awaits { (room : ℕ) (h : HostJournal) → HostConducted room h → AwaitsBanners (stored_of h) (marks_of h) (stored_at_banners (port_log h)) }
    ensures front { (room : ℕ) (h : HostJournal) → HostConducted room h → IsFrontOf (sent_of (cut_of h) (raw_of h)) (stored_of h) (marks_of h) }
    ensures got { (room : ℕ) (h : HostJournal) → HostConducted room h → is_shut h ≡ true → has_limit h ≡ false → HasBanners (marks_of h) (stored_at_banners (port_log h)) }
    ensures whole { (room : ℕ) (h : HostJournal) → HostConducted room h → is_shut h ≡ true → has_limit h ≡ false → IsAllOf (sent_of (cut_of h) (raw_of h)) (stored_of h) (marks_of h) }
    ensures waits { (room : ℕ) (h : HostJournal) → HostConducted room h → HasBanners (marks_of h) (stored_at_banners (port_log h)) ⊎ IsAllOf (sent_of (cut_of h) (raw_of h)) (stored_of h) (marks_of h) }
{}

/// A board ends each epoch for a mark that is new behind that of the one before, behind no fewer bytes than the mark has, and answers the
/// Banner of the next before it takes a byte more. For each it has taken a word of requests that asks for a reset.
pub fn boards_end_epochs_for_marks()
    ensures asked { (blocks : ℕ) (state : State) (es : NewestFirst Closed) → AreClosed blocks state es → length es ≤ resets_asked (closed_log es) }
    ensures ends { (blocks : ℕ) (state : State) (r : Epochs) → AreEpochs blocks state r → EndsEpochs (taken_by r) (taken_in (log_of r)) (marked_in (link_steps (log_of r))) (taken_at_banners (link_steps (log_of r))) }
{}

/// Where a host awaits a Banner of each mark, and a board ends an epoch for each Banner but the first, what is taken is cut at the
/// places where what is stored was marked; as often as there are marks, if a Banner of each was got. These places determine the
/// pieces.
pub fn links_are_cut_at_the_same_places()
    ensures cut { (stored marks at_got taken at_answers : List ℕ) (loaded : List LinkMark) (shut closed : Bool) (p : Pieces) →
        AreLinked stored marks at_got shut taken loaded at_answers closed → AwaitsBanners stored marks at_got → EndsEpochs p taken loaded at_answers →
        EndAtMarks stored marks p }
    ensures each { (stored marks at_got taken at_answers : List ℕ) (loaded : List LinkMark) (shut closed : Bool) (p : Pieces) →
        AreLinked stored marks at_got shut taken loaded at_answers closed → AwaitsBanners stored marks at_got → EndsEpochs p taken loaded at_answers →
        HasBanners marks at_got → length p.closed ≡ length marks }
    ensures same { (p q : Pieces) → joined p ≡ joined q → ends_behind 0 p.closed ≡ ends_behind 0 q.closed → p ≡ q }
    ensures run { (room : ℕ) (host : HostJournal) (blocks : ℕ) (state : State) (r : Epochs) → HostConducted room host → AreEpochs blocks state r → AreLinkedOver host r → EndAtMarks (stored_of host) (marks_of host) (taken_by r) }
{}

/// The lists of the two ends of one link, which are brought together, go together so: a front of the bytes is taken, each mark that was
/// loaded was stored, no byte was taken before it was stored, and the replies got are the first of those answered. Those of a link that is
/// plain lists do, where what was stored is what was taken and what waits. So do those of any link of which the logs of the ports agree.
pub fn ends_of_a_link_are_linked()
    ensures linked { (room : ℕ) (stored marks : List ℕ) (closed : Bool) (log : List AnyStep) (over : Bool) (got : List AnyReply) (greeted : List LinkMark) (moments : List ℕ) (host : HostJournal) (r : Epochs) →
        AreTied room stored marks closed log over got greeted moments → EndsHave stored marks closed log over got moments host r → AreLinkedOver host r }
    ensures answered { (room : ℕ) (stored marks : List ℕ) (closed : Bool) (log : List AnyStep) (over : Bool) (got : List AnyReply) (greeted : List LinkMark) (moments : List ℕ) (host : HostJournal) (r : Epochs) →
        AreTied room stored marks closed log over got greeted moments → EndsHave stored marks closed log over got moments host r → AreAnsweredOver host r }
    ensures ports { (host : HostJournal) (r : Epochs) → PortsAgree (port_log host) (link_steps (log_of r)) (has_closed_in (log_of r)) → AreLinkedOver host r × AreAnsweredOver host r }
    ensures lists { (host : HostJournal) (r : Epochs) (waiting : List ℕ) → stored_of host ≡ taken_in (log_of r) ++ waiting → (has_closed_in (log_of r) ≡ true → (is_shut host ≡ true) × (waiting ≡ [])) →
        AreMarks (marks_of host) (marked_in (link_steps (log_of r))) → AreLastAtMost (taken_at_banners (link_steps (log_of r))) (stored_at_banners (port_log host)) → AreLinkedOver host r }
{}

/// So the lines that a board has taken, epoch by epoch, with a reset behind each that is closed, are a front of the lines and resets that
/// came of the job: those of one epoch more come behind those before. What is left of what came has one reset at most, and nothing
/// behind it. They are all that came, if all was stored and marked, the link was found closed, and as many epochs were ended as there
/// are marks.
pub fn links_carry_lines_and_resets()
    ensures epoch { (e : Closed) (es : NewestFirst Closed) → items_closed (taken_before (e ∷ es)) ≡ items_closed (taken_before es) ++ (texts_in (taken_closed e) ++ a_stop ∷ []) }
    ensures front { (sent : List Sent) (stored marks at_got taken at_answers : List ℕ) (loaded : List LinkMark) (shut closed : Bool) (p : Pieces) →
        IsFrontOf sent stored marks → AreLinked stored marks at_got shut taken loaded at_answers closed → EndsEpochs p taken loaded at_answers → EndAtMarks stored marks p →
        BeginsWith sent (items_in p) }
    ensures left { (sent : List Sent) (stored marks at_got taken at_answers : List ℕ) (loaded : List LinkMark) (shut closed : Bool) (p : Pieces) →
        IsFrontOf sent stored marks → AreLinked stored marks at_got shut taken loaded at_answers closed → AwaitsBanners stored marks at_got → EndsEpochs p taken loaded at_answers →
        HasBanners marks at_got ⊎ IsAllOf sent stored marks → (b : BeginsWith sent (items_in p)) → behind_reset b.rest ≡ [] }
    ensures whole { (sent : List Sent) (stored marks at_got taken at_answers : List ℕ) (loaded : List LinkMark) (shut closed : Bool) (p : Pieces) →
        IsFrontOf sent stored marks → IsAllOf sent stored marks → AreLinked stored marks at_got shut taken loaded at_answers closed → EndsEpochs p taken loaded at_answers → EndAtMarks stored marks p →
        closed ≡ true → length marks ≤ length p.closed → sent ≡ items_in p }
    ensures run { (room : ℕ) (host : HostJournal) (blocks : ℕ) (state : State) (r : Epochs) → HostConducted room host → AreEpochs blocks state r → AreLinkedOver host r →
        BeginsWith (sent_of (cut_of host) (raw_of host)) (items_in (taken_by r)) }
    ensures rest { (room : ℕ) (host : HostJournal) (blocks : ℕ) (state : State) (r : Epochs) → HostConducted room host → AreEpochs blocks state r → AreLinkedOver host r →
        (b : BeginsWith (sent_of (cut_of host) (raw_of host)) (items_in (taken_by r))) → behind_reset b.rest ≡ [] }
    ensures finished { (room : ℕ) (host : HostJournal) (blocks : ℕ) (state : State) (r : Epochs) → HostConducted room host → AreEpochs blocks state r → AreLinkedOver host r →
        has_limit host ≡ false → has_closed_in (log_of r) ≡ true →
        (sent_of (cut_of host) (raw_of host) ≡ items_in (taken_by r)) × (length (taken_by r).closed ≡ resets_of host) }
{}

/// The lines that one reset of a board drops, each with its LF, take no more bytes than the link has room for: those of a closed epoch
/// that have no answer. They are those that the host forgets at the Banner, or that it will forget there but for some that are
/// answered. So the resets of a course drop few lines, epoch by epoch. Once the host has ended as many epochs, it has forgotten as many lines.
pub fn resets_drop_few_lines()
    ensures course { (room : ℕ) (lines dropped : List (List ℕ)) (passed : List Passed) (r : Reset) (sent : List Sent) (course : List Passed) →
        PassesLines lines passed dropped → length (ended dropped) ≤ room → DropsAreFew room 0 sent course →
        DropsAreFew room 0 (map a_text lines ++ a_stop ∷ sent) (passed ++ a_reset r ∷ course) }
    ensures run { (room : ℕ) (host : HostJournal) (blocks : ℕ) (state : State) (r : Epochs) → HostConducted room host → AreEpochs blocks state r → AreLinkedOver host r → AreAnsweredOver host r → DropFew room (closed_of r) }
    ensures forgotten { (room : ℕ) (host : HostJournal) (blocks : ℕ) (state : State) (r : Epochs) → HostConducted room host → AreEpochs blocks state r → AreLinkedOver host r → AreAnsweredOver host r →
        length (ended_of host) ≡ length (closed_of r) → forgotten_of host ≡ lines_among (map dropped_by (closed_of r)) }
{}
