//! What the host does.
ghost use Rattle.std.specs.Prelude.{◌≡◌, ◌+◌, ◌^◌, ◌<◌, ◌≤◌, true, false, ◌∷◌, length, IfSome, IfNone};
ghost use Rattle.status_report.specs.Replies.{IsReply};
ghost use Rattle.status_report.specs.Answering.{is_banner};
ghost use Rattle.serial_ring.specs.Lists.{AnswersStored, with_greeting, with_moment};
ghost use Rattle.serial_ring.specs.Marks.{Mark, Follows};
ghost use Rattle.serial_ring.specs.Ends.{link_of_host, stored_by, closed_by, marks_by, tail_shown, tail_loads_of, IsFull, got_by, greeted_by, moments_by, maybe_unread_by, replies_shown, reply_loads_of};

use crate::ends::HostEnd;
use crate::joined::{CLOSED, FIRST_CELL, HEAD, MARK, REPLY_HEAD, REPLY_ROOM, REPLY_TAIL, TAIL};
use crate::marks::packed;
use crate::plays::{GiveBack, Grasp, SeeTail, SetMark, Shut, StoreByte, Write};
use crate::view::Stored;
use shared_rings::place_behind;
use status_report::Reply;

impl<const RX: usize> HostEnd<RX> {
    /// Loads the tail of the bytes. What it shows unread is at most what stands behind the last mark whose Banner was got, after
    /// the last line that was answered since that Banner.
    fn look(&mut self)
        ensures load { tail_loads_of self.new ≡ tail_loads_of self.old + 1 }
        ensures unread { length (stored_by self.old) ≤ tail_shown self.new + length (maybe_unread_by self.old) }
        ensures stored { (stored_by self.new ≡ stored_by self.old) × (closed_by self.new ≡ closed_by self.old) × (marks_by self.new ≡ marks_by self.old) }
        ensures got { (got_by self.new ≡ got_by self.old) × (greeted_by self.new ≡ greeted_by self.old) }
        ensures moments { moments_by self.new ≡ moments_by self.old }
        ensures polls { reply_loads_of self.new ≡ reply_loads_of self.old }
        ensures link { link_of_host self.new ≡ link_of_host self.old }
    {
        self.taken = self.table.shared.load::<SeeTail<RX>>(&mut self.seat, TAIL);
    }

    /// Stores a byte. If the tail that it loaded last shows no room for one, it loads it once, and drops the byte exactly
    /// if that shows none either. The unread bytes that the load shows are at most those stored behind the last mark whose Banner
    /// was got, after the last line that was answered since that Banner. So a host that keeps these below the room loses none.
    #[inline]
    pub fn store(&mut self, byte: u8) -> Stored
        requires still { closed_by self.old ≡ false }
        requires few { length (stored_by self.old) < 2 ^ 31 }
        ensures load { IsFull self.old → tail_loads_of self.new ≡ tail_loads_of self.old + 1 }
        ensures kept { ¬ IsFull self.old → (tail_loads_of self.new ≡ tail_loads_of self.old) × (tail_shown self.new ≡ tail_shown self.old) }
        ensures stored { result ≡ Stored.Stored → stored_by self.new ≡ byte ∷ stored_by self.old }
        ensures room { result ≡ Stored.Stored → length (stored_by self.old) < tail_shown self.new + RX }
        ensures dropped { result ≡ Stored.Dropped → (stored_by self.new ≡ stored_by self.old) × IsFull self.old × IsFull self.new }
        ensures unread { IsFull self.old → length (stored_by self.old) ≤ tail_shown self.new + length (maybe_unread_by self.old) }
        ensures open { closed_by self.new ≡ false }
        ensures marks { marks_by self.new ≡ marks_by self.old }
        ensures got { (got_by self.new ≡ got_by self.old) × (greeted_by self.new ≡ greeted_by self.old) }
        ensures moments { moments_by self.new ≡ moments_by self.old }
        ensures polls { reply_loads_of self.new ≡ reply_loads_of self.old }
        ensures link { link_of_host self.new ≡ link_of_host self.old }
    {
        if self.stored - self.taken == RX as u64 {
            self.look();
        }
        if self.stored - self.taken == RX as u64 {
            return Stored::Dropped;
        }
        let shared = &self.table.shared;
        shared.store::<Write>(&mut self.seat, FIRST_CELL + self.cell, byte as u64);
        shared.store::<StoreByte>(&mut self.seat, HEAD, self.stored + 1);
        self.stored += 1;
        self.cell = place_behind(self.cell, RX);
        Stored::Stored
    }

    /// Closes the link: no byte comes after those stored.
    pub fn close(&mut self)
        requires still { closed_by self.old ≡ false }
        ensures closed { closed_by self.new ≡ true }
        ensures stored { (stored_by self.new ≡ stored_by self.old) × (marks_by self.new ≡ marks_by self.old) }
        ensures got { (got_by self.new ≡ got_by self.old) × (greeted_by self.new ≡ greeted_by self.old) }
        ensures moments { moments_by self.new ≡ moments_by self.old }
        ensures loads { (tail_loads_of self.new ≡ tail_loads_of self.old) × (tail_shown self.new ≡ tail_shown self.old) × (reply_loads_of self.new ≡ reply_loads_of self.old) }
        ensures link { link_of_host self.new ≡ link_of_host self.old }
    {
        self.table
            .shared
            .store::<Shut>(&mut self.seat, HEAD, self.stored + CLOSED);
    }

    /// Stores a mark behind the bytes stored so far: its number, counted from 1, and how many bytes these are, in one word. Fewer
    /// than 2^32 - 1 marks may be stored before it; and there are at most 2^31 bytes.
    pub fn mark(&mut self)
        requires few { length (marks_by self.old) + 1 < 2 ^ 32 }
        ensures mark { marks_by self.new ≡ length (stored_by self.old) ∷ marks_by self.old }
        ensures stored { (stored_by self.new ≡ stored_by self.old) × (closed_by self.new ≡ closed_by self.old) }
        ensures got { (got_by self.new ≡ got_by self.old) × (greeted_by self.new ≡ greeted_by self.old) }
        ensures moments { moments_by self.new ≡ moments_by self.old }
        ensures loads { (tail_loads_of self.new ≡ tail_loads_of self.old) × (tail_shown self.new ≡ tail_shown self.old) × (reply_loads_of self.new ≡ reply_loads_of self.old) }
        ensures link { link_of_host self.new ≡ link_of_host self.old }
    {
        let word = packed(self.marks + 1, self.stored as u32);
        self.table
            .shared
            .store::<SetMark>(&mut self.seat, MARK, word);
        self.marks += 1;
    }

    /// The next reply; None exactly if the head of the replies that it loads, once, is the number of those
    /// got. Since the last Banner of a mark no more lines have an answer among the replies got than end among the bytes stored
    /// behind that mark. The first Banner is of no mark, and each later one of a mark that was stored, behind that of the Banner
    /// before it.
    #[inline]
    pub fn reply(&mut self) -> Option<Reply>
        ensures load { reply_loads_of self.new ≡ reply_loads_of self.old + 1 }
        ensures some { IfSome result (λ r. (got_by self.new ≡ r ∷ got_by self.old) × (length (got_by self.old) < replies_shown self.new)) }
        ensures text { IfSome result IsReply }
        ensures fewer { IfSome result (λ r. AnswersStored (stored_by self.old) (got_by self.new) (greeted_by self.new)) }
        ensures greeted { IfSome result (λ r. (m : Mark) × (greeted_by self.new ≡ with_greeting r m (greeted_by self.old)) × (is_banner r ≡ true → Follows (marks_by self.old) (greeted_by self.old) m)) }
        ensures moment { IfSome result (λ r. moments_by self.new ≡ with_moment r (length (stored_by self.old)) (moments_by self.old)) }
        ensures moments { IfNone result (moments_by self.new ≡ moments_by self.old) }
        ensures none { IfNone result ((got_by self.new ≡ got_by self.old) × (greeted_by self.new ≡ greeted_by self.old) × (replies_shown self.new ≡ length (got_by self.old))) }
        ensures stored { (stored_by self.new ≡ stored_by self.old) × (closed_by self.new ≡ closed_by self.old) × (marks_by self.new ≡ marks_by self.old) }
        ensures tail { (tail_loads_of self.new ≡ tail_loads_of self.old) × (tail_shown self.new ≡ tail_shown self.old) }
        ensures link { link_of_host self.new ≡ link_of_host self.old }
    {
        let shared = &self.table.shared;
        let shown = shared.load::<Grasp>(&mut self.seat, REPLY_HEAD);
        if shown == self.got {
            return None;
        }
        let reply = shared.exchange(&mut self.seat, self.slot, None).unwrap();
        shared.store::<GiveBack>(&mut self.seat, REPLY_TAIL, self.got + 1);
        self.got += 1;
        self.slot = place_behind(self.slot, REPLY_ROOM);
        Some(reply)
    }
}
