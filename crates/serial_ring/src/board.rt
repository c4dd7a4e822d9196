//! What the board does.
ghost use Rattle.std.specs.Prelude.{◌≡◌, ℕ, ◌+◌, ◌-◌, ◌^◌, ◌<◌, ◌≤◌, true, false, ◌∷◌, length, OnOk, OnErr, IfErr};
ghost use Rattle.serial_ring.specs.Logs.{MayAnswer};
ghost use Rattle.serial_ring.specs.Marks.{MarkedPast, last_of};
ghost use Rattle.status_report.specs.Answering.{reply_room};
ghost use Rattle.serial_ring.specs.Ends.{link_of_board, log_by, taken_by, marked_by, found_closed, bytes_shown, head_loads_of, HasTakenAll, answered_by, replies_taken, room_loads_of};

use crate::ends::BoardEnd;
use crate::joined::{CLOSED, FIRST_CELL, HEAD, MARK, REPLY_HEAD, REPLY_ROOM, REPLY_TAIL, TAIL};
use crate::marks::{bytes_in, number_in};
use crate::plays::{Answer, Look, Reach, SeeHead, SeeMark, TakeByte};
use crate::view::{ByteIn, LinkStep};
use shared_rings::place_behind;
use status_report::Reply;

impl<const RX: usize> BoardEnd<RX> {
    /// Loads the head of the bytes. It shows no fewer bytes than were stored before any mark that was loaded.
    fn look(&mut self)
        ensures load { head_loads_of self.new ≡ head_loads_of self.old + 1 }
        ensures log { log_by self.new ≡ log_by self.old }
        ensures marked { (n : ℕ) → MarkedPast n (marked_by self.old) → n < bytes_shown self.new }
        ensures over { found_closed self.old ≡ true → found_closed self.new ≡ true }
        ensures loads { room_loads_of self.new ≡ room_loads_of self.old }
        ensures link { link_of_board self.new ≡ link_of_board self.old }
    {
        let shared = &self.table.shared;
        let head = shared.load::<SeeHead<RX>>(&mut self.seat, HEAD);
        self.stored = head % CLOSED;
        self.over = head == self.taken + CLOSED;
    }

    /// The next byte, of at most 2^31. If all bytes that the head showed that it loaded last are taken, it loads it once, and
    /// if that shows no more, the answer is Closed if it is closed, and else Empty. While fewer bytes are taken than were stored
    /// before a mark that was loaded, there is one.
    #[inline]
    pub fn byte(&mut self) -> ByteIn
        ensures load { HasTakenAll self.old → head_loads_of self.new ≡ head_loads_of self.old + 1 }
        ensures kept { ¬ HasTakenAll self.old → (head_loads_of self.new ≡ head_loads_of self.old) × (bytes_shown self.new ≡ bytes_shown self.old) }
        ensures byte { (b : ℕ) → result ≡ ByteIn.Byte b → (log_by self.new ≡ LinkStep.Took b ∷ log_by self.old) × (length (taken_by self.old) < bytes_shown self.new) }
        ensures few { (b : ℕ) → result ≡ ByteIn.Byte b → length (taken_by self.old) < 2 ^ 31 }
        ensures marked { MarkedPast (length (taken_by self.old)) (marked_by self.old) → (b : ℕ) × (result ≡ ByteIn.Byte b) }
        ensures empty { result ≡ ByteIn.Empty → (log_by self.new ≡ log_by self.old) × HasTakenAll self.old × HasTakenAll self.new × (found_closed self.new ≡ false) }
        ensures over { found_closed self.old ≡ true → found_closed self.new ≡ true }
        ensures closed { result ≡ ByteIn.Closed → (log_by self.new ≡ log_by self.old) × HasTakenAll self.old × HasTakenAll self.new × (found_closed self.new ≡ true) }
        ensures loads { room_loads_of self.new ≡ room_loads_of self.old }
        ensures link { link_of_board self.new ≡ link_of_board self.old }
    {
        if self.taken == self.stored {
            self.look();
        }
        if self.taken == self.stored {
            return if self.over {
                ByteIn::Closed
            } else {
                ByteIn::Empty
            };
        }
        let shared = &self.table.shared;
        let byte = shared.load::<Look>(&mut self.seat, FIRST_CELL + self.cell) as u8;
        shared.store::<TakeByte>(&mut self.seat, TAIL, self.taken + 1);
        self.taken += 1;
        self.cell = place_behind(self.cell, RX);
        ByteIn::Byte(byte)
    }

    /// How many bytes there is room for: the room of the link less the unread bytes that its load shows.
    #[inline]
    pub fn free(&mut self) -> u8
        ensures load { head_loads_of self.new ≡ head_loads_of self.old + 1 }
        ensures free { result + (bytes_shown self.new - length (taken_by self.old)) ≡ RX }
        ensures shown { length (taken_by self.old) ≤ bytes_shown self.new }
        ensures over { found_closed self.old ≡ true → found_closed self.new ≡ true }
        ensures log { log_by self.new ≡ log_by self.old }
        ensures loads { room_loads_of self.new ≡ room_loads_of self.old }
        ensures link { link_of_board self.new ≡ link_of_board self.old }
    {
        self.look();
        (RX as u64 - (self.stored - self.taken)) as u8
    }

    /// The number of the mark that it loads, once, and how many bytes were stored before it; 0 and 0 before the first. The number
    /// is no less than that of the mark that was loaded before.
    #[inline]
    pub fn marked(&mut self) -> (u32, u32)
        ensures log { log_by self.new ≡ LinkStep.Marked result.0 result.1 ∷ log_by self.old }
        ensures later { (last_of (marked_by self.old)).0 ≤ result.0 }
        ensures none { result.0 ≡ 0 → result.1 ≡ 0 }
        ensures over { found_closed self.new ≡ found_closed self.old }
        ensures polls { (head_loads_of self.new ≡ head_loads_of self.old) × (bytes_shown self.new ≡ bytes_shown self.old) }
        ensures loads { room_loads_of self.new ≡ room_loads_of self.old }
        ensures link { link_of_board self.new ≡ link_of_board self.old }
    {
        let word = self.table.shared.load::<SeeMark>(&mut self.seat, MARK);
        (number_in(word), bytes_in(word))
    }

    /// Answers, or hands the reply back exactly if the tail of the replies that it loads, once, shows 16 untaken ones.
    /// Then nothing was answered.
    #[inline]
    pub fn answer(&mut self, r: Reply) -> Result<(), Reply>
        requires { MayAnswer (log_by self.old) r }
        ensures load { room_loads_of self.new ≡ room_loads_of self.old + 1 }
        ensures ok { OnOk result (log_by self.new ≡ LinkStep.Answered r ∷ log_by self.old) }
        ensures room { OnOk result (length (answered_by self.old) < replies_taken self.new + reply_room) }
        ensures full { OnErr result ((log_by self.new ≡ log_by self.old) × (length (answered_by self.old) ≡ replies_taken self.new + reply_room)) }
        ensures back { IfErr result (λ handed. handed ≡ r) }
        ensures over { found_closed self.new ≡ found_closed self.old }
        ensures polls { (head_loads_of self.new ≡ head_loads_of self.old) × (bytes_shown self.new ≡ bytes_shown self.old) }
        ensures link { link_of_board self.new ≡ link_of_board self.old }
    {
        let shared = &self.table.shared;
        let taken = shared.load::<Reach>(&mut self.seat, REPLY_TAIL);
        if self.answered - taken >= REPLY_ROOM as u64 {
            return Err(r);
        }
        shared.exchange(&mut self.seat, self.slot, Some(r));
        shared.store::<Answer>(&mut self.seat, REPLY_HEAD, self.answered + 1);
        self.answered += 1;
        self.slot = place_behind(self.slot, REPLY_ROOM);
        Ok(())
    }
}
