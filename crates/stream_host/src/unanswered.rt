//! The lengths of the lines that have no answer.

ghost use Rattle.std.specs.Prelude.{◌≡◌, ◌+◌, ◌≤◌, ◌<◌, [], ◌∷◌, ◌++◌, length, reverse, drop};
ghost use Rattle.stream_host.specs.Hosts.{lengths, IsSummed};

use arrayvec::ArrayVec;

/// So many lines have no answer at most: each of those that are sent has a byte, and one more may be in hand.
type Lengths = ArrayVec<u8, 256>;

/// The lengths of some lines, the oldest first, and their sum.
#[derive(Drop)]
pub(crate) struct Unanswered {
    /// The oldest of them, the very oldest last.
    pub(crate) older: Lengths,
    /// Those behind them, in their order.
    pub(crate) newer: Lengths,
    pub(crate) total: usize,
}

/// All that are newer become the older ones, where these are none.
#[tactic(auto, using(crate::proofs::Counting::turned_over))]
fn turn_over(newer: &mut Lengths, older: &mut Lengths)
    requires none { older.old.items ≡ [] }
    requires few { length newer.old.items ≤ 256 }
    ensures older { older.new.items ≡ reverse newer.old.items }
    ensures newer { newer.new.items ≡ [] }
{
    while let Some(size) = newer.pop() {
        older.push(size);
    }
}

impl Unanswered {
    /// No line is without an answer.
    pub(crate) fn new() -> Unanswered
        ensures none { lengths result ≡ [] }
        ensures summed { IsSummed result }
    {
        Unanswered {
            older: ArrayVec::new(),
            newer: ArrayVec::new(),
            total: 0,
        }
    }

    /// No line is without an answer any more.
    pub(crate) fn clear(&mut self)
        ensures none { lengths self.new ≡ [] }
        ensures summed { IsSummed self.new }
    {
        self.older.clear();
        self.newer.clear();
        self.total = 0;
    }

    /// A line of this length is sent.
    #[tactic(auto, using(crate::proofs::Counting::sum_push))]
    pub(crate) fn push(&mut self, size: u8)
        requires few { length (lengths self.old) < 256 }
        requires small { self.old.total ≤ 255 }
        requires summed { IsSummed self.old }
        ensures more { lengths self.new ≡ lengths self.old ++ size ∷ [] }
        ensures summed { IsSummed self.new }
    {
        self.newer.push(size);
        self.total += usize::from(size);
    }

    /// Brings the oldest line to hand.
    fn find_oldest(&mut self)
        ensures same { lengths self.new ≡ lengths self.old }
        ensures total { self.new.total ≡ self.old.total }
        ensures found { self.new.older.items ≡ [] → lengths self.old ≡ [] }
    {
        if self.older.is_empty() && self.newer.len() > 0 {
            turn_over(&mut self.newer, &mut self.older);
        }
    }

    /// The oldest line has its answer.
    #[tactic(auto, using(crate::proofs::Counting::oldest, crate::proofs::Counting::sum_first))]
    pub(crate) fn pop(&mut self)
        requires summed { IsSummed self.old }
        ensures fewer { lengths self.new ≡ drop 1 (lengths self.old) }
        ensures summed { IsSummed self.new }
    {
        self.find_oldest();
        if let Some(size) = self.older.pop() {
            self.total -= usize::from(size);
        }
    }
}
