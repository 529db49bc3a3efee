// The hands of one session, and the table that they share.
ghost use Rattle.std.specs.Prelude.{◌≡◌, ◌≢◌, ◌≤◌, ◌<◌, ◌⊎◌, ◌/◌, ◌%◌, [], ◌∷◌, IfOk};
ghost use Rattle.ufs_hand_laws.specs.Rule.{clock_step, word_at, IsSeenBy, KnowsTickets, MayTick};
ghost use Rattle.ufs_hand_laws.specs.Clock.{looked, ticked};
ghost use Rattle.ufs_hand_laws.specs.Parts.{NamesPart, HoldsPart, kept_of, given_of, both_of};
ghost use Rattle.ufs_hand_laws.specs.Draws.{MayDraw, drawn};
ghost use Rattle.ufs_hand_laws.specs.Whole.{HoldsAll};
ghost use Rattle.ufs_hand.specs.Session.{first_view, word_of, CanBegin, DrewLocal, HoldsPool, IsEvent, KnowsAll};

use crate::rule::{
    Board, Cut, Drawing, Draws, DrawsAt, Event, Glue, Leaving, Looks, Marks, Naming, Parts, Picked,
    Ticks,
};
use atomic_table::{Closed, Seat, Table};
use std::alloc::{AllocError, Global};
use std::marker::{Brand, Model, PhantomData};
use ufs_hand_laws::{Fresh, Knowledge};
use ufs_model::{
    Lease, PartName, a_request_is_local, a_request_keeps_the_tree, a_request_makes_one_file_at_most,
};

// The tickets are the low 40 bits of the word, and the clock the high 24.
const CLOCK: u64 = 1 << 40;

/// The right to some parts of a session. Contracts see which parts, with what stands in them.
#[derive(Drop)]
pub struct Hand<N: Naming> {
    seat: Seat<(), Knowledge>,
    of: PhantomData<N>,
}

impl<N: Naming> Model for Hand<N> {
    ghost use Rattle.std.specs.Prelude.{◌≡◌, []};
    ghost use Rattle.ufs_hand_laws.specs.Codes.{view_code};
    ghost use Rattle.ufs_hand_laws.specs.Parts.{View};

    ghost Value = { View };

    ghost coded = { view_code };

    ghost view = { λ h. h.seat.me.0 };

    ghost invariant = { λ h. (h.seat.table_id ≡ N.table) × (h.seat.me.1 ≡ []) };
}

/// The word of a session: the tickets in its low 40 bits, the clock above them.
pub struct HandTable<N: Naming> {
    table: Board,
    of: PhantomData<N>,
}

impl<N: Naming> Model for HandTable<N> {
    ghost use Rattle.std.specs.Prelude.{◌≡◌};

    ghost Value = { Unit {0} };

    ghost view = { λ _. tt };

    ghost invariant = { λ t. (t.table.shared.table_id ≡ N.table) × (t.table.shared.table_id.words ≡ 1) × (t.table.shared.table_id.slots ≡ 0) × (t.table.shared.key.start ≡ N.start) };
}

/// A session that was opened, and has no name yet.
pub struct Opened {
    table: Board,
    seat: Seat<(), Knowledge>,
}

impl Model for Opened {
    ghost use Rattle.std.specs.Prelude.{◌≡◌, []};
    ghost use Rattle.ufs_hand.specs.Codes.{session_code};
    ghost use Rattle.ufs_hand.specs.Session.{Session, first_view};

    ghost Value = { Session };

    ghost coded = { session_code };

    ghost view = { λ o. record { table = o.table.shared.table_id; start = o.table.shared.key.start } };

    ghost invariant = { λ o. (o.seat.table_id ≡ o.table.shared.table_id) × (o.table.shared.table_id.words ≡ 1) × (o.table.shared.table_id.slots ≡ 0) × (o.seat.me ≡ (first_view o.table.shared.key.start, [])) };
}

/// A session that has a name, and its first hand.
pub struct Begun<N: Naming> {
    pub table: HandTable<N>,
    pub hand: Hand<N>,
}

/// A word of a session that was read.
#[derive(Clone, Copy)]
pub struct Now {
    /// How many entries were drawn.
    pub tickets: u64,
    /// Where the clock stood, below 2^24.
    pub clock: u32,
}

impl Now {
    fn of_word(word: u64) -> Now
        ensures tickets { result.tickets ≡ word % clock_step }
        ensures clock { result.clock ≡ word / clock_step }
    {
        let tickets = word % CLOCK;
        let clock = (word / CLOCK) as u32;
        Now { tickets, clock }
    }
}

/// How a session ended.
#[derive(Clone, Copy)]
pub struct Whole {
    /// How many entries were drawn.
    pub tickets: u64,
    /// Where the clock stood, below 2^24.
    pub clock: u32,
}

/// How a draw under a lease went.
#[derive(Clone, Copy)]
pub enum Drawn {
    /// The ticket of the entry.
    Ticket(u64),
    /// The lease had ended by the clock, and nothing was drawn.
    Expired { now: u32 },
    /// The word had become this one since it was read, and nothing was drawn.
    Lost { found: u64 },
}

impl Opened {
    /// A session that starts from these parts, with ticket and clock 0. Only this call takes memory.
    pub fn open(alloc: Global, parts: Parts) -> Result<Opened, AllocError>
        requires { CanBegin parts.start }
        ensures { IfOk result (λ o. o.start ≡ parts.start) }
    {
        let (table, seat) = Table::of_words(alloc, &[0], &parts)?;
        Ok(Opened { table, seat })
    }

    /// The same, under a name. The hand holds every part.
    pub fn named<N: Naming>(self) -> Begun<N>
        requires { (self.table ≡ N.table) × (self.start ≡ N.start) }
        ensures { result.hand ≡ first_view N.start }
    {
        let Opened { table, seat } = self;
        Begun {
            table: HandTable {
                table,
                of: PhantomData,
            },
            hand: Hand {
                seat,
                of: PhantomData,
            },
        }
    }
}

impl<N: Naming> Hand<N> {
    /// A new hand with just this part, which this hand has no more.
    pub fn split(&mut self, table: &HandTable<N>, part: PartName) -> Hand<N>
        requires { HoldsPart part self.old ⊎ HoldsPool part self.old }
        ensures kept { self.new ≡ kept_of part self.old }
        ensures given { result ≡ given_of part self.old }
    {
        self.split_as::<Brand>(table, part)
    }

    fn split_as<P: Picked>(&mut self, table: &HandTable<N>, part: PartName) -> Hand<N>
        requires { part ≡ P.part }
        ensures kept { self.new ≡ kept_of part self.old }
        ensures given { result ≡ given_of part self.old }
    {
        let seat = table.table.shared.split_seat::<Cut<P>>(&mut self.seat);
        Hand {
            seat,
            of: PhantomData,
        }
    }

    /// This hand has the parts of both, and the other is no more.
    pub fn join(&mut self, table: &HandTable<N>, other: Hand<N>)
        ensures { self.new ≡ both_of self.old other }
    {
        let Hand { seat, of: _ } = other;
        table.table.shared.join_seat::<Glue>(&mut self.seat, seat);
    }

    /// The next ticket, for this entry. The parts go on by it, to what the caller picks.
    pub fn draw<L: Leaving>(&mut self, table: &HandTable<N>, fresh: &Fresh) -> u64
        requires { MayDraw fresh.now self.old L.leaves [] }
        ensures parts { self.new ≡ drawn result fresh.now L.leaves self.old }
        ensures later { self.old.seen ≤ result }
        ensures history { KnowsTickets N.start self.old result }
    {
        self.draw_as::<Brand, L>(table, fresh)
    }

    /// The next ticket, for the entry that the caller picks. The code's own may be another: no step looks at it.
    pub fn draw_as<F: Drawing, L: Leaving>(&mut self, table: &HandTable<N>, fresh: &Fresh) -> u64
        requires { MayDraw F.fresh self.old L.leaves [] }
        ensures parts { self.new ≡ drawn result F.fresh L.leaves self.old }
        ensures later { self.old.seen ≤ result }
        ensures history { KnowsTickets N.start self.old result }
    {
        // For the prover alone.
        let _ = fresh;
        a_request_keeps_the_tree();
        a_request_is_local();
        a_request_makes_one_file_at_most();
        let word = table
            .table
            .shared
            .fetch_add::<Draws<N, F, L>>(&mut self.seat, 0, 1);
        word % CLOCK
    }

    /// The next ticket, for an entry that a client makes itself under a lease that is among its copies. The hand has read
    /// the clock then.
    pub fn draw_local<L: Leaving>(
        &mut self,
        table: &HandTable<N>,
        lease: &Lease,
        fresh: &Fresh,
    ) -> Drawn
        requires { MayDraw fresh.now self.old L.leaves (lease.now ∷ []) }
        ensures { DrewLocal lease.now.until fresh.now L.leaves self.old result self.new }
    {
        let word = self.read(table);
        let now = (word / CLOCK) as u32;
        if lease.until <= now {
            return Drawn::Expired { now };
        }
        let found = self.exchange_as::<Brand, L>(table, lease, fresh, word);
        if found != word {
            return Drawn::Lost { found };
        }
        Drawn::Ticket(word % CLOCK)
    }

    fn read(&mut self, table: &HandTable<N>) -> u64
        ensures parts { self.new ≡ looked (word_at result) self.old }
        ensures seen { IsSeenBy result self.old }
    {
        table.table.shared.load::<Looks>(&mut self.seat, 0)
    }

    fn exchange_as<F: Drawing, L: Leaving>(
        &mut self,
        table: &HandTable<N>,
        lease: &Lease,
        fresh: &Fresh,
        word: u64,
    ) -> u64
        requires fresh { fresh.now ≡ F.fresh }
        requires may { MayDraw fresh.now self.old L.leaves (lease.now ∷ []) }
        requires live { word / clock_step < lease.now.until }
        ensures drawn { result ≡ word → self.new ≡ drawn (word % clock_step) fresh.now L.leaves self.old }
        ensures lost { result ≢ word → (self.new ≡ self.old) × IsSeenBy result self.old }
    {
        // For the prover alone.
        let _ = lease;
        let _ = fresh;
        a_request_keeps_the_tree();
        a_request_is_local();
        a_request_makes_one_file_at_most();
        table
            .table
            .shared
            .compare_exchange::<DrawsAt<F, L>>(&mut self.seat, 0, word, word.wrapping_add(1))
    }

    /// The parts go on by an event that has no entry. Answers the word.
    pub fn mark<E: Event>(&mut self, table: &HandTable<N>) -> u64
        requires { IsEvent N.start self.old E.leaves }
        ensures parts { self.new ≡ E.leaves (result % clock_step) }
        ensures later { self.old.seen ≤ result % clock_step }
        ensures history { KnowsTickets N.start self.old (result % clock_step) }
    {
        a_request_keeps_the_tree();
        table.table.shared.load::<Marks<N, E>>(&mut self.seat, 0)
    }

    /// The tickets and the clock, which the hand has seen then.
    pub fn look(&mut self, table: &HandTable<N>) -> Now
        ensures parts { self.new ≡ looked (word_of result.tickets result.clock) self.old }
        ensures tickets { self.old.seen ≤ result.tickets }
        ensures clock { self.old.clock ≤ result.clock }
    {
        let word = table.table.shared.load::<Looks>(&mut self.seat, 0);
        Now::of_word(word)
    }

    /// The clock goes on by so much, by the hand with the names. Answers what the word was before.
    pub fn tick(&mut self, table: &HandTable<N>, by: u32) -> Now
        requires { MayTick by self.old }
        ensures parts { (names : NamesPart) → self.old.names ≡ (tt, names) ∷ [] → self.new ≡ ticked (word_of result.tickets result.clock) by names self.old }
        ensures clock { (names : NamesPart) → self.old.names ≡ (tt, names) ∷ [] → result.clock ≡ names.clock }
        ensures tickets { self.old.seen ≤ result.tickets }
    {
        let word = table
            .table
            .shared
            .fetch_add::<Ticks>(&mut self.seat, 0, u64::from(by) * CLOCK);
        Now::of_word(word)
    }

    /// The end of the session, by the hand with every part.
    pub fn close(self, table: HandTable<N>) -> Whole
        requires { HoldsAll N.start self }
        ensures { KnowsAll N.start result.tickets result.clock self }
    {
        a_request_keeps_the_tree();
        let Hand { seat, of: _ } = self;
        let HandTable { table, of: _ } = table;
        let closed = table.close_with(seat);
        let word = closed.word(0);
        closed.free();
        Whole {
            tickets: word % CLOCK,
            clock: (word / CLOCK) as u32,
        }
    }
}
