// The reports of the program `dayline`, filed as they are read, and the line that it prints of a station. The input may be of any length:
// it comes in pieces, and of a report no more than 513 bytes are kept, since one beyond 512 is refused whatever it holds.
ghost use Rattle.std.specs.Prelude.{◌≡◌, List, [], ◌∷◌, ℕ};
ghost use Rattle.texts.specs.Written.{Holds};
ghost use Rattle.dayline_day.specs.Filing.{Begun, Filed, Ended, Under, Feeds, marked};
ghost use Rattle.dayline_day.specs.Opening.{OpenedBy};
ghost use Rattle.dayline_day.specs.Printed.{Printed, settled, line_of};
ghost use Rattle.rules.specs.Calls.{day};
ghost use Rattle.rules.specs.Step.{step};

use arrayvec::ArrayVec;
use dayline_text::cut::is_blank;
use dayline_text::first_line::Opening;
use dayline_text::print::day_text;
use refusals::Refusal;
use texts::few::Few;

// A store opened by what the first line said.
pub fn open(store: &mut [u8], opening: &Opening) -> Result<(), Refusal>
    ensures { OpenedBy opening.now store.old result store.new }
{
    engine::open(store, opening.date, &opening.stations, &opening.rows)
}

// The reports as they are read: what is kept of the one under way, whether all of it so far is blank, and the reports refused before it.
// `blank` is a flag, since what is kept is cut at 513 bytes and does not say it.
#[derive(Clone, Copy)]
pub struct Progress {
    pub kept: Few<u8, 513>,
    pub blank: bool,
    pub refused: u64,
}

impl Progress {
    // Nothing is read yet.
    pub fn new() -> Progress
        ensures { Begun result }
    {
        Progress {
            kept: Few::new(),
            blank: true,
            refused: 0,
        }
    }

    // The report that is kept, filed; the next one begins.
    fn finish(&mut self, store: &mut [u8])
        ensures filed { (run : List ℕ) → Holds 513 self.old.kept.items run → Filed run store.old self.old.refused store.new self.new.refused }
        ensures anew { Under [] self.new }
    {
        if engine::file(store, &self.kept, 0).is_err() {
            self.refused = self.refused.saturating_add(1);
        }
        self.kept.clear();
        self.blank = true;
    }

    // One byte of the input, and whether all so far is blank: before it, and with it. That is handed on and not kept, since of a flag in memory
    // each byte waits for the one before.
    fn byte(&mut self, store: &mut [u8], b: u8, blank: bool) -> bool
        ensures { Feeds (b ∷ []) (marked blank self.old) store.old (marked result self.new) store.new }
    {
        let _full = self.kept.try_push(b);
        if b == b'=' {
            self.finish(store);
            return true;
        }
        blank & is_blank(b)
    }

    // A piece of the input: its last report may go on in the next one.
    pub fn feed(&mut self, store: &mut [u8], piece: &[u8])
        ensures { Feeds piece.now self.old store.old self.new store.new }
    {
        let mut blank = self.blank;
        for &b in piece {
            blank = self.byte(store, b, blank);
        }
        self.blank = blank;
    }

    // The end of the input: a blank tail is dropped, any other is a report. How many reports are refused.
    pub fn tail(mut self, store: &mut [u8]) -> u64
        ensures { (run : List ℕ) → Under run self → Ended run store.old self.refused store.new result }
    {
        if !self.blank {
            self.finish(store);
        }
        self.refused
    }
}

// A station is settled, and its line given: none where it has no day line. Each of the two is a call of its own, so that a stack of 32 KiB has room
// for either's columns beside the store.
pub fn station_text(store: &mut [u8], station: u32) -> ArrayVec<u8, 160>
    ensures { Printed station store.old store.new result.items }
{
    settle(store, station);
    line(store, station)
}

// A station is settled; one that is not in the store is left out.
#[inline(never)]
fn settle(store: &mut [u8], station: u32)
    ensures { store.new ≡ settled station store.old }
{
    let _settled = engine::settle(store, station);
}

// The line of a station.
#[inline(never)]
fn line(store: &[u8], station: u32) -> ArrayVec<u8, 160>
    ensures { result.items ≡ line_of station (step (day station) store.now).answer }
{
    match engine::day(store, station) {
        Ok(day) => day_text(station, day),
        Err(_) => ArrayVec::new(),
    }
}
