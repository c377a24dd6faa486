// The course of a race: what the machine asked for, what became of each, and what is counted on the way.
#![tactic(auto)]

use bodies::Event;
use parts::reading::Reading;
use reader::Answer;

#[derive(Clone, Copy)]
pub enum Sort {
    Query,
    // a query that revalidates a stale answer
    Refresh,
    Attempt,
    // an attempt with the ECH bytes that came for another
    Retry,
}

#[derive(Clone, Copy, PartialEq, Eq)]
pub enum Fate {
    Open,
    Answered,
    Failed,
    Succeeded,
    Cancelled,
}

// An event: its place in the tape, and its moment.
#[derive(Clone, Copy, Default)]
pub struct Point {
    pub place: usize,
    pub moment: u64,
}

// One thing that was asked for: where the answer that asks for it stands among the answers, from when and until when it was open.
#[derive(Clone, Copy)]
pub struct Asked {
    pub id: u64,
    pub sort: Sort,
    pub place: usize,
    pub from: Point,
    pub fate: Fate,
    pub until: Point,
}

impl Asked {
    pub fn is_open(&self) -> bool {
        self.fate == Fate::Open
    }

    // Whether it was open after the event at a place: asked for by then, and not ended by then.
    pub fn was_open(&self, place: usize) -> bool {
        self.from.place <= place && (self.is_open() || place < self.until.place)
    }
}

// In the order asked. No machine asks for more than 64: 16 queries, a refresh for each, and 32 attempts. So no Vec: what is past the room
// would be a fault (rule T.4).
#[derive(Clone, Copy)]
pub struct Table {
    pub count: usize,
    pub list: [Asked; 64],
}

impl Table {
    fn new() -> Table {
        let start = Point::default();
        let none = Asked {
            id: 0,
            sort: Sort::Query,
            place: 0,
            from: start,
            fate: Fate::Open,
            until: start,
        };
        Table {
            count: 0,
            list: [none; 64],
        }
    }

    // One more thing is asked for, by the answer at a place.
    fn open(&mut self, id: u64, sort: Sort, place: usize, now: Point) {
        let n = self.count;
        if n < 64 {
            self.list[n] = Asked {
                id,
                sort,
                place,
                from: now,
                fate: Fate::Open,
                until: now,
            };
            self.count = n + 1;
        }
    }

    // What is open with an id ends.
    fn close(&mut self, id: u64, fate: Fate, now: Point) {
        let count = self.count;
        for a in self.list.iter_mut().take(count) {
            if a.id == id && a.is_open() {
                a.fate = fate;
                a.until = now;
                return;
            }
        }
    }

    // What an accepted input ends.
    fn feed(&mut self, e: Event, now: Point) {
        match e {
            Event::Call => {}
            Event::Holds(_, id, _, _) => self.close(id, Fate::Answered, now),
            Event::Success(id) => self.close(id, Fate::Succeeded, now),
            Event::Fails(_, id, _) | Event::Failure(id) | Event::EchRetry(id, _) => {
                self.close(id, Fate::Failed, now)
            }
        }
    }

    // The attempt that succeeded first, and its place in the table.
    pub fn winner(&self) -> Option<(usize, Asked)> {
        let mut best: Option<(usize, Asked)> = None;
        for (i, a) in self.list.iter().take(self.count).enumerate() {
            let sooner = best.is_none_or(|(_, b)| a.until.place < b.until.place);
            if sooner && a.fate == Fate::Succeeded {
                best = Some((i, *a));
            }
        }
        best
    }
}

#[derive(Clone, Copy, Default)]
pub struct Tally {
    pub queries: u64,
    pub refreshes: u64,
    pub attempts: u64,
    pub retries: u64,
    pub cancels: u64,
    pub refused: u64,
    pub calls: u64,
}

// A call: when it was made, and where its answer stands.
#[derive(Clone, Copy)]
pub struct Called {
    pub at: Point,
    pub place: usize,
}

// The time that passed from a call to the next.
#[derive(Clone, Copy)]
pub struct Gap {
    pub before: Called,
    pub ns: u64,
}

// The latest call, and the longest gap between two.
#[derive(Clone, Copy)]
pub struct Calls {
    pub last: Option<Called>,
    pub longest: Option<Gap>,
}

impl Calls {
    // One call more. Where the clock went back, no time passed.
    fn call(&mut self, place: usize, now: Point) {
        if let Some(before) = self.last {
            let ns = now.moment.saturating_sub(before.at.moment);
            if self.longest.map_or(0, |gap| gap.ns) < ns {
                self.longest = Some(Gap { before, ns });
            }
        }
        self.last = Some(Called { at: now, place });
    }
}

#[derive(Clone, Copy)]
pub struct Course {
    pub table: Table,
    pub tally: Tally,
    pub calls: Calls,
}

impl Course {
    // The course before the first event.
    pub fn new() -> Course {
        Course {
            table: Table::new(),
            tally: Tally::default(),
            calls: Calls {
                last: None,
                longest: None,
            },
        }
    }

    // One event more, and the answer to it, which stands at a place among the answers.
    pub fn follow(&mut self, read: Reading<Event>, answer: Answer, place: usize, now: Point) {
        match answer {
            Answer::Taken(n) => self.input(n, read, now),
            _ => self.call(answer, place, now),
        }
    }

    fn input(&mut self, n: u64, read: Reading<Event>, now: Point) {
        if n != 0 {
            self.tally.refused = more(self.tally.refused);
        } else if let Ok((e, _)) = read {
            self.table.feed(e, now);
        }
    }

    // Every answer is to a call, but for an input's.
    fn call(&mut self, answer: Answer, place: usize, now: Point) {
        self.tally.calls = more(self.tally.calls);
        self.calls.call(place, now);
        match answer {
            Answer::Query(id, _, true, _) => {
                self.tally.queries = more(self.tally.queries);
                self.table.open(id, Sort::Query, place, now);
            }
            Answer::Query(id, _, false, _) => {
                self.tally.refreshes = more(self.tally.refreshes);
                self.table.open(id, Sort::Refresh, place, now);
            }
            Answer::Attempt(id, false, _) => {
                self.tally.attempts = more(self.tally.attempts);
                self.table.open(id, Sort::Attempt, place, now);
            }
            Answer::Attempt(id, true, _) => {
                self.tally.attempts = more(self.tally.attempts);
                self.tally.retries = more(self.tally.retries);
                self.table.open(id, Sort::Retry, place, now);
            }
            Answer::Cancel(id) => {
                self.tally.cancels = more(self.tally.cancels);
                self.table.close(id, Fate::Cancelled, now);
            }
            _ => {}
        }
    }
}

fn more(n: u64) -> u64 {
    n.wrapping_add(1)
}
