// The moments that the events of a tape have.

// The first moment and the last, the earliest and the latest, how often the clock went back, and by how much at most.
#[derive(Clone, Copy)]
pub struct Moments {
    pub first: u64,
    pub last: u64,
    pub low: u64,
    pub high: u64,
    pub backs: u64,
    pub farthest: u64,
}

impl Moments {
    // The moments of a tape's first event.
    pub fn begin(moment: u64) -> Moments {
        Moments {
            first: moment,
            last: moment,
            low: moment,
            high: moment,
            backs: 0,
            farthest: 0,
        }
    }

    // One event more.
    pub fn meet(&mut self, moment: u64) {
        if moment < self.last {
            self.backs = self.backs.wrapping_add(1);
            self.farthest = self.farthest.max(self.last - moment);
        }
        self.low = self.low.min(moment);
        self.high = self.high.max(moment);
        self.last = moment;
    }
}
