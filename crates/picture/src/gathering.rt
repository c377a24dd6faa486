// What a picture is drawn from: the course of the tape's events, and their moments.
use bodies::read_event;
use chart::moments::Moments;
use course::{Course, Point};
use reader::answer_at;
use replay::frames::frame_at;

// The course of the events and their moments, and the place of the next answer.
#[derive(Clone, Copy)]
pub struct Gathered {
    pub course: Course,
    pub moments: Option<Moments>,
    place: usize,
}

impl Gathered {
    // One event more, and the answer to it.
    fn gather(&mut self, body: &[u8], answers: &[u8], point: Point) {
        let place = self.place;
        if let Ok((answer, after)) = answer_at(answers, place) {
            self.course.follow(read_event(body), answer, place, point);
            match &mut self.moments {
                Some(m) => m.meet(point.moment),
                None => self.moments = Some(Moments::begin(point.moment)),
            }
            self.place = after;
        }
    }
}

// What the events from a place up to an end come to.
pub fn gather(tape: &[u8], answers: &[u8], from: usize, end: usize) -> Gathered {
    let mut g = Gathered {
        course: Course::new(),
        moments: None,
        place: 0,
    };
    let mut at = from;
    // No `for`: where the next event begins is known only when this one is read.
    while at < end {
        let Ok((frame, next)) = frame_at(tape, at) else {
            return g;
        };
        let body = &tape[frame.body.start..next];
        let moment = frame.moment;
        g.gather(body, answers, Point { place: at, moment });
        at = next;
    }
    g
}
