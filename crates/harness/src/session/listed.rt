// The touches of the writes so far, each at its write's place.
use json_lines::{Events, Membership, Rows, Written};
use sessions::Answers;
use std::alloc::{AllocError, Global};
use tuples::{
    Change, Condition, Freshness, Namespace, Refusal, Tuple, Tupleset, Version, Want, Write,
};

#[derive(Drop)]
pub(crate) struct Listed {
    alloc: Global,
    touches: Vec<Touch>,
    place: u64,
}

#[derive(Drop)]
struct Touch {
    place: u64,
    tuple: Tuple,
}

impl Listed {
    pub(crate) fn new(alloc: Global) -> Listed {
        Listed {
            alloc,
            touches: Vec::new(alloc),
            place: 0,
        }
    }

    // The place of the tuple's last touch.
    fn last(&self, tuple: &Tuple) -> Option<u64> {
        let mut last = None;
        for touch in &self.touches {
            if touch.tuple == *tuple {
                last = Some(touch.place);
            }
        }
        last
    }

    fn is_met(&self, condition: &Condition) -> bool {
        match (condition.want, self.last(&condition.tuple)) {
            (Want::NotAfter(place), Some(last)) => last <= place,
            (Want::NotAfter(_), None) => true,
            (Want::Exists, last) => last.is_some(),
            (Want::Absent, last) => last.is_none(),
        }
    }

    // The place that is answered at.
    fn at(&self, freshness: Freshness) -> u64 {
        match freshness {
            Freshness::Latest => self.place,
            Freshness::AtLeast(place) => self.place.max(place),
            Freshness::Exact(place) => place,
        }
    }

    fn touch(&mut self, place: u64, tuple: &Tuple) -> Result<(), AllocError> {
        self.touches.reserve(1)?;
        let tuple = tuple.clone()?;
        self.touches.push_reserved(Touch { place, tuple });
        Ok(())
    }

    fn touch_all(&mut self, place: u64, changes: &[Change]) -> Result<(), AllocError> {
        for change in changes {
            if let Change::Touch(tuple) = change {
                self.touch(place, tuple)?;
            }
        }
        Ok(())
    }

    // What is asked for is borrowed, since each exit of a function that owns it is proved.
    fn write_lent(&mut self, write: &Write) -> Result<Written, Refusal> {
        for condition in write.conditions() {
            if !self.is_met(condition) {
                return Err(Refusal::Precondition);
            }
        }
        let place = self.place.saturating_add(1);
        // All its touches are there, or none is, if memory is refused.
        let old = self.touches.len();
        if self.touch_all(place, write.changes()).is_err() {
            self.touches.truncate(old);
            return Err(Refusal::NoMemory);
        }
        self.place = place;
        Ok(Written { place })
    }

    // Adds those of the object; none for a tupleset of another kind.
    fn find(&self, set: &Tupleset, found: &mut Vec<Tuple>) -> Result<(), AllocError> {
        let Tupleset::OfObject(object, _) = set else {
            return Ok(());
        };
        for touch in &self.touches {
            if *object == touch.tuple.object {
                found.reserve(1)?;
                found.push_reserved(touch.tuple.clone()?);
            }
        }
        Ok(())
    }

    fn find_all(&self, sets: &[Tupleset], found: &mut Vec<Vec<Tuple>>) -> Result<(), AllocError> {
        for set in sets {
            found.reserve(1)?;
            let mut of_object = Vec::new(self.alloc);
            self.find(set, &mut of_object)?;
            found.push_reserved(of_object);
        }
        Ok(())
    }

    // Adds the events after a place, and gives the place of the last of them.
    fn list(
        &self,
        from: u64,
        limit: u16,
        namespaces: &[Namespace],
        events: &mut Vec<Version>,
    ) -> Result<u64, AllocError> {
        let mut heartbeat = from;
        for touch in &self.touches {
            let is_asked = touch.place > from && namespaces.contains(&touch.tuple.object.namespace);
            if is_asked && events.len() < usize::from(limit) {
                events.reserve(1)?;
                let change = Change::Touch(touch.tuple.clone()?);
                let place = touch.place;
                events.push_reserved(Version { place, change });
                heartbeat = place;
            }
        }
        Ok(heartbeat)
    }
}

impl Answers for Listed {
    ghost store = { 1 };

    ghost gives = { λ a request reply b. Unit {0} };

    fn store_id(&self) -> u64 {
        1
    }

    fn write(&mut self, write: Write) -> Result<Written, Refusal> {
        self.write_lent(&write)
    }

    fn read(&mut self, freshness: Freshness, sets: Vec<Tupleset>) -> Result<Rows, Refusal> {
        let mut found = Vec::new(self.alloc);
        match self.find_all(&sets, &mut found) {
            Ok(()) => Ok(Rows {
                sets: found,
                place: self.at(freshness),
            }),
            Err(error) => Err(error.into()),
        }
    }

    fn check(&mut self, freshness: Freshness, tuple: Tuple) -> Result<Membership, Refusal> {
        Ok(Membership {
            is_member: self.last(&tuple).is_some(),
            place: self.at(freshness),
        })
    }

    fn watch(
        &mut self,
        from: u64,
        limit: u16,
        namespaces: Vec<Namespace>,
    ) -> Result<Events, Refusal> {
        if from > self.place {
            return Err(Refusal::Future);
        }
        let mut events = Vec::new(self.alloc);
        match self.list(from, limit, &namespaces, &mut events) {
            Ok(heartbeat) => Ok(Events { events, heartbeat }),
            Err(error) => Err(error.into()),
        }
    }
}
