//! Which of the lists that were told had something, and which one lacked it last.

/// The last list that had something, and the last one before its run of lists that have it. Lists are known by their places.
/// Nothing is promised of a place: who asks reads what stands there.
#[derive(Clone, Copy)]
pub struct Run {
    had: usize,
    lacked: Option<usize>,
}

impl Run {
    /// The list at the place has it, and the list before, if there was one, lacked it.
    pub fn begin(place: usize, before: Option<usize>) -> Run {
        Run {
            had: place,
            lacked: before,
        }
    }

    /// Whether this is the last list that had it.
    fn ends_with(self, list: Option<usize>) -> bool {
        match list {
            None => false,
            Some(place) => place == self.had,
        }
    }

    /// The list at the place has it too, and `before` is the list before.
    pub fn go_on(self, place: usize, before: Option<usize>) -> Run {
        if self.had == place {
            return self;
        }
        if self.ends_with(before) {
            return Run::begin(place, self.lacked);
        }
        Run::begin(place, before)
    }

    /// The last list that lacked it, where `last` is the last of all.
    pub fn lacked(self, last: Option<usize>) -> Option<usize> {
        if self.ends_with(last) {
            return self.lacked;
        }
        last
    }
}
