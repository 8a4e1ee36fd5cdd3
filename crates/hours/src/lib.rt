// For each hour of a log the place of a fix, or none: the index, by itself.
#![tactic(auto)]

ghost use Rattle.std.specs.Prelude.{◌≡◌};
ghost use Rattle.hours.specs.Hours.{nowhere, held_for, lacks};

// An array holds structs, and no enums.
#[derive(Clone, Copy)]
pub struct Hour {
    pub first: Option<usize>,
}

// For each hour 0 to 24.
#[derive(Clone, Copy)]
pub struct Index {
    pub hours: [Hour; 25],
}

impl Index {
    // Of no log: no hour has a fix.
    #[tactic(auto, unfolding(crate::specs::Hours::nowhere, crate::specs::Hours::held))]
    pub fn new() -> Index
        ensures { result ≡ nowhere }
    {
        let none = Hour { first: None };
        Index { hours: [none; 25] }
    }

    // The place that it holds for an hour; for one over 24 none.
    pub fn first_in(self, hour: usize) -> Option<usize>
        ensures { result ≡ held_for self hour }
    {
        if hour < 25 {
            return self.hours[hour].first;
        }
        None
    }

    // An hour 0 to 24 for which it holds no place yet.
    pub fn lacks(self, hour: usize) -> bool
        ensures { result ≡ lacks self hour }
    {
        hour <= 24 && self.first_in(hour).is_none()
    }
}
