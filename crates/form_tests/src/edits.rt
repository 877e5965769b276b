//! A change to one number or one part of a form while it is built.

/// Numbers and parts by the order in which they are built.
#[derive(Drop)]
pub struct Edit {
    changed: Option<(usize, u32)>,
    raised: Option<usize>,
    left_out: Option<usize>,
    doubled: Option<usize>,
    numbers: usize,
    parts: usize,
    same: bool,
}

impl Edit {
    pub fn none() -> Edit {
        Edit {
            changed: None,
            raised: None,
            left_out: None,
            doubled: None,
            numbers: 0,
            parts: 0,
            same: false,
        }
    }

    /// Another number at this place.
    pub fn number(place: usize, to: u32) -> Edit {
        let mut edit = Edit::none();
        edit.changed = Some((place, to));
        edit
    }

    /// One more at this place.
    pub fn raised(place: usize) -> Edit {
        let mut edit = Edit::none();
        edit.raised = Some(place);
        edit
    }

    /// The part at this place left out.
    pub fn without(place: usize) -> Edit {
        let mut edit = Edit::none();
        edit.left_out = Some(place);
        edit
    }

    /// The part at this place twice, if it is a pair.
    pub fn twice(place: usize) -> Edit {
        let mut edit = Edit::none();
        edit.doubled = Some(place);
        edit.same = true;
        edit
    }

    pub fn numbers(&self) -> usize {
        self.numbers
    }

    pub fn parts(&self) -> usize {
        self.parts
    }

    /// Whether the number that was changed was this already, or the part that was to stand twice is no pair.
    pub fn changes_nothing(&self) -> bool {
        self.same
    }

    pub fn of(&mut self, number: u32) -> u32 {
        let here = self.numbers;
        self.numbers = here.saturating_add(1);
        if self.raised == Some(here) {
            return number.wrapping_add(1);
        }
        match self.changed {
            Some((place, to)) if place == here => {
                self.same = to == number;
                to
            }
            _ => number,
        }
    }

    pub fn keeps(&mut self) -> bool {
        let here = self.parts;
        self.parts = here.saturating_add(1);
        self.left_out != Some(here)
    }

    /// Whether the next part is a pair that stands twice.
    pub fn doubles(&mut self) -> bool {
        let doubles = self.doubled == Some(self.parts);
        self.same = self.same && !doubles;
        doubles
    }
}
