/// What the loss of a register costs, in tenths of a line's cost by the distance of the next use: a fraction.
#[derive(Clone, Copy, Debug)]
pub struct Weight {
    /// The cost.
    pub loss: usize,
    /// The distance, at least 1.
    pub distance: usize,
}

impl Weight {
    /// Whether the fraction is below another one.
    pub fn is_below(self, other: Weight) -> bool {
        self.loss.saturating_mul(other.distance) < other.loss.saturating_mul(self.distance)
    }

    /// The fraction and one.
    pub fn and_one(self) -> Weight {
        Weight {
            loss: self.loss.saturating_add(self.distance),
            distance: self.distance,
        }
    }
}
