/// What a worker tells at the steps of a turn. The calls come in the worker's thread, and the board's lock is held in
/// none of them, so a gate may count them, or wait in them for other workers.
pub trait Gate {
    /// The lane has looked at the board, for the offer of this turn.
    fn began(&self, lane: u8, turn: u32);

    /// The lane is about to make the offer of this turn, and to check its listing.
    fn validating(&self, lane: u8, turn: u32);

    /// The board has answered the lane's offer of this turn.
    fn settled(&self, lane: u8, turn: u32);
}

/// The gate that does nothing.
#[derive(Clone, Copy)]
pub struct FreeGate;

impl Gate for FreeGate {
    fn began(&self, _lane: u8, _turn: u32) {}

    fn validating(&self, _lane: u8, _turn: u32) {}

    fn settled(&self, _lane: u8, _turn: u32) {}
}
