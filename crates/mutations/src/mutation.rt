/// Which kinds of mutation are drawn.
#[derive(Clone, Copy, Debug, PartialEq, Eq)]
pub enum Draw {
    /// `Move`, `Template`, `Swap` and `Load`.
    One,
    /// These four, and `Chain`.
    Two,
}

/// One change of a plan. Slots are numbered by their places, from 0.
#[derive(Clone, Copy, Debug, PartialEq, Eq)]
pub enum Mutation {
    /// The slot is taken out, and put back so that it stands at `to`.
    Move { slot: u16, to: u16 },
    /// The slot's operation gets the template with this number.
    Template { slot: u16, number: u8 },
    /// The slot's mark `swap` is turned, where its operation commutes.
    Swap { slot: u16 },
    /// The slot's mark `load_first` is turned.
    Load { slot: u16 },
    /// Where the slot's operation is an `addcarryx`, each operation of its chain of carries gets the template with
    /// this number: 1 is `adcx`, and 2 is `adox`.
    Chain { slot: u16, number: u8 },
}
