ghost use Rattle.std.specs.Prelude.{◌≡◌};

/// A bus that a visit gave, with its feed, until the pass goes on.
#[derive(Drop)]
pub struct Held<'a, T> {
    pub(crate) bus: u32,
    pub(crate) feed: &'a T,
}

impl<'a, T> Held<'a, T> {
    ghost use Rattle.bus_list.specs.PassViews.{bus_of, feed_of_held};

    /// The number of the bus.
    pub fn bus(&self) -> u32
        ensures { result ≡ bus_of self.now }
    {
        self.bus
    }

    /// The feed with which the bus is attached. It isn't copied.
    pub fn feed(&self) -> &'a T
        ensures { result.now ≡ feed_of_held self.now }
    {
        self.feed
    }
}
