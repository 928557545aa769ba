ghost use Rattle.std.specs.Prelude.{◌≡◌};

/// A page that the next block reads and that isn't shown yet.
#[derive(Clone, Copy, Debug, PartialEq, Eq)]
pub struct Need {
    /// The number of the resource.
    pub resource: u32,
    /// The number of the page.
    pub page: u32,
    /// The number of the resource's pages that are shown, at most `page`.
    pub shown: u32,
}

/// A page of one clip that isn't shown yet.
#[derive(Clone, Copy)]
pub(crate) struct Missing {
    pub(crate) page: u32,
    pub(crate) shown: u32,
}

impl Missing {
    /// The same of the clip of a resource.
    pub(crate) fn of_resource(self, resource: u32) -> Need
        ensures { result ≡ record { resource = resource; page = self.page; shown = self.shown } }
    {
        Need {
            resource,
            page: self.page,
            shown: self.shown,
        }
    }
}
