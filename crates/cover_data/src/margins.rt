// The loosenings, the least width and the version of the format, and what a search is asked for.
ghost use Rattle.std.specs.Prelude.{◌≡◌};
ghost use Rattle.cover_data.specs.Margins.{margins_of, options_in};

/// Numbers of bits: points are shown at 2 to the power of minus `delta_bits`, boxes are pruned at
/// minus `margin_bits`, and no axis of a side of at most minus `least_bits` is cut. The lines are those of a
/// certificate of this version, 2 or 5.
#[derive(Clone, Copy, PartialEq, Eq, Debug)]
pub struct Margins {
    pub delta_bits: u32,
    pub margin_bits: u32,
    pub least_bits: u32,
    pub version: u32,
}

/// What a search is asked for: its margins, how many branches it may make, by how many workers,
/// and the bound of Real constants that have none of their own.
#[derive(Clone, Copy, PartialEq, Eq, Debug)]
pub struct Options {
    pub delta_bits: u32,
    pub margin_bits: u32,
    pub least_bits: u32,
    pub version: u32,
    pub budget: u32,
    pub workers: u32,
    pub bound: Option<u32>,
}

impl Options {
    /// The same in another version.
    pub fn in_version(&self, version: u32) -> Options
        ensures { result ≡ options_in version self.now }
    {
        let mut options = *self;
        options.version = version;
        options
    }

    /// The margins.
    pub fn margins(&self) -> Margins
        ensures { result ≡ margins_of self.now }
    {
        Margins {
            delta_bits: self.delta_bits,
            margin_bits: self.margin_bits,
            least_bits: self.least_bits,
            version: self.version,
        }
    }
}
