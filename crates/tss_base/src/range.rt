// Ranges of addresses.
ghost use Rattle.std.specs.Prelude.{◌≡◌, ◌+◌, ◌↔◌, IsTrue};
ghost use Rattle.tss_base.specs.Range.{meets, contains, Meets};

/// The `len` addresses from `base` on. Its end, `base + len`, may be 2^32 or above.
#[derive(Clone, Copy, Debug, PartialEq, Eq)]
pub struct Range {
    pub base: u32,
    pub len: u32,
}

impl Range {
    /// Whether the two share an address. An empty range meets nothing.
    pub fn meets(&self, other: &Range) -> bool
        ensures exact { result ≡ meets self.now other.now }
        ensures shared { IsTrue result ↔ Meets self.now other.now }
    {
        u64::from(self.base.max(other.base)) < self.end().min(other.end())
    }

    /// Whether `inner` begins at or after this range's base and ends at or before its end, also where it is empty.
    pub fn contains(&self, inner: &Range) -> bool
        ensures exact { result ≡ contains self.now inner.now }
    {
        self.base <= inner.base && inner.end() <= self.end()
    }

    /// The address after the last.
    pub fn end(&self) -> u64
        ensures { result ≡ self.now.base + self.now.len }
    {
        u64::from(self.base) + u64::from(self.len)
    }
}
