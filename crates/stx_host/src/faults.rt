ghost use Rattle.std.specs.Prelude.{◌≡◌};
ghost use Rattle.stx_host.specs.Outside.{Raises, one_more};

/// How often a host failed, up to the last value of u64.
#[derive(Clone, Copy, Debug)]
pub(crate) struct Faults {
    pub(crate) doc: u64,
    pub(crate) main: u64,
    pub(crate) out: u64,
    pub(crate) note: u64,
}

impl Faults {
    pub(crate) const NONE: Faults = Faults {
        doc: 0,
        main: 0,
        out: 0,
        note: 0,
    };
}

/// A count after one more failure.
pub(crate) fn raised(count: u64) -> u64
    ensures raises { Raises count result }
    ensures exact { result ≡ one_more count }
{
    count.saturating_add(1)
}
