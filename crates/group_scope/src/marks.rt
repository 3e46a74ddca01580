//! Of which homes and tests there are rows.

ghost use Rattle.std.specs.Prelude.{◌≡◌, ◌<◌, true};
ghost use Rattle.group_scope.specs.Keyed as spec;
ghost use Rattle.group_scope.specs.declared.key.Key.{Key as UnderKey};

use crate::key::{Home, Key, Test};

/// The kinds of homes and of tests that are marked.
#[derive(Clone, Copy, Debug)]
pub struct Marks {
    homes: [bool; 3],
    tests: [bool; 13],
    /// Whether tests are marked of which a text has no number: as long as none is, a name without a number has no row.
    unknown: bool,
}

impl Marks {
    pub fn none() -> Marks {
        Marks {
            homes: [false; 3],
            tests: [false; 13],
            unknown: false,
        }
    }

    /// Whether the kind of a home is marked.
    #[inline(always)]
    pub fn has_home(&self, home: Home) -> bool
        ensures { result ≡ spec.has_home self.now home }
    {
        self.homes[home_kind(home)]
    }

    /// Whether the kind of a test is marked, whatever its texts.
    #[inline(always)]
    pub fn has_kind(&self, test: Test) -> bool
        ensures { result ≡ spec.has_kind self.now test }
    {
        self.tests[test_kind(test)]
    }

    /// Whether tests are marked of which a text has no number.
    #[inline(always)]
    pub fn has_unknown(&self) -> bool
        ensures { result ≡ self.now.unknown }
    {
        self.unknown
    }

    /// Whether the kind of a test is marked, and tests of which a text has no number, if it is one.
    #[inline(always)]
    fn has_test(&self, test: Test) -> bool
        ensures { result ≡ spec.has_test self.now test }
    {
        self.has_kind(test) && (self.unknown || is_known(test))
    }

    /// Whether the kinds of a key's home and of its test are marked.
    #[inline(always)]
    pub fn has(&self, key: Key) -> bool
        ensures { result ≡ spec.has self.now key }
    {
        self.has_home(key.home) && self.has_test(key.test)
    }

    /// Those, and the kinds of a key's home and of its test.
    pub fn with(self, key: Key) -> Marks
        ensures marked { spec.has result key ≡ true }
        ensures kept { (other : UnderKey) → spec.has self other ≡ true → spec.has result other ≡ true }
    {
        let Marks {
            mut homes,
            mut tests,
            unknown,
        } = self;
        homes[home_kind(key.home)] = true;
        tests[test_kind(key.test)] = true;
        Marks {
            homes,
            tests,
            unknown: unknown || !is_known(key.test),
        }
    }
}

#[inline(always)]
fn home_kind(home: Home) -> usize
    ensures value { result ≡ spec.home_kind home }
    ensures bound { result < 3 }
{
    match home {
        Home::Own(_) => 0,
        Home::Within(_) => 1,
        Home::Everywhere => 2,
    }
}

/// Whether all texts of a test have numbers.
#[inline(always)]
fn is_known(test: Test) -> bool
    ensures { result ≡ spec.is_known test }
{
    match test {
        Test::Name(uri, local) => uri.is_some() && local.is_some(),
        Test::Prefix(uri) => uri.is_some(),
        Test::Pi(target) => target.is_some(),
        Test::AttrName(uri, local) => uri.is_some() && local.is_some(),
        Test::AttrPrefix(uri) => uri.is_some(),
        _ => true,
    }
}

#[inline(always)]
fn test_kind(test: Test) -> usize
    ensures value { result ≡ spec.test_kind test }
    ensures bound { result < 13 }
{
    match test {
        Test::Document => 0,
        Test::Name(_, _) => 1,
        Test::Prefix(_) => 2,
        Test::AnyElement => 3,
        Test::AnyNode => 4,
        Test::Chars => 5,
        Test::CData => 6,
        Test::Comment => 7,
        Test::AnyPi => 8,
        Test::Pi(_) => 9,
        Test::AttrName(_, _) => 10,
        Test::AttrPrefix(_) => 11,
        Test::AnyAttr => 12,
    }
}
