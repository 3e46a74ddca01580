//! By what alternatives are chosen.

ghost use Rattle.std.specs.Prelude.{◌≡◌, Some, nat_lt};
ghost use Rattle.group_scope.specs.Choice.{chosen_of};
ghost use Rattle.group_scope.specs.Rank as spec;

/// An alternative of a template, by their numbers.
#[derive(Clone, Copy, Debug, PartialEq, Eq)]
pub struct Chosen {
    pub template: u32,
    pub alternative: u32,
}

/// From where a base group sees a template.
#[derive(Clone, Copy, Debug, PartialEq, Eq)]
pub enum Category {
    /// It is its own, or public in one of its child groups.
    Own,
    /// It is one of a group around it, for the groups within.
    Around,
    /// It is for all groups.
    Everywhere,
}

/// By what an alternative is chosen.
#[derive(Clone, Copy, Debug, PartialEq, Eq)]
pub struct Rank {
    pub category: Category,
    /// In hundredths.
    pub priority: i32,
    pub template: u32,
    pub alternative: u32,
}

impl Category {
    pub fn is_less(self, other: Category) -> bool
        ensures { result ≡ nat_lt (spec.number_of self) (spec.number_of other) }
    {
        self.number() < other.number()
    }

    fn number(self) -> u8
        ensures { result ≡ spec.number_of self }
    {
        match self {
            Category::Own => 1,
            Category::Around => 2,
            Category::Everywhere => 3,
        }
    }
}

impl Rank {
    /// Whether it is better than another: of a less category, or else of a greater priority, or else later in the sheet.
    pub fn is_better(self, other: Rank) -> bool
        ensures { result ≡ spec.is_better self other }
    {
        let (own, others) = (self.category.number(), other.category.number());
        own < others || (own == others && self.is_better_within(other))
    }

    /// The same within one category.
    fn is_better_within(self, other: Rank) -> bool
        ensures { result ≡ spec.is_better_within self other }
    {
        self.priority > other.priority || (self.priority == other.priority && self.is_later(other))
    }

    /// Whether it stands later in the sheet.
    fn is_later(self, other: Rank) -> bool
        ensures { result ≡ spec.is_later self other }
    {
        self.template > other.template
            || (self.template == other.template && self.alternative > other.alternative)
    }

    pub fn chosen(self) -> Chosen
        ensures { result ≡ chosen_of self }
    {
        Chosen {
            template: self.template,
            alternative: self.alternative,
        }
    }
}

/// The better one.
pub fn better_of(best: Option<Rank>, rank: Rank) -> Rank
    ensures { result ≡ spec.better_of best rank }
{
    match best {
        Some(best) if best.is_better(rank) => best,
        _ => rank,
    }
}
