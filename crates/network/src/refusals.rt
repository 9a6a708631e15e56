// Why a call declines: the rule that was broken, by the number that the documents give it, and where.
ghost use Rattle.std.specs.Prelude.{◌≡◌};
ghost use Rattle.network.specs.Checked.{number_of};
ghost use Rattle.network.specs.Calls.{status};

// The rules, each with its number.
#[derive(Clone, Copy, PartialEq, Eq)]
pub enum Rule {
    // A survey's length.
    BadLength = 1,
    // The mark of a record, or of a kind of yard record.
    WrongMark = 2,
    BadStations = 3,
    TooManyLinks = 4,
    BadCeilings = 5,
    BadRanks = 6,
    BadEnds = 7,
    BadCosts = 8,
    // A list buffer below its need, or a tree buffer below t.
    ShortBuffer = 9,
    AllowanceSpent = 10,
    // What was drawn is no tree.
    NoTree = 11,
    // A plan list, or an index beside it, that is damaged.
    DamagedList = 12,
    // A number that is not below the number of plans or trees, or a value that no plan of a list meets.
    NoSuchPlan = 13,
    // No tree fits under the ceilings given.
    NothingFits = 14,
    WrongLinkCount = 15,
    ShortIndex = 16,
    // A survey's output that is too short.
    ShortOutput = 17,
    BadRest = 18,
    TooManyPositions = 19,
    // A number that is not below the number of small surveys.
    NoSuchSurvey = 20,
    // More links than a yard may have whose trees are written out.
    TooManyToEnumerate = 21,
}

impl Rule {
    // The number of the rule.
    pub fn number(self) -> u8
        ensures { result ≡ number_of self }
    {
        self as u8
    }
}

// The rule that was broken, and its place: the link number plus 1 for a link, and 0 for all else.
#[derive(Clone, Copy, PartialEq, Eq)]
pub struct Refusal {
    pub rule: Rule,
    pub place: u8,
}

impl Refusal {
    // A refusal of all else than a link.
    pub fn of(rule: Rule) -> Refusal
        ensures { result ≡ record { rule = rule; place = 0 } }
    {
        Refusal { rule, place: 0 }
    }
}

// The reply for C of a call that only fills a buffer: number 0 and place 0, or those of the refusal.
#[repr(C)]
#[derive(Clone, Copy)]
pub struct Status {
    pub number: u8,
    pub place: u8,
}

impl From<Result<(), Refusal>> for Status {
    ghost from_gives = { λ r s. s ≡ status r };

    fn from(reply: Result<(), Refusal>) -> Status {
        match reply {
            Ok(()) => Status {
                number: 0,
                place: 0,
            },
            Err(refusal) => Status {
                number: refusal.rule.number(),
                place: refusal.place,
            },
        }
    }
}
