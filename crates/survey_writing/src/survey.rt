// The figures of a survey, whose links' figures stand in columns, and those of a link.
ghost use Rattle.std.specs.Prelude.{◌≡◌, ◌<◌, length};
ghost use Rattle.network.specs.Writing.{link_from};
ghost use Rattle.survey_roundtrip.specs.Columns.{Full};
ghost use Rattle.survey_roundtrip.specs.Fields.{Fitting};

use network::YardFigures;

// The figures of a link: its two ends, its sum cost and two ceiling costs.
#[derive(Clone, Copy)]
pub struct LinkFigures {
    pub first: u8,
    pub second: u8,
    pub sum: i32,
    pub c1: i16,
    pub c2: i16,
}

// The figures of a survey: those of its yard, and as columns those of its links, no more than there may be: two ends, a sum cost and two ceiling costs
// for each. Columns, as the C interface hands the figures in.
#[derive(Clone, Copy)]
pub struct SurveyFigures<'a> {
    pub yard: YardFigures,
    pub ends: &'a [u8],
    pub sums: &'a [i32],
    pub costs: &'a [i16],
    pub ghost full: { Full ends.now sums.now costs.now },
}

impl SurveyFigures<'_> {
    ghost use Rattle.survey_writing.specs.Figures.{link_of};

    // The figures of link i.
    pub fn link(self, i: usize) -> LinkFigures
        requires { i < length self.sums.now }
        ensures link { link_of result ≡ link_from 0 self.entry.ends.now self.entry.sums.now self.entry.costs.now i }
        ensures fits { Fitting (link_from 0 self.entry.ends.now self.entry.sums.now self.entry.costs.now i) }
    {
        LinkFigures {
            first: self.ends[2 * i],
            second: self.ends[2 * i + 1],
            sum: self.sums[i],
            c1: self.costs[2 * i],
            c2: self.costs[2 * i + 1],
        }
    }
}
