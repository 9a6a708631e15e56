// The replies of the judge and of the ceilings question for C: plain numbers in a struct.
ghost use Rattle.std.specs.Prelude.{◌≡◌};
ghost use Rattle.network.specs.Calls.{says};
ghost use Rattle.capi_replies.specs.Replies.{flat_reply};

use network::{Costs, Refusal};

// The costs of a plan with number 0 and place 0, or a refusal with costs 0.
#[repr(C)]
#[derive(Drop)]
pub struct Reply {
    pub number: u8,
    pub place: u8,
    pub sum: i32,
    pub y1: i16,
    pub y2: i16,
    pub y3: i16,
}

impl From<Result<Costs, Refusal>> for Reply {
    ghost from_gives = { λ answer reply. reply ≡ flat_reply (says answer) };

    fn from(answer: Result<Costs, Refusal>) -> Reply {
        match answer {
            Ok(costs) => Reply {
                number: 0,
                place: 0,
                sum: costs.sum,
                y1: costs.y[0],
                y2: costs.y[1],
                y3: costs.y[2],
            },
            Err(refusal) => Reply {
                number: refusal.rule.number(),
                place: refusal.place,
                sum: 0,
                y1: 0,
                y2: 0,
                y3: 0,
            },
        }
    }
}
